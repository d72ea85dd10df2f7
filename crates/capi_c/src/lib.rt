// The box for firmware as C calls it, libcapi.a: each export is capi's function of the same name, with its clauses
// (include/beleduritz.h).
#![tactic(auto)]

pub mod blocks;
pub mod calls;
pub mod judge;
