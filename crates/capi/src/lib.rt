// The box for firmware in C or Rust: the record lies in bytes that the caller lends, and each call of document 01 is
// a function of its own (include/beleduritz.h).
#![tactic(auto)]

pub mod blocks;
pub mod calls;
mod cycle;
pub mod judge;
mod word;
