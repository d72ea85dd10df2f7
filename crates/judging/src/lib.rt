// The judge of an image (02 2026-04): sound, or the first fault in the file's order.
#![tactic(auto)]

pub mod doubles;
pub mod fault;
pub mod judge;
pub mod place;
