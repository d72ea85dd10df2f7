// The controller's record in bytes (house): written to bytes that a caller lends, and read back from them.
#![tactic(auto)]

mod bytes;
pub mod cycle;
mod drives;
mod flat;
pub mod places;
pub mod put;
mod rows;
pub mod take;
