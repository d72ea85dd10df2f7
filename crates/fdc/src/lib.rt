// The controller: its record and its seven calls (01). The mechanics of a drive, a data command at work, the chip's
// rules and the image file stand in the crates below. An `unfolding` names definitions that its function's clauses stand
// on: with all of them left out (tried) 24 functions did not prove.
#![tactic(auto)]

pub mod answer;
pub mod calls;
pub mod commands;
pub mod data;
pub mod lines;
pub mod ports;
pub mod record;
pub mod reset;
pub mod ticks;
