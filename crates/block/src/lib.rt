// A block service above the controller (02 2026-01): it holds the record, turns the motor on, moves the head, issues
// the command, serves the FIFO and answers with the block or the status bytes. It makes the controller's public calls
// and nothing else.
#![tactic(auto)]

pub mod head;
pub mod place;
pub mod ready;
pub mod request;
pub mod serve;
