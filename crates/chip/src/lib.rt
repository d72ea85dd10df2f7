// The controller's rules that need neither its record nor an image (01 Commands, Stepping, FIFO, Next, Refusals).
#![tactic(auto)]

pub mod codes;
pub mod fifo;
pub mod next;
pub mod refusal;
pub mod step;
pub mod table;
