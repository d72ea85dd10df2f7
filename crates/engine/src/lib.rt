// A data command at work (01 Data commands): it knows its order, the disk met, the FIFO and the picked image, and
// nothing of registers, ports or refusals. What is public: `first::begin`, `step::go_on`, and the questions of `flow`.
// The ticks of a transfer, sector by sector, stand in the crate below.
#![tactic(auto)]

pub mod first;
pub mod flow;
mod format;
mod read_id;
pub mod step;
