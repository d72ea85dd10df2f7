// A log that drives the whole box, a line at a time: port calls, DMA cycles, ticks, disk changes, power-on, and values
// that were recorded. With it the counts that end a replay, and which bytes of a file have to be written.
#![tactic(auto)]

pub mod change;
pub mod decimal;
pub mod line;
pub mod tally;
