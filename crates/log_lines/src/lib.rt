// A log of port calls, a line at a time (01 Checked examples): `w offset byte` or `r offset`, numbers hexadecimal.
#![tactic(auto)]

pub mod gather;
pub mod hex;
pub mod line;
pub mod words;
