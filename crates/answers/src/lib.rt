// Demand 1's refusals and empty drives, and demand 2: laws that a reader can hold against the data sheet, over the
// definitions that the calls' contracts cite. There is no code here: what is called stands in the crates below.
#![tactic(auto)]
