// The library as firmware uses it, over every list of its calls: statements in specs/ over the definitions that the
// contracts of capi name, and their proofs. There is no code here: what is called stands in the crates below.
#![tactic(auto)]
