// The user's three demands, stated in specs/ over the definitions that the calls' contracts cite, and proved in proofs/.
// There is no code here: what is called stands in the crates below.
#![tactic(auto)]
