// The block service's promises over lists of calls (02 2026-01): statements in specs/, proofs in proofs/.
#![tactic(auto)]
