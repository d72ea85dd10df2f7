// Lists of calls, what a call may do to any valid record, rule by rule, and what every record reached from power-on keeps
// to: statements in specs/, proved in proofs/. There is no code here: what is called stands in the crates below.
#![tactic(auto)]
