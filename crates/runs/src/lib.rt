// Closed runs, from power-on, that meet each premise of the statements below, and are computed in the check: nothing that
// is proved there is empty. There is no code here.
#![tactic(auto)]
