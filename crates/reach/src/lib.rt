// A file that passes refusals 1 to 7 fits the state's spaces, so that a state reached from its
// fresh one is never refused as 14: statements in specs/, proofs in proofs/.
#![tactic(auto)]
