// Demand 3: its statement is in specs/, its proof in proofs/, to be read in the order of
// proofs/Lib.antt.
#![tactic(auto)]
