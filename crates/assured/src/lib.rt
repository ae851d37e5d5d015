// Demand 3 of the calls and of what `run` prints: its statements are in specs/, their proofs in
// proofs/. No code.
#![tactic(auto)]
