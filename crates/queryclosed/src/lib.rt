// What a granted query leaves, as a theorem about its promise: see proofs/. There is no code.

#![tactic(auto)]
