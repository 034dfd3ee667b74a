// Demand 3's balance, as theorems about the definitions: see specs/ and proofs/. There is no code.

#![tactic(auto)]
