// What runs of layers hand out, as theorems about the promises of the three calls: see specs/ and proofs/. There is no code.

#![tactic(auto)]
