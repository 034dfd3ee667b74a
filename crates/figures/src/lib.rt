// Document 01's figures, proved of the definitions: see specs/ and proofs/. There is no code.

#![tactic(auto)]
