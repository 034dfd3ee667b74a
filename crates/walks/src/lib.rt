// A loop that counts its turns up to a number, and a number tested for 0: see proofs/. Proofs by hand cited them; the toolchain's checker now makes both steps itself. There is no code here.

#![tactic(auto)]
