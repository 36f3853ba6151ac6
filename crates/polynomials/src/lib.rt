// Polynomials over a field: definitions in specs/, lemmas in proofs/. There is no code.
#![tactic(auto)]
