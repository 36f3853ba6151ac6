// Commutative rings: definitions in specs/, lemmas in proofs/. There is no code.
#![tactic(auto)]
