// Lists of bits in the order sent, and what all layers say by them: definitions in specs, lemmas in proofs, and no code.
#![tactic(auto)]
