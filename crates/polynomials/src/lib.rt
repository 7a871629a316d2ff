// Polynomials over the field of two elements as numbers: their products in specs, the laws of those in proofs, and no code.
#![tactic(auto)]
