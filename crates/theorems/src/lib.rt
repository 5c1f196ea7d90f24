// Theorems on the definitions of document 01: definitions and laws only, in `specs` and `proofs`.
#![tactic(auto)]

pub fn nothing() {}
