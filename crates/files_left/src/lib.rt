// That what the exported calls leave is read as it is meant, as statements and proofs alone: no code.
#![tactic(auto)]
