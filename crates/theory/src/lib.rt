// The theory of conjunctive queries and functional dependencies: definitions in specs/, theorems in proofs/. Nothing here runs.
#![tactic(auto)]
