// What the record's rule of join dependencies comes to in the theory: statements in specs/, proofs in proofs/. Nothing here runs.
#![tactic(auto)]
