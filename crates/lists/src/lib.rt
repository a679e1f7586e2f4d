// Laws on lists, Booleans and numbers: see specs/ and proofs/. No code runs here.
#![tactic(auto)]
