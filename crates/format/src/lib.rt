// The format of the file, as definitions and laws alone: no code.
#![tactic(auto)]
