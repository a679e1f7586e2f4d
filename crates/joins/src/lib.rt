// Join dependencies and the chase with both kinds of dependencies: definitions and theorems alone. No code runs here.
#![tactic(auto)]
