// Which columns a set of columns determines: definitions and theorems alone. No code runs here.
#![tactic(auto)]
