// Containment decided, reduction to the fewest rows, and examples: definitions and theorems alone. No code runs here.
#![tactic(auto)]
