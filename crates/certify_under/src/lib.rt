// Two threads of which one can do what the other does: definitions and theorems.
#![tactic(auto)]
