// The accepted sequences of a program in the order of the search, and the answer with a budget: definitions and theorems.
#![tactic(auto)]
