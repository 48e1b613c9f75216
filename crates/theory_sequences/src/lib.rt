// Theory only: the accepted sequences of a machine that takes steps, their order, the ordered list of them, and the answer with a budget.
#![tactic(auto)]
