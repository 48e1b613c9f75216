// Theory only: merging views, for any number of places.
#![tactic(auto)]
