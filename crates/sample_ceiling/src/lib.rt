// No function is here: a map where the ceiling of change 7 is reached, evaluated.
#![tactic(auto)]
