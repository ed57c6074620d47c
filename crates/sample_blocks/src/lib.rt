// No function is here: a map of two blocks over common drives, of change 5, evaluated.
#![tactic(auto)]
