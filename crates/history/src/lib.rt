// No function is here: demand 3, over every list of calls of edit, store and return.
#![tactic(auto)]
