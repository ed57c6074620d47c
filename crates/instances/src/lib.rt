// No function is here: instances of demand 3 and of change 7, evaluated. Each file has a map of its own.
#![tactic(auto)]
