// No function is here: the round trip of demand 2, over the contracts of load and write, and demand 3, over those of load, fill and edit.
#![tactic(auto)]
