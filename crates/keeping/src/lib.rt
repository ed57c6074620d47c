// No function is here: what holds of named states (document 02, change 8).
#![tactic(auto)]
