// No function is here: what follows from the definitions, each law once.
#![tactic(auto)]
