// No function is here: map M of document 01 with its edit, an instance of demand 3.
#![tactic(auto)]
