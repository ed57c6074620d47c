// No function is here: the starred samples of document 01.
#![tactic(auto)]
