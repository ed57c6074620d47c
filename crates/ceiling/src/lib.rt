// No function is here: how much an edit of an acceptance moves (document 02, change 7).
#![tactic(auto)]
