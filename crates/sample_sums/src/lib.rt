// No function is here: the weights of buckets, of change 6, evaluated.
#![tactic(auto)]
