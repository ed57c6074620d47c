// Work on a map that load has taken, for the calls above: each function has as its `requires` what their questions answer, so it is no call itself.
#![tactic(auto)]

pub mod day;
pub mod row;
