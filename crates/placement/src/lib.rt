// Selects and the rule: a group's list and its tries.
#![tactic(auto)]

pub mod progress;
pub mod rule;
pub mod select;
