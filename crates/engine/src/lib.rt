// The engine's callable functions. None has a `requires`: what is lent is asked about first, and a refusal returns its number, counts of
// zero, and alters nothing.
#![tactic(auto)]

pub mod asked;
pub mod back;
pub mod day;
pub mod edit;
pub mod fill;
pub mod limit;
pub mod load;
pub mod place;
pub mod store;
pub mod write;
