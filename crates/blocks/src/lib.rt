// The rule of a map's text: what its steps do, and the questions about them.
#![tactic(auto)]

pub mod actions;
pub mod independent;
pub mod standing;
pub mod typed;
pub mod widths;
