// Document 01, "The straw draw".
#![tactic(auto)]

pub mod draw;
pub mod guard;
pub mod logarithm;
