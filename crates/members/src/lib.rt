// Questions 7 to 10, 22 behind 9, and 23: which items a map has, which are whose children, and what these weigh together.
// What the questions asked before say of the text stands in the clauses: a type for the text behind each of them would be no plainer.
#![tactic(auto)]

pub mod falling;
pub mod levels;
pub mod once;
pub mod present;
pub mod sizes;
pub mod sums;
pub mod totals;
