// Document 01, "Samples": what each line behind the map does to the map and the table in program `fill`, and what it prints; and the same of
// program `operate`.
#![tactic(auto)]

pub mod edits;
pub mod line;
