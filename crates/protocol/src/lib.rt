// Document 01, "Samples", line by line: which of its input program `fill` takes as the map, and the lines that it prints; and the same of program
// `operate`, with what it is asked.
#![tactic(auto)]

pub mod asked;
pub mod input;
pub mod printed;
