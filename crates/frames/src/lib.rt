// Reading the map's text, asking it the first four questions, and writing an edit into it.
#![tactic(auto)]

pub mod digits;
pub mod lines;
pub mod records;
pub mod shape;
pub mod words;
pub mod writing;
