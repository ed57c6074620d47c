// Document 01, "Questions at the door" and "Table, edits, moves": an edit's questions 19 and 20, put to the whole table before anything is
// written. And for the ceiling of document 02, change 7, question 19 alone, and the rows that hold a device.
#![tactic(auto)]

pub mod fresh;
pub mod holders;
pub mod looks;
pub mod rows;
pub mod surveys;
