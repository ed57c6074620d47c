// Document 01, "Table, edits, moves": two walks of one place, made at once, and where they first part.
#![tactic(auto)]

pub mod descents;
pub mod move_line;
pub mod partings;
pub mod ranks;

use definitions::Parting;

// What the walks of both runs come to: `Ok` of what is the same in both, or `Err` of where they part.
pub type Together<T> = Result<T, Parting>;
