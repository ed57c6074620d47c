// Document 01, "Table, edits, moves", and document 02, change 8: what an edit or a return writes once its questions are
// answered, its moves and the rows that change.
#![tactic(auto)]

pub mod applies;
pub mod row;
