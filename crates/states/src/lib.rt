// The named states, in the words that they are lent in.
#![tactic(auto)]

pub mod values;
pub mod words;

// How many words hold the named states, with room for eight of 1,024 drives each.
pub const WORDS: usize = 24586;

// Those words.
pub type States = [u32; WORDS];
