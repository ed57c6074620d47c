// A map as placing reads it: two flat lists, made once per call. No function is here.
#![tactic(auto)]

use definitions::Step;
use std::marker::Model;

// The plan, which no edit changes: of each bucket, by its number, where its children begin among the children of all, how many they are,
// its type and its kind; the children of all buckets, by item number; the seed.
// Each plan is sound: a draw reads inside it, and a descent ends.
#[derive(Clone, Copy)]
pub struct Plan {
    pub words: [u32; SEED + 1],
}

// A contract sees the plan as its words.
impl Model for Plan {
    ghost use Rattle.std.specs.Prelude.{List, ℕ};
    ghost use Rattle.hierarchy.specs.Arrays.{Sound};

    ghost Value = { List ℕ };

    ghost view = { λ p. p.words };

    ghost invariant = { λ p. Sound p.words };

    ghost inverse = { λ xs. record { words = xs } };
}

// The values, which an edit changes: of each device, by its number, its acceptance; of the children of a straw their weights, and of those of a
// tree what each weighs together with those before it; of each bucket, by its number, what its devices above acceptance 0 weigh together, where
// the rule has a select through.
pub type Values = [u32; LIVE + 256];

// Where their sections begin, the first of each at the front. specs/Arrays has the same numbers.
pub const COUNT: usize = 256;

pub const TYPES: usize = 512;

pub const KINDS: usize = 768;

// The children in the plan, and what the values have of them, begin at one place: a bucket has the same part of both.
pub const CHILDREN: usize = 1024;

// Behind them, the seed in the plan, and the live weights in the values.
pub const SEED: usize = 2304;

pub const LIVE: usize = 2304;

// The kind of a tree, as frame 02 has it.
pub const TREE: u32 = 2;

// The rule: the first `len` steps, in an array, since nothing allocates.
#[derive(Clone, Copy)]
pub struct Rule {
    pub steps: [Step; 16],
    pub len: usize,
}

#[derive(Clone, Copy)]
pub struct Hierarchy {
    pub plan: Plan,
    pub values: Values,
    pub rule: Rule,
}
