// The width W, and question 12: "W at most 16 a block, 32 in all?"
ghost use Rattle.std.specs.Prelude.{◌≡◌, true, ◌≤◌, length};
ghost use Rattle.definitions.specs.Map.{map_of};
ghost use Rattle.definitions.specs.Rule.{width_of};
ghost use Rattle.definitions.specs.Load.{ranged, slim};
ghost use Rattle.blocks.specs.Actions.{ActionRanged};
ghost use Rattle.blocks.specs.Widths.{grown, emitted, widened, Whole};

use crate::actions;
use definitions::{Action, Step};
use frames::records::Record;
use text::Text;

// The product in the block so far, and the sum over the blocks emitted.
#[derive(Clone, Copy)]
pub struct Tally {
    pub block: u32,
    pub whole: u32,
}

// A product above 16 stands still, so that it never overflows: it would only grow, and its block is too wide as it is.
#[tactic(auto, unfolding(crate::specs::Widths::grown))]
fn grown(p: u32, n: u32) -> u32
    requires { n ≤ 16 }
    ensures { result ≡ grown p n }
{
    if p > 16 {
        return p;
    }
    p * n
}

// What a block of product p adds to the sum. One that is too wide adds 33, so that the sum alone tells that the answer is no.
#[tactic(auto, using(std::proofs::lemmas::Bool::Decides::nat_tests), unfolding(crate::specs::Widths::emitted))]
fn emitted(p: u32) -> u32
    ensures { result ≡ emitted p }
{
    if p <= 16 {
        return p;
    }
    33
}

// One action more. Sixteen actions add 33 each at most, so the sum never overflows.
#[tactic(auto, unfolding(crate::specs::Widths::widened))]
fn widened(w: Tally, a: Action) -> Tally
    requires { (w.whole ≤ 528) × ActionRanged a }
    ensures { result ≡ widened w a }
{
    match a {
        Action::Take(_) => Tally { block: 1, ..w },
        Action::Select(_, n, _) => Tally {
            block: grown(w.block, n),
            ..w
        },
        Action::Emit => Tally {
            whole: w.whole + emitted(w.block),
            ..w
        },
        Action::Idle => w,
    }
}

// W, or more than 32 where the map is not slim.
fn whole(t: &Text) -> u32
    requires ranged { ranged (map_of t.now) ≡ true }
    requires t_len_bound { length (map_of t.now).steps ≤ 16 }
    ensures { Whole (map_of t.now) result }
{
    let mut w = Tally { block: 1, whole: 0 };
    for k in 0..Step::count(t) {
        w = widened(w, actions::action(t, k));
    }
    w.whole
}

pub fn slim(t: &Text) -> bool
    requires ranged { ranged (map_of t.now) ≡ true }
    requires t_len_bound { length (map_of t.now).steps ≤ 16 }
    ensures { result ≡ slim (map_of t.now) }
{
    whole(t) <= 32
}

// W.
pub fn width(t: &Text) -> usize
    requires ranged { ranged (map_of t.now) ≡ true }
    requires t_len_bound { (length (map_of t.now).steps ≤ 16) × (slim (map_of t.now) ≡ true) }
    ensures { (result ≡ width_of (map_of t.now)) × (result ≤ 32) }
{
    whole(t) as usize
}
