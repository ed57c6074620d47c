// How many children each bucket has, and what these weigh together.
ghost use Rattle.std.specs.Prelude.{◌≡◌, true};
ghost use Rattle.definitions.specs.Map.{map_of};
ghost use Rattle.definitions.specs.Load.{ranged};
ghost use Rattle.members.specs.Weights.{Weights};
ghost use Rattle.members.specs.Counts.{Counts};
ghost use Rattle.members.specs.Sums.{Sums};

use crate::levels;
use definitions::Link;
use frames::records::Record;
use item::Item;
use text::Text;

// By bucket number: 0 too where the map has no such bucket. What is written of a bucket may be any 32 bits, so the sums have 64.
#[derive(Clone, Copy)]
pub struct Totals {
    pub counts: [u32; 256],
    pub sums: [u64; 256],
}

pub fn totals_of(t: &Text, weights: &[u32]) -> Totals
    requires ranged { ranged (map_of t.now) ≡ true }
    requires weights { Weights (map_of t.now) weights.now }
    ensures counts { Counts (map_of t.now) result.counts }
    ensures sums { Sums (map_of t.now) result.sums }
{
    let mut counts = [0u32; 256];
    let mut sums = [0u64; 256];
    for k in 0..t.shape.links {
        let l = Link::read(t, k);
        let b = l.bucket as usize;
        let weight = levels::look_up(weights, Item::from(l.child));
        counts[b] += 1;
        sums[b] += weight as u64;
    }
    Totals { counts, sums }
}
