// Question 23: what is written of each bucket is the sum of the weights that stand in its children's own frames. Where that holds of every
// bucket, it is the sum over the devices beneath it (specs/Sums).
ghost use Rattle.std.specs.Prelude.{◌≡◌, true, ◌≤◌, eqb, length, get_or};
ghost use Rattle.definitions.specs.Map.{map_of};
ghost use Rattle.definitions.specs.Load.{ranged, rising, present, falling, summed};
ghost use Rattle.members.specs.Sums.{Sums};

use definitions::Bucket;
use frames::records::every;
use text::Text;

pub fn summed(t: &Text, sums: &[u64]) -> bool
    requires ranged { ranged (map_of t.now) ≡ true }
    requires t_value { (rising (map_of t.now) ≡ true) × (present (map_of t.now) ≡ true) × (falling (map_of t.now) ≡ true) }
    requires sums { Sums (map_of t.now) sums.now }
    ensures { result ≡ summed (map_of t.now) }
{
    every(
        t,
        |b: Bucket|
            requires { (b.number ≤ 255) × (length sums.now ≡ 256) }
            ensures { result ≡ eqb b.weight (get_or sums.entry.now b.number 0) }
        { b.weight as u64 == sums[b.number as usize] },
    )
}
