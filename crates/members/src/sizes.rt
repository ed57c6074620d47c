// Questions 22 and 10: each bucket has a child, and none has more than 64.
ghost use Rattle.std.specs.Prelude.{◌≡◌, true, ◌≤◌, ltb, leb, length, get_or};
ghost use Rattle.definitions.specs.Map.{map_of};
ghost use Rattle.definitions.specs.Load.{ranged, filled, narrow};
ghost use Rattle.members.specs.Counts.{Counts};

use definitions::Bucket;
use frames::records::every;
use text::Text;

pub fn filled(t: &Text, counts: &[u32]) -> bool
    requires ranged { ranged (map_of t.now) ≡ true }
    requires counts { Counts (map_of t.now) counts.now }
    ensures { result ≡ filled (map_of t.now) }
{
    every(
        t,
        |b: Bucket|
            requires { (b.number ≤ 255) × (length counts.now ≡ 256) }
            ensures { result ≡ ltb 0 (get_or counts.entry.now b.number 0) }
        { 0 < counts[b.number as usize] },
    )
}

pub fn narrow(t: &Text, counts: &[u32]) -> bool
    requires ranged { ranged (map_of t.now) ≡ true }
    requires counts { Counts (map_of t.now) counts.now }
    ensures { result ≡ narrow (map_of t.now) }
{
    every(
        t,
        |b: Bucket|
            requires { (b.number ≤ 255) × (length counts.now ≡ 256) }
            ensures { result ≡ leb (get_or counts.entry.now b.number 0) 64 }
        { counts[b.number as usize] <= 64 },
    )
}
