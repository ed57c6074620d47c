// Question 7: every bucket and child of a link, and every bucket taken, is present.
ghost use Rattle.std.specs.Prelude.{◌≡◌, true, not, ◌&&◌, ◌||◌, ◌≤◌, ltb, eqb, length};
ghost use Rattle.definitions.specs.Map.{map_of, bucket_item};
ghost use Rattle.definitions.specs.Load.{ranged, present};
ghost use Rattle.laws.specs.Loadable.{LinkRanged};
ghost use Rattle.members.specs.Levels.{looked_up, Levels};

use crate::levels;
use definitions::{Link, Step};
use frames::records::every;
use item::Item;
use text::Text;

// What is present has a level above 0. A step of another kind than 1 takes no bucket.
pub fn present(t: &Text, levels: &[u32]) -> bool
    requires ranged { ranged (map_of t.now) ≡ true }
    requires levels { Levels (map_of t.now) levels.now }
    ensures { result ≡ present (map_of t.now) }
{
    every(
        t,
        |l: Link|
            requires { (length levels.now ≡ 1280) × LinkRanged l }
            ensures { result ≡ ltb 0 (looked_up levels.entry.now (bucket_item l.bucket)) && ltb 0 (looked_up levels.entry.now l.child) }
        {
            0 < levels::bucket_level(levels, l.bucket)
                && 0 < levels::look_up(levels, Item::from(l.child))
        },
    ) && every(
        t,
        |s: Step|
            requires { (length levels.now ≡ 1280) × (s.step ≡ 1 → s.bucket ≤ 255) }
            ensures { result ≡ not (eqb s.step 1) || ltb 0 (looked_up levels.entry.now (bucket_item s.bucket)) }
        { s.step != 1 || 0 < levels::bucket_level(levels, s.bucket) },
    )
}
