// Question 9: each child's type is below its bucket's.
ghost use Rattle.std.specs.Prelude.{◌≡◌, true, ltb, length};
ghost use Rattle.definitions.specs.Map.{map_of, bucket_item};
ghost use Rattle.definitions.specs.Load.{ranged, present, falling};
ghost use Rattle.laws.specs.Loadable.{LinkRanged};
ghost use Rattle.members.specs.Levels.{looked_up, Levels};

use crate::levels;
use definitions::Link;
use frames::records::every;
use item::Item;
use text::Text;

// Both items of a link are present, so their types compare as their levels do.
pub fn falling(t: &Text, levels: &[u32]) -> bool
    requires ranged { ranged (map_of t.now) ≡ true }
    requires levels { Levels (map_of t.now) levels.now × (present (map_of t.now) ≡ true) }
    ensures { result ≡ falling (map_of t.now) }
{
    every(
        t,
        |l: Link|
            requires { (length levels.now ≡ 1280) × LinkRanged l }
            ensures { result ≡ ltb (looked_up levels.entry.now l.child) (looked_up levels.entry.now (bucket_item l.bucket)) }
        { levels::look_up(levels, Item::from(l.child)) < levels::bucket_level(levels, l.bucket) },
    )
}
