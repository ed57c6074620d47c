// Question 8: no item is a child twice.
ghost use Rattle.std.specs.Prelude.{◌≡◌, true};
ghost use Rattle.definitions.specs.Map.{map_of};
ghost use Rattle.definitions.specs.Load.{ranged, once};

use crate::levels;
use definitions::Link;
use frames::records::Record;
use item::Item;
use text::Text;

// A table of the children seen, so that each link is looked at once.
pub fn once(t: &Text) -> bool
    requires { ranged (map_of t.now) ≡ true }
    ensures { result ≡ once (map_of t.now) }
{
    let mut seen = [false; 1280];
    for k in 0..Link::count(t) {
        let l = Link::read(t, k);
        let i = levels::slot(Item::from(l.child));
        if seen[i] {
            return false;
        }
        seen[i] = true;
    }
    true
}
