// "A day's group is hash of two (show, day) mod G, both 32-bit."
ghost use Rattle.std.specs.Prelude.{◌≡◌, ◌<◌};
ghost use Rattle.definitions.specs.Map.{map_of};
ghost use Rattle.definitions.specs.Load.{load_number};
ghost use Rattle.definitions.specs.Writing.{day_group};

use frames::records;
use text::Text;

// The group of a show's day by a map that loads: one of the map's groups.
pub fn group_of(text: &Text, show: u32, day: u32) -> u32
    requires { load_number text.now ≡ 0 }
    ensures { (result ≡ day_group (map_of text.now) show day) × (result < (map_of text.now).groups) }
{
    let g = records::groups(text.bytes);
    jenkins::hash2(jenkins::SEED, show, day) % g
}
