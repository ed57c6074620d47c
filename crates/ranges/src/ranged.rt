// Question 5: "Each field in range (child below 1,024, or 65,536 to 65,791; unused fields zero)?"
ghost use Rattle.std.specs.Prelude.{◌≡◌};
ghost use Rattle.definitions.specs.Map.{map_of};
ghost use Rattle.definitions.specs.Load.{ranged};

use crate::fields;
use frames::records;
use frames::records::every;
use text::Text;

pub fn ranged(t: &Text) -> bool
    ensures { result ≡ ranged (map_of t.now) }
{
    fields::groups_ranged(records::groups(t.bytes))
        && every(t, fields::device_ranged)
        && every(t, fields::bucket_ranged)
        && every(t, fields::link_ranged)
        && every(t, fields::step_ranged)
}
