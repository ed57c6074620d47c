// The row of one group.
ghost use Rattle.std.specs.Prelude.{◌≡◌, length};
ghost use Rattle.definitions.specs.Map.{map_of};
ghost use Rattle.definitions.specs.Select.{entries_of};
ghost use Rattle.definitions.specs.Rule.{width_of, placed_of};
ghost use Rattle.definitions.specs.Load.{load_number};

use placement::rule;
use text::Text;

// The list of group x into a row of W places.
pub fn place_into(text: &Text, x: u32, row: &mut [u16]) -> u32
    requires { (load_number text.now ≡ 0) × (length row.old ≡ width_of (map_of text.now)) }
    ensures { (row.new ≡ entries_of (placed_of (map_of text.now) x).places) × (result ≡ (placed_of (map_of text.now) x).tries) }
{
    let h = compile::compile(text, None);
    rule::place_row(&h.plan, &h.values, h.rule, x, row)
}
