// The work of a return between its questions: the arrays before it and after it, and the values put into the text.
#![tactic(auto)]

ghost use Rattle.std.specs.Prelude.{◌≡◌};
ghost use Rattle.definitions.specs.Frames.{frames_in};
ghost use Rattle.definitions.specs.Map.{map_of};
ghost use Rattle.definitions.specs.Load.{load_number};
ghost use Rattle.definitions.specs.Writing.{map_text};
ghost use Rattle.text.specs.Shape.{shape_of};
ghost use Rattle.hierarchy.specs.Tables.{Tabled};
ghost use Rattle.compile.specs.Weighing.{bucket_weight};
ghost use Rattle.editing.specs.Paired.{Paired};
ghost use Rattle.returning.specs.Returning.{Spelt, returned_to};

use compile::steps;
use definitions::Device;
use editing::Pair;
use frames::records::Record;
use states::values;
use text::{Shape, Text};

// The arrays of the map as it is and with the drives of a state, which are spelt from word a on.
pub fn pair_in(text: &Text, states: &[u32], a: usize) -> Pair
    requires { (load_number text.now ≡ 0) × Spelt (map_of text.now) states.now a }
    ensures { Paired (map_of text.now) (returned_to (map_of text.now) states.now a) result }
{
    let before = compile::compile(text, None);
    let n = Device::count(text);
    let after = compile::weigh_state(states, a, n, &before.plan, steps::goes_through(before.rule));
    Pair::new(&before, &after)
}

// Puts the values of a state into the text, and the weights of the buckets.
pub fn put_state(map: &mut [u8], s: Shape, states: &[u32], a: usize, loads: &[u32; 256])
    requires map_value { (load_number map.old ≡ 0) × (s ≡ shape_of (frames_in map.old)) × Spelt (map_of map.old) states.now a }
    requires tabled { Tabled loads.now 256 (bucket_weight (returned_to (map_of map.old) states.now a)) }
    ensures { map.new ≡ map_text (returned_to (map_of map.old) states.now a) }
{
    values::put_values(map, s.devices, states, a);
    edit_frame::put_sums(map, s, loads);
}
