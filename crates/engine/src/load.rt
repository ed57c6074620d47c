// "The engine loads a map": the map is held as the frames that were lent.
ghost use Rattle.std.specs.Prelude.{◌≡◌, [], ◌<◌, length};
ghost use Rattle.definitions.specs.Lists.{over};
ghost use Rattle.definitions.specs.States.{words_of};
ghost use Rattle.definitions.specs.Calls.{sizes_of, load_of};
ghost use Rattle.engine.specs.Answers.{sizes_answer, load_answer};

use crate::asked;
use states::States;

// The number of the first question answered no, or 0, and the map's groups and its width, or zeros.
#[repr(C)]
#[derive(Clone, Copy)]
pub struct Sizes {
    pub number: u32,
    pub groups: u32,
    pub places: u32,
}

// The sizes of a map that loads: its table has so many rows of so many places.
pub fn sizes_of(map: &[u8]) -> Sizes
    ensures { sizes_answer result ≡ sizes_of map.now }
{
    match door::load(map) {
        Ok(text) => {
            let rows = asked::rows_of(&text);
            Sizes {
                number: 0,
                groups: rows.groups,
                places: rows.width as u32,
            }
        }
        Err(q) => Sizes {
            number: q.number(),
            groups: 0,
            places: 0,
        },
    }
}

// No state is stored any more.
fn empty(states: &mut [u32])
    requires { 1 < length states.old }
    ensures { states.new ≡ over (words_of []) states.old }
{
    states[0] = 0;
    states[1] = 0;
}

// Loads a map: puts load's questions, tells its sizes, and empties the states. A refusal leaves them.
pub fn load(frames: &[u8], states: &mut States) -> Sizes
    ensures { load_answer result states.new ≡ load_of frames.now states.old }
{
    let r = sizes_of(frames);
    if r.number == 0 {
        empty(states);
    }
    r
}
