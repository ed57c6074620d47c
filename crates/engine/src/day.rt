// "A day's group is hash of two (show, day) mod G, both 32-bit."
ghost use Rattle.std.specs.Prelude.{◌≡◌};
ghost use Rattle.definitions.specs.Calls.{day_of};
ghost use Rattle.engine.specs.Answers.{day_answer};

use crate::asked;

// 14 or 0, and the group.
#[repr(C)]
#[derive(Clone, Copy)]
pub struct Day {
    pub number: u32,
    pub group: u32,
}

pub fn day_group(map: &[u8], show: u32, day: u32) -> Day
    ensures { day_answer result ≡ day_of map.now show day }
{
    match asked::whole(map) {
        Ok(text) => Day {
            number: 0,
            group: loaded::day::group_of(&text, show, day),
        },
        Err(q) => Day {
            number: q.number(),
            group: 0,
        },
    }
}
