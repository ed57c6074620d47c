// Storing a state: "Storing under a name replaces what was there."
ghost use Rattle.std.specs.Prelude.{◌≡◌, MatchResult};
ghost use Rattle.definitions.specs.Calls.{store_of};
ghost use Rattle.door.specs.Question.{number_of};
ghost use Rattle.engine.specs.Answers.{store_answer};

use crate::asked;
use definitions::Device;
use door::question::{Question, ask};
use frames::records::Record;
use states::{States, words};

// Stores, or tells the first question answered no: that of the map and of the states, or that of a ninth name.
fn try_store(map: &[u8], states: &mut States, name: u16) -> Result<(), Question>
    ensures { MatchResult result
        (λ _. store_answer 0 states.new ≡ store_of map.now states.old name)
        (λ q. store_answer (number_of q) states.new ≡ store_of map.now states.old name) }
{
    let text = asked::whole(map)?;
    ask(words::states_good(&text, states), Question::Whole)?;
    let name = name as u32;
    let k = words::find(states, Device::count(&text), name);
    ask(k < 8, Question::RoomForName)?;
    words::store(&text, states, k, name);
    Ok(())
}

// The number of the first question answered no, or 0: 14 of the map and of the states, and 25 for a ninth name.
pub fn store(map: &[u8], states: &mut States, name: u16) -> u32
    ensures { store_answer result states.new ≡ store_of map.now states.old name }
{
    match try_store(map, states, name) {
        Ok(()) => 0,
        Err(q) => q.number(),
    }
}
