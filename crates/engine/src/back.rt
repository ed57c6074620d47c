// Returning to a state: "Returning to a name gives every drive the weight and acceptance of the moment of storing, brings the table with it, and
// reports each place that differs, and no other, as a move with cause 04."
ghost use Rattle.std.specs.Prelude.{◌≡◌, List, ℕ, MatchResult};
ghost use Rattle.definitions.specs.Calls.{return_of};
ghost use Rattle.door.specs.Question.{number_of};
ghost use Rattle.engine.specs.Answers.{edit_answer};
ghost use Rattle.engine.specs.Edits.{refused_edit};
ghost use Rattle.engine.specs.Rows.{ReturnAsked};

use crate::asked;
use crate::asked::Rows;
use crate::edit::Edited;
use blocks::independent;
use definitions::Device;
use door::question::{Question, ask};
use frames::records::Record;
use moves::applies;
use moves::applies::{Mover, Task};
use states::{States, words};
use survey::surveys;
use text::{Shape, Text};

// The shape and no Text: the map is written to behind them.
// What questions 14 to 24 find: the shape of the text, the word from which on the drives of the state are spelt, and the rows of the table.
#[derive(Clone, Copy)]
pub struct Asked {
    pub shape: Shape,
    pub drives: usize,
    pub rows: Rows,
}

// Questions 14 to 24 of a return.
fn questions(map: &[u8], table: &[u16], states: &States, name: u16) -> Result<Asked, Question>
    ensures { MatchResult result
        (λ a. ReturnAsked map.now table.now states.now name a)
        (λ q. (space : List ℕ) → return_of map.now table.now states.now name space ≡ refused_edit (number_of q) map.now table.now space) }
{
    let text = asked::whole(map)?;
    ask(words::states_good(&text, states), Question::Whole)?;
    let rows = asked::rows_in(&text, table)?;
    ask(independent::independent(&text), Question::Independent)?;
    let n = Device::count(&text);
    let k = words::find(states, n, name as u32);
    ask(k < states[0] as usize, Question::Named)?;
    Ok(Asked {
        shape: text.shape,
        drives: 3 + k * (1 + 3 * n),
        rows,
    })
}

// Questions 19 and 20 of such a return, then all that it writes: how many places moved.
fn return_state(
    map: &mut [u8],
    a: Asked,
    states: &[u32],
    table: &mut [u16],
    space: &mut [u8],
) -> Result<u32, Question>
    requires { (x : ℕ) × ReturnAsked map.old table.old states.now x a }
    ensures { (x : ℕ) → ReturnAsked map.old table.old states.now x a
        → MatchResult result
        (λ n. edit_answer (record { number = 0; moves = n }) map.new table.new space.new ≡ return_of map.old table.old states.now x space.old)
        (λ q. edit_answer (record { number = number_of q; moves = 0 }) map.new table.new space.new ≡ return_of map.old table.old states.now x space.old) }
{
    let rows = a.rows;
    let text = Text {
        bytes: map,
        shape: a.shape,
    };
    let p = returning::pair_in(&text, states, a.drives);
    let Some(found) = surveys::survey(
        &p.plan,
        &p.old,
        &p.new,
        p.rule,
        rows.groups,
        rows.width,
        table,
    ) else {
        return Err(Question::Fresh);
    };
    ask(
        found.moves as usize <= space.len() / 23,
        Question::RoomForMoves,
    )?;
    applies::apply(
        &p.plan,
        &p.old,
        &p.new,
        p.rule,
        Task {
            groups: rows.groups,
            w: rows.width,
            mover: Mover::Return,
        },
        &found.changed,
        table,
        space,
    );
    returning::put_state(map, a.shape, states, a.drives, &p.loads);
    Ok(found.moves)
}

// How many places moved, or the first question answered no.
fn try_return(
    map: &mut [u8],
    table: &mut [u16],
    states: &States,
    name: u16,
    space: &mut [u8],
) -> Result<u32, Question>
    ensures { MatchResult result
        (λ n. edit_answer (record { number = 0; moves = n }) map.new table.new space.new ≡ return_of map.old table.old states.now name space.old)
        (λ q. edit_answer (record { number = number_of q; moves = 0 }) map.new table.new space.new ≡ return_of map.old table.old states.now name space.old) }
{
    let a = questions(map, table, states, name)?;
    return_state(map, a, states, table, space)
}

pub fn return_to(
    map: &mut [u8],
    table: &mut [u16],
    states: &States,
    name: u16,
    space: &mut [u8],
) -> Edited
    ensures { edit_answer result map.new table.new space.new
        ≡ return_of map.old table.old states.now name space.old }
{
    match try_return(map, table, states, name, space) {
        Ok(moves) => Edited { number: 0, moves },
        Err(q) => Edited {
            number: q.number(),
            moves: 0,
        },
    }
}
