// Editing a drive: "A good edit makes its value the device's acceptance or weight".
ghost use Rattle.std.specs.Prelude.{◌≡◌, List, ℕ, MatchResult};
ghost use Rattle.definitions.specs.Edit.{change_of};
ghost use Rattle.definitions.specs.Calls.{edit_of};
ghost use Rattle.door.specs.Question.{number_of};
ghost use Rattle.engine.specs.Answers.{edit_answer};
ghost use Rattle.engine.specs.Edits.{refused_edit};
ghost use Rattle.engine.specs.Rows.{EditAsked};

use crate::asked;
use crate::asked::Rows;
use blocks::independent;
use definitions::Change;
use door::question::{Question, ask};
use moves::applies;
use moves::applies::{Mover, Task};
use text::{Shape, Text};

// The number of the first question answered no, or 0, and how many places moved.
#[repr(C)]
#[derive(Clone, Copy)]
pub struct Edited {
    pub number: u32,
    pub moves: u32,
}

// The shape and no Text: the map is written to behind them.
// What questions 14 to 18 find: the shape of the text, the edit and where its device stands, and the rows of the table.
#[derive(Clone, Copy)]
pub struct Asked {
    pub shape: Shape,
    pub change: Option<Change>,
    pub device: usize,
    pub rows: Rows,
}

// Questions 14 to 18 of an edit.
fn questions(map: &[u8], table: &[u16], frame: &[u8]) -> Result<Asked, Question>
    ensures { MatchResult result
        (λ a. EditAsked map.now table.now frame.now a)
        (λ q. (space : List ℕ) → edit_of map.now table.now frame.now space ≡ refused_edit (number_of q) map.now table.now space) }
{
    let text = asked::whole(map)?;
    let rows = asked::rows_in(&text, table)?;
    ask(independent::independent(&text), Question::Independent)?;
    let change = edit_frame::change_of(frame);
    match editing::fitting(&text, change) {
        Some(device) => Ok(Asked {
            shape: text.shape,
            change,
            device,
            rows,
        }),
        None => Err(Question::Fits),
    }
}

// Questions 19 and 20 of such an edit, then all that it writes: how many places moved.
fn edit_device(
    map: &mut [u8],
    a: Asked,
    table: &mut [u16],
    space: &mut [u8],
) -> Result<u32, Question>
    requires { (e : List ℕ) × EditAsked map.old table.old e a }
    ensures { (e : List ℕ) → EditAsked map.old table.old e a
        → MatchResult result
        (λ n. edit_answer (record { number = 0; moves = n }) map.new table.new space.new ≡ edit_of map.old table.old e space.old)
        (λ q. edit_answer (record { number = number_of q; moves = 0 }) map.new table.new space.new ≡ edit_of map.old table.old e space.old) }
{
    let rows = a.rows;
    let text = Text {
        bytes: map,
        shape: a.shape,
    };
    let p = editing::pair_of(&text, a.change);
    let Some(found) = editing::survey_edit(
        &p.plan,
        &p.old,
        &p.new,
        p.rule,
        rows.groups,
        rows.width,
        table,
        a.change,
    ) else {
        return Err(Question::Fresh);
    };
    ask(
        found.moves as usize <= space.len() / 23,
        Question::RoomForMoves,
    )?;
    applies::apply(
        &p.plan,
        &p.old,
        &p.new,
        p.rule,
        Task {
            groups: rows.groups,
            w: rows.width,
            mover: Mover::Edit,
        },
        &found.changed,
        table,
        space,
    );
    editing::put_value(map, a.shape, a.device, a.change, &p.loads);
    Ok(found.moves)
}

// How many places moved, or the first question answered no.
fn try_edit(
    map: &mut [u8],
    table: &mut [u16],
    frame: &[u8],
    space: &mut [u8],
) -> Result<u32, Question>
    ensures { MatchResult result
        (λ n. edit_answer (record { number = 0; moves = n }) map.new table.new space.new ≡ edit_of map.old table.old frame.now space.old)
        (λ q. edit_answer (record { number = number_of q; moves = 0 }) map.new table.new space.new ≡ edit_of map.old table.old frame.now space.old) }
{
    let a = questions(map, table, frame)?;
    edit_device(map, a, table, space)
}

pub fn edit(map: &mut [u8], table: &mut [u16], frame: &[u8], space: &mut [u8]) -> Edited
    ensures { edit_answer result map.new table.new space.new
        ≡ edit_of map.old table.old frame.now space.old }
{
    match try_edit(map, table, frame, space) {
        Ok(moves) => Edited { number: 0, moves },
        Err(q) => Edited {
            number: q.number(),
            moves: 0,
        },
    }
}
