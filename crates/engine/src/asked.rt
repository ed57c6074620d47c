// What the calls ask first of what they are lent, and what is known where the answer is yes.
ghost use Rattle.std.specs.Prelude.{◌≡◌, ◌*◌, ◌<◌, ◌≤◌, length, MatchResult};
ghost use Rattle.definitions.specs.Map.{map_of};
ghost use Rattle.definitions.specs.Rule.{width_of};
ghost use Rattle.definitions.specs.Load.{load_number};
ghost use Rattle.door.specs.declared.question.Question.TheVariants.{Whole, Room};
ghost use Rattle.engine.specs.Rows.{RowsOf};

use blocks::widths;
use door::question::{Question, ask};
use frames::records;
use text::Text;

// Question 14 of a map: its text, held with its shape.
pub(crate) fn whole(map: &[u8]) -> Result<Text<'_>, Question>
    ensures { MatchResult result
        (λ text. (load_number map.now ≡ 0) × (text ≡ map.now))
        (λ q. (q ≡ Whole) × (load_number map.now ≡ 0 → ⊥)) }
{
    match door::load(map) {
        Ok(text) => Ok(text),
        Err(_) => Err(Question::Whole),
    }
}

// The rows of a map's table: how many, the places of each, and all places.
#[derive(Clone, Copy)]
pub struct Rows {
    pub groups: u32,
    pub width: usize,
    pub places: usize,
}

pub(crate) fn rows_of(text: &Text) -> Rows
    requires { load_number text.now ≡ 0 }
    ensures { RowsOf (map_of text.now) result }
{
    let groups = records::groups(text.bytes);
    let width = widths::width(text);
    Rows {
        groups,
        width,
        places: groups as usize * width,
    }
}

// Question 16 of a table: the rows that it has room for.
pub(crate) fn rows_in(text: &Text, table: &[u16]) -> Result<Rows, Question>
    requires { load_number text.now ≡ 0 }
    ensures { MatchResult result
        (λ rows. RowsOf (map_of text.now) rows × (rows.places ≤ length table.now))
        (λ q. (q ≡ Room) × (length table.now < (map_of text.now).groups * width_of (map_of text.now))) }
{
    let rows = rows_of(text);
    ask(rows.places <= table.len(), Question::Room)?;
    Ok(rows)
}
