// Placing a group: "Placing also returns its tries".
ghost use Rattle.std.specs.Prelude.{◌≡◌, MatchResult};
ghost use Rattle.definitions.specs.Calls.{place_of};
ghost use Rattle.door.specs.Question.{number_of};
ghost use Rattle.engine.specs.Answers.{place_answer};

use crate::asked;
use door::question::{Question, ask};
use loaded::row;

// The number of the first question answered no, or 0, how many places were written, and the tries.
#[repr(C)]
#[derive(Clone, Copy)]
pub struct Placing {
    pub number: u32,
    pub places: u32,
    pub tries: u32,
}

// By a number, as crush_place refuses by it too. The other calls make other structs for C of a refusal, each in one place.
// A refusal: its number and counts of zero.
pub fn refused(number: u32) -> Placing
    ensures { result ≡ record { number = number; places = 0; tries = 0 } }
{
    Placing {
        number,
        places: 0,
        tries: 0,
    }
}

// What a placing that is done answers, or the first question answered no.
fn try_place(map: &[u8], group: u32, row: &mut [u16]) -> Result<Placing, Question>
    ensures { MatchResult result
        (λ p. place_answer p row.new ≡ place_of map.now group row.old)
        (λ q. place_answer (record { number = number_of q; places = 0; tries = 0 }) row.new ≡ place_of map.now group row.old) }
{
    let text = asked::whole(map)?;
    let rows = asked::rows_of(&text);
    ask(group < rows.groups, Question::GroupBelow)?;
    ask(rows.width <= row.len(), Question::Room)?;
    let tries = row::place_into(&text, group, &mut row[..rows.width]);
    Ok(Placing {
        number: 0,
        places: rows.width as u32,
        tries,
    })
}

pub fn place(map: &[u8], group: u32, row: &mut [u16]) -> Placing
    ensures { place_answer result row.new ≡ place_of map.now group row.old }
{
    match try_place(map, group, row) {
        Ok(p) => p,
        Err(q) => refused(q.number()),
    }
}
