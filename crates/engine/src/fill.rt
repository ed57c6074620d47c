// Filling a table: "Row g of the table holds the W places of group g".
ghost use Rattle.std.specs.Prelude.{◌≡◌, MatchResult};
ghost use Rattle.definitions.specs.Calls.{fill_of};
ghost use Rattle.door.specs.Question.{number_of};
ghost use Rattle.engine.specs.Answers.{fill_answer};

use crate::asked;
use door::question::Question;

// The number of the first question answered no, or 0, and how many places were written.
#[repr(C)]
#[derive(Clone, Copy)]
pub struct Filled {
    pub number: u32,
    pub places: usize,
}

// How many places were written, or the first question answered no.
fn try_fill(map: &[u8], table: &mut [u16]) -> Result<usize, Question>
    ensures { MatchResult result
        (λ n. fill_answer (record { number = 0; places = n }) table.new ≡ fill_of map.now table.old)
        (λ q. fill_answer (record { number = number_of q; places = 0 }) table.new ≡ fill_of map.now table.old) }
{
    let text = asked::whole(map)?;
    let rows = asked::rows_in(&text, table)?;
    let h = compile::compile(&text, None);
    table::fill_rows(&h.plan, &h.values, h.rule, rows.groups, rows.width, table);
    Ok(rows.places)
}

pub fn fill(map: &[u8], table: &mut [u16]) -> Filled
    ensures { fill_answer result table.new ≡ fill_of map.now table.old }
{
    match try_fill(map, table) {
        Ok(places) => Filled { number: 0, places },
        Err(q) => Filled {
            number: q.number(),
            places: 0,
        },
    }
}
