// Document 02, change 7: "Site staff want a ceiling before they lower a drive's acceptance."
ghost use Rattle.std.specs.Prelude.{◌≡◌, true, ◌≤◌, length, MatchResult};
ghost use Rattle.definitions.specs.Map.{map_of};
ghost use Rattle.definitions.specs.Load.{has_device, load_number};
ghost use Rattle.definitions.specs.Calls.{independent, ceiling_of};
ghost use Rattle.door.specs.Question.{number_of};
ghost use Rattle.engine.specs.Answers.{ceiling_answer};
ghost use Rattle.engine.specs.Rows.{RowsOf};

use crate::asked;
use crate::asked::Rows;
use blocks::independent;
use door::question::{Question, ask};
use survey::{fresh, holders};
use text::Text;

// The number of the first question answered no, or 0, how many groups have the device in their list, and how many places an edit of its
// acceptance moves at most.
#[repr(C)]
#[derive(Clone, Copy)]
pub struct Limit {
    pub number: u32,
    pub groups: u32,
    pub moves: u32,
}

// Behind questions 14 to 18, of a device that is present: 19, then the count.
fn of_device(text: &Text, rows: Rows, table: &[u16], device: u32) -> Result<Limit, Question>
    requires map_value { (load_number text.now ≡ 0) × (independent (map_of text.now) ≡ true) }
    requires rows_value { RowsOf (map_of text.now) rows × (rows.places ≤ length table.now) }
    requires device_value { has_device (map_of text.now) device ≡ true }
    ensures { MatchResult result
        (λ a. ceiling_answer a ≡ ceiling_of text.now table.now device)
        (λ q. ceiling_answer (record { number = number_of q; groups = 0; moves = 0 }) ≡ ceiling_of text.now table.now device) }
{
    let h = compile::compile(text, None);
    let is_fresh = fresh::is_fresh(&h.plan, &h.values, h.rule, rows.groups, rows.width, table);
    ask(is_fresh, Question::Fresh)?;
    let k = holders::holders(table, rows.groups, rows.width, device);
    let width = rows.width as u32;
    Ok(Limit {
        number: 0,
        groups: k,
        moves: width * k,
    })
}

// What a ceiling that is told answers, or the first question answered no.
fn try_ceiling(map: &[u8], table: &[u16], device: u32) -> Result<Limit, Question>
    ensures { MatchResult result
        (λ a. ceiling_answer a ≡ ceiling_of map.now table.now device)
        (λ q. ceiling_answer (record { number = number_of q; groups = 0; moves = 0 }) ≡ ceiling_of map.now table.now device) }
{
    let text = asked::whole(map)?;
    let rows = asked::rows_in(&text, table)?;
    ask(independent::independent(&text), Question::Independent)?;
    match edit_frame::find_device(&text, device) {
        Some(_) => of_device(&text, rows, table, device),
        None => Err(Question::Fits),
    }
}

pub fn ceiling(map: &[u8], table: &[u16], device: u32) -> Limit
    ensures { ceiling_answer result ≡ ceiling_of map.now table.now device }
{
    match try_ceiling(map, table, device) {
        Ok(limit) => limit,
        Err(q) => Limit {
            number: q.number(),
            groups: 0,
            moves: 0,
        },
    }
}
