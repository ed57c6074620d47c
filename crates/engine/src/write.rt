// "Writing gives the frames in the order above."
ghost use Rattle.std.specs.Prelude.{◌≡◌, MatchResult};
ghost use Rattle.definitions.specs.Calls.{write_of};
ghost use Rattle.door.specs.Question.{number_of};
ghost use Rattle.engine.specs.Answers.{write_answer};

use crate::asked;
use door::question::{Question, ask};
use frames::writing;

// The number of the first question answered no, or 0, and how many bytes were written.
#[repr(C)]
#[derive(Clone, Copy)]
pub struct Written {
    pub number: u32,
    pub bytes: usize,
}

// How many bytes were written, or the first question answered no.
fn try_write(map: &[u8], space: &mut [u8]) -> Result<usize, Question>
    ensures { MatchResult result
        (λ n. write_answer (record { number = 0; bytes = n }) space.new ≡ write_of map.now space.old)
        (λ q. write_answer (record { number = number_of q; bytes = 0 }) space.new ≡ write_of map.now space.old) }
{
    asked::whole(map)?;
    ask(map.len() <= space.len(), Question::Room)?;
    writing::copy(map, space);
    Ok(map.len())
}

// The map's frames into the lent space.
pub fn write(map: &[u8], space: &mut [u8]) -> Written
    ensures { write_answer result space.new ≡ write_of map.now space.old }
{
    match try_write(map, space) {
        Ok(bytes) => Written { number: 0, bytes },
        Err(q) => Written {
            number: q.number(),
            bytes: 0,
        },
    }
}
