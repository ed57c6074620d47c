// The lines behind the map: "Each later line, an unended last one too, is one edit." Of program `operate` a line may be another call too.
// Map, table and states are lent each by itself: a struct that held the three `&mut` would have to say in each contract that it keeps each of them.
ghost use Rattle.std.specs.Prelude.{◌≡◌, List, [], ℕ, ◌*◌, ◌<◌, ◌≤◌, ◌≢◌, length, slice_index, take, EachIndex, MatchOption};
ghost use Rattle.definitions.specs.Calls.{edit_of, store_of, return_of, write_of};
ghost use Rattle.report.specs.Edits.{site_of, or_refusal, frames_said, rows_said, is_edit, edited, order_of, line_of, session, byte_of, bytes_of, end_of};
ghost use Rattle.report.specs.Says.{Says, Within};
ghost use Rattle.report.specs.Kept.{Keeps, Answers, Stands};

use crate::line::Line;
use definitions::Change;
use engine::edit::Edited;
use protocol::asked;
use protocol::asked::{Asked, Program};

// What is to be printed: a refusal, so many bytes at the front of the space, or the rows of so many groups of the table, each so wide.
#[derive(Clone, Copy)]
pub enum Said {
    Refused(u32),
    Front(usize),
    Rows(u32, usize),
}

// What is to be printed, and how many of the bytes read led to it.
#[derive(Clone, Copy)]
pub struct Run {
    pub said: Said,
    pub used: usize,
}

fn is_edit(c: Option<Change>) -> bool
    ensures { result ≡ is_edit c }
{
    c.is_some()
}

// What an edit or a return prints: the moves that it has written over the front of the space, or its refusal.
fn tell(e: Edited) -> Said
    ensures { (table space : List ℕ) → (e.number ≡ 0 → e.moves * 23 ≤ length space)
        → Says result table space (or_refusal e.number (take (e.moves * 23) space)) }
{
    if e.number != 0 {
        return Said::Refused(e.number);
    }
    Said::Front(e.moves as usize * 23)
}

// Makes an edit. It leaves the states.
fn make_edit(map: &mut [u8], table: &mut [u16], line: &[u8], space: &mut [u8]) -> Said
    ensures { (states : List ℕ) → Answers result (site_of map.new table.new states) space.new
        (edited states (edit_of map.old table.old line.now space.old)) }
{
    let e = engine::edit::edit(map, table, line, space);
    tell(e)
}

// Returns to the state of a name. It only reads the states.
fn make_return(
    map: &mut [u8],
    table: &mut [u16],
    states: &[u32; 24586],
    name: u16,
    space: &mut [u8],
) -> Said
    ensures { Answers result (site_of map.new table.new states.now) space.new
        (edited states.now (return_of map.old table.old states.now name space.old)) }
{
    let e = engine::back::return_to(map, table, states, name, space);
    tell(e)
}

// Stores a state, which has nothing to print but a refusal.
fn make_store(map: &[u8], states: &mut [u32; 24586], name: u16) -> Said
    ensures { (states.new ≡ (store_of map.now states.old name).states)
        × ((table space : List ℕ) → Says result table space (or_refusal (store_of map.now states.old name).number [])) }
{
    let number = engine::store::store(map, states, name);
    if number != 0 {
        return Said::Refused(number);
    }
    Said::Front(0)
}

// The map as frames, over the front of the space.
fn say_frames(map: &[u8], space: &mut [u8]) -> Said
    ensures { (table : List ℕ) → Says result table space.new (frames_said (write_of map.now space.old)) }
{
    let w = engine::write::write(map, space);
    if w.number != 0 {
        return Said::Refused(w.number);
    }
    Said::Front(w.bytes)
}

// The table as rows, which are printed row by row.
fn say_rows(map: &[u8], table: &[u16]) -> Said
    ensures { (space : List ℕ) → Says result table.now space (rows_said map.now table.now) }
{
    let s = engine::load::sizes_of(map);
    if s.number != 0 {
        return Said::Refused(14);
    }
    let width = s.places as usize;
    if table.len() < s.groups as usize * width {
        return Said::Refused(16);
    }
    Said::Rows(s.groups, width)
}

// Does what a line that is no edit asks for.
fn serve(
    a: Asked,
    map: &mut [u8],
    table: &mut [u16],
    states: &mut [u32; 24586],
    space: &mut [u8],
) -> Said
    ensures { Answers result (site_of map.new table.new states.new) space.new
        (order_of a (site_of map.old table.old states.old) space.old) }
{
    match a {
        Asked::Frames => say_frames(map, space),
        Asked::Rows => say_rows(map, table),
        Asked::Store(name) => make_store(map, states, name),
        Asked::Return(name) => make_return(map, table, states, name, space),
        Asked::Nothing => Said::Refused(18),
    }
}

// A line has ended: makes its edit, or does what else it asks for.
fn answer(
    p: Program,
    map: &mut [u8],
    table: &mut [u16],
    states: &mut [u32; 24586],
    line: &[u8],
    space: &mut [u8],
) -> Said
    ensures { (xs : List ℕ) → Keeps line.now xs → Answers result (site_of map.new table.new states.new) space.new
        (line_of p (site_of map.old table.old states.old) xs space.old) }
{
    if is_edit(edit_frame::change_of(line)) {
        return make_edit(map, table, line, space);
    }
    serve(asked::asked_of(p, line), map, table, states, space)
}

// One byte more of the lines.
pub fn on_byte(
    p: Program,
    map: &mut [u8],
    table: &mut [u16],
    states: &mut [u32; 24586],
    line: &mut Line,
    b: u8,
    space: &mut [u8],
) -> Said
    ensures { Within result table.new space.new × ((xs : List ℕ) → Keeps line.old xs
        → Stands result line.new (site_of map.new table.new states.new) space.new
        (byte_of p (site_of map.old table.old states.old) xs b space.old)) }
{
    if b != 10 {
        line.extend(&[b]);
        return Said::Front(0);
    }
    let said = answer(p, map, table, states, line.bytes(), space);
    line.clear();
    said
}

// Where the first line of these bytes ends.
fn line_end(read: &[u8]) -> Option<usize>
    ensures { MatchOption result (EachIndex read.now (λ k. slice_index read.now k ≢ 10))
        (λ n. (n < length read.now) × ((k : ℕ) → k < n → slice_index read.now k ≢ 10)) }
{
    read.iter().position(|b| *b == 10)
}

// The bytes read, up to the first line that ends: what it prints is in the space or in the table, which the next line needs.
pub fn on_bytes(
    p: Program,
    map: &mut [u8],
    table: &mut [u16],
    states: &mut [u32; 24586],
    line: &mut Line,
    read: &[u8],
    space: &mut [u8],
) -> Run
    requires { 0 < length read.now }
    ensures { Within result.said table.new space.new × (0 < result.used) × (result.used ≤ length read.now)
        × ((xs : List ℕ) → Keeps line.old xs → Stands result.said line.new (site_of map.new table.new states.new) space.new
        (bytes_of p space.old (session (site_of map.old table.old states.old) xs) (take result.used read.now))) }
{
    match line_end(read) {
        None => {
            line.extend(read);
            Run {
                said: Said::Front(0),
                used: read.len(),
            }
        }
        Some(n) => {
            line.extend(&read[..n]);
            let said = on_byte(p, map, table, states, line, read[n], space);
            Run { said, used: n + 1 }
        }
    }
}

// The end of the lines.
pub fn on_end(
    p: Program,
    map: &mut [u8],
    table: &mut [u16],
    states: &mut [u32; 24586],
    line: &Line,
    space: &mut [u8],
) -> Said
    ensures { Within result table.new space.new × ((xs : List ℕ) → Keeps line.now xs
        → Answers result (site_of map.new table.new states.new) space.new
        (end_of p (site_of map.old table.old states.old) xs space.old)) }
{
    let bytes = line.bytes();
    if bytes.is_empty() {
        return Said::Front(0);
    }
    answer(p, map, table, states, bytes, space)
}
