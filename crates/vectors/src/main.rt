// Compares the engine with a CRUSH by another hand. The file `cases` of data/ holds maps with edits and other calls and what that CRUSH gave for
// each: the rows as program `fill` prints them, a frame `12` with the tries (8) behind each row of a group below 64, what each call prints, as in
// program `operate`, and the map that is left; or the one refusal of load or fill. Beside each edit of an acceptance stands its ceiling.
#![tactic(auto)]

mod limits;
mod loads;

ghost use Rattle.std.specs.Prelude.{◌≡◌, ◌+◌, ◌*◌, ◌≤◌, length, IfOk};

use frames::digits;
use limits::{Before, Limits};
use protocol::asked::Program;
use report::edits;
use report::edits::Said;
use report::line::Line;
use std::fs::File;
use std::io::Read;
use std::{fs, io};

// More than load takes, so that a case can be too long.
const MAP: usize = 65600;

// What `fill` lends to the table, in places of 16 bits.
const TABLE: usize = 32768;

// Tries are compared for the groups below this.
const TRIED: u32 = 64;

// What came of a case so far: what is left of the bytes wanted, or nothing where they were not met, and the ceilings.
#[derive(Clone, Copy)]
struct Met<'a> {
    left: Option<&'a [u8]>,
    limits: Limits,
}

// How many cases were read, how many of them were wrong, the number of the first of these, and the ceilings.
#[derive(Clone, Copy)]
struct Tally {
    cases: u64,
    wrong: u64,
    first: Option<u64>,
    limits: Limits,
}

// The functions below whose names end in agree or agrees answer the bytes wanted that are left behind their own piece, or nothing where those wanted
// do not begin with it.

fn refusal_agrees<'a>(number: u32, want: &'a [u8]) -> Option<&'a [u8]> {
    let mut line = [0u8; 5];
    protocol::printed::refusal_line(number, &mut line);
    want.strip_prefix(line.as_slice())
}

// What a call prints that prints its refusal only.
fn number_agrees<'a>(number: u32, want: &'a [u8]) -> Option<&'a [u8]> {
    if number == 0 {
        Some(want)
    } else {
        refusal_agrees(number, want)
    }
}

// What is said of a line, of which the rows of the table are not compared. What is said at the front of the space is within it, so `get` finds it.
fn said_agrees<'a>(said: Said, space: &[u8], want: &'a [u8]) -> Option<&'a [u8]> {
    match said {
        Said::Refused(number) => refusal_agrees(number, want),
        Said::Front(n) => want.strip_prefix(space.get(..n)?),
        Said::Rows(_, _) => Some(want),
    }
}

// A frame of tries.
fn tries_agree<'a>(tries: u32, want: &'a [u8]) -> Option<&'a [u8]> {
    let mut field = [0u8; 8];
    digits::put_field(&mut field, tries);
    let kind = want.strip_prefix(b"12".as_slice())?;
    let value = kind.strip_prefix(field.as_slice())?;
    value.strip_prefix(b"\n".as_slice())
}

// A row, by way of line, which has the row line's length.
fn row_agrees<'a>(group: u32, row: &[u16], line: &mut [u8], want: &'a [u8]) -> Option<&'a [u8]>
    requires { (length line.old ≡ 11 + 4 * length row.now) × (length row.now ≤ 32) }
{
    protocol::printed::row_line(group, row, line);
    want.strip_prefix(&*line)
}

// A group's row and tries by placing it alone, by way of row.
fn placed_agrees<'a>(
    map: &[u8],
    group: u32,
    row: &mut [u16],
    line: &mut [u8],
    want: &'a [u8],
) -> Option<&'a [u8]>
    requires { (length line.old ≡ 11 + 4 * length row.old) × (length row.old ≤ 32) }
{
    let placed = engine::place::place(map, group, row);
    let behind = row_agrees(group, row, line, want)?;
    tries_agree(placed.tries, behind)
}

// A group: its row in the table, which is also what placing it alone gives.
fn group_agrees<'a>(
    map: &[u8],
    group: u32,
    row: &[u16],
    space: &mut [u16],
    line: &mut [u8],
    want: &'a [u8],
) -> Option<&'a [u8]>
    requires { (length line.old ≡ 11 + 4 * length row.now) × (length row.now ≤ 32) × (length space.old ≡ length row.now) }
{
    let behind = row_agrees(group, row, line, want)?;
    if group >= TRIED {
        return Some(behind);
    }
    placed_agrees(map, group, space, line, want)
}

// The groups below `groups`, each w places wide.
fn rows_agree<'a>(
    map: &[u8],
    table: &[u16],
    groups: u32,
    w: usize,
    space: &mut [u16],
    line: &mut [u8],
    want: &'a [u8],
) -> Option<&'a [u8]>
    requires { (w ≤ 32) × (groups * w ≤ length table.now) × (length line.old ≡ 11 + 4 * w) × (length space.old ≡ w) }
{
    let mut left = want;
    for g in 0..groups {
        let a = g as usize * w;
        left = group_agrees(map, g, &table[a..a + w], space, line, left)?;
    }
    Some(left)
}

// A filled table. A row's line has 11 bytes, and 4 for each of at most 32 places.
fn table_agrees<'a>(
    map: &[u8],
    table: &[u16],
    groups: u32,
    w: usize,
    want: &'a [u8],
) -> Option<&'a [u8]>
    requires { (w ≤ 32) × (groups * w ≤ length table.now) }
{
    let mut row = [0u16; 32];
    let mut line = [0u8; 139];
    rows_agree(
        map,
        table,
        groups,
        w,
        &mut row[..w],
        &mut line[..11 + 4 * w],
        want,
    )
}

// What a line led to beside what was wanted of it.
fn met_behind<'a>(
    map: &[u8],
    table: &[u16],
    before: Option<Before>,
    said: Said,
    space: &[u8],
    met: Met<'a>,
    case: u64,
) -> Met<'a> {
    let left = match met.left {
        Some(want) => said_agrees(said, space, want),
        None => None,
    };
    Met {
        left,
        limits: limits::after(map, table, before, said, case, met.limits),
    }
}

// What a byte of the calls leads to.
fn take_byte<'a>(
    map: &mut [u8],
    table: &mut [u16],
    states: &mut [u32; 24586],
    line: &mut Line,
    b: u8,
    space: &mut [u8],
    met: Met<'a>,
    case: u64,
) -> Met<'a> {
    if let Some(l) = loads::load_at(line.bytes(), b) {
        line.clear();
        let number = loads::number_of(l, map, states);
        let left = match met.left {
            Some(want) => number_agrees(number, want),
            None => None,
        };
        return Met {
            left,
            limits: met.limits,
        };
    }
    let before = limits::before_byte(map, table, line.bytes(), b);
    let said = edits::on_byte(Program::Operate, map, table, states, line, b, space);
    met_behind(map, table, before, said, space, met, case)
}

// All calls. The end of a last line that is not ended is one too.
fn calls_agree<'a>(
    map: &mut [u8],
    table: &mut [u16],
    states: &mut [u32; 24586],
    given: &[u8],
    first: Met<'a>,
    case: u64,
) -> Met<'a> {
    // what `fill` lends to the moves
    let mut space = [0u8; 65536];
    let mut line = Line::new();
    let mut met = first;
    for b in given {
        met = take_byte(map, table, states, &mut line, *b, &mut space, met, case);
    }
    let before = limits::before_line(map, table, line.bytes());
    let said = edits::on_end(Program::Operate, map, table, states, &line, &mut space);
    met_behind(map, table, before, said, &space, met, case)
}

// The map as it is written.
fn written_agrees<'a>(map: &[u8], want: &'a [u8]) -> Option<&'a [u8]> {
    let mut space = [0u8; MAP];
    let written = engine::write::write(map, &mut space);
    want.strip_prefix(space.get(..written.bytes)?)
}

// Is the table what filling gives?
fn is_fresh(map: &[u8], table: &[u16]) -> bool {
    let mut fresh = [0u16; TABLE];
    engine::fill::fill(map, &mut fresh);
    fresh.as_slice() == table
}

// What is left of a case whose calls were met so far: the map loads, and the table is what filling it gives.
fn left_agrees<'a>(map: &[u8], table: &[u16], want: &'a [u8]) -> Option<&'a [u8]> {
    if engine::load::sizes_of(map).number != 0 || !is_fresh(map, table) {
        return None;
    }
    written_agrees(map, want)
}

// All that the engine answers to a map and its calls; t are the ceilings so far.
fn answers_agree<'a>(
    map: &mut [u8],
    given: &[u8],
    groups: u32,
    w: usize,
    want: &'a [u8],
    case: u64,
    t: Limits,
) -> Met<'a> {
    // words that are no states before a map is loaded
    let mut states = [7u32; 24586];
    let sizes = engine::load::load(map, &mut states);
    if sizes.number != 0 {
        return Met {
            left: refusal_agrees(sizes.number, want),
            limits: t,
        };
    }
    let mut table = [0u16; TABLE];
    let filled = engine::fill::fill(map, &mut table);
    if filled.number != 0 {
        return Met {
            left: refusal_agrees(filled.number, want),
            limits: t,
        };
    }
    let lost = Met {
        left: None,
        limits: t,
    };
    if sizes.groups != groups || sizes.places as usize != w || w > 32 {
        return lost;
    }
    let places = groups as usize * w;
    if places > TABLE || filled.places != places {
        return lost;
    }
    let rows = Met {
        left: table_agrees(map, &table, groups, w, want),
        limits: t,
    };
    let last = calls_agree(map, &mut table, &mut states, given, rows, case);
    let left = match last.left {
        Some(want) => left_agrees(map, &table, want),
        None => None,
    };
    Met {
        left,
        limits: last.limits,
    }
}

// Fills the space as far as the file goes on, and answers how many bytes it got.
fn read_full(file: &mut File, space: &mut [u8]) -> io::Result<usize>
    ensures { IfOk result (λ n. n ≤ length space.new) }
{
    // the place up to which bytes came, by as many as each read brings
    let mut at: usize = 0;
    while at < space.len() {
        let n = file.read(&mut space[at..])?;
        if n == 0 {
            break;
        }
        at += n;
    }
    Ok(at)
}

// Fills the first n bytes of a space from the file, and answers whether there were so many.
fn read_front(file: &mut File, space: &mut [u8], n: usize) -> io::Result<bool>
    requires { n ≤ length space.old }
{
    Ok(read_full(file, &mut space[..n])? == n)
}

// A number of a case's first line, which has five of eight digits, and byte 10.
fn number(head: &[u8; 41], at: usize) -> usize
    requires { at ≤ 32 }
{
    digits::field(head, at, 8) as usize
}

// Reads what follows a case's first line, and answers what came of the case; nothing is met of one that cannot be read.
fn judge<'a>(
    file: &mut File,
    head: &[u8; 41],
    map: &mut [u8],
    given: &mut [u8],
    want: &'a mut [u8],
    case: u64,
    t: Limits,
) -> io::Result<Met<'a>> {
    let m = number(head, 0);
    let e = number(head, 8);
    let n = number(head, 16);
    let groups = digits::field(head, 24, 8);
    let w = number(head, 32);
    let unread = Met {
        left: None,
        limits: t,
    };
    if m > map.len() || e > given.len() || n > want.len() {
        return Ok(unread);
    }
    if !read_front(file, map, m)? || !read_front(file, given, e)? || !read_front(file, want, n)? {
        return Ok(unread);
    }
    Ok(answers_agree(&mut map[..m], &given[..e], groups, w, &want[..n], case, t))
}

// A tally with one case more, of which all of the bytes wanted are to be met.
fn counted(t: Tally, case: u64, met: Met<'_>) -> Tally {
    if let Some([]) = met.left {
        return Tally {
            cases: case,
            wrong: t.wrong,
            first: t.first,
            limits: met.limits,
        };
    }
    Tally {
        cases: case,
        wrong: t.wrong.wrapping_add(1),
        first: t.first.or(Some(case)),
        limits: met.limits,
    }
}

// Reads the next case and counts it; there is none at the file's end.
fn count_case(
    file: &mut File,
    t: Tally,
    map: &mut [u8],
    given: &mut [u8],
    want: &mut [u8],
) -> io::Result<Option<Tally>> {
    let mut head = [0u8; 41];
    if read_full(file, &mut head)? == 0 {
        return Ok(None);
    }
    let case = t.cases.wrapping_add(1);
    let met = judge(file, &head, map, given, want, case, t.limits)?;
    Ok(Some(counted(t, case, met)))
}

// Reads on to the file's end. A proved loop has to end, and nothing says that the file does: the cases are counted up to a number that no file
// comes to.
fn count_cases(
    file: &mut File,
    map: &mut [u8],
    given: &mut [u8],
    want: &mut [u8],
) -> io::Result<Tally> {
    let mut t = Tally {
        cases: 0,
        wrong: 0,
        first: None,
        limits: limits::none(),
    };
    for _ in 0..u64::MAX {
        match count_case(file, t, map, given, want)? {
            Some(next) => t = next,
            None => break,
        }
    }
    Ok(t)
}

fn print_limits(rt: &impl Print, t: Limits) -> io::Result<()> {
    let tightest = t.tightest;
    print!(rt;
        "{} edits of an acceptance, {} above their ceiling; ",
        t.edits, t.above
    )?;
    print!(rt; "{} moves of at most {}; ", t.moves, t.most)?;
    print!(rt; "the tightest: {} of {} ", tightest.moves, tightest.ceiling)?;
    println!(rt; "at width {}, case {}", tightest.width, tightest.case)
}

fn print(rt: &impl Print, t: Tally) -> io::Result<()> {
    print!(rt; "{} cases, {} wrong", t.cases, t.wrong)?;
    if let Some(first) = t.first {
        print!(rt; ", first the one of number {first}")?;
    }
    println!(rt)?;
    print_limits(rt, t.limits)
}

fn main(rt: HostRuntime) -> io::Result<()> {
    let mut cases = fs::open(&rt, "cases")?;
    let mut map = [0u8; MAP];
    // the calls of a case
    let mut given = [0u8; 65536];
    // the longest answer: 16,384 rows of two places
    let mut want = [0u8; 393216];
    print(
        &rt,
        count_cases(&mut cases, &mut map, &mut given, &mut want)?,
    )
}
