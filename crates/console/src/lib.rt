// What programs `fill` and `operate` do with the bytes of standard input: reads a map and then lines; prints the row of each group, then what each
// line leads to, as soon as the bytes that ask for it are there. It only moves bytes: what they mean and what is printed is decided in `engine`,
// `protocol` and `report`. At the first read or write that fails it stops. Map, table and states are lent each by itself, as `report` takes them.
#![tactic(auto)]

mod system;

ghost use Rattle.std.specs.Prelude.{◌≡◌, List, ◌++◌, ℕ, ◌+◌, ◌*◌, ◌≤◌, length, take, IfOk, OnOk, OnErr};
ghost use Rattle.std.specs.Io.KnownBytes.{Appends, Consumes};
ghost use Rattle.protocol.specs.Lines.{row_line, refusal_line, row_lines};
ghost use Rattle.report.specs.Edits.{site_of, states_at_start, session, bytes_of};
ghost use Rattle.report.specs.Kept.{Keeps};
ghost use Rattle.report.specs.Reads.{Led, Ended};
ghost use Rattle.report.specs.Says.{shown, Within};
ghost use Rattle.console.specs.declared.Gathered.{Gathered};
ghost use Rattle.console.specs.Gathering.{Gathers};
ghost use Rattle.console.specs.Leaving.{Came, Left};

use protocol::asked::Program;
use protocol::input;
use protocol::input::Spot;
use report::edits;
use report::edits::Said;
use report::line::Line;
use std::io::{Read, Write};
use system::Failure;

// What was read for the map: where the map stands, how many of the bytes are its own, and how many were read.
#[derive(Clone, Copy)]
struct Gathered {
    spot: Spot,
    map: usize,
    read: usize,
}

fn print_refusal<W: Write>(stdout: &mut W, number: u32) -> Result<(), Failure>
    ensures { OnOk result (Appends (W.contents stdout.old) (W.contents stdout.new) (refusal_line number)) }
{
    let mut line = [0u8; 5];
    protocol::printed::refusal_line(number, &mut line);
    system::print(stdout, &line)
}

// Prints a row by way of line, which has the row line's length.
fn print_row<W: Write>(
    stdout: &mut W,
    group: u32,
    row: &[u16],
    line: &mut [u8],
) -> Result<(), Failure>
    requires { (length line.old ≡ 11 + 4 * length row.now) × (length row.now ≤ 32) }
    ensures { OnOk result (Appends (W.contents stdout.old) (W.contents stdout.new) (row_line group row.now)) }
{
    protocol::printed::row_line(group, row, line);
    system::print(stdout, line)
}

// Prints the rows of the groups below `groups`, each w places wide, by way of line.
fn print_by_line<W: Write>(
    stdout: &mut W,
    table: &[u16],
    groups: u32,
    w: usize,
    line: &mut [u8],
) -> Result<(), Failure>
    requires { (w ≤ 32) × (groups * w ≤ length table.now) × (length line.old ≡ 11 + 4 * w) }
    ensures { OnOk result (Appends (W.contents stdout.old) (W.contents stdout.new) (row_lines groups 0 w table.now)) }
{
    for g in 0..groups {
        let a = g as usize * w;
        print_row(stdout, g, &table[a..a + w], line)?;
    }
    Ok(())
}

// The input's space is one byte more than load takes, so that a map that does not fit is refused as too long.
const INPUT: usize = 65537;

// "and 64 KiB to the moves"
const MOVES: usize = 65536;

// Prints the rows of the groups below `groups`, each w places wide. A row's line has 11 bytes, and 4 for each of at most 32 places.
fn print_rows<W: Write>(stdout: &mut W, table: &[u16], groups: u32, w: usize) -> Result<(), Failure>
    requires { (w ≤ 32) × (groups * w ≤ length table.now) }
    ensures { OnOk result (Appends (W.contents stdout.old) (W.contents stdout.new) (row_lines groups 0 w table.now)) }
{
    let mut line = [0u8; 139];
    print_by_line(stdout, table, groups, w, &mut line[..11 + 4 * w])
}

// Loads the map, which empties the states, fills the table and prints it; answers whether lines follow. "A refused load or fill prints that frame
// alone."
fn place_all<W: Write>(
    stdout: &mut W,
    map: &[u8],
    table: &mut [u16],
    states: &mut [u32; 24586],
) -> Result<bool, Failure>
    ensures { states.new ≡ states_at_start map.now states.old }
{
    let sizes = engine::load::load(map, states);
    if sizes.number != 0 {
        print_refusal(stdout, sizes.number)?;
        return Ok(false);
    }
    let filled = engine::fill::fill(map, table);
    if filled.number != 0 {
        print_refusal(stdout, filled.number)?;
        return Ok(false);
    }
    print_rows(stdout, table, sizes.groups, sizes.places as usize)?;
    Ok(true)
}

// One read more for the map. An error leaves what was gathered.
fn gather_some<R: Read>(stdin: &mut R, space: &mut [u8], g: Gathered) -> Result<Gathered, Failure>
    requires { Gathers g space.old }
    ensures ok { IfOk result (λ r. Gathers r space.new × (g.read ≤ r.read)) }
    ensures err { OnErr result (Gathers g space.new) }
{
    let count = system::read_some(stdin, &mut space[g.read..])?;
    let read = g.read + count;
    let part = input::map_part(g.spot, &space[g.read..read]);
    Ok(Gathered {
        spot: part.spot,
        map: g.map + part.count,
        read,
    })
}

// Reads until the map is whole, the input ends or the space is full. An error leaves what was gathered.
fn gather<R: Read>(stdin: &mut R, space: &mut [u8]) -> Result<Gathered, Failure>
    requires { length space.old ≡ 65537 }
    ensures ok { IfOk result (λ r. Gathers r space.new) }
    ensures err { OnErr result ((r : Gathered) × Gathers r space.new) }
{
    let mut g = Gathered {
        spot: Spot::Start,
        map: 0,
        read: 0,
    };
    while g.read < space.len() && !input::is_whole(g.spot) {
        let before = g.read;
        g = gather_some(stdin, space, g)?;
        if g.read == before {
            break;
        }
    }
    Ok(g)
}

// Prints what was said.
fn print_said<W: Write>(
    stdout: &mut W,
    said: Said,
    table: &[u16],
    space: &[u8],
) -> Result<(), Failure>
    requires { Within said table.now space.now }
    ensures { OnOk result (Appends (W.contents stdout.old) (W.contents stdout.new) (shown said table.now space.now)) }
{
    match said {
        Said::Refused(number) => print_refusal(stdout, number),
        Said::Front(n) => system::print(stdout, &space[..n]),
        Said::Rows(groups, width) => print_rows(stdout, table, groups, width),
    }
}

// Takes the bytes read and prints what each line leads to, before the space is used for the next. An error leaves what some of them led to.
fn take_bytes<W: Write>(
    p: Program,
    stdout: &mut W,
    map: &mut [u8],
    table: &mut [u16],
    states: &mut [u32; 24586],
    line: &mut Line,
    read: &[u8],
    space: &mut [u8],
) -> Result<(), Failure>
    ensures led { OnOk result ((xs : List ℕ) → Keeps line.old xs → Led line.new (site_of map.new table.new states.new)
        (bytes_of p space.old (session (site_of map.old table.old states.old) xs) read.now)) }
    ensures err { OnErr result ((xs : List ℕ) → Keeps line.old xs → (n : ℕ) × Came p space.old (session (site_of map.old table.old states.old) xs)
        (take n read.now) (site_of map.new table.new states.new)) }
{
    let mut rest = read;
    while !rest.is_empty() {
        let run = edits::on_bytes(p, map, table, states, line, rest, space);
        print_said(stdout, run.said, table, space)?;
        rest = &rest[run.used..];
    }
    Ok(())
}

// Reads on to the input's end: the bytes bs that lead there are those that were read, of a reader that knows its bytes. Standard input does not, so of
// it no contract can say. An error leaves what some bytes led to. The turns are counted as in `system`.
fn take_input<R: Read, W: Write>(
    p: Program,
    stdin: &mut R,
    stdout: &mut W,
    map: &mut [u8],
    table: &mut [u16],
    states: &mut [u32; 24586],
    line: &mut Line,
    buffer: &mut [u8],
    space: &mut [u8],
) -> Result<(), Failure>
    ensures led { OnOk result ((xs : List ℕ) → Keeps line.old xs → (bs : List ℕ) × Consumes (R.remaining stdin.old) (R.remaining stdin.new) bs
        × Led line.new (site_of map.new table.new states.new) (bytes_of p space.old (session (site_of map.old table.old states.old) xs) bs)) }
    ensures err { OnErr result ((xs : List ℕ) → Keeps line.old xs → (bs : List ℕ)
        × Came p space.old (session (site_of map.old table.old states.old) xs) bs (site_of map.new table.new states.new)) }
{
    for _ in 0..u64::MAX {
        let n = system::read_some(stdin, buffer)?;
        if n == 0 {
            break;
        }
        take_bytes(p, stdout, map, table, states, line, &buffer[..n], space)?;
    }
    Ok(())
}

// "Each later line, an unended last one too". The first n bytes of the buffer are those that were read behind the map; the bytes bs follow them,
// which are read here, and the end of the input. An error leaves what some bytes led to, or those and their end.
fn take_lines<R: Read, W: Write>(
    p: Program,
    stdin: &mut R,
    stdout: &mut W,
    map: &mut [u8],
    table: &mut [u16],
    states: &mut [u32; 24586],
    buffer: &mut [u8],
    n: usize,
    space: &mut [u8],
) -> Result<(), Failure>
    requires { (n ≤ length buffer.old) × (length buffer.old ≡ 65537) × (length space.old ≡ 65536) }
    ensures ended { OnOk result ((bs : List ℕ) × Consumes (R.remaining stdin.old) (R.remaining stdin.new) bs
        × Ended p space.old (site_of map.old table.old states.old) (take n buffer.old ++ bs) (site_of map.new table.new states.new)) }
    ensures err { OnErr result (Left p space.old (site_of map.old table.old states.old) (site_of map.new table.new states.new)) }
{
    let mut line = Line::new();
    take_bytes(
        p,
        stdout,
        map,
        table,
        states,
        &mut line,
        &buffer[..n],
        space,
    )?;
    take_input(
        p, stdin, stdout, map, table, states, &mut line, buffer, space,
    )?;
    let said = edits::on_end(p, map, table, states, &line, space);
    print_said(stdout, said, table, space)
}

// The program between the two.
fn take_all<R: Read, W: Write>(
    p: Program,
    stdin: &mut R,
    stdout: &mut W,
    table: &mut [u16],
) -> Result<(), Failure> {
    let mut space = [0u8; INPUT];
    let g = gather(stdin, &mut space)?;
    let mut states = [0u32; 24586];
    if !place_all(stdout, &space[..g.map], table, &mut states)? {
        return Ok(());
    }
    let mut buffer = [0u8; INPUT];
    let n = g.read - g.map;
    buffer[..n].copy_from_slice(&space[g.map..g.read]);
    let mut moves = [0u8; MOVES];
    take_lines(
        p,
        stdin,
        stdout,
        &mut space[..g.map],
        table,
        &mut states,
        &mut buffer,
        n,
        &mut moves,
    )
}

fn name(p: Program) -> &'static str {
    match p {
        Program::Fill => "fill",
        Program::Operate => "operate",
    }
}

// The program, from the first byte of its input to the end, by the table that it is lent. What ends it early is told on standard error.
pub fn run(p: Program, rt: &HostRuntime, table: &mut [u16]) {
    if let Err(failure) = take_all(p, &mut rt.stdin(), &mut rt.stdout(), table) {
        let _ = eprintln!(rt; "{}: {failure}", name(p));
    }
}
