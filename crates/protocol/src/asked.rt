// What a line behind the map asks for beside an edit. Program `fill` knows edits alone; program `operate`, an operator's day, also writes the map,
// tells the table, stores states and returns to them.
ghost use Rattle.std.specs.Prelude.{◌≡◌};
ghost use Rattle.protocol.specs.Asked.{named_of, asked_of};

use frames::digits;

#[derive(Clone, Copy)]
pub enum Program {
    Fill,
    Operate,
}

// `2c`, the map as frames; `2d`, the table as rows; `23` and a name, a store; `24` and a name, a return; or nothing that the program knows.
#[derive(Clone, Copy)]
pub enum Asked {
    Frames,
    Rows,
    Store(u16),
    Return(u16),
    Nothing,
}

// A store or a return: six digits, its kind and a name.
#[tactic(auto, using(crate::specs::Forms::by_kind, crate::specs::Forms::stores, crate::specs::Forms::returns_to))]
fn named(line: &[u8]) -> Asked
    ensures { result ≡ named_of line.now }
{
    if line.len() != 6 {
        return Asked::Nothing;
    }
    if !digits::all_digits(line) {
        return Asked::Nothing;
    }
    let kind = digits::field(line, 0, 2);
    let name = digits::field(line, 2, 4) as u16;
    match kind {
        0x23 => Asked::Store(name),
        0x24 => Asked::Return(name),
        _ => Asked::Nothing,
    }
}

// The lines of program `operate`.
#[tactic(auto, using(crate::specs::Forms::bytes_are), unfolding(crate::specs::Asked::asked_of))]
fn operates(line: &[u8]) -> Asked
    ensures { result ≡ asked_of Program.Operate line.now }
{
    if line == b"2c".as_slice() {
        Asked::Frames
    } else if line == b"2d".as_slice() {
        Asked::Rows
    } else {
        named(line)
    }
}

#[tactic(auto, unfolding(crate::specs::Asked::asked_of))]
pub fn asked_of(p: Program, line: &[u8]) -> Asked
    ensures { result ≡ asked_of p line.now }
{
    match p {
        Program::Fill => Asked::Nothing,
        Program::Operate => operates(line),
    }
}
