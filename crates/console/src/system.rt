// Reading and writing. A call that was interrupted or found the system not ready is tried again. A proved loop has to end, and nothing says that
// these do: their turns are counted up to a number that no run comes to.
ghost use Rattle.std.specs.Prelude.{◌≡◌, ℕ, ◌<◌, ◌≤◌, length, take, IfOk, OnOk, OnErr};
ghost use Rattle.std.specs.Io.KnownBytes.{Appends, Consumes, IsAtEnd, Keeps};

use std::io::{ErrorKind, Read, Write};
use std::{fmt, io, str, thread};

// What ends a program before its input does: a read or a write that failed, or an output that takes nothing.
#[derive(Debug, Drop)]
pub enum Failure {
    Read(io::Error),
    Write(io::Error),
    TakesNothing,
}

impl fmt::Display for Failure {
    fn fmt<W: fmt::Write>(&self, f: &mut fmt::Formatter<W>) -> fmt::Result {
        match self {
            Failure::Read(e) => write!(f, "cannot read standard input: {}", Reason(e)),
            Failure::Write(e) => write!(f, "cannot write standard output: {}", Reason(e)),
            Failure::TakesNothing => write!(f, "standard output takes nothing"),
        }
    }
}

// The system's words for an error, which std follows by its number.
#[derive(Drop)]
struct Reason<'a>(&'a io::Error);

impl fmt::Display for Reason<'_> {
    fn fmt<W: fmt::Write>(&self, f: &mut fmt::Formatter<W>) -> fmt::Result {
        let mut space = [0u8; 256];
        let mut room: &mut [u8] = &mut space;
        let _ = write!(room, "{}", self.0);
        let left = room.len();
        let text = str::from_utf8(&space[..space.len().saturating_sub(left)]).unwrap_or("");
        f.write_str(
            text.split_once(" (os error ")
                .map_or(text, |(words, _)| words),
        )
    }
}

// Whether a call that failed is to be tried again.
fn is_passing(error: &io::Error) -> bool {
    match error.kind() {
        ErrorKind::Interrupted => true,
        ErrorKind::WouldBlock => {
            thread::yield_now();
            true
        }
        _ => false,
    }
}

// A call that was tried as often as can be counted.
fn gave_up() -> io::Error {
    io::Error::from(ErrorKind::TimedOut)
}

// One read of what is there; it brings no byte at the end of the input.
pub fn read_some<R: Read>(stdin: &mut R, buffer: &mut [u8]) -> Result<usize, Failure>
    ensures within { IfOk result (λ n. n ≤ length buffer.new) }
    ensures bytes { IfOk result (λ n. Consumes (R.remaining stdin.old) (R.remaining stdin.new) (take n buffer.new)) }
    ensures end { IfOk result (λ n. n ≡ 0 → 0 < length buffer.new → IsAtEnd (R.remaining stdin.new)) }
    ensures err { OnErr result (Keeps (R.remaining stdin.old) (R.remaining stdin.new)) }
{
    for _ in 0..u64::MAX {
        match stdin.read(buffer) {
            Ok(n) => return Ok(n),
            Err(e) => {
                if !is_passing(&e) {
                    return Err(Failure::Read(e));
                }
            }
        }
    }
    Err(Failure::Read(gave_up()))
}

// One write; how many of the bytes it took.
fn write_some<W: Write>(stdout: &mut W, bytes: &[u8]) -> Result<usize, Failure>
    ensures within { IfOk result (λ n. n ≤ length bytes.now) }
    ensures bytes { IfOk result (λ n. Appends (W.contents stdout.old) (W.contents stdout.new) (take n bytes.now)) }
    ensures err { OnErr result (Keeps (W.contents stdout.old) (W.contents stdout.new)) }
{
    for _ in 0..u64::MAX {
        match stdout.write(bytes) {
            Ok(n) => return Ok(n),
            Err(e) => {
                if !is_passing(&e) {
                    return Err(Failure::Write(e));
                }
            }
        }
    }
    Err(Failure::Write(gave_up()))
}

// Writes all of the bytes. An error leaves the first n of them written.
pub fn print<W: Write>(stdout: &mut W, bytes: &[u8]) -> Result<(), Failure>
    ensures ok { OnOk result (Appends (W.contents stdout.old) (W.contents stdout.new) bytes.now) }
    ensures err { OnErr result ((n : ℕ) × Appends (W.contents stdout.old) (W.contents stdout.new) (take n bytes.now)) }
{
    let mut rest = bytes;
    while !rest.is_empty() {
        let n = write_some(stdout, rest)?;
        if n == 0 {
            return Err(Failure::TakesNothing);
        }
        rest = &rest[n..];
    }
    Ok(())
}
