// Questions 3 and 4: the order of the lines, and how many there are of each kind.
ghost use Rattle.std.specs.Prelude.{◌≡◌, true, List, ◌∷◌, ◌<◌, ◌≤◌, ◌^◌, length, drop};
ghost use Rattle.definitions.specs.Lists.{every, last_of};
ghost use Rattle.definitions.specs.Frames.{Frame, lines_of, frame_of, frames_in};
ghost use Rattle.definitions.specs.Load.{sized, line_formed, formed, sorted, ordered, counted};
ghost use Rattle.text.specs.Lines.{first};
ghost use Rattle.text.specs.Shape.{is, Small, more, shape_of};
ghost use Rattle.text.specs.Ends.{total};

use crate::{digits, lines};
use text::Shape;

// A line's kind, and where the line behind it starts.
#[derive(Clone, Copy)]
pub struct Line {
    pub kind: usize,
    pub next: usize,
}

// The line that starts at at, where all from there on are formed, so that its kind gives its length.
pub fn line_at(t: &[u8], at: usize) -> Line
    requires { (at < length t.now) × (last_of t.now ≡ 10) × (every line_formed (lines_of (drop at t.now)) ≡ true) }
    ensures { (at < result.next) × (result.next ≤ length t.now) × (result.kind ≡ (frame_of (first (drop at t.now))).kind)
        × (frames_in (drop at t.now) ≡ frame_of (first (drop at t.now)) ∷ frames_in (drop result.next t.now))
        × (every line_formed (lines_of (drop result.next t.now)) ≡ true) }
{
    let kind = digits::field(t, at, 2) as usize;
    let next = at + lines::LENGTHS[kind];
    Line { kind, next }
}

// One line more, of kind k.
pub fn count(s: Shape, k: usize) -> Shape
    requires { Small s (2 ^ 63) }
    ensures { result ≡ more s k }
{
    Shape {
        groups: s.groups + usize::from(k == 0),
        devices: s.devices + usize::from(k == 1),
        buckets: s.buckets + usize::from(k == 2),
        links: s.links + usize::from(k == 3),
        steps: s.steps + usize::from(k == 4),
        ends: s.ends + usize::from(k == 5),
    }
}

// How many lines there are of each kind, and whether no kind is below the one before it.
#[derive(Clone, Copy)]
pub struct Outline {
    pub shape: Shape,
    pub sorted: bool,
}

// Both in one walk over the lines. Each kind is counted in its own sum, so the order need not be known for that.
pub fn outline_of(t: &[u8]) -> Outline
    requires { (sized t.now ≡ true) × (formed t.now ≡ true) }
    ensures { (result.shape ≡ shape_of (frames_in t.now)) × (result.sorted ≡ sorted (frames_in t.now)) }
{
    let mut s = Shape {
        groups: 0,
        devices: 0,
        buckets: 0,
        links: 0,
        steps: 0,
        ends: 0,
    };
    let mut sorted = true;
    let mut last: usize = 0;
    let mut at: usize = 0;
    while at < t.len() {
        let l = line_at(t, at);
        s = count(s, l.kind);
        sorted &= last <= l.kind;
        last = l.kind;
        at = l.next;
    }
    Outline { shape: s, sorted }
}

pub fn shape_of(t: &[u8]) -> Shape
    requires { (sized t.now ≡ true) × (formed t.now ≡ true) }
    ensures { result ≡ shape_of (frames_in t.now) }
{
    let o = outline_of(t);
    o.shape
}

// Question 3: "One 00 first, then the 01s, 02s, 03s and 04s in that order (any of these four may be absent), one 05 last?" Asked of the outline of
// whichever frames.
pub fn ordered(o: Outline) -> bool
    ensures { (fs : List Frame) → o.shape ≡ shape_of fs → o.sorted ≡ sorted fs → result ≡ ordered fs }
{
    let s = o.shape;
    o.sorted & (s.groups == 1) & (s.ends == 1)
}

// How many lines there are before the last.
pub fn total(s: Shape) -> usize
    requires { total s ≤ 65536 }
    ensures { result ≡ total s }
{
    s.groups + s.devices + s.buckets + s.links + s.steps
}

// Question 4: "The 05 count true?" The count is the last line's four digits before the byte 10.
pub fn counted(t: &[u8], s: Shape) -> bool
    requires { (sized t.now ≡ true) × (formed t.now ≡ true) × (ordered (frames_in t.now) ≡ true) × (s ≡ shape_of (frames_in t.now)) }
    ensures { result ≡ counted (frames_in t.now) }
{
    let at = t.len() - 5;
    let n = digits::field(t, at, 4) as usize;
    n == total(s)
}
