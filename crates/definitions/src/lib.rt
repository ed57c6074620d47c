// The structs and enums that the definitions share with code and contracts. No function is here.
#![tactic(auto)]

// ---- the map's frames

// Frame 01.
#[derive(Clone, Copy, PartialEq, Eq, Debug)]
pub struct Device {
    pub number: u32,
    pub weight: u32,
    pub acceptance: u32,
}

// Frame 02: a bucket's number, its type, its kind (1 straw, 2 tree) and the weight written there.
#[derive(Clone, Copy, PartialEq, Eq, Debug)]
pub struct Bucket {
    pub number: u32,
    pub ty: u32,
    pub kind: u32,
    pub weight: u32,
}

// The kinds of bucket.
#[derive(Clone, Copy, PartialEq, Eq, Debug)]
pub enum Kind {
    Straw,
    Tree,
}

// Frame 03: a bucket and one of its children, by item number.
#[derive(Clone, Copy, PartialEq, Eq, Debug)]
pub struct Link {
    pub bucket: u32,
    pub child: u32,
}

// Frame 04: a step of the rule, with its count, type and bucket.
#[derive(Clone, Copy, PartialEq, Eq, Debug)]
pub struct Step {
    pub step: u32,
    pub count: u32,
    pub ty: u32,
    pub bucket: u32,
}

// The three ways to select. Through: independent, and a device beneath each item is put out.
#[derive(Clone, Copy, PartialEq, Eq, Debug)]
pub enum Mode {
    FirstN,
    Independent,
    Through,
}

// What a step of the rule does: take a bucket; select a count of items of a type; emit. Idle is what no loaded map has.
#[derive(Clone, Copy, PartialEq, Eq, Debug)]
pub enum Action {
    Take(u32),
    Select(Mode, u32, u32),
    Emit,
    Idle,
}

// ---- hash

// The three numbers that `mix` changes.
#[derive(Clone, Copy, PartialEq, Eq, Debug)]
pub struct Mix {
    pub a: u32,
    pub b: u32,
    pub c: u32,
}

// A shift, left or right, and by how many places.
#[derive(Clone, Copy, PartialEq, Eq, Debug)]
pub enum Shift {
    Left(u32),
    Right(u32),
}

// ---- the straw draw

// m, at 31 binary places, and the digits found so far.
#[derive(Clone, Copy, PartialEq, Eq, Debug)]
pub struct Digits {
    pub m: u64,
    pub d: u64,
}

// ---- walk, select and rule

// "A test ends held, not accepted or passed."
#[derive(Clone, Copy, PartialEq, Eq, Debug)]
pub enum Verdict {
    Held,
    Rejected,
    Passed,
}

// A draw (at a bucket, with a try number r') with its end, or a test (of an item) with its end.
#[derive(Clone, Copy, PartialEq, Eq, Debug)]
pub enum Event {
    Drew(u32, u32, Option<u32>),
    Tested(u32, Verdict),
}

// Where a descent comes to: the bucket of its last draw, and that draw's end.
#[derive(Clone, Copy, PartialEq, Eq, Debug)]
pub struct Landed {
    pub bucket: u32,
    pub drawn: Option<u32>,
}

// A rank between two turns: the bucket of the next draw, f_r, f, and the tries made in inner walks so far.
#[derive(Clone, Copy, PartialEq, Eq, Debug)]
pub struct State {
    pub at: u32,
    pub fr: u32,
    pub f: u32,
    pub inner: u32,
}

// What the test of an item comes to: its end, the entry that a pass puts out, and the tries made within it.
#[derive(Clone, Copy, PartialEq, Eq, Debug)]
pub struct Tried {
    pub verdict: Verdict,
    pub entry: u32,
    pub inner: u32,
}

// What a turn of a rank leads to: the place is filled (the item held, the entry put out, the tries made within its test), or the rank goes
// on after one more failure.
#[derive(Clone, Copy, PartialEq, Eq, Debug)]
pub enum Turn {
    Fill(u32, u32, u32),
    Fail(State),
}

// What a rank ends in: the item that it holds and its entry (65535 for none), f_r, f, and the tries made in inner walks.
#[derive(Clone, Copy, PartialEq, Eq, Debug)]
pub struct Ranked {
    pub item: u32,
    pub entry: u32,
    pub fr: u32,
    pub f: u32,
    pub inner: u32,
}

// ---- table, edits, moves

// An edit: a device's acceptance or weight and its new value.
#[derive(Clone, Copy, PartialEq, Eq, Debug)]
pub enum Change {
    Acceptance(u32, u32),
    Weight(u32, u32),
}

// Where the old and the new walk of a place first part, by the ends of a draw or of a test.
#[derive(Clone, Copy, PartialEq, Eq, Debug)]
pub enum Parting {
    Draw(Option<u32>, Option<u32>),
    Test(Verdict, Verdict),
}

// A move: group, place (from 1), old and new entry, cause.
#[derive(Clone, Copy, PartialEq, Eq, Debug)]
pub struct Move {
    pub group: u32,
    pub place: u32,
    pub old: u32,
    pub new: u32,
    pub cause: u32,
}

// ---- questions at the door

// Where a rule stands between two steps: outside any block; in a block, at the type reached; or in no order of blocks.
#[derive(Clone, Copy, PartialEq, Eq, Debug)]
pub enum Standing {
    Outside,
    Inside(u32),
    Broken,
}
