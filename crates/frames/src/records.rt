// The records of a text that the first four questions take, each read at its place. Such a text has its frames in order of kind, so the
// counts in a Shape give the place of each.
ghost use Rattle.std.specs.Prelude.{◌≡◌, ◌<◌, ℕ, Bool, List, length, get_or};
ghost use Rattle.definitions.specs.Lists.{every, linked};
ghost use Rattle.definitions.specs.Frames.{frames_in};
ghost use Rattle.definitions.specs.Map.{Map, map_of};
ghost use Rattle.text.specs.Shape.{shape_of};
ghost use Rattle.text.specs.RoundTrip.{Framed};
ghost use Rattle.frames.specs.Each.{Asked, Answers, AskedPairs, AnswersPairs};
ghost use Rattle.text.specs.Records.{no_device, no_bucket, no_link, no_step};

use crate::{digits, lines, words};
use definitions::{Bucket, Device, Link, Step};
use text::{Shape, Text};

// Where a device's weight and its acceptance stand in its line.
pub const WEIGHT_AT: usize = 6;

pub const ACCEPTANCE_AT: usize = 14;

// Where a bucket's weight stands in its line.
pub const SUM_AT: usize = 10;

// The count of groups.
pub fn groups(t: &[u8]) -> u32
    requires { Framed t.now }
    ensures { result ≡ (map_of t.now).groups }
{
    words::read_eight(t, 2)
}

// Device k.
pub fn device(t: &[u8], k: usize) -> Device
    requires { Framed t.now × (k < length (map_of t.now).devices) }
    ensures { result ≡ get_or (map_of t.now).devices k no_device }
{
    let at = lines::GROUPS + k * lines::DEVICE;
    Device {
        number: words::read_four(t, at + 2),
        weight: words::read_eight(t, at + WEIGHT_AT),
        acceptance: words::read_eight(t, at + ACCEPTANCE_AT),
    }
}

// Bucket k.
pub fn bucket(t: &[u8], s: Shape, k: usize) -> Bucket
    requires { Framed t.now × (s ≡ shape_of (frames_in t.now)) × (k < length (map_of t.now).buckets) }
    ensures { result ≡ get_or (map_of t.now).buckets k no_bucket }
{
    let at = lines::GROUPS + s.devices * lines::DEVICE + k * lines::BUCKET;
    Bucket {
        number: words::read_four(t, at + 2),
        ty: digits::field(t, at + 6, 2),
        kind: digits::field(t, at + 8, 2),
        weight: words::read_eight(t, at + SUM_AT),
    }
}

// Link k.
pub fn link(t: &[u8], s: Shape, k: usize) -> Link
    requires { Framed t.now × (s ≡ shape_of (frames_in t.now)) × (k < length (map_of t.now).links) }
    ensures { result ≡ get_or (map_of t.now).links k no_link }
{
    let at = lines::GROUPS
        + s.devices * lines::DEVICE
        + s.buckets * lines::BUCKET
        + k * lines::LINK;
    Link {
        bucket: words::read_four(t, at + 2),
        child: words::read_eight(t, at + 6),
    }
}

// Step k.
pub fn step(t: &[u8], s: Shape, k: usize) -> Step
    requires { Framed t.now × (s ≡ shape_of (frames_in t.now)) × (k < length (map_of t.now).steps) }
    ensures { result ≡ get_or (map_of t.now).steps k no_step }
{
    let at = lines::GROUPS
        + s.devices * lines::DEVICE
        + s.buckets * lines::BUCKET
        + s.links * lines::LINK
        + k * lines::STEP;
    Step {
        step: digits::field(t, at + 2, 2),
        count: digits::field(t, at + 4, 2),
        ty: digits::field(t, at + 6, 2),
        bucket: words::read_four(t, at + 8),
    }
}

// What the frames of one kind hold.
pub trait Record: Copy {
    // those of a map, in order
    ghost listed: { Map → List Self };

    // what stands behind the last
    ghost none: { Self };

    // How many the text has.
    fn count(text: &Text) -> usize
        ensures { result ≡ length (listed (map_of text.now)) };

    // Number k of them.
    fn read(text: &Text, k: usize) -> Self
        requires { k < length (listed (map_of text.now)) }
        ensures { result ≡ get_or (listed (map_of text.now)) k none };
}

impl Record for Device {
    ghost listed = { λ m. m.devices };

    ghost none = { no_device };

    fn count(text: &Text) -> usize {
        text.shape.devices
    }

    fn read(text: &Text, k: usize) -> Device {
        device(text.bytes, k)
    }
}

impl Record for Bucket {
    ghost listed = { λ m. m.buckets };

    ghost none = { no_bucket };

    fn count(text: &Text) -> usize {
        text.shape.buckets
    }

    fn read(text: &Text, k: usize) -> Bucket {
        bucket(text.bytes, text.shape, k)
    }
}

impl Record for Link {
    ghost listed = { λ m. m.links };

    ghost none = { no_link };

    fn count(text: &Text) -> usize {
        text.shape.links
    }

    fn read(text: &Text, k: usize) -> Link {
        link(text.bytes, text.shape, k)
    }
}

impl Record for Step {
    ghost listed = { λ m. m.steps };

    ghost none = { no_step };

    fn count(text: &Text) -> usize {
        text.shape.steps
    }

    fn read(text: &Text, k: usize) -> Step {
        step(text.bytes, text.shape, k)
    }
}

// Does each record of a kind pass the test?
pub fn every<R: Record, F: Fn(R) -> bool>(text: &Text, test: F) -> bool
    requires { Asked (F.pre test) (R.listed (map_of text.now)) R.none }
    ensures { (p : R → Bool) → Answers (F.post test) (R.listed (map_of text.now)) R.none p
        → result ≡ every p (R.listed (map_of text.now)) }
{
    for k in 0..R::count(text) {
        if !test(R::read(text, k)) {
            return false;
        }
    }
    true
}

// Does each record of a kind stand to the one behind it as the test says?
pub fn linked<R: Record, F: Fn(R, R) -> bool>(text: &Text, test: F) -> bool
    requires { AskedPairs (F.pre test) (R.listed (map_of text.now)) R.none }
    ensures { (p : R → R → Bool) → AnswersPairs (F.post test) (R.listed (map_of text.now)) R.none p
        → result ≡ linked p (R.listed (map_of text.now)) }
{
    let n = R::count(text);
    if n == 0 {
        return true;
    }
    let mut last = R::read(text, 0);
    for k in 1..n {
        let next = R::read(text, k);
        if !test(last, next) {
            return false;
        }
        last = next;
    }
    true
}
