// The edit frame: what it asks for, the device it names, and the change written into the text, with the weights of the buckets.
#![tactic(auto)]

ghost use Rattle.std.specs.Prelude.{◌≡◌, ◌+◌, ◌<◌, ◌≤◌, length, get_or};
ghost use Rattle.definitions.specs.Frames.{hex, frames_in};
ghost use Rattle.definitions.specs.Map.{map_of};
ghost use Rattle.definitions.specs.Edit.{change_of};
ghost use Rattle.text.specs.Shape.{shape_of};
ghost use Rattle.text.specs.Places.{splice};
ghost use Rattle.text.specs.RoundTrip.{Framed};
ghost use Rattle.text.specs.Rows.{device_start};
ghost use Rattle.text.specs.Records.{no_device, no_bucket};
ghost use Rattle.text.specs.Edit.{with_device, with_bucket, accepting, weighing, bearing, borne_by, bearing_all, Edited};
ghost use Rattle.edit_frame.specs.Found.{FoundIs};
ghost use Rattle.edit_frame.specs.Sums.{Numbered};

use definitions::{Change, Device};
use frames::records::Record;
use frames::{digits, lines, records};
use text::{Shape, Text};

// What the bytes of a frame ask for, with no byte 10 behind them.
pub fn change_of(f: &[u8]) -> Option<Change>
    ensures { result ≡ change_of f.now }
{
    if f.len() != 14 {
        return None;
    }
    if !digits::all_digits(f) {
        return None;
    }
    let kind = digits::field(f, 0, 2);
    let device = digits::field(f, 2, 4);
    let value = digits::field(f, 6, 8);
    if kind == 0x21 {
        return Some(Change::Acceptance(device, value));
    }
    if kind == 0x22 {
        return Some(Change::Weight(device, value));
    }
    None
}

// Where device d stands among the devices of a text.
pub fn find_device(text: &Text, d: u32) -> Option<usize>
    ensures { FoundIs (map_of text.now) d result }
{
    for k in 0..Device::count(text) {
        if Device::read(text, k).number == d {
            return Some(k);
        }
    }
    None
}

// Writes the eight digits of v from a on; all other bytes stay.
fn put_at(t: &mut [u8], a: usize, v: u32)
    requires { a + 8 ≤ length t.old }
    ensures { t.new ≡ splice a 8 (hex 8 v) t.old }
{
    digits::put_field(&mut t[a..a + 8], v);
}

// Writes v into the field of device k that stands at this place of its line.
fn put_in_device(t: &mut [u8], k: usize, at: usize, v: u32)
    requires { Framed t.old × (k < length (map_of t.old).devices) × (at ≤ 14) }
    ensures { t.new ≡ splice (device_start k + at) 8 (hex 8 v) t.old }
{
    put_at(t, lines::GROUPS + k * lines::DEVICE + at, v);
}

// Makes v the acceptance of device k.
pub fn put_acceptance(t: &mut [u8], k: usize, v: u32)
    requires { Framed t.old × (k < length (map_of t.old).devices) }
    ensures { Edited t.new
        (with_device k (accepting (get_or (map_of t.old).devices k no_device) v) (map_of t.old)) }
{
    put_in_device(t, k, records::ACCEPTANCE_AT, v);
}

// Makes v the weight of device k.
pub fn put_weight(t: &mut [u8], k: usize, v: u32)
    requires { Framed t.old × (k < length (map_of t.old).devices) }
    ensures { Edited t.new
        (with_device k (weighing (get_or (map_of t.old).devices k no_device) v) (map_of t.old)) }
{
    put_in_device(t, k, records::WEIGHT_AT, v);
}

// Makes v the weight written of bucket k.
// The shape beside the bytes, here and below, and no Text: a Text lends its bytes for reading only.
fn put_sum(t: &mut [u8], s: Shape, k: usize, v: u32)
    requires { Framed t.old × (s ≡ shape_of (frames_in t.old)) × (k < length (map_of t.old).buckets) }
    ensures { Edited t.new
        (with_bucket k (bearing (get_or (map_of t.old).buckets k no_bucket) v) (map_of t.old)) }
{
    let a = lines::GROUPS + s.devices * lines::DEVICE + k * lines::BUCKET + records::SUM_AT;
    put_at(t, a, v);
}

// Makes the weight written of bucket k what the sums have of its number. Digits are written only where it is another: of the buckets above an
// edited drive.
fn bring_up(t: &mut [u8], s: Shape, k: usize, sums: &[u32])
    requires framed { Framed t.old × (s ≡ shape_of (frames_in t.old)) × (k < length (map_of t.old).buckets) }
    requires no_bucket_in_bounds { (get_or (map_of t.old).buckets k no_bucket).number < length sums.now }
    ensures { Edited t.new (with_bucket k (borne_by sums.now (get_or (map_of t.old).buckets k no_bucket)) (map_of t.old)) }
{
    let b = records::bucket(t, s, k);
    let v = sums[b.number as usize];
    if b.weight == v {
        return;
    }
    put_sum(t, s, k, v);
}

// The same of each bucket.
pub fn put_sums(t: &mut [u8], s: Shape, sums: &[u32])
    requires { Framed t.old × (s ≡ shape_of (frames_in t.old)) × Numbered (length sums.now) (map_of t.old) }
    ensures { Edited t.new (bearing_all sums.now (map_of t.old)) }
{
    for k in 0..s.buckets {
        bring_up(t, s, k, sums);
    }
}
