// Question 5 of one record, and question 6 of two links. The tests are joined by `&` and `|`, which do not branch.
ghost use Rattle.std.specs.Prelude.{◌≡◌};
ghost use Rattle.definitions.specs.Load.{within, device_ranged, bucket_ranged, link_ranged, take_ranged, select_ranged, emit_ranged, step_ranged, link_below};

use definitions::{Bucket, Device, Link, Step};
use item::Item;

pub fn groups_ranged(g: u32) -> bool
    ensures { result ≡ within 1 65536 g }
{
    (1 <= g) & (g <= 65536)
}

#[tactic(auto, unfolding(definitions::specs::Load::device_ranged))]
pub fn device_ranged(d: Device) -> bool
    ensures { result ≡ device_ranged d }
{
    (d.number < Item::DEVICES) & (d.weight <= 65535) & (d.acceptance <= 65536)
}

#[tactic(auto, unfolding(definitions::specs::Load::bucket_ranged))]
pub fn bucket_ranged(b: Bucket) -> bool
    ensures { result ≡ bucket_ranged b }
{
    (b.number < Item::BUCKETS) & ((1 <= b.ty) & (b.ty <= 255)) & ((1 <= b.kind) & (b.kind <= 2))
}

#[tactic(auto, unfolding(definitions::specs::Load::link_ranged))]
pub fn link_ranged(l: Link) -> bool
    ensures { result ≡ link_ranged l }
{
    let device = l.child < Item::DEVICES;
    let bucket = (Item::BUCKET_BASE <= l.child) & (l.child < Item::END);
    (l.bucket < Item::BUCKETS) & (device | bucket)
}

#[tactic(auto, unfolding(definitions::specs::Load::take_ranged))]
fn take_ranged(s: Step) -> bool
    ensures { result ≡ take_ranged s }
{
    (s.step == 1) & (s.count == 0) & (s.ty == 0) & (s.bucket < Item::BUCKETS)
}

// "Question 5 reads step 5 as it reads step 3, type 0 included."
#[tactic(auto, unfolding(definitions::specs::Load::select_ranged))]
fn select_ranged(s: Step) -> bool
    ensures { result ≡ select_ranged s }
{
    let step = ((2 <= s.step) & (s.step <= 3)) | (s.step == 5);
    let count = (1 <= s.count) & (s.count <= 16);
    step & count & (s.ty <= 254) & (s.bucket == 0)
}

#[tactic(auto, unfolding(definitions::specs::Load::emit_ranged))]
fn emit_ranged(s: Step) -> bool
    ensures { result ≡ emit_ranged s }
{
    (s.step == 4) & (s.count == 0) & (s.ty == 0) & (s.bucket == 0)
}

#[tactic(auto, unfolding(definitions::specs::Load::step_ranged))]
pub fn step_ranged(s: Step) -> bool
    ensures { result ≡ step_ranged s }
{
    take_ranged(s) | select_ranged(s) | emit_ranged(s)
}

#[tactic(auto, unfolding(definitions::specs::Load::link_below))]
pub fn link_below(k: Link, l: Link) -> bool
    ensures { result ≡ link_below k l }
{
    (k.bucket < l.bucket) | ((k.bucket == l.bucket) & (k.child < l.child))
}
