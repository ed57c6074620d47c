// The level of each item: 0 where it is absent, and its type plus 1 where it is present. All are in one table, so that a question about a
// link looks its two items up at once. Beside it, read from the same frames, the weight that stands in each item's own.
ghost use Rattle.std.specs.Prelude.{◌≡◌, true, ◌<◌, ◌≤◌, length};
ghost use Rattle.definitions.specs.Map.{map_of, bucket_item};
ghost use Rattle.definitions.specs.Load.{ranged, rising};
ghost use Rattle.laws.specs.Loadable.{ChildRanged};
ghost use Rattle.members.specs.Levels.{slot_of, looked_up, Levels, devices_to, buckets_to, device_level, device_own, bucket_level, bucket_own};
ghost use Rattle.members.specs.Weights.{Weights};

use definitions::{Bucket, Device};
use frames::records::Record;
use item::Item;
use text::Text;

// The slot of an item, devices first.
pub fn slot(item: Item) -> usize
    requires { ChildRanged item.number }
    ensures { (result ≡ slot_of item.number) × (result < 1280) }
{
    if item.is_bucket() {
        (item.bucket_number() + Item::DEVICES) as usize
    } else {
        item.number as usize
    }
}

// What a table has of an item.
pub fn look_up(table: &[u32], item: Item) -> u32
    requires { (length table.now ≡ 1280) × ChildRanged item.number }
    ensures { result ≡ looked_up table.now item.number }
{
    table[slot(item)]
}

// The level of bucket b.
pub fn bucket_level(levels: &[u32], b: u32) -> u32
    requires { (length levels.now ≡ 1280) × (b ≤ 255) }
    ensures { result ≡ looked_up levels.now (bucket_item b) }
{
    look_up(levels, Item::bucket(b))
}

// Two tables with a slot for each item, and not one of pairs, since a question reads one of the two. What they hold is said of a map, which they do
// not have with them, so it stands in the clauses and in no field here.
#[derive(Clone, Copy)]
pub struct Items {
    pub levels: [u32; 1280],
    pub weights: [u32; 1280],
}

// The tables with the devices that are present, at level 1.
fn put_devices(t: &Text) -> Items
    requires { ranged (map_of t.now) ≡ true }
    ensures levels_value { result.levels ≡ devices_to device_level (map_of t.now) (length (map_of t.now).devices) }
    ensures weights_value { result.weights ≡ devices_to device_own (map_of t.now) (length (map_of t.now).devices) }
{
    let mut levels = [0u32; 1280];
    let mut weights = [0u32; 1280];
    for k in 0..Device::count(t) {
        let d = Device::read(t, k);
        let i = slot(Item::device(d.number));
        levels[i] = 1;
        weights[i] = d.weight;
    }
    Items { levels, weights }
}

// The same with the buckets that are present.
fn put_buckets(t: &Text, devices: Items) -> Items
    requires { ranged (map_of t.now) ≡ true }
    ensures levels_value { result.levels ≡ buckets_to bucket_level (map_of t.now) devices.levels (length (map_of t.now).buckets) }
    ensures weights_value { result.weights ≡ buckets_to bucket_own (map_of t.now) devices.weights (length (map_of t.now).buckets) }
{
    let mut levels = devices.levels;
    let mut weights = devices.weights;
    for k in 0..Bucket::count(t) {
        let b = Bucket::read(t, k);
        let i = slot(Item::bucket(b.number));
        levels[i] = b.ty + 1;
        weights[i] = b.weight;
    }
    Items { levels, weights }
}

pub fn items_of(t: &Text) -> Items
    requires { (ranged (map_of t.now) ≡ true) × (rising (map_of t.now) ≡ true) }
    ensures levels { Levels (map_of t.now) result.levels }
    ensures weights { Weights (map_of t.now) result.weights }
{
    put_buckets(t, put_devices(t))
}
