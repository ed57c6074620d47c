// The weights of the buckets, type by type, and of the children in their order.
#![tactic(auto)]

ghost use Rattle.std.specs.Prelude.{◌≡◌, map, ℕ, ◌+◌, ◌<◌, ◌^◌, length, get_or};
ghost use Rattle.definitions.specs.Lists.{sum};
ghost use Rattle.hierarchy.specs.Arrays.{ItemRange};
ghost use Rattle.weights.specs.Weights.{item_in, live_part, Ranged, arrays, Within, load_in, round_to, up_to, Fitting, greatest};
ghost use Rattle.weights.specs.Buckets.{arrays_of};

use item::Item;

// What a device adds to a live weight: one of acceptance 0 passes no test.
fn live(acceptance: u32, weight: u32) -> u32
    ensures { result ≡ live_part acceptance weight }
{
    if acceptance == 0 { 0 } else { weight }
}

// The live weights of the devices, by number.
pub fn live_of<'a>(own: &'a [u32; 1024], acceptance: &'a [u32; 1024]) -> [u32; 1024]
    ensures { (d : ℕ) → d < 1024 → get_or result d 0 ≡ live_part (get_or acceptance.now d 0) (get_or own.now d 0) }
{
    let mut weights = [0u32; 1024];
    for d in 0..1024usize {
        weights[d] = live(acceptance[d], own[d]);
    }
    weights
}

// The weight of an item: that of a device, or a bucket's load.
fn weight_of<'a>(devices: &'a [u32], loads: &'a [u32], i: u32) -> u32
    requires { (length devices.now ≡ 1024) × (length loads.now ≡ 256) × ItemRange i }
    ensures { result ≡ item_in devices.now loads.now i }
{
    let item = Item::from(i);
    if item.is_bucket() {
        loads[item.bucket_number() as usize]
    } else {
        devices[i as usize]
    }
}

// The sum of the weights of items.
fn total<'a>(devices: &'a [u32], loads: &'a [u32], items: &'a [u32]) -> u32
    requires devices_len { (length devices.now ≡ 1024) × (length loads.now ≡ 256) × Ranged items.now }
    requires bound { sum (map (item_in devices.now loads.now) items.now) < 2 ^ 32 }
    ensures { result ≡ sum (map (item_in devices.now loads.now) items.now) }
{
    let mut n: u32 = 0;
    for i in 0..items.len() {
        n += weight_of(devices, loads, items[i]);
    }
    n
}

// What the buckets are weighed by: of each, by its number, where its children begin in the items, how many they are, and its type; and the weights
// of the devices. That these are `Within` their bounds is asked where it is needed: a ghost field holds propositions alone, and `ItemRange` is a choice.
#[derive(Clone, Copy)]
struct Buckets<'a> {
    first: &'a [u32],
    count: &'a [u32],
    items: &'a [u32],
    devices: &'a [u32],
    types: &'a [u32],
}

impl<'a> Buckets<'a> {
    // The load of bucket b: the sum of the weights of its children.
    fn load_of(&self, loads: &[u32], b: usize) -> u32
        requires within { Within (arrays_of self.now) × (length loads.now ≡ 256) × (b < 256) }
        requires b_bound { load_in (arrays_of self.now) loads.now b < 2 ^ 32 }
        ensures { result ≡ load_in (arrays_of self.now) loads.now b }
    {
        let a = self.first[b] as usize;
        let n = self.count[b] as usize;
        let e = a + n;
        total(self.devices, loads, &self.items[a..e])
    }

    // Sets the loads of the buckets of type ty.
    fn of_type(&self, loads: &mut [u32], ty: u32)
        requires within { Within (arrays_of self.now) × (length self.now.types.now ≡ 256) × (length loads.old ≡ 256) }
        requires fitting { Fitting (arrays_of self.now) self.now.types.now ty loads.old }
        ensures { loads.new ≡ round_to (arrays_of self.now) self.now.types.now ty loads.old 256 }
    {
        for b in 0..256usize {
            if self.types[b] == ty {
                loads[b] = self.load_of(loads, b);
            }
        }
    }
}

// The greatest of the types: no round is needed behind it.
fn top(types: &[u32]) -> u32
    ensures { result ≡ greatest types.now }
{
    types.iter().copied().max().unwrap_or(0)
}

// The loads of all buckets, by bucket number. Children have smaller types than their bucket, so theirs are known before it.
pub fn loads_of<'a>(
    first: &'a [u32],
    count: &'a [u32],
    items: &'a [u32],
    devices: &'a [u32],
    types: &'a [u32],
) -> [u32; 256]
    requires within { Within (arrays first.now count.now items.now devices.now) × (length types.now ≡ 256) }
    requires by_index { (n : ℕ) → Fitting (arrays first.now count.now items.now devices.now) types.now (n + 1)
        (up_to (arrays first.now count.now items.now devices.now) types.now n) }
    ensures { result ≡ up_to (arrays first.now count.now items.now devices.now)
        types.now (greatest types.now) }
{
    let most = top(types);
    let mut loads = [0u32; 256];
    let buckets = Buckets {
        first,
        count,
        items,
        devices,
        types,
    };
    for ty in 0..most {
        buckets.of_type(&mut loads, ty + 1);
    }
    loads
}

// The weights of all children, in their order.
pub fn weights_of<'a>(devices: &'a [u32], loads: &'a [u32], items: &'a [u32]) -> [u32; 1280]
    requires { (length devices.now ≡ 1024) × (length loads.now ≡ 256) × (length items.now ≡ 1280) × Ranged items.now }
    ensures { result ≡ map (item_in devices.now loads.now) items.now }
{
    let mut weights = [0u32; 1280];
    for i in 0..1280usize {
        weights[i] = weight_of(devices, loads, items[i]);
    }
    weights
}
