// The devices: their weights and acceptances, by device number, after an edit or a return that is not yet written into the text.
ghost use Rattle.std.specs.Prelude.{◌≡◌, true, List, ℕ, ◌+◌, ◌*◌, ◌<◌, ◌≤◌, length, get_or, drop};
ghost use Rattle.definitions.specs.Lists.{every};
ghost use Rattle.definitions.specs.Map.{Map, map_of};
ghost use Rattle.definitions.specs.View.{acceptance_of, device_weight};
ghost use Rattle.definitions.specs.Load.{device_ranged};
ghost use Rattle.definitions.specs.Edit.{put};
ghost use Rattle.definitions.specs.States.{drives_in};
ghost use Rattle.laws.specs.Loadable.{Loadable};
ghost use Rattle.text.specs.Records.{no_device};
ghost use Rattle.hierarchy.specs.Tables.{Tabled};
ghost use Rattle.compile.specs.Reading.{Gives};

use definitions::{Change, Device};
use frames::records::Record;
use text::Text;

// Two arrays and not one of pairs: each is laid into a section of its own.
#[derive(Clone, Copy)]
pub struct Devices {
    pub weights: [u32; 1024],
    pub acceptances: [u32; 1024],
}

// Device k, with its new weight or acceptance where it is the one edited.
pub fn device_with(text: &Text, k: usize, c: Option<Change>) -> Device
    requires { k < length (map_of text.now).devices }
    ensures { result ≡ get_or (put (map_of text.now) c).devices k no_device }
{
    let d = Device::read(text, k);
    let Some(e) = c else {
        return d;
    };
    match e {
        Change::Acceptance(n, v) => if d.number == n {
            Device { acceptance: v, ..d }
        } else {
            d
        },
        Change::Weight(n, v) => if d.number == n {
            Device { weight: v, ..d }
        } else {
            d
        },
    }
}

// The weights and the acceptances of n devices, of which `device` gives each. From the last device to the first, as a device is looked up by its
// number from the front.
fn tabled<F: Fn(usize) -> Device>(n: usize, device: F) -> Devices
    requires asked { (k : ℕ) → k < n → F.pre device k }
    requires ranged { (ds : List Device) × Gives (F.post device) n ds × (every device_ranged ds ≡ true) }
    ensures { (ds : List Device) → Gives (F.post device) n ds → every device_ranged ds ≡ true → (m : Map) → m.devices ≡ ds
        → Tabled result.weights 1024 (device_weight m) × Tabled result.acceptances 1024 (acceptance_of m) }
{
    let mut weights = [0u32; 1024];
    let mut acceptances = [0u32; 1024];
    for k in (0..n).rev() {
        let d = device(k);
        let i = d.number as usize;
        weights[i] = d.weight;
        acceptances[i] = d.acceptance;
    }
    Devices {
        weights,
        acceptances,
    }
}

// Those of the map as an edit leaves it.
pub fn devices_of(text: &Text, c: Option<Change>) -> Devices
    requires { Loadable (put (map_of text.now) c) }
    ensures tabled { Tabled result.weights 1024 (device_weight (put (map_of text.now) c)) }
    ensures tabled_2 { Tabled result.acceptances 1024 (acceptance_of (put (map_of text.now) c)) }
{
    tabled(Device::count(text), |k| device_with(text, k, c))
}

// Drive k of those that words spell from word a on.
fn drive_in(states: &[u32], a: usize, k: usize) -> Device
    requires { (a + 3 * k + 3 ≤ length states.now) × (length states.now ≤ 24586) }
    ensures { (n : ℕ) → k < n → result ≡ get_or (drives_in n (drop a states.now)) k no_device }
{
    let w = a + 3 * k;
    Device {
        number: states[w],
        weight: states[w + 1],
        acceptance: states[w + 2],
    }
}

// The same for a map whose devices are the n drives from word a on.
pub fn devices_in(states: &[u32], a: usize, n: usize) -> Devices
    requires n_in_bounds { (a + 3 * n ≤ length states.now) × (length states.now ≤ 24586) }
    requires states_value { every device_ranged (drives_in n (drop a states.now)) ≡ true }
    ensures { (m : Map) → m.devices ≡ drives_in n (drop a states.now)
        → Tabled result.weights 1024 (device_weight m) × Tabled result.acceptances 1024 (acceptance_of m) }
{
    tabled(n, |k| drive_in(states, a, k))
}
