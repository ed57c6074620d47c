// The words of named states: how many there are, how many drives n each has, then each, its name ahead of the number, the weight and the
// acceptance of each drive.
ghost use Rattle.std.specs.Prelude.{◌≡◌, true, ◌∷◌, ℕ, ◌+◌, ◌*◌, ◌<◌, ◌≤◌, leb, length, take, drop};
ghost use Rattle.std.proofs.Math.Seq.{paste};
ghost use Rattle.definitions.specs.Lists.{every};
ghost use Rattle.definitions.specs.Map.{Map, map_of};
ghost use Rattle.definitions.specs.Load.{device_ranged};
ghost use Rattle.definitions.specs.States.{drive_words, drives_in, states_in, states_of, numbers_of, names_of, stated, stored};
ghost use Rattle.states.specs.Words.{drives_fit, fits_by, state_in, place_of, good_states};

use crate::States;
use definitions::Device;
use frames::records::Record;
use text::Text;

// The numbers of the map's drives, from the front of the array on.
fn numbers_of(text: &Text) -> [u32; 1024]
    requires { length (map_of text.now).devices ≤ 1024 }
    ensures { take (length (map_of text.now).devices) result ≡ numbers_of (map_of text.now).devices }
{
    let mut own = [0u32; 1024];
    for i in 0..Device::count(text) {
        own[i] = Device::read(text, i).number;
    }
    own
}

// The drives from word a on are those of the map's numbers, which are own, and have values that load takes.
fn drives_fit(own: &[u32], s: &[u32], a: usize) -> bool
    requires { (a + 3 * length own.now ≤ length s.now) × (length s.now ≤ 24586) × (every (λ (x : ℕ). leb x 1023) own.now ≡ true) }
    ensures { result ≡ drives_fit own.now (drives_in (length own.now) (drop a s.now)) }
{
    for i in 0..own.len() {
        let w = a + 3 * i;
        if own[i] != s[w] {
            return false;
        }
        if 65535 < s[w + 1] {
            return false;
        }
        if 65536 < s[w + 2] {
            return false;
        }
    }
    true
}

// The state from word a on fits the map: its name has 16 bits, and its drives are such.
fn state_fits(own: &[u32], s: &[u32], a: usize) -> bool
    requires { (a + 1 + 3 * length own.now ≤ length s.now) × (length s.now ≤ 24586) × (every (λ (x : ℕ). leb x 1023) own.now ≡ true) }
    ensures { result ≡ fits_by own.now (state_in (length own.now) s.now a) }
{
    if 65535 < s[a] {
        return false;
    }
    drives_fit(own, s, a + 1)
}

// Which of the states k to c has a name first, and c where none has it.
fn place_from(s: &[u32], n: usize, k: usize, c: usize, x: u32) -> usize
    requires { (2 + c * (1 + 3 * n) ≤ length s.now) × (length s.now ≤ 24586) × (k ≤ c) }
    ensures { result ≡ k + place_of x (names_of (drop k (states_in n c (drop 2 s.now)))) }
{
    for j in k..c {
        if s[2 + j * (1 + 3 * n)] == x {
            return j;
        }
    }
    c
}

// Each of c states fits the map of these numbers, and no name stands twice.
fn good_states(own: &[u32], s: &[u32], c: usize) -> bool
    requires { (2 + c * (1 + 3 * length own.now) ≤ length s.now) × (length s.now ≤ 24586) × (every (λ (x : ℕ). leb x 1023) own.now ≡ true) }
    ensures { result ≡ good_states own.now (states_in (length own.now) c (drop 2 s.now)) }
{
    let n = own.len();
    for k in 0..c {
        let a = 2 + k * (1 + 3 * n);
        if !state_fits(own, s, a) {
            return false;
        }
        let later = place_from(s, n, k + 1, c, s[a]);
        if later < c {
            return false;
        }
    }
    true
}

// Question 14 of the states of a map. Where there are none, nothing is asked of the other words.
pub fn states_good(text: &Text, states: &States) -> bool
    requires few { length (map_of text.now).devices ≤ 1024 }
    requires ranged { every device_ranged (map_of text.now).devices ≡ true }
    ensures { result ≡ stated (map_of text.now) states.now }
{
    let n = Device::count(text);
    let c = states[0];
    if 8 < c {
        return false;
    }
    if c == 0 {
        return true;
    }
    if states[1] != n as u32 {
        return false;
    }
    let own = numbers_of(text);
    good_states(&own[..n], states, c as usize)
}

// A place and no Option: behind all is where a new state is stored.
// Which state has a name, and behind all where none has it. The states are such as question 14 takes of a map with n drives.
pub fn find(states: &States, n: usize, name: u32) -> usize
    requires n_bound { n ≤ 1024 }
    requires devices_len { (m : Map) × (length m.devices ≡ n) × (stated m states.now ≡ true) }
    ensures { result ≡ place_of name (names_of (states_of states.now)) }
{
    let c = states[0];
    place_from(states, n, 0, c as usize, name)
}

// The state of the map's drives, from word a on.
fn put_state(text: &Text, s: &mut [u32], a: usize, name: u32)
    requires { (a + 1 + 3 * length (map_of text.now).devices ≤ length s.old) × (length s.old ≤ 24586) }
    ensures { s.new ≡ paste s.old a (name ∷ drive_words (map_of text.now).devices) (1 + 3 * length (map_of text.now).devices) }
{
    s[a] = name;
    for i in 0..Device::count(text) {
        let d = Device::read(text, i);
        let w = a + 1 + 3 * i;
        s[w] = d.number;
        s[w + 1] = d.weight;
        s[w + 2] = d.acceptance;
    }
}

// Stores the map's drives as state k, under a name: that of the state that has it, or behind all.
pub fn store(text: &Text, states: &mut States, k: usize, name: u32)
    requires few { length (map_of text.now).devices ≤ 1024 }
    requires states_value { (stated (map_of text.now) states.old ≡ true) × (k ≡ place_of name (names_of (states_of states.old))) × (k < 8) }
    ensures { states.new ≡ stored (map_of text.now) name states.old }
{
    let n = Device::count(text);
    let c = states[0];
    put_state(text, states, 2 + k * (1 + 3 * n), name);
    states[1] = n as u32;
    if k == c as usize {
        states[0] = c + 1;
    }
}
