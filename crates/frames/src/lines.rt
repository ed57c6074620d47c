// Questions 1 and 2, put to the bytes and their lines.
ghost use Rattle.std.specs.Prelude.{◌≡◌, true, ◌∷◌, ◌+◌, ◌-◌, ◌<◌, ◌≤◌, length, drop, take};
ghost use Rattle.definitions.specs.Lists.{every, last_of};
ghost use Rattle.definitions.specs.Frames.{lines_of};
ghost use Rattle.definitions.specs.Load.{allowed, sized, line_formed, formed};

use crate::digits;

// How many bytes a line of each kind has, the byte 10 that ends it among them.
pub const GROUPS: usize = 11;

pub const DEVICE: usize = 23;

pub const BUCKET: usize = 19;

pub const LINK: usize = 15;

pub const STEP: usize = 13;

pub const END: usize = 7;

pub const LENGTHS: [usize; 6] = [GROUPS, DEVICE, BUCKET, LINK, STEP, END];

pub fn is_allowed(b: u8) -> bool
    ensures { result ≡ allowed b }
{
    digits::is_digit(b) | (b == 10)
}

// Every byte is tested, also behind one that is not allowed: a loop with one way out takes many bytes at a time.
pub fn all_allowed(t: &[u8]) -> bool
    ensures { result ≡ every allowed t.now }
{
    let mut all = true;
    for b in t {
        all &= is_allowed(*b);
    }
    all
}

// Question 1: "1 to 65,536 bytes, last byte 10, all others digits or 10?"
#[tactic(auto, using(std::proofs::lemmas::Bool::Decides::nat_tests), unfolding(definitions::specs::Load::sized))]
pub fn sized(t: &[u8]) -> bool
    ensures { result ≡ sized t.now }
{
    let n = t.len();
    if n < 1 {
        return false;
    }
    if 65536 < n {
        return false;
    }
    let last = t[n - 1];
    if last != 10 {
        return false;
    }
    all_allowed(t)
}

// Where the line from at on ends.
pub fn line_end(t: &[u8], at: usize) -> usize
    requires { (at < length t.now) × (last_of t.now ≡ 10) }
    ensures { (at ≤ result) × (result < length t.now)
        × (lines_of (drop at t.now) ≡ take (result - at) (drop at t.now) ∷ lines_of (drop (result + 1) t.now)) }
{
    let mut e = at;
    // No `position`: it would ask for the slice's end at each byte, half as many instructions again (measured).
    while t[e] != 10 {
        e += 1;
    }
    e
}

// Is t from at to e a line of kind 00 to 05, at that length? None is shorter than kind 05, so the kind's two digits are there to read.
pub fn line_formed(t: &[u8], at: usize, e: usize) -> bool
    requires { (at ≤ e) × (e ≤ length t.now) }
    ensures { result ≡ line_formed (take (e - at) (drop at t.now)) }
{
    let n = e - at + 1;
    if n < END {
        return false;
    }
    let k = digits::field(t, at, 2) as usize;
    if 5 < k {
        return false;
    }
    n == LENGTHS[k]
}

// Question 2: "Each line of kind 00 to 05, at that length?"
pub fn formed(t: &[u8]) -> bool
    requires { sized t.now ≡ true }
    ensures { result ≡ formed t.now }
{
    let mut at: usize = 0;
    while at < t.len() {
        let e = line_end(t, at);
        if !line_formed(t, at, e) {
            return false;
        }
        at = e + 1;
    }
    true
}
