// Fields of four and of eight digits, where the bytes are known to be digits: all of a field's digits are read at once, side by side in one word.
ghost use Rattle.std.specs.Prelude.{◌≡◌, ◌+◌, ◌*◌, ◌/◌, ◌<◌, ◌≤◌, ◌^◌, length, drop};
ghost use Rattle.std.specs.Int.Bits.{bit_and};
ghost use Rattle.definitions.specs.Frames.{value};
ghost use Rattle.frames.specs.Words.{word_of, spread, packed, Digits};

// 1 in each of four bytes, and in each of eight.
const FOUR: u64 = 0x01010101;

const EIGHT: u64 = 0x0101010101010101;

// Four bytes as a number.
fn four(s: &[u8], at: usize) -> u64
    requires { at + 4 ≤ length s.now }
    ensures { (result ≡ word_of 4 (drop at s.now)) × (result < 2 ^ 32) }
{
    u64::from(u32::from_be_bytes([s[at], s[at + 1], s[at + 2], s[at + 3]]))
}

fn eight(s: &[u8], at: usize) -> u64
    requires { at + 8 ≤ length s.now }
    ensures { result ≡ word_of 8 (drop at s.now) }
{
    four(s, at) * 4294967296 + four(s, at + 4)
}

// Of a word of digits, the value of each in its byte: 48 less, and of a letter, which has the bit of 64, 39 less again.
fn spread(w: u64, ones: u64) -> u64
    requires { (ones ≤ EIGHT) × (48 * ones + 39 * bit_and (w / 64) ones ≤ w) }
    ensures { result ≡ spread w ones }
{
    let letters = (w >> 6) & ones;
    w - 48 * ones - 39 * letters
}

// The values together: first two and two, then the four pairs.
fn packed(d: u64) -> u32
    requires { d < 2 ^ 60 }
    ensures { result ≡ packed d }
{
    let p = d + d / 16;
    let a = p / 281474976710656 % 256;
    let b = p / 4294967296 % 256;
    let c = p / 65536 % 256;
    (a * 16777216 + b * 65536 + c * 256 + p % 256) as u32
}

// The value of the four digits of s from at on.
pub fn read_four(s: &[u8], at: usize) -> u32
    requires { (at + 4 ≤ length s.now) × Digits 4 (drop at s.now) }
    ensures { result ≡ value 4 (drop at s.now) }
{
    packed(spread(four(s, at), FOUR))
}

// And of eight.
pub fn read_eight(s: &[u8], at: usize) -> u32
    requires { (at + 8 ≤ length s.now) × Digits 8 (drop at s.now) }
    ensures { result ≡ value 8 (drop at s.now) }
{
    packed(spread(eight(s, at), EIGHT))
}
