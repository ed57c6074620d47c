// The logarithm L(u) of a number from 1 to 2^32, with twenty binary digits, and the key that follows from it.
ghost use Rattle.std.specs.Prelude.{◌≡◌, ◌+◌, ◌*◌, ◌^◌, ◌<◌, ◌≤◌};
ghost use Rattle.definitions.specs.Straw.{floor_log, digit, L, cost, key};

use definitions::Digits;

// The next digit, taken without a branch: it is what the square has above 32 bits, and shifts m by itself.
pub fn next_digit(s: Digits) -> Digits
    requires { (s.m < 2 ^ 32) × (s.d < 2 ^ 32) }
    ensures { result ≡ digit s }
{
    let q = (s.m * s.m) >> 31;
    let b = q >> 32;
    Digits {
        m: q >> b,
        d: s.d * 2 + b,
    }
}

// The whole part of the binary logarithm.
pub fn floor_log(u: u64) -> u32
    requires { (1 ≤ u) × (u ≤ 2 ^ 32) }
    ensures { (result ≡ floor_log u) × (result ≤ 32) }
{
    63 - u64::leading_zeros(u)
}

pub fn log(u: u64) -> u64
    requires { (1 ≤ u) × (u ≤ 2 ^ 32) }
    ensures { (result ≡ L u) × (result ≤ 32 * 2 ^ 20) }
{
    let e = floor_log(u);
    let mut s = Digits {
        m: (u << 31) >> e,
        d: 0,
    };
    for i in 0..20usize {
        s = next_digit(s);
    }
    (u64::from(e) << 20) + s.d
}

// The cost of a child whose hash is h: u is h + 1.
pub fn cost(h: u32) -> u32
    ensures { (result ≡ cost (h + 1)) × (result ≤ 32 * 2 ^ 20) }
{
    let u = u64::from(h) + 1;
    let c = (32 << 20) - log(u);
    c as u32
}

// The key of a child of cost c and weight k.
pub fn key(c: u32, k: u32) -> u64
    requires { 0 < k }
    ensures { result ≡ key c k }
{
    (u64::from(c) << 30) / u64::from(k)
}
