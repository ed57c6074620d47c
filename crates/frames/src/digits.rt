// Lower-case hexadecimal digits, read and written.
ghost use Rattle.std.specs.Prelude.{◌≡◌, ◌+◌, ◌<◌, ◌≤◌, length, drop};
ghost use Rattle.definitions.specs.Lists.{every};
ghost use Rattle.definitions.specs.Frames.{is_digit, digit_value, digit_byte, value, hex};

// The tests are joined by `&` and `|`, which do not branch, so that a loop over bytes takes many at a time.
pub fn is_digit(b: u8) -> bool
    ensures { result ≡ is_digit b }
{
    ((48 <= b) & (b <= 57)) | ((97 <= b) & (b <= 102))
}

pub fn all_digits(t: &[u8]) -> bool
    ensures { result ≡ every is_digit t.now }
{
    t.iter().all(|b| is_digit(*b))
}

// The value of a digit; 0 of any other byte, so that reading needs no test.
pub fn digit(b: u8) -> u32
    ensures { (result ≡ digit_value b) × (result < 16) }
{
    match b {
        b'0'..=b'9' => (b - b'0') as u32,
        b'a'..=b'f' => (b - b'a') as u32 + 10,
        _ => 0,
    }
}

pub fn char_of(v: u32) -> u8
    requires { v < 16 }
    ensures { result ≡ digit_byte v }
{
    if v < 10 {
        return (v + 48) as u8;
    }
    (v + 87) as u8
}

// The value of the n digits of s from at on. Eight digits fit 32 bits.
pub fn field(s: &[u8], at: usize, n: usize) -> u32
    requires { (at + n ≤ length s.now) × (n ≤ 8) }
    ensures { result ≡ value n (drop at s.now) }
{
    let mut v: u32 = 0;
    for i in 0..n {
        let d = digit(s[at + i]);
        v = v * 16 + d;
    }
    v
}

// The digits of v over the whole of out, from the last to the first.
pub fn put_field(out: &mut [u8], v: u32)
    requires { length out.old ≤ 8 }
    ensures { out.new ≡ hex (length out.old) v }
{
    let mut w = v;
    for i in (0..out.len()).rev() {
        out[i] = char_of(w % 16);
        w /= 16;
    }
}
