// The guard of a draw: a child that is likely to win. A child that is sure to lose against it needs neither logarithm nor division.
ghost use Rattle.std.specs.Prelude.{◌≡◌, true, false, MatchOption, ℕ, ◌+◌, ◌*◌, ◌^◌, ◌<◌, ◌≤◌, length};
ghost use Rattle.definitions.specs.Straw.{cost, key};
ghost use Rattle.straw.specs.Guard.{Found, Absent, Alone};

// The whole product, in 64 bits: that it fits is shown once, for all who compare two.
fn product(a: u32, b: u32) -> u64
    ensures { result ≡ a * b }
{
    u64::from(a) * u64::from(b)
}

// Is a child of weight w, whose hash is below the greatest by s, likelier to win than one of weight k that is below it by t? Near the
// greatest, the cost is nearly in proportion to s.
fn likelier(s: u32, w: u32, t: u32, k: u32) -> bool
    ensures { (result ≡ true → 0 < w) × (result ≡ false → k ≡ 0 → 0 < t → w ≡ 0) }
{
    product(s, k) < product(t, w)
}

// The place of a child of weight above 0, or none where there is none. Which of them it is, is free: the likeliest spares most of the others.
pub fn pick(hashes: &[u32], weights: &[u32]) -> Option<usize>
    requires { length weights.now ≤ length hashes.now }
    ensures { MatchOption result (Absent weights.now (length weights.now)) (Found weights.now) }
{
    let mut place = None;
    let mut t: u32 = 1;
    let mut k: u32 = 0;
    for i in 0..weights.len() {
        let s = !hashes[i];
        let w = weights[i];
        if likelier(s, w, t, k) {
            place = Some(i);
            t = s;
            k = w;
        }
    }
    place
}

// Is a child of weight k whose hash is h sure to have a greater key than one of cost c and weight w? Its own cost is at least the 2848th part
// of what its hash is below the greatest; the 4 is for the keys' rounding.
pub fn spared(h: u32, k: u32, c: u32, w: u32) -> bool
    requires { (c ≤ 32 * 2 ^ 20) × (0 < w) }
    ensures { (result ≡ true → 0 < k → key c w < key (cost (h + 1)) k) × (result ≡ false → 0 < k) }
{
    product(c + 4, k) <= product(!h / 2848, w)
}

// The greatest distance below the greatest hash at which a guard's reach is taken: it fits 32 bits then.
const FAR: u32 = 2000000000;

// The reach of a guard whose hash is h: a child of its weight is sure to lose against it whose hash is that far below the greatest, or farther.
// The guard's own cost is taken from above, without a logarithm; the 2848 and the 4 are those of `spared`.
fn reach(h: u32) -> u32
    requires { 2 ^ 32 ≤ h + 1 + 2000000000 }
    ensures { 2848 * (cost (h + 1) + 4) ≤ result }
{
    let u = u64::from(h) + 1;
    let t = u64::from(!h);
    let c = (t << 32) / u / 2832 + 3;
    ((c + 4) * 2848) as u32
}

// May a child of weight k whose hash is h win against a guard of reach q and weight w?
fn near(h: u32, k: u32, q: u32, w: u32) -> bool
    ensures { result ≡ false → (c : ℕ) → 2848 * (c + 4) ≤ q → 0 < w → 0 < k → key c w < key (cost (h + 1)) k }
{
    product(!h, w) < product(q, k)
}

// Are all other children sure to lose against the guard, at place g? It is itself within its reach, so that one child in all is.
pub fn alone(hashes: &[u32], weights: &[u32], g: usize) -> bool
    requires { (length weights.now ≤ length hashes.now) × (length weights.now ≤ 64) × Found weights.now g }
    ensures { result ≡ true → Alone hashes.now weights.now g }
{
    let h = hashes[g];
    if FAR < !h {
        return false;
    }
    let q = reach(h);
    let w = weights[g];
    // `filter` and `count` take a tenth to a quarter longer than this loop (measured).
    let mut count: u32 = 0;
    for i in 0..weights.len() {
        if near(hashes[i], weights[i], q, w) {
            count += 1;
        }
    }
    count == 1
}
