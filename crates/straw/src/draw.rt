// The draw: the child of least key, of equal keys the one of smaller item number.
ghost use Rattle.std.specs.Prelude.{◌≡◌, ℕ, ◌+◌, ◌<◌, ◌≤◌, length, get_or};
ghost use Rattle.std.specs.Prelude.{Some};
ghost use Rattle.definitions.specs.Hash.{hash3};
ghost use Rattle.definitions.specs.Straw.{cost, key, wins, draw_of};
ghost use Rattle.straw.specs.Guard.{Found, Hashed};
ghost use Rattle.straw.specs.Hashes.{Filled};

use crate::{guard, logarithm};

// Does the child of number i and key k win against that of number j and key l?
#[tactic(auto, unfolding(definitions::specs::Straw::wins))]
fn wins(i: u32, k: u64, j: u32, l: u64) -> bool
    ensures { result ≡ wins i k j l }
{
    k < l || (k == l && i < j)
}

// The item number of child i, and 0 behind the last.
fn item_at(items: &[u32], i: usize) -> u32
    ensures { result ≡ get_or items.now i 0 }
{
    items.get(i).copied().unwrap_or(0)
}

// Eight children, from place i on.
fn eight_at(items: &[u32], i: usize) -> [u32; 8]
    requires { i ≤ 64 }
    ensures { Filled (λ (j : ℕ). get_or items.now (i + j) 0) 8 8 result }
{
    let mut eight = [0u32; 8];
    for j in 0..8usize {
        eight[j] = item_at(items, i + j);
    }
    eight
}

// Their hashes. The compiler makes four hashes at once of each half.
fn hash_eight(seed: u32, x: u32, r: u32, eight: [u32; 8], hashes: &mut [u32])
    requires { length hashes.old ≡ 8 }
    ensures { Filled (λ (j : ℕ). hash3 seed x (get_or eight j 0) r) 8 8 hashes.new }
{
    for i in 0..4usize {
        let two = jenkins::hash3_two(seed, x, eight[i], eight[i + 4], r);
        hashes[i] = two.one;
        hashes[i + 4] = two.other;
    }
}

// The hash of each child, at its place. Nothing else is in this loop, so that the compiler can hash several children at once; the last of them
// are hashed with others behind them, as eight cost no more than one.
pub fn hash_children(seed: u32, x: u32, r: u32, items: &[u32]) -> [u32; 64]
    requires { length items.now ≤ 64 }
    ensures { Hashed seed x r items.now result }
{
    let mut hashes = [0u32; 64];
    for k in 0..items.len().div_ceil(8) {
        let a = k * 8;
        let e = a + 8;
        hash_eight(seed, x, r, eight_at(items, a), &mut hashes[a..e]);
    }
    hashes
}

// The key of a child of weight k whose hash is h.
fn own_key(h: u32, k: u32) -> u64
    requires { 0 < k }
    ensures { result ≡ key (cost (h + 1)) k }
{
    logarithm::key(logarithm::cost(h), k)
}

// The winner's item number, where the child at place g is the guard: it leads at first, and no child is asked that is sure to lose against it.
fn contest(items: &[u32], weights: &[u32], hashes: &[u32], g: usize) -> u32
    requires { (length weights.now ≡ length items.now) × (length items.now ≤ length hashes.now) × Found weights.now g }
    ensures { (seed x r : ℕ) → Hashed seed x r items.now hashes.now
        → Some result ≡ draw_of seed x r items.now weights.now }
{
    let w = weights[g];
    let c = logarithm::cost(hashes[g]);
    let mut item = items[g];
    let mut least = logarithm::key(c, w);
    for i in 0..items.len() {
        let j = items[i];
        let k = weights[i];
        let h = hashes[i];
        if i != g && !guard::spared(h, k, c, w) {
            let own = own_key(h, k);
            if wins(j, own, item, least) {
                item = j;
                least = own;
            }
        }
    }
    item
}

// The draw of group x with try number r among children, by their item numbers and their weights.
pub fn draw(seed: u32, x: u32, r: u32, items: &[u32], weights: &[u32]) -> Option<u32>
    requires { (length items.now ≤ 64) × (length weights.now ≡ length items.now) }
    ensures { result ≡ draw_of seed x r items.now weights.now }
{
    let hashes = hash_children(seed, x, r, items);
    let g = guard::pick(&hashes, weights)?;
    if guard::alone(&hashes, weights, g) {
        return Some(items[g]);
    }
    Some(contest(items, weights, &hashes, g))
}
