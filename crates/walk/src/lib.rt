// Document 01, "Walk, select and rule": the test of an item, a turn of a rank, and a rank; and, by document 02, change 1, the inner walk of a
// select through.
#![tactic(auto)]

ghost use Rattle.std.specs.Prelude.{◌≡◌, ◌<◌, ◌≤◌, eqb};
ghost use Rattle.definitions.specs.Lists.{has};
ghost use Rattle.definitions.specs.Hash.{hash2};
ghost use Rattle.definitions.specs.Map.{bucket_number};
ghost use Rattle.definitions.specs.Walk.{accepts, accepted, verdict_of, plain, tries_in, found, failed_to, retry_at, on_tried, rank_end};
ghost use Rattle.hierarchy.specs.Arrays.{view_in, live_in, given_up, ItemRange, Flagged};
ghost use Rattle.walk.specs.Searches.{SearchBounds, inner_search, reached_by, try_at, test_at, turn_at, rank_at};
ghost use Rattle.walk.specs.Bounds.{Going, Testable, TriedBounds, TurnBounds, RankBounds};

use definitions::{Mode, Ranked, State, Tried, Turn, Verdict};
use hierarchy::{Plan, Values};
use item::Item;

// "a hole (ffff)": the number of no item.
pub const HOLE: u32 = 65535;

// What a select looks for at each bucket of the working list: n items of type t.
#[derive(Clone, Copy)]
pub struct Wanted {
    pub mode: Mode,
    pub n: u32,
    pub t: u32,
}

// One rank of a select: what it looks for, the bucket that it starts at, and its number r.
#[derive(Clone, Copy)]
pub struct Search {
    pub wanted: Wanted,
    pub start: u32,
    pub r: u32,
}

// Does device d, of acceptance a, pass for group x? By document 02, change 3, 65,536 and 0 decide it by themselves, without a hash.
#[tactic(auto, using(std::proofs::lemmas::Bool::Decides::nat_tests), unfolding(definitions::specs::Walk::accepts))]
fn decide(seed: u32, x: u32, d: u32, a: u32) -> bool
    ensures { result ≡ accepts (hash2 seed x d) a }
{
    if a == 0 {
        return false;
    }
    if 65536 <= a {
        return true;
    }
    jenkins::hash2(seed, x, d) % 65536 < a
}

// Does item i pass acceptance? A bucket always does. Here and in `verdict` the words of a plan serve, which need not be sound.
pub fn accepts<'a>(plan: &'a [u32; hierarchy::SEED + 1], values: &'a Values, x: u32, i: u32) -> bool
    requires { ItemRange i }
    ensures { result ≡ accepted (view_in plan.now values.now) x i }
{
    let item = Item::from(i);
    if item.is_bucket() {
        return true;
    }
    decide(plan[hierarchy::SEED], x, i, values[i as usize])
}

// Is item i among those held?
pub fn holds(held: &[u32], i: u32) -> bool
    ensures { result ≡ has i held.now }
{
    held.contains(&i)
}

// The end of the test of item i.
pub fn verdict<'a, 'b>(
    plan: &'a [u32; hierarchy::SEED + 1],
    values: &'a Values,
    x: u32,
    held: &'b [u32],
    i: u32,
) -> Verdict
    requires { ItemRange i }
    ensures { result ≡ verdict_of (view_in plan.now values.now) x held.now i }
{
    if holds(held, i) {
        return Verdict::Held;
    }
    if accepts(plan, values, x, i) {
        Verdict::Passed
    } else {
        Verdict::Rejected
    }
}

// The test of an item that is itself the entry, under the name that the definitions give it.
pub fn plain(i: u32, w: Verdict) -> Tried
    ensures { result ≡ (plain i w).tried }
{
    Tried {
        verdict: w,
        entry: i,
        inner: 0,
    }
}

fn plain_test<'a, 'b>(plan: &'a Plan, values: &'a Values, x: u32, held: &'b [u32], i: u32) -> Tried
    requires { ItemRange i }
    ensures { result ≡ (plain i (verdict_of (view_in plan.now values.now) x held.now i)).tried }
{
    let w = verdict(&plan.words, values, x, held, i);
    plain(i, w)
}

// "every rise of f_r, and every pass"; "Each inner failure and inner pass is a try too."
pub fn tries_in(k: Ranked) -> u32
    requires { (k.fr ≤ 50) × (k.inner ≤ 2500) }
    ensures { result ≡ tries_in k }
{
    if k.entry == HOLE {
        return k.fr + k.inner;
    }
    k.fr + 1 + k.inner
}

// "Finding none counts as a failed test of the item.": the inner walk ended in k.
pub fn found(k: Ranked) -> Tried
    requires { (k.fr ≤ 50) × (k.inner ≤ 2500) }
    ensures { result ≡ found k }
{
    let tries = tries_in(k);
    Tried {
        verdict: if k.entry == HOLE {
            Verdict::Rejected
        } else {
            Verdict::Passed
        },
        entry: k.entry,
        inner: tries,
    }
}

// Has no device beneath item i both a weight and an acceptance above 0?
pub fn is_dead(values: &Values, i: u32) -> bool
    requires { ItemRange i × (65536 ≤ i) }
    ensures { result ≡ eqb (live_in values.now (bucket_number i)) 0 }
{
    let bucket = Item::from(i);
    let b = bucket.bucket_number() as usize;
    values[hierarchy::LIVE + b] == 0
}

// The test of an item whose inner walk gives up: "it gives up after 50".
pub fn given_up() -> Tried
    ensures { result ≡ found given_up }
{
    Tried {
        verdict: Verdict::Rejected,
        entry: HOLE,
        inner: 50,
    }
}

// The inner walk beneath item i, which r' = q drew: "It begins at the item with the r' that drew it, each inner failure adds n".
pub fn inner(n: u32, q: u32, i: u32) -> Search
    requires { 65536 ≤ i }
    ensures { result ≡ inner_search n q i }
{
    let bucket = Item::from(i);
    let start = bucket.bucket_number();
    let wanted = Wanted {
        mode: Mode::Independent,
        n,
        t: 0,
    };
    Search {
        wanted,
        start,
        r: q,
    }
}

// "In each draw r' is r + f_r × n (independent) or r + f (first-n)."
pub fn try_number(search: Search, s: State) -> u32
    requires { SearchBounds search × Going s }
    ensures { result ≡ try_at search s }
{
    match search.wanted.mode {
        Mode::FirstN => search.r + s.f,
        Mode::Independent | Mode::Through => search.r + s.fr * search.wanted.n,
    }
}

// One failure more, with k tries made within the test, and the next draw at bucket b.
pub fn failed_to(b: u32, k: u32, s: State) -> State
    requires { Going s × (k ≤ 50) }
    ensures { result ≡ failed_to b k s }
{
    State {
        at: b,
        fr: s.fr + 1,
        f: s.f + 1,
        inner: s.inner + k,
    }
}

// Where the next draw is after a held item. "With f_r now below 3": f_r has risen for this failure when it is tested.
#[tactic(auto, using(std::proofs::lemmas::Bool::Decides::nat_tests), unfolding(definitions::specs::Walk::retry_at))]
pub fn retry_at(start: u32, b: u32, s: State) -> u32
    requires { Going s }
    ensures { result ≡ retry_at start b s }
{
    let risen = s.fr + 1;
    if risen < 3 { b } else { start }
}

// What the test of item i, drawn from bucket b, makes of a turn.
pub fn on_tried(start: u32, s: State, b: u32, i: u32, w: Tried) -> Turn
    requires { Going s × (w.inner ≤ 50) }
    ensures { result ≡ on_tried start s b i w }
{
    match w.verdict {
        Verdict::Held => Turn::Fail(failed_to(retry_at(start, b, s), w.inner, s)),
        Verdict::Rejected => Turn::Fail(failed_to(start, w.inner, s)),
        Verdict::Passed => Turn::Fill(i, w.entry, w.inner),
    }
}

// The test of item i, drawn with r' = q. A select through looks beneath an item that it does not hold by an inner walk, which is a rank too.
// Where that walk can only give up, it is not made.
#[cycle(rank_test_turn)]
fn test<'a, 'b>(
    plan: &'a Plan,
    values: &'a Values,
    x: u32,
    search: Search,
    held: &'b [u32],
    q: u32,
    i: u32,
) -> Tried
    requires flagged { Flagged plan.now values.now }
    requires testable { Testable plan.now search q i }
    ensures value { result ≡ (test_at (view_in plan.now values.now) x search held.now q i).tried }
    ensures bounds { TriedBounds plan.now (reached_by search) result }
{
    match search.wanted.mode {
        Mode::FirstN | Mode::Independent => plain_test(plan, values, x, held, i),
        Mode::Through => {
            if holds(held, i) {
                return plain(i, Verdict::Held);
            }
            if is_dead(values, i) {
                return given_up();
            }
            let beneath = inner(search.wanted.n, q, i);
            let k = rank(plan, values, x, beneath, held, 0);
            found(k)
        }
    }
}

// One turn of a rank: a descent, and the test of what it comes to.
#[cycle(rank_test_turn)]
fn turn<'a, 'b>(
    plan: &'a Plan,
    values: &'a Values,
    x: u32,
    search: Search,
    held: &'b [u32],
    s: State,
) -> Turn
    requires flagged { Flagged plan.now values.now }
    requires search_bounds { SearchBounds search × (s.at < 256) × Going s }
    ensures value { result ≡ (turn_at (view_in plan.now values.now) x search held.now s).turn }
    ensures bounds { TurnBounds plan.now (reached_by search) result }
{
    let t = search.wanted.t;
    let start = search.start;
    let q = try_number(search, s);
    let l = descent::descend(plan, values, x, t, q, s.at);
    let drawn = l.drawn;
    let Some(i) = drawn else {
        return Turn::Fail(failed_to(start, 0, s));
    };
    if descent::type_of(&plan.words, i) != t {
        return Turn::Fail(failed_to(start, 0, s));
    }
    let w = test(plan, values, x, search, held, q, i);
    on_tried(start, s, l.bucket, i, w)
}

// What a rank ends in: item i held and e put out, k tries having been made within the last test.
pub fn rank_end(i: u32, e: u32, k: u32, s: State) -> Ranked
    requires { (s.inner ≤ 2500) × (k ≤ 50) }
    ensures { result ≡ rank_end i e k s }
{
    Ranked {
        item: i,
        entry: e,
        fr: s.fr,
        f: s.f,
        inner: s.inner + k,
    }
}

// One rank: turns until a place is filled, or f_r is 50. f0 is f as the rank starts.
#[cycle(rank_test_turn)]
pub fn rank<'a, 'b>(
    plan: &'a Plan,
    values: &'a Values,
    x: u32,
    search: Search,
    held: &'b [u32],
    f0: u32,
) -> Ranked
    requires flagged { Flagged plan.now values.now }
    requires search_bounds { SearchBounds search × (f0 ≤ 1000) }
    ensures value { result ≡ (rank_at (view_in plan.now values.now) x search held.now f0).ranked }
    ensures bounds { RankBounds plan.now (reached_by search) f0 result }
{
    let mut s = State {
        at: search.start,
        fr: 0,
        f: f0,
        inner: 0,
    };
    while s.fr < 50 {
        match turn(plan, values, x, search, held, s) {
            Turn::Fill(i, e, j) => return rank_end(i, e, j, s),
            Turn::Fail(next) => s = next,
        }
    }
    rank_end(HOLE, HOLE, 0, s)
}
