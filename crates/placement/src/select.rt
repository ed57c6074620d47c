// Document 01, "Walk, select and rule": a select over the working list.
ghost use Rattle.std.specs.Prelude.{◌≡◌, ℕ, ◌*◌, ◌<◌, ◌≤◌, length, take, Ok, IfOk};
ghost use Rattle.definitions.specs.View.{View};
ghost use Rattle.definitions.specs.Load.{reaches};
ghost use Rattle.laws.specs.Members.{Each};
ghost use Rattle.hierarchy.specs.Arrays.{view_in, Flagged};
ghost use Rattle.walk.specs.Searches.{Inward};
ghost use Rattle.placement.specs.Bare.{left_out, ranked_under, bare_select, filled_up};
ghost use Rattle.placement.specs.Working.{Workable, Entry};
ghost use Rattle.placement.specs.Chosen.{bare_in, UnderBounds};

use definitions::{Mode, Ranked};
use hierarchy::{Plan, Values};
use item::Item;
use std::convert::Infallible;
use walk::{Search, Wanted};

// The places put out (the first `len`, in arrays, since nothing allocates), each with the item held and the entry, and the tries.
#[derive(Clone, Copy)]
pub struct Chosen {
    pub items: [u32; 16],
    pub entries: [u32; 16],
    pub len: usize,
    pub tries: u32,
}

// "independent leaves a hole (ffff), first-n leaves out the place"
pub fn leaves_out(mode: Mode, e: u32) -> bool
    ensures { result ≡ left_out mode e }
{
    match mode {
        Mode::FirstN => e == walk::HOLE,
        Mode::Independent | Mode::Through => false,
    }
}

// What rank r makes under entry a of the working list, these numbers being held so far and f being what it is: under a hole nothing.
fn rank_under<'a, 'b>(
    plan: &'a Plan,
    values: &'a Values,
    x: u32,
    wanted: Wanted,
    a: u32,
    r: u32,
    held: &'b [u32],
    f: u32,
) -> Ranked
    requires flagged { Flagged plan.now values.now }
    requires n_bound { (wanted.n ≤ 16) × (r ≤ 16) × Inward wanted.mode wanted.t × Workable a × (f ≤ 1000) }
    ensures value { result ≡ ranked_under (view_in plan.now values.now) x wanted.mode wanted.n wanted.t a r held.now f }
    ensures bounds { UnderBounds f result }
{
    if a == walk::HOLE {
        return Ranked {
            item: walk::HOLE,
            entry: walk::HOLE,
            fr: 0,
            f: f,
            inner: 0,
        };
    }
    let bucket = Item::from(a);
    let search = Search {
        wanted: wanted,
        start: bucket.bucket_number(),
        r: r,
    };
    walk::rank(plan, values, x, search, held, f)
}

// What a select holds as it begins, the entries emitted before it, with room behind them for the items of its places.
pub fn held_from(before: &[u32]) -> [u32; 48]
    requires { length before.now ≤ 32 }
    ensures { result ≡ filled_up 48 before.now }
{
    let mut held = [walk::HOLE; 48];
    held[..before.len()].copy_from_slice(before);
    held
}

// A select over the first len entries of the working list whose ranks `rank` makes: rank r under entry a, where these numbers are held so far
// and f is what it is.
pub fn select_by<E, F: Fn(u32, u32, &[u32], u32) -> Result<Ranked, E>>(
    rank: F,
    before: &[u32],
    working: [u32; 16],
    len: usize,
    wanted: Wanted,
) -> Result<Chosen, E>
    requires before_len_bound { length before.now ≤ 32 }
    requires le_n { (1 ≤ wanted.n) × (wanted.n ≤ 16) × (len * wanted.n ≤ 16) × Each Workable (take len working) }
    requires ranks { (a r f : ℕ) (held : _) → Workable a → r ≤ 16 → f ≤ 1000 → F.pre rank a r held f }
    requires bounds { (a r f : ℕ) (held : _) (k : Ranked) → Workable a → r ≤ 16 → f ≤ 1000 → F.post rank a r held f (Ok k) → UnderBounds f k }
    ensures { IfOk result (λ d. (d.len ≤ len * wanted.n) × (d.tries ≤ 40800) × ((v : View) (x : ℕ)
        → ((a r f : ℕ) (held : _) (k : Ranked) → F.post rank a r held f (Ok k) → k ≡ ranked_under v x wanted.mode wanted.n wanted.t a r held.now f)
        → bare_in d ≡ bare_select v x wanted.mode wanted.n wanted.t before.now (take len working))) }
{
    let mode = wanted.mode;
    let n = wanted.n;
    let e = before.len();
    let mut held = held_from(before);
    let mut items = [walk::HOLE; 16];
    let mut entries = [walk::HOLE; 16];
    let mut m: usize = 0;
    let mut tries: u32 = 0;
    for i in 0..len {
        let a = working[i];
        let mut f: u32 = 0;
        for r in 0..n {
            let at = e + m;
            let k = rank(a, r + 1, &held[..at], f)?;
            f = k.f;
            tries += walk::tries_in(k);
            if !leaves_out(mode, k.entry) {
                held[at] = k.item;
                items[m] = k.item;
                entries[m] = k.entry;
                m += 1;
            }
        }
    }
    Ok(Chosen {
        items,
        entries,
        len: m,
        tries,
    })
}

// A select over the first len entries of the working list: "for each bucket in it, f = 0 and ranks r = 1 to n follow". "A hole in the
// working list gives n holes to an independent select and nothing to a first-n." Before it stands what earlier blocks have emitted.
pub fn select<'a, 'b>(
    plan: &'a Plan,
    values: &'a Values,
    x: u32,
    before: &'b [u32],
    working: [u32; 16],
    len: usize,
    wanted: Wanted,
) -> Chosen
    requires flagged { Flagged plan.now values.now }
    requires before_len_bound { length before.now ≤ 32 }
    requires le_n { (1 ≤ wanted.n) × (wanted.n ≤ 16) × (len * wanted.n ≤ 16) × Each Workable (take len working) × Inward wanted.mode wanted.t }
    ensures result_value { (bare_in result ≡ bare_select (view_in plan.now values.now) x wanted.mode wanted.n wanted.t before.now (take len working)) × (result.len ≤ len * wanted.n) × (result.tries ≤ 40800) }
    ensures entries { Each (Entry plan.now (reaches wanted.mode wanted.t)) (take result.len result.entries) }
{
    // Read of the plan only for the proof, which learns here that the plan is sound.
    let _ = &plan.words;
    let made = select_by(
        |a, r, held, f| Ok::<Ranked, Infallible>(rank_under(
            plan, values, x, wanted, a, r, held, f,
        )),
        before,
        working,
        len,
        wanted,
    );
    match made {
        Ok(d) => d,
        Err(e) => match e {},
    }
}
