// Document 01, "Table, edits, moves": the cause of each place of a group's list between two runs, old and new, over one plan, of one rule
// whose selects leave holes.
#![tactic(auto)]

ghost use Rattle.std.specs.Prelude.{◌≡◌, true, ◌++◌, ℕ, ◌+◌, ◌/◌, ◌%◌, ◌<◌, ◌≤◌, length, get_or, take};
ghost use Rattle.definitions.specs.Lists.{every};
ghost use Rattle.definitions.specs.View.{View};
ghost use Rattle.definitions.specs.Select.{nowhere};
ghost use Rattle.definitions.specs.Rule.{run_to};
ghost use Rattle.definitions.specs.Edit.{parting, cause_of};
ghost use Rattle.definitions.specs.Calls.{not_first_n};
ghost use Rattle.hierarchy.specs.Arrays.{view_in, Flagged, actions_in};
ghost use Rattle.walk.specs.Searches.{Inward};
ghost use Rattle.placement.specs.Working.{Workable};
ghost use Rattle.placement.specs.Ruled.{Ready};
ghost use Rattle.placement.specs.Progress.{Acted};
ghost use Rattle.causes.specs.Under.{TellsUnder, TellsTo};
ghost use Rattle.causes.specs.Beside.{Able, Listed, Worked, Leads};

mod ends;
pub mod joint;

use blocks::actions;
use definitions::Action;
use hierarchy::{Plan, Rule, Values};
use item::Item;
use lockstep::{partings, ranks};
use placement::progress::Progress;
use placement::{rule, select};
use walk::{Search, Wanted};

// Both runs after some steps: where each has come to, and the causes of the places of their working lists and of those emitted so far. A
// cause of 0 says that the two places are the same, walks and all.
#[derive(Clone, Copy)]
pub struct Both {
    pub old: Progress,
    pub new: Progress,
    pub causes: [u32; 16],
    pub list: [u32; 32],
}

// What a place of a select is made from: the entry in the old run and the cause of the place above it, and its rank there.
#[derive(Clone, Copy)]
pub struct Above {
    pub entry: u32,
    pub cause: u32,
    pub rank: u32,
}

// The cause of the place that a rank makes under another. Walks that part above part there, whatever comes behind; under one hole there is
// no event.
fn place_cause<'a, 'b, 'c>(
    plan: &'a Plan,
    old: &'a Values,
    new: &'a Values,
    x: u32,
    wanted: Wanted,
    olds: &'b [u32],
    news: &'c [u32],
    above: Above,
) -> u32
    requires n_bound { (wanted.n ≤ 16) × (above.rank ≤ 16) × Inward wanted.mode wanted.t × Workable above.entry }
    ensures { TellsUnder (view_in plan.now old.now) (view_in plan.now new.now)
        x wanted.mode wanted.n wanted.t olds.now news.now above.cause above.entry above.rank result }
{
    if above.cause != 0 {
        return above.cause;
    }
    if above.entry == walk::HOLE {
        return 0;
    }
    let bucket = Item::from(above.entry);
    let search = Search {
        wanted: wanted,
        start: bucket.bucket_number(),
        r: above.rank,
    };
    let k = ranks::part_rank(plan, old, new, x, search, olds, news, 0);
    partings::cause(k.err())
}

// What place k of a select is made from.
fn above_at<'a>(working: &'a [u32; 16], causes: &'a [u32; 16], n: u32, k: usize) -> Above
    requires { (1 ≤ n) × (k / n < 16) × (k % n < 16) }
    ensures { result ≡ record { entry = get_or working.now (k / n) 0; cause = get_or causes.now (k / n) 0; rank = k % n + 1 } }
{
    let w = n as usize;
    let i = k / w;
    Above {
        entry: working[i],
        cause: causes[i],
        rank: (k % w) as u32 + 1,
    }
}

// What a run holds in a select that leads it from one progress to another: what it has emitted, and behind that the items of its places.
fn held_by(from: Progress, to: Progress) -> [u32; 48]
    ensures { (k : ℕ) → k ≤ 16 → take (from.emitted + k) result ≡ take from.emitted from.list ++ take k to.items }
{
    let list = from.list;
    let e = from.emitted;
    let items = to.items;
    let mut held = select::held_from(&list[..e]);
    held[e..e + 16].copy_from_slice(&items);
    held
}

// The causes of the places of a select that has led the two runs from p to o and n. Each run holds what it has emitted, and items of its own.
fn causes_of<'a>(
    plan: &'a Plan,
    old: &'a Values,
    new: &'a Values,
    x: u32,
    wanted: Wanted,
    p: Both,
    o: Progress,
    n: Progress,
) -> [u32; 16]
    requires le_n { (1 ≤ wanted.n) × (wanted.n ≤ 16) × Inward wanted.mode wanted.t
        × ((i : ℕ) → i < o.len → Workable (get_or p.old.working (i / wanted.n) 0)) }
    ensures { TellsTo (view_in plan.now old.now) (view_in plan.now new.now)
        x wanted.mode wanted.n wanted.t (take p.old.emitted p.old.list) (take p.new.emitted p.new.list)
        o.items n.items p.causes p.old.working o.len result }
{
    let from = p.old;
    let from2 = p.new;
    let working = from.working;
    let above = p.causes;
    let olds = held_by(from, o);
    let news = held_by(from2, n);
    let e = from.emitted;
    let e2 = from2.emitted;
    let mut causes: [u32; 16] = [0; 16];
    for k in 0..o.len {
        let a = above_at(&working, &above, wanted.n, k);
        causes[k] = place_cause(
            plan,
            old,
            new,
            x,
            wanted,
            &olds[..e + k],
            &news[..e2 + k],
            a,
        );
    }
    causes
}

// The causes of the places of the working lists, where action a has led the two runs from p to o and n.
fn worked<'a>(
    plan: &'a Plan,
    old: &'a Values,
    new: &'a Values,
    x: u32,
    p: Both,
    a: Action,
    o: Progress,
    n: Progress,
) -> [u32; 16]
    requires able { Able p a }
    requires acted { Acted (view_in plan.now old.now) x p.old a o × Acted (view_in plan.now new.now) x p.new a n }
    ensures { Worked (view_in plan.now old.now) (view_in plan.now new.now) x p a result }
{
    let causes = p.causes;
    match a {
        Action::Take(_) => [0; 16],
        Action::Select(mode, n1, t) => causes_of(
            plan,
            old,
            new,
            x,
            Wanted { mode, n: n1, t },
            p,
            o,
            n,
        ),
        Action::Emit => causes,
        Action::Idle => causes,
    }
}

// The causes of the places emitted, after action a: "Emit appends the working list."
fn listed(p: Both, a: Action) -> [u32; 32]
    requires { Able p a }
    ensures { (v w : View) (x : ℕ) → Listed v w x p a result }
{
    let list = p.list;
    let causes = p.causes;
    let from = p.old;
    match a {
        Action::Take(_) => list,
        Action::Select(_, _, _) => list,
        Action::Emit => rule::append(list, from.emitted, causes, from.len),
        Action::Idle => list,
    }
}

// One step more in both runs.
fn act<'a>(plan: &'a Plan, old: &'a Values, new: &'a Values, x: u32, p: Both, a: Action) -> Both
    requires able { Able p a }
    requires flagged { Flagged plan.now old.now × Flagged plan.now new.now }
    ensures { Leads (view_in plan.now old.now) (view_in plan.now new.now) x p a result }
{
    let from = p.old;
    let from2 = p.new;
    let o = rule::act(plan, old, x, from, a);
    let n = rule::act(plan, new, x, from2, a);
    let causes = worked(plan, old, new, x, p, a, o, n);
    let list = listed(p, a);
    Both {
        old: o,
        new: n,
        causes: causes,
        list: list,
    }
}

// The cause of each place of the list of group x: where its walks in the old run and in the new run first part, and 0 where they are the same.
pub fn row_causes<'a>(
    plan: &'a Plan,
    old: &'a Values,
    new: &'a Values,
    rule: Rule,
    x: u32,
) -> [u32; 32]
    requires len_bound { (rule.len ≤ 16) × (every not_first_n (actions_in rule) ≡ true) }
    requires ready { Ready plan.now old.now (actions_in rule) × Ready plan.now new.now (actions_in rule) }
    ensures { let s = run_to (view_in plan.now old.now) x (actions_in rule) rule.len in
        let s2 = run_to (view_in plan.now new.now) x (actions_in rule) rule.len in
        (j : ℕ) → j < length s.list → get_or result j 0 ≡ cause_of (parting (get_or s.list j nowhere).walk (get_or s2.list j nowhere).walk) }
{
    // Read of the plan only for the proof, which learns here that the plan is sound.
    let _ = &plan.words;
    let start = rule::start();
    let mut p = Both {
        old: start,
        new: start,
        causes: [0; 16],
        list: [0; 32],
    };
    let steps = rule.steps;
    for step in &steps[..rule.len] {
        p = act(plan, old, new, x, p, actions::action_of(*step));
    }
    p.list
}
