// Both runs of a group at once, as long as their walks are one: an edit leaves most groups as they were, and both runs of such a group cost
// little more than one.
ghost use Rattle.std.specs.Prelude.{◌≡◌, true, ◌*◌, ◌≤◌, length, take, IfOk};
ghost use Rattle.laws.specs.Members.{Each};
ghost use Rattle.hierarchy.specs.Arrays.{view_in, Flagged, actions_in};
ghost use Rattle.blocks.specs.Products.{emitted_to};
ghost use Rattle.walk.specs.Searches.{Inward};
ghost use Rattle.placement.specs.Bare.{bare_select, bare_run_to, filled_up};
ghost use Rattle.placement.specs.Working.{Workable};
ghost use Rattle.placement.specs.Ruled.{Ready};
ghost use Rattle.placement.specs.Chosen.{bare_in};
ghost use Rattle.placement.specs.Progress.{run_in, Doable, Acted};
ghost use Rattle.causes.specs.Joint.{Under};

use crate::ends;
use blocks::actions;
use definitions::{Action, Mode, Ranked};
use hierarchy::{Plan, Rule, Values};
use item::Item;
use lockstep::Together;
use placement::progress::Progress;
use placement::select::Chosen;
use placement::{rule, select};
use walk::{Search, Wanted};

// What rank r makes in both runs under entry a of the working list, these numbers being held so far and f being what it is: under a hole
// nothing.
// As in `placement::select`, but by two runs: other walks are called, and more is asked of the values.
fn rank_under<'a, 'b>(
    plan: &'a Plan,
    old: &'a Values,
    new: &'a Values,
    x: u32,
    wanted: Wanted,
    a: u32,
    r: u32,
    held: &'b [u32],
    f: u32,
) -> Together<Ranked>
    requires flagged { Flagged plan.now old.now × Flagged plan.now new.now }
    requires n_bound { (wanted.n ≤ 16) × (r ≤ 16) × Inward wanted.mode wanted.t × Workable a × (f ≤ 1000) }
    ensures { IfOk result (Under (view_in plan.now old.now) (view_in plan.now new.now)
        x wanted a r held.now f) }
{
    if a == walk::HOLE {
        return Ok(Ranked {
            item: walk::HOLE,
            entry: walk::HOLE,
            fr: 0,
            f: f,
            inner: 0,
        });
    }
    let bucket = Item::from(a);
    let search = Search {
        wanted: wanted,
        start: bucket.bucket_number(),
        r: r,
    };
    ends::rank_ends(plan, old, new, x, search, held, f)
}

// A select of both runs over the first len entries of the working list, up to where a walk parts. Before it stands what earlier blocks have
// emitted.
fn select_both<'a, 'b>(
    plan: &'a Plan,
    old: &'a Values,
    new: &'a Values,
    x: u32,
    before: &'b [u32],
    working: [u32; 16],
    len: usize,
    wanted: Wanted,
) -> Together<Chosen>
    requires flagged { Flagged plan.now old.now × Flagged plan.now new.now }
    requires before_len_bound { length before.now ≤ 32 }
    requires le_n { (1 ≤ wanted.n) × (wanted.n ≤ 16) × (len * wanted.n ≤ 16) × Each Workable (take len working) × Inward wanted.mode wanted.t }
    ensures { IfOk result (λ d.
        (bare_in d ≡ bare_select (view_in plan.now old.now) x wanted.mode wanted.n wanted.t before.now (take len working))
        × (bare_in d ≡ bare_select (view_in plan.now new.now) x wanted.mode wanted.n wanted.t before.now (take len working))
        × (d.len ≤ len * wanted.n) × (d.tries ≤ 40800)) }
{
    select::select_by(
        |a, r, held, f| rank_under(plan, old, new, x, wanted, a, r, held, f),
        before,
        working,
        len,
        wanted,
    )
}

// The select's entries become the working list of both.
fn selected<'a>(
    plan: &'a Plan,
    old: &'a Values,
    new: &'a Values,
    x: u32,
    p: Progress,
    mode: Mode,
    n: u32,
    t: u32,
) -> Together<Progress>
    requires flagged { Flagged plan.now old.now × Flagged plan.now new.now }
    requires room { (p.tries ≤ 1000000) × Doable p (Action.Select mode n t) }
    ensures { IfOk result (λ q. Acted (view_in plan.now old.now) x p (Action.Select mode n t) q
        × Acted (view_in plan.now new.now) x p (Action.Select mode n t) q) }
{
    let list = p.list;
    let working = p.working;
    let wanted = Wanted { mode, n, t };
    let c = select_both(
        plan,
        old,
        new,
        x,
        &list[..p.emitted],
        working,
        p.len,
        wanted,
    )?;
    let items = c.items;
    let entries = c.entries;
    Ok(Progress {
        items,
        working: entries,
        len: c.len,
        list,
        emitted: p.emitted,
        tries: p.tries + c.tries,
    })
}

// One step more in both. What is no select is the same in any run. Only a select can part, so this and `run` are `rule::act` and `rule::run` with a
// way out: one form for both would be no plainer.
fn act<'a>(
    plan: &'a Plan,
    old: &'a Values,
    new: &'a Values,
    x: u32,
    p: Progress,
    a: Action,
) -> Together<Progress>
    requires flagged { Flagged plan.now old.now × Flagged plan.now new.now }
    requires room { (p.tries ≤ 1000000) × Doable p a }
    ensures { IfOk result (λ q. Acted (view_in plan.now old.now) x p a q × Acted (view_in plan.now new.now) x p a q) }
{
    match a {
        Action::Select(mode, n, t) => selected(plan, old, new, x, p, mode, n, t),
        Action::Take(_) => Ok(rule::act(plan, old, x, p, a)),
        Action::Emit => Ok(rule::act(plan, old, x, p, a)),
        Action::Idle => Ok(p),
    }
}

// The steps of the rule for group x in both runs, up to where a walk parts.
fn run<'a>(
    plan: &'a Plan,
    old: &'a Values,
    new: &'a Values,
    rule: Rule,
    x: u32,
) -> Together<Progress>
    requires { (rule.len ≤ 16) × Ready plan.now old.now (actions_in rule) × Flagged plan.now new.now }
    ensures { IfOk result (λ p. (run_in p ≡ bare_run_to (view_in plan.now old.now) x (actions_in rule) rule.len)
        × (run_in p ≡ bare_run_to (view_in plan.now new.now) x (actions_in rule) rule.len)
        × (p.emitted ≤ emitted_to (actions_in rule) rule.len)) }
{
    // Read of the plan only for the proof, which learns here that the plan is sound.
    let _ = &plan.words;
    let mut p = rule::start();
    let steps = rule.steps;
    for step in &steps[..rule.len] {
        p = act(plan, old, new, x, p, actions::action_of(*step))?;
    }
    Ok(p)
}

// Whether no walk of group x parts: then the row is its list in both runs.
pub fn place_both<'a, 'b>(
    plan: &'a Plan,
    old: &'a Values,
    new: &'a Values,
    rule: Rule,
    x: u32,
    row: &'b mut [u16],
) -> bool
    requires len_bound { (rule.len ≤ 16) × Ready plan.now old.now (actions_in rule) × Flagged plan.now new.now }
    requires len_in_bounds { emitted_to (actions_in rule) rule.len ≤ length row.old }
    ensures { result ≡ true →
        (row.new ≡ filled_up (length row.old) (bare_run_to (view_in plan.now old.now) x (actions_in rule) rule.len).list)
        × (row.new ≡ filled_up (length row.old) (bare_run_to (view_in plan.now new.now) x (actions_in rule) rule.len).list) }
{
    // Read of the plan only for the proof, which learns here that the plan is sound.
    let _ = &plan.words;
    let Ok(p) = run(plan, old, new, rule, x) else {
        return false;
    };
    let list = p.list;
    let m = p.emitted;
    rule::write_row(&list[..m], row);
    true
}
