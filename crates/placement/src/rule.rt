// Document 01, "Walk, select and rule": the rule's steps, and a group's list with its tries.
ghost use Rattle.std.specs.Prelude.{◌≡◌, List, ℕ, ◌+◌, ◌<◌, ◌≤◌, length, get_or};
ghost use Rattle.std.proofs.Math.Seq.{paste};
ghost use Rattle.definitions.specs.View.{View};
ghost use Rattle.definitions.specs.Walk.{hole};
ghost use Rattle.laws.specs.Members.{Each};
ghost use Rattle.hierarchy.specs.Arrays.{view_in, Flagged, actions_in};
ghost use Rattle.blocks.specs.Products.{emitted_to};
ghost use Rattle.placement.specs.Bare.{bare_act, bare_run_to, filled_up};
ghost use Rattle.placement.specs.Working.{Small};
ghost use Rattle.placement.specs.Ruled.{Ready};
ghost use Rattle.placement.specs.Progress.{run_in, Doable, Stepped, Ran};

use crate::progress::Progress;
use crate::select;
use blocks::actions;
use definitions::{Action, Mode};
use hierarchy::{Plan, Rule, Values};
use item::Item;
use walk::Wanted;

// "Take sets the working list to one bucket."
fn take_bucket(p: Progress, b: u32) -> Progress
    requires { b < 256 }
    ensures { ((v : View) (x : ℕ) → run_in result ≡ bare_act v x (run_in p) (Action.Take b)) × Stepped p (Action.Take b) result }
{
    let i = Item::bucket(b);
    let list = p.list;
    let mut items = p.items;
    let mut working = p.working;
    items[0] = i.number;
    working[0] = i.number;
    Progress {
        items: items,
        working: working,
        len: 1,
        list: list,
        emitted: p.emitted,
        tries: p.tries,
    }
}

// The select's entries become the working list.
fn selected<'a>(
    plan: &'a Plan,
    values: &'a Values,
    x: u32,
    p: Progress,
    mode: Mode,
    n: u32,
    t: u32,
) -> Progress
    requires flagged { Flagged plan.now values.now }
    requires room { (p.tries ≤ 1000000) × Doable p (Action.Select mode n t) }
    ensures { (run_in result ≡ bare_act (view_in plan.now values.now) x (run_in p) (Action.Select mode n t)) × Stepped p (Action.Select mode n t) result }
{
    let list = p.list;
    let working = p.working;
    let wanted = Wanted { mode, n, t };
    let c = select::select(plan, values, x, &list[..p.emitted], working, p.len, wanted);
    let items = c.items;
    let entries = c.entries;
    Progress {
        items: items,
        working: entries,
        len: c.len,
        list: list,
        emitted: p.emitted,
        tries: p.tries + c.tries,
    }
}

// A list with the first `len` entries of the working list behind its first `at`.
pub fn append(mut list: [u32; 32], at: usize, working: [u32; 16], len: usize) -> [u32; 32]
    requires { (len ≤ 16) × (at + len ≤ 32) }
    ensures { result ≡ paste list at working len }
{
    list[at..at + len].copy_from_slice(&working[..len]);
    list
}

// "Emit appends the working list."
fn emit(p: Progress) -> Progress
    requires { p.emitted + p.len ≤ 32 }
    ensures { ((v : View) (x : ℕ) → run_in result ≡ bare_act v x (run_in p) Action.Emit) × Stepped p Action.Emit result }
{
    let items = p.items;
    let working = p.working;
    let list = p.list;
    let longer = append(list, p.emitted, working, p.len);
    Progress {
        items: items,
        working: working,
        len: p.len,
        list: longer,
        emitted: p.emitted + p.len,
        tries: p.tries,
    }
}

// One step more.
pub fn act<'a>(plan: &'a Plan, values: &'a Values, x: u32, p: Progress, a: Action) -> Progress
    requires flagged { Flagged plan.now values.now }
    requires room { (p.tries ≤ 1000000) × Doable p a }
    ensures { (run_in result ≡ bare_act (view_in plan.now values.now) x (run_in p) a) × Stepped p a result }
{
    match a {
        Action::Take(b) => take_bucket(p, b),
        Action::Select(mode, n, t) => selected(plan, values, x, p, mode, n, t),
        Action::Emit => emit(p),
        Action::Idle => p,
    }
}

// A run of which no step is made yet.
pub fn start() -> Progress
    ensures { ((v : View) (x : ℕ) (actions : List Action) → Ran v x actions 0 result) × (result.len ≡ 0) × (result.emitted ≡ 0) }
{
    Progress {
        items: [walk::HOLE; 16],
        working: [walk::HOLE; 16],
        len: 0,
        list: [walk::HOLE; 32],
        emitted: 0,
        tries: 0,
    }
}

// The steps of the rule, for group x.
pub fn run<'a>(plan: &'a Plan, values: &'a Values, rule: Rule, x: u32) -> Progress
    requires { (rule.len ≤ 16) × Ready plan.now values.now (actions_in rule) }
    ensures { (run_in result ≡ bare_run_to (view_in plan.now values.now) x (actions_in rule) rule.len) × (result.emitted ≤ emitted_to (actions_in rule) rule.len) }
{
    // Read of the plan only for the proof, which learns here that the plan is sound.
    let _ = &plan.words;
    let mut p = start();
    for k in 0..rule.len {
        let a = actions::action_of(rule.steps[k]);
        p = act(plan, values, x, p, a);
    }
    p
}

// Place i of a row that holds the list: past the list's end a hole.
fn place_at(list: &[u32], i: usize) -> u16
    requires { Each Small list.now }
    ensures { result ≡ get_or list.now i hole }
{
    if i < list.len() {
        return list[i] as u16;
    }
    walk::HOLE as u16
}

// "unused places at the end are ffff"
pub fn write_row(list: &[u32], row: &mut [u16])
    requires { Each Small list.now × (length list.now ≤ length row.old) }
    ensures { row.new ≡ filled_up (length row.old) list.now }
{
    for i in 0..row.len() {
        row[i] = place_at(list, i);
    }
}

// Writes the list of group x over the whole row, and returns its tries.
pub fn place_row<'a, 'b>(
    plan: &'a Plan,
    values: &'a Values,
    rule: Rule,
    x: u32,
    row: &'b mut [u16],
) -> u32
    requires len_bound { (rule.len ≤ 16) × Ready plan.now values.now (actions_in rule) }
    requires len_in_bounds { emitted_to (actions_in rule) rule.len ≤ length row.old }
    ensures { (row.new ≡ filled_up (length row.old) (bare_run_to (view_in plan.now values.now) x (actions_in rule) rule.len).list) × (result ≡ (bare_run_to (view_in plan.now values.now) x (actions_in rule) rule.len).tries) }
{
    // Read of the plan only for the proof, which learns here that the plan is sound.
    let _ = &plan.words;
    let p = run(plan, values, rule, x);
    let list = p.list;
    let m = p.emitted;
    write_row(&list[..m], row);
    p.tries
}
