// One group in both runs, or in one where no place of it moves, beside its row of the table. The plan, the values and the rule stay arguments of their
// own, here and above: a struct of references would stand in each clause at two moments, its entry and its exit.
ghost use Rattle.std.specs.Prelude.{◌≡◌, List, ℕ, length, take, IfSome};
ghost use Rattle.definitions.specs.Select.{Place, entries_of};
ghost use Rattle.survey.specs.Places.{places_at, Runs, Stood, Looked, LookedAt, reached, Within};

use crate::rows;
use causes::joint;
use hierarchy::{Plan, Rule, Values};
use placement::rule;

// In which groups places can move: in all, and then in few of them or in many; in those whose old row holds the device, or in those whose new row does.
#[derive(Clone, Copy, PartialEq, Eq)]
pub enum Reach {
    Anywhere,
    Everywhere,
    Before(u32),
    After(u32),
}

// The reach for group g, where so many places moved in those below it. Two runs made at once cost less than two runs where they seldom part, and
// more where they part often.
pub fn reach_at(reach: Reach, moves: u32, g: u32) -> Reach
    ensures { (olds news : List ℕ) → reached result olds news ≡ reached reach olds news }
{
    if reach == Reach::Anywhere && g / 2 < moves {
        return Reach::Everywhere;
    }
    reach
}

// The w places of group x, at the front of the array.
pub fn row_of<'a>(plan: &'a Plan, values: &'a Values, rule: Rule, x: u32, w: usize) -> [u16; 32]
    requires { Runs plan.now values.now rule w }
    ensures { take w result ≡ entries_of (places_at plan.now values.now rule w x) }
{
    let mut row = [0; 32];
    rule::place_row(plan, values, rule, x, &mut row[..w]);
    row
}

// Whether a row holds the w places of group x.
pub fn stands<'a, 'b>(
    plan: &'a Plan,
    values: &'a Values,
    rule: Rule,
    x: u32,
    w: usize,
    row: &'b [u16],
) -> bool
    requires { Runs plan.now values.now rule w × (length row.now ≡ w) }
    ensures { Stood (places_at plan.now values.now rule w x) w row.now result }
{
    let places = row_of(plan, values, rule, x, w);
    row == &places[..w]
}

// How many places of group x move, whose new places these are: the old run places it, w places, which the row should hold.
fn beside<'a, 'b, 'c>(
    plan: &'a Plan,
    old: &'a Values,
    rule: Rule,
    x: u32,
    w: usize,
    row: &'b [u16],
    after: &'c [u16],
) -> Option<u32>
    requires { Runs plan.now old.now rule w × (length row.now ≡ w) × (length after.now ≡ w) }
    ensures { (qs : List Place) → after.now ≡ entries_of qs
        → Looked (places_at plan.now old.now rule w x) qs w x row.now result }
{
    if !stands(plan, old, rule, x, w, row) {
        return None;
    }
    Some(rows::count_row(row, after))
}

// Places group x by both runs, one after the other.
fn look_apart<'a, 'b>(
    plan: &'a Plan,
    old: &'a Values,
    new: &'a Values,
    rule: Rule,
    x: u32,
    w: usize,
    row: &'b [u16],
) -> Option<u32>
    requires { Runs plan.now old.now rule w × Runs plan.now new.now rule w × (length row.now ≡ w) }
    ensures { LookedAt plan.now old.now new.now rule w x row.now result }
{
    let after = row_of(plan, new, rule, x, w);
    beside(plan, old, rule, x, w, row, &after[..w])
}

// Both runs of a group made at once: its w places, at the front of the array, if no walk parts.
fn together<'a>(
    plan: &'a Plan,
    old: &'a Values,
    new: &'a Values,
    rule: Rule,
    x: u32,
    w: usize,
) -> Option<[u16; 32]>
    requires { Runs plan.now old.now rule w × Runs plan.now new.now rule w }
    ensures { IfSome result (λ row. (take w row ≡ entries_of (places_at plan.now old.now rule w x))
        × (take w row ≡ entries_of (places_at plan.now new.now rule w x))) }
{
    let mut row = [0; 32];
    joint::place_both(plan, old, new, rule, x, &mut row[..w]).then_some(row)
}

// Places group x by both runs at once, and one after the other where their walks part.
fn look_anywhere<'a, 'b>(
    plan: &'a Plan,
    old: &'a Values,
    new: &'a Values,
    rule: Rule,
    x: u32,
    w: usize,
    row: &'b [u16],
) -> Option<u32>
    requires { Runs plan.now old.now rule w × Runs plan.now new.now rule w × (length row.now ≡ w) }
    ensures { LookedAt plan.now old.now new.now rule w x row.now result }
{
    match together(plan, old, new, rule, x, w) {
        Some(places) => (row == &places[..w]).then_some(0),
        None => look_apart(plan, old, new, rule, x, w, row),
    }
}

// Where places move only if the old row holds device d: a row without it is placed by the old run alone.
fn look_before<'a, 'b>(
    plan: &'a Plan,
    old: &'a Values,
    new: &'a Values,
    rule: Rule,
    x: u32,
    w: usize,
    row: &'b [u16],
    d: u32,
) -> Option<u32>
    requires runs { Runs plan.now old.now rule w × Runs plan.now new.now rule w × (length row.now ≡ w) }
    requires within { Within (Reach.Before d) plan.now old.now new.now rule w x }
    ensures { LookedAt plan.now old.now new.now rule w x row.now result }
{
    if rows::holds(row, d) {
        return look_apart(plan, old, new, rule, x, w, row);
    }
    stands(plan, old, rule, x, w, row).then_some(0)
}

// Where places move only if the new row holds device d: a new row without it is the old one too.
fn look_after<'a, 'b>(
    plan: &'a Plan,
    old: &'a Values,
    new: &'a Values,
    rule: Rule,
    x: u32,
    w: usize,
    row: &'b [u16],
    d: u32,
) -> Option<u32>
    requires runs { Runs plan.now old.now rule w × Runs plan.now new.now rule w × (length row.now ≡ w) }
    requires within { Within (Reach.After d) plan.now old.now new.now rule w x }
    ensures { LookedAt plan.now old.now new.now rule w x row.now result }
{
    let after = row_of(plan, new, rule, x, w);
    if rows::holds(&after[..w], d) {
        return beside(plan, old, rule, x, w, row, &after[..w]);
    }
    (row == &after[..w]).then_some(0)
}

// How many places of group x move, of which an edit of this reach may move some: one run places it, or both, w places, of which the row should
// hold the old. None: it does not.
pub fn look<'a, 'b>(
    plan: &'a Plan,
    old: &'a Values,
    new: &'a Values,
    rule: Rule,
    x: u32,
    w: usize,
    row: &'b [u16],
    reach: Reach,
) -> Option<u32>
    requires runs { Runs plan.now old.now rule w × Runs plan.now new.now rule w × (length row.now ≡ w) }
    requires within { Within reach plan.now old.now new.now rule w x }
    ensures { LookedAt plan.now old.now new.now rule w x row.now result }
{
    match reach {
        Reach::Anywhere => look_anywhere(plan, old, new, rule, x, w, row),
        Reach::Everywhere => look_apart(plan, old, new, rule, x, w, row),
        Reach::Before(d) => look_before(plan, old, new, rule, x, w, row, d),
        Reach::After(d) => look_after(plan, old, new, rule, x, w, row, d),
    }
}
