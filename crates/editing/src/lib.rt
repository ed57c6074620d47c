// The work of an edit between its questions: whether it fits, the arrays before it and after it, the survey of the table, and the value put into the text.
#![tactic(auto)]

ghost use Rattle.std.specs.Prelude.{◌≡◌, true, ◌*◌, ◌≤◌, length};
ghost use Rattle.definitions.specs.Frames.{frames_in};
ghost use Rattle.definitions.specs.Map.{Map, map_of};
ghost use Rattle.definitions.specs.Load.{load_number};
ghost use Rattle.definitions.specs.Edit.{put};
ghost use Rattle.definitions.specs.Writing.{map_text};
ghost use Rattle.definitions.specs.Calls.{fits};
ghost use Rattle.text.specs.Shape.{shape_of};
ghost use Rattle.hierarchy.specs.Tables.{Tabled};
ghost use Rattle.compile.specs.Weighing.{bucket_weight};
ghost use Rattle.survey.specs.Places.{places_at, Runs};
ghost use Rattle.survey.specs.Surveyed.{Surveyed};
ghost use Rattle.survey.specs.Between.{Between, Answers};
ghost use Rattle.editing.specs.Fitting.{Fitted, PlaceOf};
ghost use Rattle.editing.specs.Paired.{Paired};
ghost use Rattle.editing.specs.Reaching.{reach_of, Reaches};

use compile::{Weighed, steps};
use definitions::Change;
use hierarchy::{Hierarchy, Plan, Rule, Values};
use survey::looks::Reach;
use survey::surveys;
use survey::surveys::Findings;
use text::{Shape, Text};

// A map in flat arrays before an edit and after it: the plan and the rule are the same. The loads are the weights of the buckets after it, by
// number.
#[derive(Clone, Copy)]
pub struct Pair {
    pub plan: Plan,
    pub old: Values,
    pub new: Values,
    pub loads: [u32; 256],
    pub rule: Rule,
}

impl Pair {
    // A map in flat arrays, and what of it is another after an edit.
    pub fn new(before: &Hierarchy, after: &Weighed) -> Pair
        ensures { result ≡ record { plan = before.now.plan; old = before.now.values; new = after.now.values; loads = after.now.loads; rule = before.now.rule } }
    {
        let plan = before.plan;
        let old = before.values;
        let new = after.values;
        let loads = after.loads;
        Pair {
            plan,
            old,
            new,
            loads,
            rule: before.rule,
        }
    }
}

// Where the device of an edit stands, if the edit fits.
pub fn fitting(text: &Text, c: Option<Change>) -> Option<usize>
    ensures { Fitted (map_of text.now) c result }
{
    let Some(e) = c else {
        return None;
    };
    match e {
        Change::Acceptance(d, v) => {
            if 65536 < v {
                return None;
            }
            edit_frame::find_device(text, d)
        }
        Change::Weight(d, v) => {
            if 65535 < v {
                return None;
            }
            edit_frame::find_device(text, d)
        }
    }
}

// Puts the value of an edit that fits into device k of the text, and behind a weight the weights of the buckets.
pub fn put_value(map: &mut [u8], s: Shape, k: usize, c: Option<Change>, loads: &[u32; 256])
    requires map_value { (load_number map.old ≡ 0) × (s ≡ shape_of (frames_in map.old)) × (fits (map_of map.old) c ≡ true) × PlaceOf (map_of map.old) c k }
    requires tabled { Tabled loads.now 256 (bucket_weight (put (map_of map.old) c)) }
    ensures { map.new ≡ map_text (put (map_of map.old) c) }
{
    let Some(e) = c else {
        return;
    };
    match e {
        Change::Acceptance(d, v) => {
            edit_frame::put_acceptance(map, k, v);
        }
        Change::Weight(d, v) => {
            edit_frame::put_weight(map, k, v);
            edit_frame::put_sums(map, s, loads);
        }
    }
}

// The arrays of the map as it is and as an edit leaves it.
pub fn pair_of(text: &Text, c: Option<Change>) -> Pair
    requires { (load_number text.now ≡ 0) × (fits (map_of text.now) c ≡ true) }
    ensures { Paired (map_of text.now) (put (map_of text.now) c) result }
{
    let before = compile::compile(text, None);
    let after = compile::weigh(text, c, &before.plan, steps::goes_through(before.rule));
    Pair::new(&before, &after)
}

// Lowering an acceptance moves places only in groups whose row before it holds the device, raising it only in those whose row after it does.
fn reach_of(d: u32, before: u32, after: u32) -> Reach
    ensures { result ≡ reach_of d before after }
{
    if after <= before {
        return Reach::Before(d);
    }
    Reach::After(d)
}

// Surveys the table for an edit, that of an acceptance within its reach.
pub fn survey_edit(
    plan: &Plan,
    old: &Values,
    new: &Values,
    rule: Rule,
    groups: u32,
    w: usize,
    table: &[u16],
    c: Option<Change>,
) -> Option<Findings>
    requires runs { Runs plan.now old.now rule w × Runs plan.now new.now rule w }
    requires groups_bound { (groups ≤ 65536) × (groups * w ≤ length table.now) × Reaches plan.now old.now new.now rule groups w c }
    ensures surveyed { Surveyed w
        (places_at plan.now old.now rule w)
        (places_at plan.now new.now rule w)
        groups table.now result }
    ensures answers { (m m' : Map) → Between plan.now old.now new.now rule groups w m m'
        → Answers m m' table.now result }
{
    let Some(Change::Acceptance(d, v)) = c else {
        return surveys::survey(plan, old, new, rule, groups, w, table);
    };
    let reach = reach_of(d, old[d as usize], v);
    surveys::survey_within(plan, old, new, rule, groups, w, table, reach)
}
