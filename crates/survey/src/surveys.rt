// Document 01, "Questions at the door", 19 and 20: the whole table beside what fill gives, and the number of an edit's moves.
ghost use Rattle.std.specs.Prelude.{ℕ, ◌*◌, ◌<◌, ◌≤◌, length};
ghost use Rattle.definitions.specs.Map.{Map};
ghost use Rattle.survey.specs.Places.{places_at, Runs, Within};
ghost use Rattle.survey.specs.Between.{Between, Answers};
ghost use Rattle.survey.specs.Surveyed.{Surveyed};

use crate::looks;
use crate::looks::Reach;
use hierarchy::{Plan, Rule, Values};

// How many places move, and 1 for each group of which some do.
#[derive(Clone, Copy)]
pub struct Findings {
    pub moves: u32,
    pub changed: [u8; 65536],
}

// Looks at every group below groups, w places wide each, and writes nothing. Places move within the reach alone. None: the table is not what
// fill gives.
pub fn survey_within<'a, 'b>(
    plan: &'a Plan,
    old: &'a Values,
    new: &'a Values,
    rule: Rule,
    groups: u32,
    w: usize,
    table: &'b [u16],
    reach: Reach,
) -> Option<Findings>
    requires runs { Runs plan.now old.now rule w × Runs plan.now new.now rule w }
    requires groups_bound { (groups ≤ 65536) × (groups * w ≤ length table.now) }
    requires by_index { (g : ℕ) → g < groups → Within reach plan.now old.now new.now rule w g }
    ensures surveyed { Surveyed w
        (places_at plan.now old.now rule w)
        (places_at plan.now new.now rule w)
        groups table.now result }
    ensures answers { (m m' : Map) → Between plan.now old.now new.now rule groups w m m'
        → Answers m m' table.now result }
{
    let mut changed = [0; 65536];
    let mut moves = 0;
    for g in 0..groups {
        let here = looks::reach_at(reach, moves, g);
        let a = g as usize * w;
        let k = looks::look(plan, old, new, rule, g, w, &table[a..a + w], here)?;
        changed[g as usize] = u8::from(k != 0);
        moves += k;
    }
    Some(Findings { moves, changed })
}

// Looks at every group, of which any may have places that move.
pub fn survey<'a, 'b>(
    plan: &'a Plan,
    old: &'a Values,
    new: &'a Values,
    rule: Rule,
    groups: u32,
    w: usize,
    table: &'b [u16],
) -> Option<Findings>
    requires runs { Runs plan.now old.now rule w × Runs plan.now new.now rule w }
    requires groups_bound { (groups ≤ 65536) × (groups * w ≤ length table.now) }
    ensures surveyed { Surveyed w
        (places_at plan.now old.now rule w)
        (places_at plan.now new.now rule w)
        groups table.now result }
    ensures answers { (m m' : Map) → Between plan.now old.now new.now rule groups w m m'
        → Answers m m' table.now result }
{
    survey_within(plan, old, new, rule, groups, w, table, Reach::Anywhere)
}
