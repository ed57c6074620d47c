// Document 01, "Questions at the door", 19, alone: the whole table beside what fill gives.
ghost use Rattle.std.specs.Prelude.{◌≡◌, ◌*◌, ◌≤◌, length, take};
ghost use Rattle.definitions.specs.Lists.{same};
ghost use Rattle.survey.specs.Places.{places_at, Runs};
ghost use Rattle.survey.specs.Surveyed.{rows_to};

use crate::looks;
use hierarchy::{Plan, Rule, Values};

// Whether the rows of the groups below `groups`, w places wide each, are what the table holds.
pub fn is_fresh<'a, 'b>(
    plan: &'a Plan,
    values: &'a Values,
    rule: Rule,
    groups: u32,
    w: usize,
    table: &'b [u16],
) -> bool
    requires runs { Runs plan.now values.now rule w }
    requires groups_bound { (groups ≤ 65536) × (groups * w ≤ length table.now) }
    ensures { result ≡ same (take (groups * w) table.now)
        (rows_to (places_at plan.now values.now rule w) groups) }
{
    for g in 0..groups {
        let a = g as usize * w;
        if !looks::stands(plan, values, rule, g, w, &table[a..a + w]) {
            return false;
        }
    }
    true
}
