// All groups that change: their moves, as an edit or a return tells them, and their new rows.
ghost use Rattle.std.specs.Prelude.{◌≡◌, true, [], ℕ, ◌+◌, ◌*◌, ◌<◌, ◌≤◌, length, get_or, take, drop};
ghost use Rattle.definitions.specs.Lists.{every, over};
ghost use Rattle.definitions.specs.Map.{Map};
ghost use Rattle.definitions.specs.Select.{entries_of};
ghost use Rattle.definitions.specs.Table.{table_of};
ghost use Rattle.definitions.specs.Edit.{moves_of, moves_bytes};
ghost use Rattle.definitions.specs.Calls.{not_first_n};
ghost use Rattle.hierarchy.specs.Arrays.{actions_in};
ghost use Rattle.survey.specs.Places.{list_at, places_at, moves_at, Runs};
ghost use Rattle.survey.specs.Surveyed.{rows_to, moves_by};
ghost use Rattle.survey.specs.Between.{Between};
ghost use Rattle.moves.specs.Changes.{as_told, Written};
ghost use Rattle.moves.specs.Applied.{Long, ToldBy, Rewritten};

use crate::row;
use hierarchy::{Plan, Rule, Values};
use survey::looks;

// What moves the places: an edit, with the causes where the walks part, or a return, with cause 04 at each.
// An enum and no closure for the causes: a caller's closure would hold the old values, of which the clauses below speak.
#[derive(Clone, Copy, PartialEq, Eq)]
pub enum Mover {
    Edit,
    Return,
}

// What is the same for all groups: how many they are, how many places each has, and what moves them.
#[derive(Clone, Copy)]
pub struct Task {
    pub groups: u32,
    pub w: usize,
    pub mover: Mover,
}

// The causes of the places of group g, the first of the array.
fn causes_for<'a>(
    plan: &'a Plan,
    old: &'a Values,
    new: &'a Values,
    rule: Rule,
    g: u32,
    mover: Mover,
) -> [u32; 32]
    requires runs { Runs plan.now old.now rule 32 × Runs plan.now new.now rule 32 × (every not_first_n (actions_in rule) ≡ true) }
    requires g_len_bound { length (list_at plan.now old.now rule g) ≤ 32 }
    ensures { ToldBy mover plan.now old.now new.now rule g result }
{
    match mover {
        Mover::Edit => causes::row_causes(plan, old, new, rule, g),
        Mover::Return => [4; 32],
    }
}

// The moves of group g, from byte `at` on, and its new row; and the byte behind the moves.
fn apply_group<'a, 'b, 'c>(
    plan: &'a Plan,
    old: &'a Values,
    new: &'a Values,
    rule: Rule,
    task: Task,
    g: u32,
    table: &'b mut [u16],
    space: &'c mut [u8],
    at: usize,
) -> usize
    requires runs { Runs plan.now old.now rule task.w × Runs plan.now new.now rule task.w × (every not_first_n (actions_in rule) ≡ true) }
    requires long { Long plan.now old.now rule task.w × Long plan.now new.now rule task.w }
    requires w_in_bounds { (g * task.w + task.w ≤ length table.old) × (g * task.w + task.w ≤ 2097152) }
    requires table_value { take task.w (drop (g * task.w) table.old) ≡ entries_of (places_at plan.now old.now rule task.w g) }
    requires g_in_bounds { at + 23 * length (moves_at plan.now old.now new.now rule task.w g) ≤ length space.old }
    ensures rewritten { Rewritten table.old table.new g task.w
        (entries_of (places_at plan.now new.now rule task.w g)) }
    ensures written { Written space.old space.new at result
        (moves_bytes (as_told task.mover (moves_at plan.now old.now new.now rule task.w g))) }
{
    let w = task.w;
    let told = causes_for(plan, old, new, rule, g, task.mover);
    let row = looks::row_of(plan, new, rule, g, w);
    let a = g as usize * w;
    row::apply_row(g, told, &row[..w], &mut table[a..a + w], space, at)
}

// Writes all moves into the space, in rising group then place, and the new rows over the old. The table is what fill gave before the edit or
// the return, and each group that changes has its mark.
pub fn apply<'a, 'b, 'c>(
    plan: &'a Plan,
    old: &'a Values,
    new: &'a Values,
    rule: Rule,
    task: Task,
    changed: &'a [u8],
    table: &'b mut [u16],
    space: &'c mut [u8],
)
    requires runs { Runs plan.now old.now rule task.w × Runs plan.now new.now rule task.w × (every not_first_n (actions_in rule) ≡ true) }
    requires long { Long plan.now old.now rule task.w × Long plan.now new.now rule task.w }
    requires groups_bound { (task.groups ≤ 65536) × (task.groups ≤ length changed.now) × (task.groups * task.w ≤ length table.old) }
    requires table_value { take (task.groups * task.w) table.old ≡ rows_to (places_at plan.now old.now rule task.w) task.groups }
    requires groups_in_bounds { 23 * length (moves_by task.w (places_at plan.now old.now rule task.w) (places_at plan.now new.now rule task.w) task.groups)
        ≤ length space.old }
    requires by_index { (g : ℕ) → g < task.groups → get_or changed.now g 0 ≡ 0 → moves_at plan.now old.now new.now rule task.w g ≡ [] }
    ensures { (m m' : Map) → Between plan.now old.now new.now rule task.groups task.w m m'
        → (table.new ≡ over (table_of m') table.old)
        × (space.new ≡ over (moves_bytes (as_told task.mover (moves_of m m'))) space.old) }
{
    let mut at = 0;
    for g in 0..task.groups {
        if changed[g as usize] != 0 {
            at = apply_group(plan, old, new, rule, task, g, table, space, at);
        }
    }
}
