// Document 01, "Table, edits, moves": the rows of the groups, each written as a part of the table.
#![tactic(auto)]

ghost use Rattle.std.specs.Prelude.{◌≡◌, ◌++◌, ◌*◌, ◌≤◌, length, drop};
ghost use Rattle.blocks.specs.Products.{emitted_to};
ghost use Rattle.hierarchy.specs.Arrays.{view_in, actions_in};
ghost use Rattle.placement.specs.Ruled.{Ready};
ghost use Rattle.table.specs.Rows.{rows_to};

use hierarchy::{Plan, Rule, Values};
use placement::rule;

// Fills the rows of the groups below `groups`, each w places wide.
pub fn fill_rows<'a, 'b>(
    plan: &'a Plan,
    values: &'a Values,
    rule: Rule,
    groups: u32,
    w: usize,
    table: &'b mut [u16],
)
    requires len_bound { (rule.len ≤ 16) × Ready plan.now values.now (actions_in rule) }
    requires len_bound_2 { (emitted_to (actions_in rule) rule.len ≤ w) × (w ≤ 32) × (groups ≤ 65536) × (groups * w ≤ length table.old) }
    ensures { table.new ≡ rows_to (view_in plan.now values.now) (actions_in rule) rule.len w groups ++ drop (groups * w) table.old }
{
    for g in 0..groups {
        let a = g as usize * w;
        let e = a + w;
        rule::place_row(plan, values, rule, g, &mut table[a..e]);
    }
}
