// Document 02, change 7: "the number of those groups", of a table.
ghost use Rattle.std.specs.Prelude.{◌≡◌, ◌*◌, ◌≤◌, length};
ghost use Rattle.ceiling.specs.Rows.{rows_holding};

use crate::rows;

// How many of the groups below `groups`, w places wide each, have a row that holds device d.
pub fn holders(table: &[u16], groups: u32, w: usize, d: u32) -> u32
    requires { (groups ≤ 65536) × (w ≤ 32) × (groups * w ≤ length table.now) }
    ensures { (result ≡ rows_holding w d table.now groups) × (result ≤ groups) }
{
    let mut r = 0;
    for g in 0..groups as usize {
        if rows::holds(&table[g * w..g * w + w], d) {
            r += 1;
        }
    }
    r
}
