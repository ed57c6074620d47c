// The moves of one row, written into the space for them.
ghost use Rattle.std.specs.Prelude.{◌≡◌, ◌+◌, ◌*◌, ◌<◌, ◌≤◌, length};
ghost use Rattle.definitions.specs.Edit.{moves_bytes};
ghost use Rattle.moves.specs.Changes.{change_at, changes_to, Written};

use lockstep::move_line;

// The line of place p, from byte `at` on, where its entries differ; and the byte behind it.
fn put_change(g: u32, p: u32, old: u16, new: u16, cause: u32, space: &mut [u8], at: usize) -> usize
    requires { at + 23 * length (change_at g p old new cause) ≤ length space.old }
    ensures { Written space.old space.new at result (moves_bytes (change_at g p old new cause)) }
{
    if old == new {
        return at;
    }
    let e = at + 23;
    move_line::put_move(&mut space[at..e], g, p, old as u32, new as u32, cause);
    e
}

// The moves of group g between two rows, from byte `at` on, with the causes of its places; and the byte behind them.
pub fn write_moves<'a, 'b, 'c>(
    g: u32,
    causes: [u32; 32],
    old: &'a [u16],
    new: &'b [u16],
    space: &'c mut [u8],
    at: usize,
) -> usize
    requires len { (length old.now ≡ length new.now) × (length old.now ≤ 32) }
    requires in_bounds { at + 23 * length (changes_to g old.now new.now causes (length old.now)) ≤ length space.old }
    ensures { Written space.old space.new at result (moves_bytes (changes_to g old.now new.now causes (length old.now))) }
{
    let mut r = at;
    for i in 0..old.len() {
        let p = i as u32 + 1;
        r = put_change(g, p, old[i], new[i], causes[i], space, r);
    }
    r
}

// Writes the moves of group g, from byte `at` on, and then its new row over the old one; and gives the byte behind the moves.
pub fn apply_row<'a, 'b, 'c>(
    g: u32,
    causes: [u32; 32],
    new: &'a [u16],
    row: &'b mut [u16],
    space: &'c mut [u8],
    at: usize,
) -> usize
    requires row_len { (length row.old ≡ length new.now) × (length row.old ≤ 32) }
    requires row_in_bounds { at + 23 * length (changes_to g row.old new.now causes (length row.old)) ≤ length space.old }
    ensures { (row.new ≡ new.now)
        × Written space.old space.new at result (moves_bytes (changes_to g row.old new.now causes (length row.old))) }
{
    let r = write_moves(g, causes, row, new, space, at);
    row.copy_from_slice(new);
    r
}
