// The line of a move, written into space of the caller.
ghost use Rattle.std.specs.Prelude.{◌≡◌, [], ◌∷◌, ◌++◌, length};
ghost use Rattle.definitions.specs.Edit.{move_line};

use frames::digits;

// "A move is a frame `13`: group (8), place (2, from 1), old (4), new (4), cause (2)", and the byte 10.
pub fn put_move(out: &mut [u8], group: u32, place: u32, old: u32, new: u32, cause: u32)
    requires { length out.old ≡ 23 }
    ensures { out.new ≡ move_line (record { group = group; place = place; old = old; new = new; cause = cause }) ++ (10 ∷ []) }
{
    digits::put_field(&mut out[0..2], 0x13);
    digits::put_field(&mut out[2..10], group);
    digits::put_field(&mut out[10..12], place);
    digits::put_field(&mut out[12..16], old);
    digits::put_field(&mut out[16..20], new);
    digits::put_field(&mut out[20..22], cause);
    out[22] = 10;
}
