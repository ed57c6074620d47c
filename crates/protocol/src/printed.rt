// The lines that programs `fill` and `operate` print, each written over the whole of a space of its length.
ghost use Rattle.std.specs.Prelude.{◌≡◌, map, ◌+◌, ◌*◌, ◌≤◌, length};
ghost use Rattle.definitions.specs.Lists.{joined};
ghost use Rattle.definitions.specs.Frames.{hex};
ghost use Rattle.protocol.specs.Lines.{row_line, refusal_line};

use frames::digits;

// The places of a row, one behind the other.
fn put_places(row: &[u16], out: &mut [u8])
    requires { (length out.old ≡ 4 * length row.now) × (length row.now ≤ 32) }
    ensures { out.new ≡ joined (map (hex 4) row.now) }
{
    for (i, place) in row.iter().enumerate() {
        digits::put_field(&mut out[4 * i..4 * i + 4], u32::from(*place));
    }
}

// The row of a group.
pub fn row_line(group: u32, row: &[u16], out: &mut [u8])
    requires { (length out.old ≡ 11 + 4 * length row.now) × (length row.now ≤ 32) }
    ensures { out.new ≡ row_line group row.now }
{
    let e = 10 + 4 * row.len();
    digits::put_field(&mut out[0..2], 0x11);
    digits::put_field(&mut out[2..10], group);
    put_places(row, &mut out[10..e]);
    out[e] = 10;
}

// A refusal.
pub fn refusal_line(number: u32, out: &mut [u8])
    requires { length out.old ≡ 5 }
    ensures { out.new ≡ refusal_line number }
{
    digits::put_field(&mut out[0..2], 0x1f);
    digits::put_field(&mut out[2..4], number);
    out[4] = 10;
}
