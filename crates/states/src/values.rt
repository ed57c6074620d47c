// The values of a state put into the text of a map.
ghost use Rattle.std.specs.Prelude.{◌≡◌, ◌+◌, ◌*◌, ◌≤◌, length, drop};
ghost use Rattle.definitions.specs.Map.{map_of};
ghost use Rattle.definitions.specs.Edit.{with_devices};
ghost use Rattle.definitions.specs.States.{drives_in, numbers_of};
ghost use Rattle.text.specs.RoundTrip.{Framed};
ghost use Rattle.text.specs.Edit.{Edited};

// The number of drives beside the bytes, and no Text: a Text lends its bytes for reading only.
// Gives the n drives of a text the weights and acceptances of the drives from word a on, which have the same numbers.
pub fn put_values(t: &mut [u8], n: usize, s: &[u32], a: usize)
    requires framed { Framed t.old × (n ≡ length (map_of t.old).devices) }
    requires n_in_bounds { (a + 3 * n ≤ length s.now) × (length s.now ≤ 24586) }
    requires s_value { numbers_of (drives_in n (drop a s.now)) ≡ numbers_of (map_of t.old).devices }
    ensures { Edited t.new (with_devices (map_of t.old) (drives_in n (drop a s.now))) }
{
    for i in 0..n {
        let w = a + 3 * i;
        edit_frame::put_weight(t, i, s[w + 1]);
        edit_frame::put_acceptance(t, i, s[w + 2]);
    }
}
