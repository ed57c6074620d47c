// Writing into a buffer of the caller.
ghost use Rattle.std.specs.Prelude.{◌≡◌, ◌≤◌, length};
ghost use Rattle.definitions.specs.Lists.{over};

// All of from over the front of to. "Beyond what is written, bytes stay."
// A loop and no `copy_from_slice`: in `crush_write` that became a call of memmove, and the archive for C asks for memcpy and memset alone.
pub fn copy(from: &[u8], to: &mut [u8])
    requires { length from.now ≤ length to.old }
    ensures { to.new ≡ over from.now to.old }
{
    for (i, b) in from.iter().enumerate() {
        to[i] = *b;
    }
}
