// Where two walks part, by the ends of two draws or of two tests, and the cause that follows.
ghost use Rattle.std.specs.Prelude.{◌≡◌};
ghost use Rattle.definitions.specs.Edit.{same_drawn, same_verdict, cause_of};

use definitions::{Parting, Verdict};

pub fn same_drawn(d: Option<u32>, e: Option<u32>) -> bool
    ensures { result ≡ same_drawn d e }
{
    d == e
}

pub fn same_verdict(v: Verdict, w: Verdict) -> bool
    ensures { result ≡ same_verdict v w }
{
    v == w
}

// "Where 01 and 03 both apply, 03."
// A number, as in a frame 13, and as `Edit.cause_of` and the theorems on it say it.
pub fn cause(p: Option<Parting>) -> u32
    ensures { result ≡ cause_of p }
{
    let Some(q) = p else {
        return 0;
    };
    match q {
        Parting::Draw(_, _) => 2,
        Parting::Test(v, w) => if v == Verdict::Held || w == Verdict::Held {
            3
        } else {
            1
        },
    }
}
