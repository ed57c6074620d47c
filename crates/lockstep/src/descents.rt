// Two descents from one bucket, by the old values and by the new, made at once.
ghost use Rattle.std.specs.Prelude.{◌<◌};
ghost use Rattle.lockstep.specs.Meets.{Meets, MeetingBounds};

use crate::{Together, partings};
use definitions::{Landed, Parting};
use hierarchy::{Plan, Values};
use item::Item;

// One draw of each run at a time: they part where the two ends differ, and go down together where they are one.
pub fn meet<'a>(
    plan: &'a Plan,
    old: &'a Values,
    new: &'a Values,
    x: u32,
    t: u32,
    r: u32,
    b: u32,
) -> Together<Landed>
    requires { b < 256 }
    ensures meets { Meets plan.now old.now new.now x t r b result }
    ensures bounds { MeetingBounds result }
{
    // Read of the plan only for the proof, which learns here that the plan is sound.
    let _ = &plan.words;
    let d = descent::draw_at(plan, old, x, r, b);
    let d2 = descent::draw_again(plan, old, new, x, r, b, d);
    if !partings::same_drawn(d, d2) {
        return Err(Parting::Draw(d, d2));
    }
    let Some(i) = d else {
        return Ok(Landed {
            bucket: b,
            drawn: d,
        });
    };
    if t < descent::type_of(&plan.words, i) {
        let child = Item::from(i);
        let c = child.bucket_number();
        meet(plan, old, new, x, t, r, c)
    } else {
        Ok(Landed {
            bucket: b,
            drawn: d,
        })
    }
}
