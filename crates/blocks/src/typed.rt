// Question 21: "Type 0 in a step 5 answers 21, asked right after question 11."
ghost use Rattle.std.specs.Prelude.{◌≡◌};
ghost use Rattle.definitions.specs.Map.{map_of, action_of};
ghost use Rattle.definitions.specs.Load.{through_typed, typed};

use crate::actions;
use definitions::{Action, Mode, Step};
use frames::records::every;
use text::Text;

#[tactic(auto, unfolding(definitions::specs::Load::through_typed))]
pub fn through_typed(a: Action) -> bool
    ensures { result ≡ through_typed a }
{
    match a {
        Action::Select(Mode::Through, _, ty) => 0 < ty,
        _ => true,
    }
}

pub fn typed(t: &Text) -> bool
    ensures { result ≡ typed (map_of t.now) }
{
    every(
        t,
        |s: Step|
            ensures { result ≡ through_typed (action_of s) }
        { through_typed(actions::action_of(s)) },
    )
}
