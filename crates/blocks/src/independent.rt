// Question 17: "Independent selects only (edit)?" Of step 5, select through: "17 admits it".
ghost use Rattle.std.specs.Prelude.{◌≡◌};
ghost use Rattle.definitions.specs.Map.{map_of, action_of};
ghost use Rattle.definitions.specs.Calls.{not_first_n, independent};

use crate::actions;
use definitions::{Action, Mode, Step};
use frames::records::every;
use text::Text;

#[tactic(auto, unfolding(definitions::specs::Calls::not_first_n))]
pub fn not_first_n(a: Action) -> bool
    ensures { result ≡ not_first_n a }
{
    !matches!(a, Action::Select(Mode::FirstN, _, _))
}

pub fn independent(t: &Text) -> bool
    ensures { result ≡ independent (map_of t.now) }
{
    every(
        t,
        |s: Step|
            ensures { result ≡ not_first_n (action_of s) }
        { not_first_n(actions::action_of(s)) },
    )
}
