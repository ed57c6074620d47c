// What the steps of a map's text do.
ghost use Rattle.std.specs.Prelude.{◌≡◌, ◌<◌, length, get_or};
ghost use Rattle.definitions.specs.Map.{map_of, action_of, actions_of};

use definitions::{Action, Mode, Step};
use frames::records::Record;
use text::Text;

#[tactic(auto, unfolding(definitions::specs::Map::action_of))]
pub fn action_of(s: Step) -> Action
    ensures { result ≡ action_of s }
{
    match s.step {
        1 => Action::Take(s.bucket),
        2 => Action::Select(Mode::FirstN, s.count, s.ty),
        3 => Action::Select(Mode::Independent, s.count, s.ty),
        4 => Action::Emit,
        5 => Action::Select(Mode::Through, s.count, s.ty),
        _ => Action::Idle,
    }
}

// What step k does.
pub fn action(t: &Text, k: usize) -> Action
    requires { k < length (map_of t.now).steps }
    ensures { result ≡ get_or (actions_of (map_of t.now)) k Action.Idle }
{
    action_of(Step::read(t, k))
}
