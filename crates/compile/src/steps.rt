// The rule.
ghost use Rattle.std.specs.Prelude.{◌≡◌, ◌≤◌, eqb, length, take};
ghost use Rattle.definitions.specs.Lists.{some_of};
ghost use Rattle.definitions.specs.Map.{map_of, actions_of};
ghost use Rattle.laws.specs.Loadable.{Loadable};
ghost use Rattle.hierarchy.specs.Arrays.{actions_in};

use definitions::Step;
use frames::records::Record;
use hierarchy::Rule;
use text::Text;

fn steps_of(text: &Text) -> [Step; 16]
    requires { Loadable (map_of text.now) }
    ensures { take (length (map_of text.now).steps) result ≡ (map_of text.now).steps }
{
    let none = Step {
        step: 0,
        count: 0,
        ty: 0,
        bucket: 0,
    };
    let mut steps = [none; 16];
    for k in 0..Step::count(text) {
        steps[k] = Step::read(text, k);
    }
    steps
}

pub fn rule_of(text: &Text) -> Rule
    requires { Loadable (map_of text.now) }
    ensures { (actions_in result ≡ actions_of (map_of text.now)) × (result.len ≡ length (map_of text.now).steps) × (result.len ≤ 16) }
{
    Rule {
        steps: steps_of(text),
        len: Step::count(text),
    }
}

// Has the rule a select through?
pub fn goes_through(rule: Rule) -> bool
    requires { rule.len ≤ 16 }
    ensures { result ≡ some_of (λ s. eqb s.step 5) (take rule.len rule.steps) }
{
    rule.steps[..rule.len].iter().any(|s| s.step == 5)
}
