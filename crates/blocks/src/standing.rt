// Question 11: "1 to 16 steps, all in blocks of take, selects, emit, types strictly falling from the bucket taken to 0?" Of step 5, select
// through: "The step is the last select of its block, so question 11 lets a block end at it".
ghost use Rattle.std.specs.Prelude.{◌≡◌, ℕ, ◌<◌, true, length, get_or};
ghost use Rattle.definitions.specs.Map.{Map, map_of};
ghost use Rattle.definitions.specs.View.{bucket_type};
ghost use Rattle.definitions.specs.Load.{ranged, reaches, stand, is_outside, in_blocks};
ghost use Rattle.blocks.specs.Actions.{ActionRanged};
ghost use Rattle.blocks.specs.Standing.{TypesOf};

use crate::actions;
use definitions::{Action, Mode, Standing, Step};
use frames::records::Record;
use text::Text;

// From outside the blocks: only a take leads on.
#[tactic(auto, unfolding(definitions::specs::Load::stand))]
fn enter(types: &[u32], a: Action) -> Standing
    requires { (length types.now ≡ 256) × ActionRanged a }
    ensures { (m : Map) → TypesOf m types.now → result ≡ stand m Standing.Outside a }
{
    match a {
        Action::Take(b) => Standing::Inside(types[b as usize]),
        _ => Standing::Broken,
    }
}

// The type of what a select puts out: a select through puts out devices, so no select can follow it and an emit can.
#[tactic(auto, unfolding(definitions::specs::Load::reaches))]
fn reaches(mode: Mode, ty: u32) -> u32
    ensures { result ≡ reaches mode ty }
{
    match mode {
        Mode::FirstN | Mode::Independent => ty,
        Mode::Through => 0,
    }
}

// From inside a block, at type u.
#[tactic(auto, unfolding(definitions::specs::Load::stand))]
fn proceed(u: u32, a: Action) -> Standing
    ensures { (m : Map) → result ≡ stand m (Standing.Inside u) a }
{
    match a {
        Action::Select(mode, _, ty) if ty < u => Standing::Inside(reaches(mode, ty)),
        Action::Emit if u == 0 => Standing::Outside,
        _ => Standing::Broken,
    }
}

// Where the rule stands after one step more.
#[tactic(auto, unfolding(definitions::specs::Load::stand))]
pub fn stand(types: &[u32], st: Standing, a: Action) -> Standing
    requires { (length types.now ≡ 256) × ActionRanged a }
    ensures { (m : Map) → TypesOf m types.now → result ≡ stand m st a }
{
    match st {
        Standing::Outside => enter(types, a),
        Standing::Inside(u) => proceed(u, a),
        Standing::Broken => Standing::Broken,
    }
}

#[tactic(auto, unfolding(definitions::specs::Load::is_outside))]
fn is_outside(st: Standing) -> bool
    ensures { result ≡ is_outside st }
{
    matches!(st, Standing::Outside)
}

// The types are those of the buckets, by their numbers.
pub fn in_blocks(t: &Text, types: &[u32]) -> bool
    requires ranged { ranged (map_of t.now) ≡ true }
    requires types_len { (length types.now ≡ 256) × ((b : ℕ) → b < 256 → get_or types.now b 0 ≡ bucket_type (map_of t.now) b) }
    ensures { result ≡ in_blocks (map_of t.now) }
{
    let n = Step::count(t);
    if n == 0 || 16 < n {
        return false;
    }
    let mut st = Standing::Outside;
    for k in 0..n {
        st = stand(types, st, actions::action(t, k));
    }
    is_outside(st)
}
