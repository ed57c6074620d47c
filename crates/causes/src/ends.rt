// Two ranks of one search made at once, as to what they end in. Beneath an item that is dead in both runs nothing is drawn: what each run would
// draw there may differ, but both give up.
ghost use Rattle.std.specs.Prelude.{◌≡◌, true, false, ◌<◌, ◌≤◌};
ghost use Rattle.definitions.specs.declared.Mode.TheVariants.{Through};
ghost use Rattle.definitions.specs.Lists.{has};
ghost use Rattle.definitions.specs.Map.{bucket_number};
ghost use Rattle.hierarchy.specs.Arrays.{view_in, live_in, ItemRange, Flagged};
ghost use Rattle.walk.specs.Searches.{SearchBounds, test_at, turn_at, rank_at};
ghost use Rattle.walk.specs.Bounds.{Going, Testable};
ghost use Rattle.lockstep.specs.Rounds.{RoundBounds};
ghost use Rattle.causes.specs.Ends.{TestEnds, TurnEnds, RankEnds};

use definitions::{Mode, Ranked, State, Tried, Turn};
use hierarchy::{Plan, Values};
use lockstep::{Together, descents, ranks};
use walk::Search;

// Is item i, drawn in a select through, not held and dead in both runs?
fn gives_up<'a, 'b>(
    old: &'a Values,
    new: &'a Values,
    search: Search,
    held: &'b [u32],
    i: u32,
) -> bool
    requires { ItemRange i × (search.wanted.mode ≡ Through → 65536 ≤ i) }
    ensures { result ≡ true → (search.wanted.mode ≡ Through) × (has i held.now ≡ false)
        × (live_in old.now (bucket_number i) ≡ 0) × (live_in new.now (bucket_number i) ≡ 0) }
{
    let wanted = search.wanted;
    let mode = wanted.mode;
    match mode {
        Mode::FirstN => false,
        Mode::Independent => false,
        Mode::Through => {
            if walk::holds(held, i) {
                return false;
            }
            if !walk::is_dead(old, i) {
                return false;
            }
            walk::is_dead(new, i)
        }
    }
}

// What the two tests of item i come to, drawn with r' = q.
fn test_ends<'a, 'b>(
    plan: &'a Plan,
    old: &'a Values,
    new: &'a Values,
    x: u32,
    search: Search,
    held: &'b [u32],
    q: u32,
    i: u32,
) -> Together<Tried>
    requires flagged { Flagged plan.now old.now × Flagged plan.now new.now }
    requires testable { Testable plan.now search q i }
    ensures { TestEnds result
        (test_at (view_in plan.now old.now) x search held.now q i)
        (test_at (view_in plan.now new.now) x search held.now q i) }
{
    if gives_up(old, new, search, held, i) {
        return Ok(walk::given_up());
    }
    ranks::part_tests(plan, old, new, x, search, held, held, q, i)
}

// One turn of both.
fn turn_ends<'a, 'b>(
    plan: &'a Plan,
    old: &'a Values,
    new: &'a Values,
    x: u32,
    search: Search,
    held: &'b [u32],
    s: State,
) -> Together<Turn>
    requires flagged { Flagged plan.now old.now × Flagged plan.now new.now }
    requires search_bounds { SearchBounds search × (s.at < 256) × Going s }
    ensures turn_ends { TurnEnds result
        (turn_at (view_in plan.now old.now) x search held.now s)
        (turn_at (view_in plan.now new.now) x search held.now s) }
    ensures bounds { RoundBounds result }
{
    let t = search.wanted.t;
    let start = search.start;
    let q = walk::try_number(search, s);
    let l = descents::meet(plan, old, new, x, t, q, s.at)?;
    let Some(i) = l.drawn else {
        return Ok(Turn::Fail(walk::failed_to(start, 0, s)));
    };
    if descent::type_of(&plan.words, i) != t {
        return Ok(Turn::Fail(walk::failed_to(start, 0, s)));
    }
    let w = test_ends(plan, old, new, x, search, held, q, i)?;
    Ok(walk::on_tried(start, s, l.bucket, i, w))
}

// One rank of both, up to where they part. f0 is f as the rank starts.
pub fn rank_ends<'a, 'b>(
    plan: &'a Plan,
    old: &'a Values,
    new: &'a Values,
    x: u32,
    search: Search,
    held: &'b [u32],
    f0: u32,
) -> Together<Ranked>
    requires flagged { Flagged plan.now old.now × Flagged plan.now new.now }
    requires search_bounds { SearchBounds search × (f0 ≤ 1000) }
    ensures { RankEnds result
        (rank_at (view_in plan.now old.now) x search held.now f0)
        (rank_at (view_in plan.now new.now) x search held.now f0) }
{
    let mut s = State {
        at: search.start,
        fr: 0,
        f: f0,
        inner: 0,
    };
    // No range: each turn gives the state that the next begins in, and the state counts its failures.
    while s.fr < 50 {
        match turn_ends(plan, old, new, x, search, held, s)? {
            Turn::Fill(i, e, j) => return Ok(walk::rank_end(i, e, j, s)),
            Turn::Fail(next) => s = next,
        }
    }
    Ok(walk::rank_end(walk::HOLE, walk::HOLE, 0, s))
}
