// Two ranks of one place, in the old run and in the new, made at once: where their walks first part.
ghost use Rattle.std.specs.Prelude.{◌≡◌, ◌<◌, ◌≤◌};
ghost use Rattle.definitions.specs.Walk.{verdict_of};
ghost use Rattle.hierarchy.specs.Arrays.{view_in, ItemRange};
ghost use Rattle.descent.specs.Descent.{LandedBounds};
ghost use Rattle.walk.specs.Searches.{SearchBounds, test_at, turn_at, rank_at};
ghost use Rattle.walk.specs.Bounds.{Going, Testable};
ghost use Rattle.lockstep.specs.Lockstep.{Tests, Turns, Ranks, plain_both, held_end};
ghost use Rattle.lockstep.specs.Rounds.{Follows, RoundBounds};

use crate::{Together, descents, partings};
use definitions::{Landed, Mode, Parting, Ranked, State, Tried, Turn, Verdict};
use hierarchy::{Plan, Values};
use walk::Search;

// What two tests of item i come to that end in w and w2, and of which the item is the entry.
fn part_plain(i: u32, w: Verdict, w2: Verdict) -> Together<Tried>
    ensures { result ≡ plain_both i w w2 }
{
    if partings::same_verdict(w, w2) {
        Ok(walk::plain(i, w))
    } else {
        Err(Parting::Test(w, w2))
    }
}

// The end of the held test.
fn held_end(h: bool) -> Verdict
    ensures { result ≡ held_end h }
{
    if h { Verdict::Held } else { Verdict::Passed }
}

// What the two tests of item i come to where a test is its verdict. Each run tests by its own values, and by the items that it holds.
fn part_verdicts<'a, 'b, 'c>(
    plan: &'a Plan,
    old: &'a Values,
    new: &'a Values,
    x: u32,
    olds: &'b [u32],
    news: &'c [u32],
    i: u32,
) -> Together<Tried>
    requires { ItemRange i }
    ensures { result ≡ plain_both i
        (verdict_of (view_in plan.now old.now) x olds.now i)
        (verdict_of (view_in plan.now new.now) x news.now i) }
{
    let w = walk::verdict(&plan.words, old, x, olds, i);
    let w2 = walk::verdict(&plan.words, new, x, news, i);
    part_plain(i, w, w2)
}

// What the two tests of item i come to, drawn with r' = q. Where neither run of a select through holds it, the inner walks are made at once
// too.
#[cycle(part_landed_part_rank_part_tests_part_turn)]
pub fn part_tests<'a, 'b, 'c>(
    plan: &'a Plan,
    old: &'a Values,
    new: &'a Values,
    x: u32,
    search: Search,
    olds: &'b [u32],
    news: &'c [u32],
    q: u32,
    i: u32,
) -> Together<Tried>
    requires testable { Testable plan.now search q i }
    ensures { Tests result
        (test_at (view_in plan.now old.now) x search olds.now q i)
        (test_at (view_in plan.now new.now) x search news.now q i) }
{
    let wanted = search.wanted;
    let mode = wanted.mode;
    match mode {
        Mode::FirstN => part_verdicts(plan, old, new, x, olds, news, i),
        Mode::Independent => part_verdicts(plan, old, new, x, olds, news, i),
        Mode::Through => {
            let h = walk::holds(olds, i);
            let h2 = walk::holds(news, i);
            if h | h2 {
                return part_plain(i, held_end(h), held_end(h2));
            }
            let beneath = walk::inner(wanted.n, q, i);
            let k = part_rank(plan, old, new, x, beneath, olds, news, 0)?;
            Ok(walk::found(k))
        }
    }
}

// What both make of where their descents landed.
#[cycle(part_landed_part_rank_part_tests_part_turn)]
fn part_landed<'a, 'b, 'c>(
    plan: &'a Plan,
    old: &'a Values,
    new: &'a Values,
    x: u32,
    search: Search,
    olds: &'b [u32],
    news: &'c [u32],
    s: State,
    l: Landed,
) -> Together<Turn>
    requires search_bounds { SearchBounds search × Going s × LandedBounds l }
    ensures follows { Follows plan.now old.now new.now x search
        olds.now news.now s l result }
    ensures bounds { RoundBounds result }
{
    let t = search.wanted.t;
    let start = search.start;
    let drawn = l.drawn;
    let Some(i) = drawn else {
        return Ok(Turn::Fail(walk::failed_to(start, 0, s)));
    };
    if descent::type_of(&plan.words, i) != t {
        return Ok(Turn::Fail(walk::failed_to(start, 0, s)));
    }
    let q = walk::try_number(search, s);
    let w = part_tests(plan, old, new, x, search, olds, news, q, i)?;
    Ok(walk::on_tried(start, s, l.bucket, i, w))
}

// One turn of both.
#[cycle(part_landed_part_rank_part_tests_part_turn)]
fn part_turn<'a, 'b, 'c>(
    plan: &'a Plan,
    old: &'a Values,
    new: &'a Values,
    x: u32,
    search: Search,
    olds: &'b [u32],
    news: &'c [u32],
    s: State,
) -> Together<Turn>
    requires search_bounds { SearchBounds search × (s.at < 256) × Going s }
    ensures turns { Turns result
        (turn_at (view_in plan.now old.now) x search olds.now s)
        (turn_at (view_in plan.now new.now) x search news.now s) }
    ensures bounds { RoundBounds result }
{
    let q = walk::try_number(search, s);
    let l = descents::meet(plan, old, new, x, search.wanted.t, q, s.at)?;
    part_landed(plan, old, new, x, search, olds, news, s, l)
}

// One rank of both, up to where their walks first part. f0 is f as the rank starts.
#[cycle(part_landed_part_rank_part_tests_part_turn)]
pub fn part_rank<'a, 'b, 'c>(
    plan: &'a Plan,
    old: &'a Values,
    new: &'a Values,
    x: u32,
    search: Search,
    olds: &'b [u32],
    news: &'c [u32],
    f0: u32,
) -> Together<Ranked>
    requires search_bounds { SearchBounds search × (f0 ≤ 1000) }
    ensures { Ranks result
        (rank_at (view_in plan.now old.now) x search olds.now f0)
        (rank_at (view_in plan.now new.now) x search news.now f0) }
{
    let mut s = State {
        at: search.start,
        fr: 0,
        f: f0,
        inner: 0,
    };
    // No range: each turn gives the state that the next begins in, and the state counts its failures.
    while s.fr < 50 {
        match part_turn(plan, old, new, x, search, olds, news, s)? {
            Turn::Fill(i, e, j) => return Ok(walk::rank_end(i, e, j, s)),
            Turn::Fail(next) => s = next,
        }
    }
    Ok(walk::rank_end(walk::HOLE, walk::HOLE, 0, s))
}
