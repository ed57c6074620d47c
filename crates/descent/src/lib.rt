// Document 01, "Walk, select and rule": the draw at a bucket of either kind, and the descent from a bucket to an item of the wanted type.
#![tactic(auto)]

ghost use Rattle.std.specs.Prelude.{◌≡◌, true, ◌+◌, ◌<◌, ◌≤◌, length, take, drop};
ghost use Rattle.definitions.specs.Straw.{draw_of};
ghost use Rattle.definitions.specs.Tree.{tree_of};
ghost use Rattle.definitions.specs.Walk.{draw_at, descend};
ghost use Rattle.hierarchy.specs.Sums.{weights_from};
ghost use Rattle.hierarchy.specs.Arrays.{type_in, part_of, view_in, ItemRange};
ghost use Rattle.descent.specs.Descent.{LandedBounds};

use definitions::Landed;
use hierarchy::{Plan, Values};
use item::Item;
use tree::Asked;

// The type of item i, by the words of a plan, which need not be sound for it.
pub fn type_of(plan: &[u32; hierarchy::SEED + 1], i: u32) -> u32
    requires { ItemRange i }
    ensures { result ≡ type_in plan.now i }
{
    let item = Item::from(i);
    if item.is_bucket() {
        plan[hierarchy::TYPES + item.bucket_number() as usize]
    } else {
        0
    }
}

// A straw and a tree are asked by other arguments, so one function for both would only be a switch. The draw of a straw among the n children from a on.
fn straw_part(
    plan: &[u32],
    values: &[u32],
    seed: u32,
    x: u32,
    r: u32,
    a: usize,
    n: usize,
) -> Option<u32>
    requires { (a + n ≤ length plan.now) × (a + n ≤ length values.now) × (n ≤ 64) }
    ensures { result ≡ draw_of seed x r (take n (drop a plan.now)) (take n (drop a values.now)) }
{
    let e = a + n;
    straw::draw::draw(seed, x, r, &plan[a..e], &values[a..e])
}

// And that of a tree.
fn tree_part(plan: &[u32], values: &[u32], q: Asked, a: usize, n: usize) -> Option<u32>
    requires { (a + n ≤ length plan.now) × (a + n ≤ length values.now) × (n ≤ 64) }
    ensures { result ≡ tree_of q.seed q.x q.r q.item
        (weights_from (take n (drop a values.now)) (length (take n (drop a plan.now)))) (take n (drop a plan.now)) }
{
    let e = a + n;
    tree::draw(q, &plan[a..e], &values[a..e])
}

// The draw at bucket b. The plan and the values stay two arguments here and above: one plan is asked with one list of values, or with two.
// In placing, nothing else asks of which kind a bucket is.
pub fn draw_at<'a>(plan: &'a Plan, values: &'a Values, x: u32, r: u32, b: u32) -> Option<u32>
    requires { b < 256 }
    ensures { result ≡ draw_at (view_in plan.now values.now) x r b }
{
    let k = b as usize;
    let a = hierarchy::CHILDREN + plan.words[k] as usize;
    let n = plan.words[hierarchy::COUNT + k] as usize;
    let seed = plan.words[hierarchy::SEED];
    if plan.words[hierarchy::KINDS + k] == hierarchy::TREE {
        let item = Item::BUCKET_BASE + b;
        tree_part(&plan.words, values, Asked { seed, x, r, item }, a, n)
    } else {
        straw_part(&plan.words, values, seed, x, r, a, n)
    }
}

// Are the two the same? Each word is looked at, so that several are compared at once: `==` looks at one after another, and is slower (measured).
fn same_words<'a, 'b>(old: &'a [u32], new: &'b [u32]) -> bool
    requires { length old.now ≡ length new.now }
    ensures { result ≡ true → old.now ≡ new.now }
{
    let mut same = true;
    for i in 0..old.len() {
        same &= old[i] == new[i];
    }
    same
}

fn same_part<'a, 'b>(old: &'a [u32], new: &'b [u32], a: usize, n: usize) -> bool
    requires { (a + n ≤ length old.now) × (a + n ≤ length new.now) }
    ensures { result ≡ true → take n (drop a old.now) ≡ take n (drop a new.now) }
{
    let e = a + n;
    same_words(&old[a..e], &new[a..e])
}

// Do two lists of values weigh the children of bucket b alike?
fn alike<'a>(plan: &'a Plan, old: &'a Values, new: &'a Values, b: u32) -> bool
    requires { b < 256 }
    ensures { result ≡ true → part_of plan.now b old.now ≡ part_of plan.now b new.now }
{
    let k = b as usize;
    let a = hierarchy::CHILDREN + plan.words[k] as usize;
    let n = plan.words[hierarchy::COUNT + k] as usize;
    same_part(old, new, a, n)
}

// The draw at bucket b by other values, where d is that by the old: it is made only where they do not weigh the children alike.
pub fn draw_again<'a>(
    plan: &'a Plan,
    old: &'a Values,
    new: &'a Values,
    x: u32,
    r: u32,
    b: u32,
    d: Option<u32>,
) -> Option<u32>
    requires { (b < 256) × (d ≡ draw_at (view_in plan.now old.now) x r b) }
    ensures { result ≡ draw_at (view_in plan.now new.now) x r b }
{
    if alike(plan, old, new, b) {
        return d;
    }
    draw_at(plan, new, x, r, b)
}

// The descent from bucket b, which ends with a draw of none or of an item whose type is not above t.
pub fn descend<'a>(plan: &'a Plan, values: &'a Values, x: u32, t: u32, r: u32, b: u32) -> Landed
    requires { b < 256 }
    ensures value { result ≡ (descend (view_in plan.now values.now) x t r b).landed }
    ensures bounds { LandedBounds result }
{
    // Read of the plan only for the proof, which learns here that the plan is sound.
    let _ = &plan.words;
    let Some(i) = draw_at(plan, values, x, r, b) else {
        return Landed {
            bucket: b,
            drawn: None,
        };
    };
    if t < type_of(&plan.words, i) {
        let child = Item::from(i);
        let c = child.bucket_number();
        descend(plan, values, x, t, r, c)
    } else {
        Landed {
            bucket: b,
            drawn: Some(i),
        }
    }
}
