// Change 4: the sums of the weights of a tree's children, laid where a straw's weights lie, so that a draw has each node weight at once.
ghost use Rattle.std.specs.Prelude.{◌≡◌, ℕ, ◌+◌, ◌<◌, ◌≤◌, ◌^◌, length, take, drop};
ghost use Rattle.definitions.specs.Lists.{sum};
ghost use Rattle.hierarchy.specs.Arrays.{kind_in};
ghost use Rattle.compile.specs.Trees.{words_by, Summed, part_in, Parts};

use hierarchy::Plan;

// To each of the n words from a on, those before it are added.
fn add_up(words: &mut [u32], a: usize, n: usize)
    requires { (a + n ≤ length words.old) × (sum (take n (drop a words.old)) < 2 ^ 32) }
    ensures { Summed a n words.old words.new }
{
    let mut sum: u32 = 0;
    for i in 0..n {
        sum += words[a + i];
        words[a + i] = sum;
    }
}

// The words of all children, where these are their weights.
pub fn words_of(plan: &Plan, mut words: [u32; 1280]) -> [u32; 1280]
    requires { Parts plan.now words }
    ensures { (b : ℕ) → part_in plan.now b result ≡ words_by (kind_in plan.now b) (part_in plan.now b words) }
{
    for b in 0..256usize {
        if plan.words[hierarchy::KINDS + b] == hierarchy::TREE {
            let a = plan.words[b] as usize;
            let n = plan.words[hierarchy::COUNT + b] as usize;
            add_up(&mut words, a, n);
        }
    }
    words
}
