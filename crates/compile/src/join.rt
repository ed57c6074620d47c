// Arrays laid into the plan and into the values.
ghost use Rattle.std.specs.Prelude.{◌≡◌, ◌+◌, ◌≤◌, length};
ghost use Rattle.hierarchy.specs.Sections.{Laid};
ghost use Rattle.hierarchy.specs.Arrays.{firsts_in, counts_in, types_in, kinds_in, children_in, seed_in, acceptances_in, lives_in};

use hierarchy::Values;

// All of from over to, from a on.
fn lay(from: &[u32], to: &mut [u32], a: usize)
    requires { a + length from.now ≤ length to.old }
    ensures { Laid a (length from.now) from.now to.old to.new }
{
    to[a..a + from.len()].copy_from_slice(from);
}

pub fn plan_of(
    first: &[u32; 256],
    count: &[u32; 256],
    types: &[u32; 256],
    kinds: &[u32; 256],
    items: &[u32; 1280],
    seed: u32,
) -> [u32; hierarchy::SEED + 1]
    ensures { (firsts_in result ≡ first.now) × (counts_in result ≡ count.now) × (types_in result ≡ types.now)
        × (kinds_in result ≡ kinds.now) × (children_in result ≡ items.now) × (seed_in result ≡ seed) }
{
    let mut plan = [0u32; hierarchy::SEED + 1];
    lay(first, &mut plan, 0);
    lay(count, &mut plan, hierarchy::COUNT);
    lay(types, &mut plan, hierarchy::TYPES);
    lay(kinds, &mut plan, hierarchy::KINDS);
    lay(items, &mut plan, hierarchy::CHILDREN);
    plan[hierarchy::SEED] = seed;
    plan
}

pub fn values_of(acceptance: &[u32; 1024], words: &[u32; 1280], lives: &[u32; 256]) -> Values
    ensures { (acceptances_in result ≡ acceptance.now) × (children_in result ≡ words.now) × (lives_in result ≡ lives.now) }
{
    let mut values = [0u32; hierarchy::LIVE + 256];
    lay(acceptance, &mut values, 0);
    lay(words, &mut values, hierarchy::CHILDREN);
    lay(lives, &mut values, hierarchy::LIVE);
    values
}
