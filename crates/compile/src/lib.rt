// A map's text made into flat arrays, once per call.
#![tactic(auto)]

ghost use Rattle.std.specs.Prelude.{◌≡◌, true, ℕ, ◌+◌, ◌*◌, ◌≤◌, length, drop};
ghost use Rattle.definitions.specs.Map.{Map, map_of, actions_of};
ghost use Rattle.definitions.specs.View.{weights_of, acceptance_of, view_of};
ghost use Rattle.definitions.specs.Load.{load_number};
ghost use Rattle.definitions.specs.Edit.{put};
ghost use Rattle.definitions.specs.States.{drives_in, put_state};
ghost use Rattle.laws.specs.Loadable.{Loadable};
ghost use Rattle.hierarchy.specs.Arrays.{firsts_in, counts_in, part_at, view_in, lives_in, Flagged, actions_in};
ghost use Rattle.hierarchy.specs.Tables.{Tabled};
ghost use Rattle.compile.specs.Weighing.{bucket_weight};
ghost use Rattle.compile.specs.Compiled.{Planned, Weighs};
ghost use Rattle.compile.specs.Living.{live_weight, Marks};

use definitions::Change;
use hierarchy::{Hierarchy, Plan, Values};
use text::Text;

mod buckets;
pub mod devices;
mod join;
mod links;
pub mod steps;
mod trees;

// The weights of the buckets, by number, of whichever map this is the plan and `own` the weights of the devices.
pub fn bucket_weights(plan: &Plan, own: &[u32; 1024]) -> [u32; 256]
    requires { (m : Map) × Weighs m plan.now own.now }
    ensures { (m : Map) → Weighs m plan.now own.now → Tabled result 256 (bucket_weight m) }
{
    let all: &[u32] = &plan.words;
    let first = &all[0..hierarchy::COUNT];
    let count = &all[hierarchy::COUNT..hierarchy::TYPES];
    let types = &all[hierarchy::TYPES..hierarchy::KINDS];
    let items = &all[hierarchy::CHILDREN..hierarchy::SEED];
    weights::loads_of(first, count, items, own, types)
}

// And those of the children, in their order: each bucket's part has the weights of its children.
pub fn weigh_children(plan: &Plan, own: &[u32; 1024], loads: &[u32; 256]) -> [u32; 1280]
    requires { (m : Map) × Weighs m plan.now own.now }
    ensures { (m : Map) → Weighs m plan.now own.now → Tabled loads.now 256 (bucket_weight m) → (b : ℕ)
        → part_at (firsts_in plan.now) (counts_in plan.now) b result ≡ weights_of m b }
{
    let all: &[u32] = &plan.words;
    weights::weights_of(own, loads, &all[hierarchy::CHILDREN..hierarchy::SEED])
}

// With the acceptances of the devices and the live weights of the buckets, all that the map is beside its plan.
pub fn values_of(
    plan: &Plan,
    own: &[u32; 1024],
    loads: &[u32; 256],
    acceptance: &[u32; 1024],
    lives: &[u32; 256],
) -> Values
    requires { (m : Map) × Weighs m plan.now own.now × Tabled loads.now 256 (bucket_weight m) }
    ensures result_value { (m : Map) → Weighs m plan.now own.now → Tabled loads.now 256 (bucket_weight m)
        → Tabled acceptance.now 1024 (acceptance_of m) → view_in plan.now result ≡ view_of m }
    ensures result_value_2 { lives_in result ≡ lives.now }
{
    let weights = weigh_children(plan, own, loads);
    let words = trees::words_of(plan, weights);
    join::values_of(acceptance, &words, lives)
}

// The live weights of the buckets, by number: what their devices above acceptance 0 weigh together. Only a select through asks whether one is 0,
// so without one any other number will do.
fn live_weights(
    plan: &Plan,
    own: &[u32; 1024],
    acceptance: &[u32; 1024],
    through: bool,
) -> [u32; 256]
    requires { (m : Map) × Weighs m plan.now own.now × Tabled acceptance.now 1024 (acceptance_of m) }
    ensures { (m : Map) → Weighs m plan.now own.now → Tabled acceptance.now 1024 (acceptance_of m)
        → Marks m result × (through ≡ true → Tabled result 256 (live_weight m)) }
{
    if through {
        let live = weights::live_of(own, acceptance);
        return bucket_weights(plan, &live);
    }
    [1u32; 256]
}

// What no edit changes: children, types, kinds and the seed.
pub fn plan_of(text: &Text) -> Plan
    requires { Loadable (map_of text.now) }
    ensures { Planned (map_of text.now) result }
{
    let children = links::children_of(text);
    let buckets = buckets::buckets_of(text);
    let words = join::plan_of(
        &children.first,
        &children.count,
        &buckets.types,
        &buckets.kinds,
        &children.items,
        jenkins::SEED,
    );
    Plan { words }
}

// The values of a map, and the weights of its buckets, by number.
#[derive(Clone, Copy)]
pub struct Weighed {
    pub values: Values,
    pub loads: [u32; 256],
}

// Both, of whichever map this is the plan and these the weights and the acceptances of the devices, by number.
fn weigh_by(plan: &Plan, own: &[u32; 1024], acceptance: &[u32; 1024], through: bool) -> Weighed
    requires { (m : Map) × Weighs m plan.now own.now × Tabled acceptance.now 1024 (acceptance_of m) }
    ensures { (m : Map) → Weighs m plan.now own.now → Tabled acceptance.now 1024 (acceptance_of m)
        → (view_in plan.now result.values ≡ view_of m) × Tabled result.loads 256 (bucket_weight m)
        × Flagged plan.now result.values }
{
    let loads = bucket_weights(plan, own);
    let lives = live_weights(plan, own, acceptance, through);
    let values = values_of(plan, own, &loads, acceptance, &lives);
    Weighed { values, loads }
}

// What an edit changes: the weights and the acceptances, beside the plan, which it leaves. The edit need not be written into the text yet;
// None is no edit. `through` says whether the rule has a select through.
pub fn weigh(text: &Text, c: Option<Change>, plan: &Plan, through: bool) -> Weighed
    requires loadable { Loadable (put (map_of text.now) c) }
    requires planned { Planned (map_of text.now) plan.now }
    ensures values_value { view_in plan.now result.values ≡ view_of (put (map_of text.now) c) }
    ensures tabled { Tabled result.loads 256 (bucket_weight (put (map_of text.now) c)) }
    ensures flagged { Flagged plan.now result.values }
{
    let devices = devices::devices_of(text, c);
    weigh_by(plan, &devices.weights, &devices.acceptances, through)
}

// The same for a return, of whichever map this is the plan: its devices get the values of the n drives of a state, from word a on.
pub fn weigh_state(states: &[u32], a: usize, n: usize, plan: &Plan, through: bool) -> Weighed
    requires n_in_bounds { (a + 3 * n ≤ length states.now) × (length states.now ≤ 24586) }
    requires planned { (m : Map) × Planned m plan.now × Loadable (put_state m (drives_in n (drop a states.now))) }
    ensures { (m : Map) → Planned m plan.now → Loadable (put_state m (drives_in n (drop a states.now)))
        → (view_in plan.now result.values ≡ view_of (put_state m (drives_in n (drop a states.now))))
        × Tabled result.loads 256 (bucket_weight (put_state m (drives_in n (drop a states.now))))
        × Flagged plan.now result.values }
{
    let devices = devices::devices_in(states, a, n);
    weigh_by(plan, &devices.weights, &devices.acceptances, through)
}

// The arrays of the map as an edit leaves it.
pub fn compile(text: &Text, c: Option<Change>) -> Hierarchy
    requires loads { load_number text.now ≡ 0 }
    requires loadable { Loadable (put (map_of text.now) c) }
    ensures values_value { view_in result.plan result.values ≡ view_of (put (map_of text.now) c) }
    ensures planned { Planned (map_of text.now) result.plan }
    ensures flagged { Flagged result.plan result.values }
    ensures rule_value { (actions_in result.rule ≡ actions_of (map_of text.now)) × (result.rule.len ≡ length (map_of text.now).steps) × (result.rule.len ≤ 16) }
{
    let plan = plan_of(text);
    let rule = steps::rule_of(text);
    let weighed = weigh(text, c, &plan, steps::goes_through(rule));
    let values = weighed.values;
    Hierarchy { plan, values, rule }
}
