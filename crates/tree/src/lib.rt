// Change 4: the draw of a tree bucket: from the root to a leaf, with one hash of four at each node.
#![tactic(auto)]

ghost use Rattle.std.specs.Prelude.{◌≡◌, ◌+◌, ◌*◌, ◌/◌, ◌^◌, ◌<◌, ◌≤◌, ltb, length};
ghost use Rattle.definitions.specs.Hash.{hash4};
ghost use Rattle.definitions.specs.Tree.{height_of, leaf_from, tree_of};
ghost use Rattle.hierarchy.specs.Sums.{before, total_in, weights_from};
ghost use Rattle.tree.specs.Walking.{turned};

// The draw of group x with try number r at the bucket of this item number.
#[derive(Clone, Copy)]
pub struct Asked {
    pub seed: u32,
    pub x: u32,
    pub r: u32,
    pub item: u32,
}

// A node: its label, and what the children before it weigh together, and those before its end.
#[derive(Clone, Copy)]
pub struct Node {
    pub label: u32,
    pub lo: u32,
    pub hi: u32,
}

// Does the walk turn left at the node of this label and weight? The product is compared as it is, without the division.
fn turns_left(q: Asked, label: u32, weight: u32, left: u32) -> bool
    ensures { result ≡ ltb (hash4 q.seed q.x label q.r q.item * weight / 2 ^ 32) left }
{
    let t = jenkins::hash4(q.seed, q.x, label, q.r, q.item);
    let part = u64::from(t) * u64::from(weight);
    part < u64::from(left) << 32
}

// What the children before place i weigh together, between lo and hi.
fn before(sums: &[u32], i: usize, lo: u32, hi: u32) -> u32
    requires { (0 < i) × (lo ≤ hi) }
    ensures { result ≡ before sums.now i lo hi }
{
    if i < sums.len() {
        sums[i - 1].clamp(lo, hi)
    } else {
        hi
    }
}

// The child to which the walk turns at a node whose children's labels lie this far to either side.
fn turn(q: Asked, sums: &[u32], side: u32, n: Node) -> Node
    requires { (2 ≤ n.label) × (side ≤ n.label) × (n.label + side ≤ 128) × (n.lo ≤ n.hi) }
    ensures { result ≡ turned q.seed q.x q.r q.item sums.now side n }
{
    let mid = (n.label / 2) as usize;
    let m = before(sums, mid, n.lo, n.hi);
    if turns_left(q, n.label, n.hi - n.lo, m - n.lo) {
        Node {
            label: n.label - side,
            lo: n.lo,
            hi: m,
        }
    } else {
        Node {
            label: n.label + side,
            lo: m,
            hi: n.hi,
        }
    }
}

// The root's label.
fn top(n: usize) -> u32
    requires { n ≤ 64 }
    ensures { result ≡ 2 ^ height_of n }
{
    n.next_power_of_two() as u32
}

// The leaf to which the walk comes from the root.
fn leaf(q: Asked, sums: &[u32], total: u32) -> usize
    requires { (0 < length sums.now) × (length sums.now ≤ 64) × (total ≡ total_in sums.now) }
    ensures { result ≡ leaf_from q.seed q.x q.r q.item (weights_from sums.now (length sums.now))
        (height_of (length sums.now)) 0 }
{
    let root = top(sums.len());
    let mut side = root / 2;
    let mut n = Node {
        label: root,
        lo: 0,
        hi: total,
    };
    while 0 < side {
        n = turn(q, sums, side, n);
        side /= 2;
    }
    (n.label / 2) as usize
}

// The draw among children, by their item numbers and the sums of their weights.
pub fn draw(q: Asked, items: &[u32], sums: &[u32]) -> Option<u32>
    requires { (length items.now ≤ 64) × (length sums.now ≡ length items.now) }
    ensures { result ≡ tree_of q.seed q.x q.r q.item (weights_from sums.now (length items.now)) items.now }
{
    let total = sums.last().copied().unwrap_or(0);
    if total == 0 {
        return None;
    }
    let k = leaf(q, sums, total);
    Some(items[k])
}
