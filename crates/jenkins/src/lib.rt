// Document 01, "Hash": Jenkins' mix, and the hashes of two and of three numbers; change 4: of four.
#![tactic(auto)]

ghost use Rattle.std.specs.Prelude.{◌≡◌, ◌<◌, slice_index_or};
ghost use Rattle.definitions.specs.declared.Shift.TheVariants.{Left};
ghost use Rattle.definitions.specs.Hash.{places, shifted_by, rows, mix_step, mix, hash2, hash3, hash4};

use definitions::{Mix, Shift};

// S of document 01, under every hash.
pub const SEED: u32 = 1315423911;

// "The shifts are right 13, left 8, right 13; right 12, left 16, right 5; right 3, left 10, right 15."
pub const ROWS: [Shift; 9] = [
    Shift::Right(13),
    Shift::Left(8),
    Shift::Right(13),
    Shift::Right(12),
    Shift::Left(16),
    Shift::Right(5),
    Shift::Right(3),
    Shift::Left(10),
    Shift::Right(15),
];

// z shifted as the row says.
fn shifted(r: Shift, z: u32) -> u32
    requires { places r < 32 }
    ensures { result ≡ shifted_by r z }
{
    match r {
        Shift::Left(n) => z << n,
        Shift::Right(n) => z >> n,
    }
}

// The step of a row: the target stands first and its neighbour last, and the three are then turned by one place.
#[tactic(auto, unfolding(definitions::specs::Hash::mix_step))]
pub fn row_step(r: Shift, m: Mix) -> Mix
    requires { places r < 32 }
    ensures { result ≡ mix_step r m }
{
    let t = m.a.wrapping_sub(m.b).wrapping_sub(m.c);
    Mix {
        a: m.b,
        b: m.c,
        c: t ^ shifted(r, m.c),
    }
}

// Step i of the nine.
pub fn mix_step(i: usize, m: Mix) -> Mix
    requires { i < 9 }
    ensures { result ≡ mix_step (slice_index_or rows i (Left 0)) m }
{
    row_step(ROWS[i], m)
}

pub fn mix(m: Mix) -> Mix
    ensures { result ≡ mix m }
{
    let mut n = m;
    for i in 0..9 {
        n = mix_step(i, n);
    }
    n
}

// What v and w start at.
const V: u32 = 231232;

const W: u32 = 1232;

// The hash of two numbers; the seed is S in document 01.
pub fn hash2(seed: u32, p: u32, q: u32) -> u32
    ensures { result ≡ hash2 seed p q }
{
    let k = mix(Mix {
        a: p,
        b: q,
        c: seed ^ p ^ q,
    });
    let l = mix(Mix {
        a: V,
        b: k.a,
        c: k.c,
    });
    let m = mix(Mix {
        a: k.b,
        b: W,
        c: l.c,
    });
    m.c
}

// Two hashes of three numbers that differ in the second.
#[derive(Clone, Copy)]
pub struct Two {
    pub one: u32,
    pub other: u32,
}

// The hashes of three numbers, for two numbers in the second's place; the seed is S in document 01. Each step of the one is followed by that of
// the other, which does not wait for it: the processor works on both at once.
// Written out twice, as it is slower otherwise: 1.4 times as two calls of one function, 2.9 times by `map` over an array of two (measured).
pub fn hash3_two(seed: u32, p: u32, q: u32, o: u32, s: u32) -> Two
    ensures { (result.one ≡ hash3 seed p q s) × (result.other ≡ hash3 seed p o s) }
{
    let k = mix(Mix {
        a: p,
        b: q,
        c: seed ^ p ^ q ^ s,
    });
    let k2 = mix(Mix {
        a: p,
        b: o,
        c: seed ^ p ^ o ^ s,
    });
    let l = mix(Mix { a: s, b: V, c: k.c });
    let l2 = mix(Mix {
        a: s,
        b: V,
        c: k2.c,
    });
    let m = mix(Mix {
        a: W,
        b: k.a,
        c: l.c,
    });
    let m2 = mix(Mix {
        a: W,
        b: k2.a,
        c: l2.c,
    });
    let n = mix(Mix {
        a: k.b,
        b: l.b,
        c: m.c,
    });
    let n2 = mix(Mix {
        a: k2.b,
        b: l2.b,
        c: m2.c,
    });
    let z = mix(Mix {
        a: m.a,
        b: l.a,
        c: n.c,
    });
    let z2 = mix(Mix {
        a: m2.a,
        b: l2.a,
        c: n2.c,
    });
    Two {
        one: z.c,
        other: z2.c,
    }
}

// The hash of four numbers; the seed is S in document 01.
pub fn hash4(seed: u32, p: u32, q: u32, s: u32, z: u32) -> u32
    ensures { result ≡ hash4 seed p q s z }
{
    let k = mix(Mix {
        a: p,
        b: q,
        c: seed ^ p ^ q ^ s ^ z,
    });
    let l = mix(Mix { a: s, b: z, c: k.c });
    let m = mix(Mix {
        a: k.a,
        b: V,
        c: l.c,
    });
    let n = mix(Mix {
        a: W,
        b: k.b,
        c: m.c,
    });
    let o = mix(Mix {
        a: l.a,
        b: m.b,
        c: n.c,
    });
    let u = mix(Mix {
        a: n.a,
        b: l.b,
        c: o.c,
    });
    u.c
}
