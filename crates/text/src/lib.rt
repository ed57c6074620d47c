// A text that the first four questions take. No function is here.
#![tactic(auto)]

use std::marker::Model;

// How many lines a text has of each kind. After questions 1 to 4 this is all that is needed to read any field at its place.
#[derive(Clone, Copy)]
pub struct Shape {
    pub groups: usize,
    pub devices: usize,
    pub buckets: usize,
    pub links: usize,
    pub steps: usize,
    pub ends: usize,
}

// A text that questions 1 to 4 take, with its shape. A contract sees its bytes.
#[derive(Drop)]
pub struct Text<'a> {
    pub bytes: &'a [u8],
    pub shape: Shape,
}

impl<'a> Model for Text<'a> {
    ghost use Rattle.std.specs.Prelude.{◌≡◌, List, ℕ};
    ghost use Rattle.definitions.specs.Frames.{frames_in};
    ghost use Rattle.text.specs.Shape.{shape_of};
    ghost use Rattle.text.specs.RoundTrip.{Framed};

    ghost Value = { List ℕ };

    ghost view = { λ a. a.bytes.now };

    ghost invariant = { λ a. Framed a.bytes.now × (a.shape ≡ shape_of (frames_in a.bytes.now)) };
}
