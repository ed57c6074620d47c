// The line under way.
ghost use Rattle.std.specs.Prelude.{◌≡◌, [], ◌++◌, ◌≤◌, length, take};
ghost use Rattle.report.specs.Kept.{most_kept};

use std::marker::Model;

// How many bytes of a line are kept at most: one more than the longest line that does anything has, so that a longer one stays of no form.
const KEPT: usize = 15;

// A line under way, of which the first bytes are kept. No heap: they are the front of a fixed space, with zeros behind them, so that the bytes alone
// tell the space, as a copy needs it.
#[derive(Clone, Copy)]
pub struct Line {
    space: [u8; KEPT],
    count: usize,
}

impl Model for Line {
    ghost use Rattle.std.specs.Prelude.{List, ℕ, ◌++◌, ◌-◌, length, take, replicate};
    ghost use Rattle.report.specs.Padded.{Padded, counted, padded};

    ghost Value = { List ℕ };

    ghost view = { λ l. take l.count l.space };

    ghost invariant = { λ l. Padded l.count l.space };

    ghost inverse = { λ xs. record { space = xs ++ replicate (15 - length xs) 0; count = length xs } };

    ghost inverse_ok = { λ l p i. record { space = padded l.count l.space p i; count = counted l.count l.space p i } };
}

impl Line {
    // A line that has no byte yet.
    pub fn new() -> Line
        ensures { result ≡ [] }
    {
        Line {
            space: [0; KEPT],
            count: 0,
        }
    }

    // The bytes that are kept.
    pub fn bytes(&self) -> &[u8]
        ensures value { result.now ≡ self.now }
        ensures most { length result.now ≤ most_kept }
    {
        &self.space[..self.count]
    }

    // More bytes of the line.
    pub fn extend(&mut self, bytes: &[u8])
        ensures { self.new ≡ take most_kept (self.old ++ bytes.now) }
    {
        let n = bytes.len().min(KEPT - self.count);
        let end = self.count + n;
        self.space[self.count..end].copy_from_slice(&bytes[..n]);
        self.count = end;
    }

    // The next line.
    pub fn clear(&mut self)
        ensures { self.new ≡ [] }
    {
        self.space = [0; KEPT];
        self.count = 0;
    }
}
