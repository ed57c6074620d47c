// The questions at the door, those of load and those of the other calls, by the names of their definitions.
ghost use Rattle.std.specs.Prelude.{◌≡◌, true, false, MatchResult};
ghost use Rattle.door.specs.Question.{number_of};

#[derive(Clone, Copy, PartialEq, Eq, Debug)]
pub enum Question {
    Sized = 1,
    Formed = 2,
    Ordered = 3,
    Counted = 4,
    Ranged = 5,
    Rising = 6,
    Present = 7,
    Once = 8,
    Falling = 9,
    Narrow = 10,
    InBlocks = 11,
    Slim = 12,
    Light = 13,
    Whole = 14,
    GroupBelow = 15,
    Room = 16,
    Independent = 17,
    Fits = 18,
    Fresh = 19,
    RoomForMoves = 20,
    Typed = 21,
    Filled = 22,
    Summed = 23,
    Named = 24,
    RoomForName = 25,
}

impl Question {
    // The number that a call answers where the answer to the question is no.
    pub fn number(self) -> u32
        ensures { result ≡ number_of self }
    {
        self as u32
    }
}

// Goes on where the answer is yes.
pub fn ask(yes: bool, q: Question) -> Result<(), Question>
    ensures { MatchResult result (λ _. yes ≡ true) (λ p. (yes ≡ false) × (p ≡ q)) }
{
    if yes { Ok(()) } else { Err(q) }
}
