// "The map is the input through the first line that begins with `05`, or all of it if there is none." The input comes in parts: what is
// known between two of them is a spot.
ghost use Rattle.std.specs.Prelude.{◌≡◌, ◌≤◌, length};
ghost use Rattle.protocol.specs.Input.{ended_at, longer_at, spot_of, spot_after, is_whole, map_bytes};

// Where the map stands between two bytes: a line begins; its first byte was `0`; it begins with `05`; it begins otherwise; or the line that
// begins with `05` has ended, and the map with it.
#[derive(Clone, Copy)]
pub enum Spot {
    Start,
    Zero,
    Last,
    Inside,
    Whole,
}

// Where some bytes have led to, and how many of them are the map's.
#[derive(Clone, Copy)]
pub struct Part {
    pub spot: Spot,
    pub count: usize,
}

#[tactic(auto, unfolding(crate::specs::Input::is_whole))]
pub fn is_whole(s: Spot) -> bool
    ensures { result ≡ is_whole s }
{
    matches!(s, Spot::Whole)
}

#[tactic(auto, unfolding(crate::specs::Input::ended_at))]
fn ended(s: Spot) -> Spot
    ensures { result ≡ ended_at s }
{
    match s {
        Spot::Start | Spot::Zero | Spot::Inside => Spot::Start,
        Spot::Last | Spot::Whole => Spot::Whole,
    }
}

#[tactic(auto, unfolding(crate::specs::Input::longer_at))]
fn longer(s: Spot, b: u8) -> Spot
    ensures { result ≡ longer_at s b }
{
    match s {
        Spot::Start => if b == b'0' { Spot::Zero } else { Spot::Inside },
        Spot::Zero => if b == b'5' { Spot::Last } else { Spot::Inside },
        Spot::Last | Spot::Inside | Spot::Whole => s,
    }
}

// One byte more.
#[tactic(auto, unfolding(crate::specs::Input::spot_of))]
fn on_byte(s: Spot, b: u8) -> Spot
    ensures { result ≡ spot_of s b }
{
    if b == 10 { ended(s) } else { longer(s, b) }
}

// The bytes of a part: those behind the map are left.
pub fn map_part(spot: Spot, read: &[u8]) -> Part
    ensures { (result.count ≡ map_bytes spot read.now) × (result.spot ≡ spot_after spot read.now) × (result.count ≤ length read.now) }
{
    let mut s = spot;
    for (i, b) in read.iter().enumerate() {
        if is_whole(s) {
            return Part { spot: s, count: i };
        }
        s = on_byte(s, *b);
    }
    Part {
        spot: s,
        count: read.len(),
    }
}
