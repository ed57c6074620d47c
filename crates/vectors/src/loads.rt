// Document 02, change 8, in the cases: "Loading another map empties the states". Two lines beside those of program `operate` load: `26` the map as it
// stands, and `27` the map without its last byte, which is refused and leaves the states.
#[derive(Clone, Copy)]
pub enum Load {
    Whole,
    Short,
}

// What a byte behind a line loads: a line is answered at its end.
pub fn load_at(line: &[u8], b: u8) -> Option<Load> {
    if b != b'\n' {
        return None;
    }
    match line {
        b"26" => Some(Load::Whole),
        b"27" => Some(Load::Short),
        _ => None,
    }
}

// The number that a load is answered with.
pub fn number_of(l: Load, map: &[u8], states: &mut [u32; 24586]) -> u32 {
    let n = match l {
        Load::Whole => map.len(),
        Load::Short => map.len().saturating_sub(1),
    };
    engine::load::load(&map[..n], states).number
}
