// Document 02, change 7, of the edits in the cases: the moves of each edit of an acceptance beside its ceiling.
use definitions::Change;
use engine::limit;
use engine::limit::Limit;
use frames::digits;
use report::edits::Said;

// An edit of an acceptance before it is made: its device, whether the value rises, and the ceiling that is told with the map and the table as they
// are.
#[derive(Clone, Copy)]
pub struct Before {
    pub device: u32,
    pub rises: bool,
    pub ceiling: Limit,
}

// The moves of an edit, its ceiling, the width of the lists and the number of the case.
#[derive(Clone, Copy)]
pub struct Bound {
    pub moves: u32,
    pub ceiling: u32,
    pub width: u32,
    pub case: u64,
}

// Of the edits so far that were taken: how many, how many of them moved more than their ceiling, the sum of the moves and that of the ceilings, and
// the edit that came nearest to its own.
#[derive(Clone, Copy)]
pub struct Limits {
    pub edits: u64,
    pub above: u64,
    pub moves: u64,
    pub most: u64,
    pub tightest: Bound,
}

pub fn none() -> Limits {
    Limits {
        edits: 0,
        above: 0,
        moves: 0,
        most: 0,
        tightest: Bound {
            moves: 0,
            ceiling: 0,
            width: 0,
            case: 0,
        },
    }
}

// The acceptance of a device in a map that was loaded: the devices' frames are the 23 bytes each behind the first 11.
fn acceptance_of(map: &[u8], device: u32) -> u32 {
    let mut rest = map.get(11..).unwrap_or(&[]);
    while rest.len() >= 23 {
        if digits::field(rest, 0, 2) != 1 {
            return 0;
        }
        if digits::field(rest, 2, 4) == device {
            return digits::field(rest, 14, 8);
        }
        rest = &rest[23..];
    }
    0
}

// What is known before a line's edit: something of an edit of an acceptance, and nothing of another line.
pub fn before_line(map: &[u8], table: &[u16], line: &[u8]) -> Option<Before> {
    match edit_frame::change_of(line) {
        Some(Change::Acceptance(device, value)) => Some(Before {
            device,
            rises: acceptance_of(map, device) < value,
            ceiling: limit::ceiling(map, table, device),
        }),
        _ => None,
    }
}

// What is known before a byte: an edit is made at the end of its line.
pub fn before_byte(map: &[u8], table: &[u16], line: &[u8], b: u8) -> Option<Before> {
    if b == b'\n' {
        before_line(map, table, line)
    } else {
        None
    }
}

// The ceiling of an edit that was made: for a rise that of the map and the table as it left them.
fn ceiling_of(map: &[u8], table: &[u16], a: Before) -> Limit {
    if a.rises {
        return limit::ceiling(map, table, a.device);
    }
    a.ceiling
}

// Whether a came nearer to its ceiling than b; as near with wider lists, or with more moves, counts as nearer.
fn tighter(a: Bound, b: Bound) -> bool {
    let x = u64::from(a.moves) * u64::from(b.ceiling);
    let y = u64::from(b.moves) * u64::from(a.ceiling);
    (y, b.width, b.moves) < (x, a.width, a.moves)
}

// The sums with one edit more.
fn counted(t: Limits, b: Bound) -> Limits {
    Limits {
        edits: t.edits.wrapping_add(1),
        above: t.above.wrapping_add(u64::from(b.ceiling < b.moves)),
        moves: t.moves.wrapping_add(u64::from(b.moves)),
        most: t.most.wrapping_add(u64::from(b.ceiling)),
        tightest: if tighter(b, t.tightest) {
            b
        } else {
            t.tightest
        },
    }
}

fn width_of(l: Limit) -> u32 {
    if l.groups == 0 {
        return 0;
    }
    l.moves / l.groups
}

// The edit of a line is made, and `said` is what it answered: 23 bytes for each move, or a refusal.
pub fn after(
    map: &[u8],
    table: &[u16],
    before: Option<Before>,
    said: Said,
    case: u64,
    t: Limits,
) -> Limits {
    let Some(a) = before else {
        return t;
    };
    let Said::Front(bytes) = said else {
        return t;
    };
    let Ok(moves) = u32::try_from(bytes / 23) else {
        return t;
    };
    let c = ceiling_of(map, table, a);
    let bound = Bound {
        moves,
        ceiling: c.moves,
        width: width_of(c),
        case,
    };
    counted(t, bound)
}
