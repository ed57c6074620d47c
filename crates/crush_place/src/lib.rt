// The calls for C: those of the storage daemon, and those for site staff, who keep a map and its table. Placing: "the map's frames, to which
// load's questions are put first, the group, and space where each place becomes two bytes, high byte first".
// Each call of engine stands here once more, with its contract: the kit makes an archive for C of a crate of its own, which exports what a library has,
// and only calls it.
#![tactic(auto)]

ghost use Rattle.std.specs.Prelude.{◌≡◌, ◌*◌, ◌<◌, ◌≤◌, length, MatchResult};
ghost use Rattle.definitions.specs.Lists.{over};
ghost use Rattle.definitions.specs.Map.{map_of};
ghost use Rattle.definitions.specs.Select.{entries_of};
ghost use Rattle.definitions.specs.Rule.{width_of, placed_of};
ghost use Rattle.definitions.specs.Load.{load_number};
ghost use Rattle.definitions.specs.Writing.{two_bytes};
ghost use Rattle.definitions.specs.Calls.{sizes_of, load_of, daemon_of, fill_of, edit_of, store_of, return_of, ceiling_of, write_of, day_of, drives_of};
ghost use Rattle.door.specs.Question.{number_of};
ghost use Rattle.engine.specs.Answers.{sizes_answer, load_answer, fill_answer, edit_answer, store_answer, ceiling_answer, write_answer, day_answer};
ghost use Rattle.crush_place.specs.Answers.{daemon_answer, drives_answer};
ghost use Rattle.crush_place.specs.Version.{version};

use blocks::widths;
use door::question::{Question, ask};
use engine::day::Day;
use engine::edit::Edited;
use engine::fill::Filled;
use engine::limit::Limit;
use engine::load::Sizes;
use engine::place::Placing;
use engine::write::Written;
use engine::{back, day, edit, fill, limit, load, place, store, write};
use frames::records;
use loaded::row;
use states::States;
use text::Text;

// The number of the first question answered no, or 0, the day's group, how many places were written, and the tries.
#[repr(C)]
#[derive(Clone, Copy)]
pub struct Drives {
    pub number: u32,
    pub group: u32,
    pub places: u32,
    pub tries: u32,
}

// Each place as two bytes, over the front of the space.
fn put_bytes(row: &[u16], out: &mut [u8])
    requires { 2 * length row.now ≤ length out.old }
    ensures { out.new ≡ over (two_bytes row.now) out.old }
{
    for (i, p) in row.iter().enumerate() {
        out[2 * i] = (*p / 256) as u8;
        out[2 * i + 1] = (*p % 256) as u8;
    }
}

// The list of group x in bytes over the front of the space; the row is lent to hold its W places.
fn place_bytes(text: &Text, x: u32, row: &mut [u16], out: &mut [u8]) -> u32
    requires map_value { (load_number text.now ≡ 0) × (length row.old ≡ width_of (map_of text.now)) }
    requires map_in_bounds { 2 * width_of (map_of text.now) ≤ length out.old }
    ensures { (out.new ≡ over (two_bytes (entries_of (placed_of (map_of text.now) x).places)) out.old)
        × (result ≡ (placed_of (map_of text.now) x).tries) }
{
    let tries = row::place_into(text, x, row);
    put_bytes(row, out);
    tries
}

// The list of a group of a map that loads, in bytes: question 16, then the list.
fn listed(text: &Text, group: u32, out: &mut [u8]) -> Result<Placing, Question>
    requires { (load_number text.now ≡ 0) × (group < (map_of text.now).groups) }
    ensures { MatchResult result
        (λ p. (p.number ≡ 0) × (daemon_answer p out.new ≡ daemon_of text.now group out.old))
        (λ q. daemon_answer (record { number = number_of q; places = 0; tries = 0 }) out.new ≡ daemon_of text.now group out.old) }
{
    let w = widths::width(text);
    ask(2 * w <= out.len(), Question::Room)?;
    let mut row = [0u16; 32];
    let tries = place_bytes(text, group, &mut row[..w], out);
    Ok(Placing {
        number: 0,
        places: w as u32,
        tries,
    })
}

// What a placing that is done answers, or the first question answered no.
fn try_place(map: &[u8], group: u32, out: &mut [u8]) -> Result<Placing, Question>
    ensures { MatchResult result
        (λ p. daemon_answer p out.new ≡ daemon_of map.now group out.old)
        (λ q. daemon_answer (record { number = number_of q; places = 0; tries = 0 }) out.new ≡ daemon_of map.now group out.old) }
{
    let text = door::load(map)?;
    ask(group < records::groups(text.bytes), Question::GroupBelow)?;
    listed(&text, group, out)
}

pub fn crush_place(map: &[u8], group: u32, out: &mut [u8]) -> Placing
    ensures { daemon_answer result out.new ≡ daemon_of map.now group out.old }
{
    match try_place(map, group, out) {
        Ok(p) => p,
        Err(q) => place::refused(q.number()),
    }
}

// What a day's drives that are listed answer, or the first question answered no.
fn try_drives(map: &[u8], show: u32, day: u32, out: &mut [u8]) -> Result<Drives, Question>
    ensures { MatchResult result
        (λ d. drives_answer d out.new ≡ drives_of map.now show day out.old)
        (λ q. drives_answer (record { number = number_of q; group = 0; places = 0; tries = 0 }) out.new ≡ drives_of map.now show day out.old) }
{
    let text = door::load(map)?;
    let group = loaded::day::group_of(&text, show, day);
    let p = listed(&text, group, out)?;
    Ok(Drives {
        number: 0,
        group,
        places: p.places,
        tries: p.tries,
    })
}

// The drives of a show's day, in one call: the group and its list.
pub fn crush_day_drives(map: &[u8], show: u32, day: u32, out: &mut [u8]) -> Drives
    ensures { drives_answer result out.new ≡ drives_of map.now show day out.old }
{
    match try_drives(map, show, day, out) {
        Ok(d) => d,
        Err(q) => Drives {
            number: q.number(),
            group: 0,
            places: 0,
            tries: 0,
        },
    }
}

// Whether a map loads, and how large its table is.
pub fn crush_sizes_of(map: &[u8]) -> Sizes
    ensures { sizes_answer result ≡ sizes_of map.now }
{
    load::sizes_of(map)
}

// The same, and where the map loads no state is stored any more.
pub fn crush_load(map: &[u8], states: &mut States) -> Sizes
    ensures { load_answer result states.new ≡ load_of map.now states.old }
{
    load::load(map, states)
}

// The table of a map.
pub fn crush_fill(map: &[u8], table: &mut [u16]) -> Filled
    ensures { fill_answer result table.new ≡ fill_of map.now table.old }
{
    fill::fill(map, table)
}

// An edit of a drive, into the map, the table and the space lent for its moves.
pub fn crush_edit(map: &mut [u8], table: &mut [u16], frame: &[u8], space: &mut [u8]) -> Edited
    ensures { edit_answer result map.new table.new space.new
        ≡ edit_of map.old table.old frame.now space.old }
{
    edit::edit(map, table, frame, space)
}

// The map's drives stored under a name.
pub fn crush_store(map: &[u8], states: &mut States, name: u16) -> u32
    ensures { store_answer result states.new ≡ store_of map.now states.old name }
{
    store::store(map, states, name)
}

// A return to the state of a name, into the map, the table and the space lent for its moves.
pub fn crush_return(
    map: &mut [u8],
    table: &mut [u16],
    states: &States,
    name: u16,
    space: &mut [u8],
) -> Edited
    ensures { edit_answer result map.new table.new space.new
        ≡ return_of map.old table.old states.now name space.old }
{
    back::return_to(map, table, states, name, space)
}

// A map's frames into the lent space.
pub fn crush_write(map: &[u8], space: &mut [u8]) -> Written
    ensures { write_answer result space.new ≡ write_of map.now space.old }
{
    write::write(map, space)
}

// The group of a show's day.
pub fn crush_day_group(map: &[u8], show: u32, day: u32) -> Day
    ensures { day_answer result ≡ day_of map.now show day }
{
    day::day_group(map, show, day)
}

// What an edit of a drive's acceptance moves at most.
pub fn crush_ceiling(map: &[u8], table: &[u16], device: u32) -> Limit
    ensures { ceiling_answer result ≡ ceiling_of map.now table.now device }
{
    limit::ceiling(map, table, device)
}

// The version of these calls.
pub fn crush_version() -> u32
    ensures { result ≡ version }
{
    10800
}
