// The exports for C: each calls the function of its name in `crush_place`, and promises what that promises.
#![tactic(auto)]

ghost use Rattle.std.specs.Prelude.{◌≡◌};
ghost use Rattle.definitions.specs.Calls.{sizes_of, load_of, daemon_of, fill_of, edit_of, store_of, return_of, ceiling_of, write_of, day_of, drives_of};
ghost use Rattle.engine.specs.Answers.{sizes_answer, load_answer, fill_answer, edit_answer, store_answer, ceiling_answer, write_answer, day_answer};
ghost use Rattle.crush_place.specs.Answers.{daemon_answer, drives_answer};
ghost use Rattle.crush_place.specs.Version.{version};

use crush_place::Drives;
use engine::day::Day;
use engine::edit::Edited;
use engine::fill::Filled;
use engine::limit::Limit;
use engine::load::Sizes;
use engine::place::Placing;
use engine::write::Written;

#[unsafe(no_mangle)]
pub extern "C" fn crush_place(map: &[u8], group: u32, out: &mut [u8]) -> Placing
    ensures { daemon_answer result out.new ≡ daemon_of map.now group out.old }
{
    crush_place::crush_place(map, group, out)
}

// The drives of a show's day, in one call: the group and its list.
#[unsafe(no_mangle)]
pub extern "C" fn crush_day_drives(map: &[u8], show: u32, day: u32, out: &mut [u8]) -> Drives
    ensures { drives_answer result out.new ≡ drives_of map.now show day out.old }
{
    crush_place::crush_day_drives(map, show, day, out)
}

// Whether a map loads, and how large its table is.
#[unsafe(no_mangle)]
pub extern "C" fn crush_sizes_of(map: &[u8]) -> Sizes
    ensures { sizes_answer result ≡ sizes_of map.now }
{
    crush_place::crush_sizes_of(map)
}

// The same, and where the map loads no state is stored any more.
#[unsafe(no_mangle)]
pub extern "C" fn crush_load(map: &[u8], states: &mut [u32; 24586]) -> Sizes
    ensures { load_answer result states.new ≡ load_of map.now states.old }
{
    crush_place::crush_load(map, states)
}

// The table of a map.
#[unsafe(no_mangle)]
pub extern "C" fn crush_fill(map: &[u8], table: &mut [u16]) -> Filled
    ensures { fill_answer result table.new ≡ fill_of map.now table.old }
{
    crush_place::crush_fill(map, table)
}

// An edit of a drive, into the map, the table and the space lent for its moves.
#[unsafe(no_mangle)]
pub extern "C" fn crush_edit(
    map: &mut [u8],
    table: &mut [u16],
    frame: &[u8],
    space: &mut [u8],
) -> Edited
    ensures { edit_answer result map.new table.new space.new
        ≡ edit_of map.old table.old frame.now space.old }
{
    crush_place::crush_edit(map, table, frame, space)
}

// The map's drives stored under a name.
#[unsafe(no_mangle)]
pub extern "C" fn crush_store(map: &[u8], states: &mut [u32; 24586], name: u16) -> u32
    ensures { store_answer result states.new ≡ store_of map.now states.old name }
{
    crush_place::crush_store(map, states, name)
}

// A return to the state of a name, into the map, the table and the space lent for its moves.
#[unsafe(no_mangle)]
pub extern "C" fn crush_return(
    map: &mut [u8],
    table: &mut [u16],
    states: &[u32; 24586],
    name: u16,
    space: &mut [u8],
) -> Edited
    ensures { edit_answer result map.new table.new space.new
        ≡ return_of map.old table.old states.now name space.old }
{
    crush_place::crush_return(map, table, states, name, space)
}

// A map's frames into the lent space.
#[unsafe(no_mangle)]
pub extern "C" fn crush_write(map: &[u8], space: &mut [u8]) -> Written
    ensures { write_answer result space.new ≡ write_of map.now space.old }
{
    crush_place::crush_write(map, space)
}

// The group of a show's day.
#[unsafe(no_mangle)]
pub extern "C" fn crush_day_group(map: &[u8], show: u32, day: u32) -> Day
    ensures { day_answer result ≡ day_of map.now show day }
{
    crush_place::crush_day_group(map, show, day)
}

// What an edit of a drive's acceptance moves at most.
#[unsafe(no_mangle)]
pub extern "C" fn crush_ceiling(map: &[u8], table: &[u16], device: u32) -> Limit
    ensures { ceiling_answer result ≡ ceiling_of map.now table.now device }
{
    crush_place::crush_ceiling(map, table, device)
}

// The version of these calls.
#[unsafe(no_mangle)]
pub extern "C" fn crush_version() -> u32
    ensures { result ≡ version }
{
    crush_place::crush_version()
}
