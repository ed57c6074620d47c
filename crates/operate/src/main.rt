// Program `operate`, for an operator's day: reads a map as `fill` does and then one call a line from standard input, the map, the table and the
// named states going on from call to call; prints the row of each group, then the moves or the refusal of each edit and of each return to a state,
// for a line `2c` the map as frames, for `2d` the rows, and for a store its refusal or nothing.
#![tactic(auto)]

ghost use Rattle.std.specs.Prelude.{◌≡◌, length};

use protocol::asked::Program;

// The largest table that there is, 65,536 groups of 32 places: 4 MiB. It stands in a function: with the table in place the prover goes through its
// places in the proof of `main`, and stops at its depth.
fn table_space() -> [u16; 2097152]
    ensures { 2097152 ≡ length result }
{
    [0; 2097152]
}

fn main(rt: HostRuntime) {
    let mut table = table_space();
    console::run(Program::Operate, &rt, &mut table);
}
