// Program `fill` of document 01, "Samples": reads a map and then edits from standard input; prints the row of each group, then each edit's moves or
// its refusal.
#![tactic(auto)]

ghost use Rattle.std.specs.Prelude.{◌≡◌, length};

use protocol::asked::Program;

// "It lends 64 KiB to the table": places of 16 bits.
fn table_space() -> [u16; 32768]
    ensures { 32768 ≡ length result }
{
    [0; 32768]
}

fn main(rt: HostRuntime) {
    let mut table = table_space();
    console::run(Program::Fill, &rt, &mut table);
}
