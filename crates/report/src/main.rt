// Takes the E820 report in the file that its argument names in on a fresh block, and prints the number answered and every record of both tables: a
// line each, in decimal, the fields in their order with one space between.
#![tactic(auto)]

use block::LENGTH;
use memblock::{memblock_fresh, memblock_intake_e820};
use program::{Program, say_answer};

// One byte more than the longest report has: a longer file is then seen to be too long.
const ROOM: usize = 2561;

// Takes a report in and prints what came of it.
fn take_in(rt: &impl Print, report: &[u8]) {
    let mut block = [0u8; LENGTH];
    memblock_fresh(&mut block);
    let number = memblock_intake_e820(&mut block, report);
    say_answer(rt, number, &block);
}

fn main(rt: HostRuntime) {
    let program = Program {
        rt: &rt,
        name: b"report",
    };
    let mut report = [0u8; ROOM];
    if let Some(n) = program.read_argument(&mut report) {
        take_in(&rt, &report[..n]);
    }
}
