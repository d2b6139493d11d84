// Takes the device tree in the file that its argument names in on a fresh block, and prints as `report` does.
#![tactic(auto)]

use block::LENGTH;
use memblock::{memblock_fresh, memblock_intake_tree};
use program::{Program, say_answer};

// One byte more than the longest file that is taken in.
const ROOM: usize = 1048577;

fn room() -> [u8; ROOM] {
    [0u8; ROOM]
}

// Takes a tree in and prints what came of it, as `report` does with a report: one function for both would take the intake as a closure, with a law of it that
// the block is left good, and be longer than these lines.
fn take_in(rt: &impl Print, tree: &[u8]) {
    let mut block = [0u8; LENGTH];
    memblock_fresh(&mut block);
    let number = memblock_intake_tree(&mut block, tree);
    say_answer(rt, number, &block);
}

fn main(rt: HostRuntime) {
    let program = Program {
        rt: &rt,
        name: b"treereport",
    };
    let mut tree = room();
    let Some(n) = program.read_argument(&mut tree) else {
        return;
    };
    if n == ROOM {
        let _ = eprintln!(&rt; "treereport: the file is longer than 1048576 bytes");
        return;
    }
    take_in(&rt, &tree[..n]);
}
