// Checks the placement plan in the file that its first argument names on the board in that of its second: a block, or else an E820 report, which is taken in
// on a fresh one. It prints the number answered and the index beside it, in decimal, with one space between.
#![tactic(auto)]

mod text;

use block::LENGTH;
use memblock::{memblock_fresh, memblock_intake_e820};
use plan::{Line, answered, place_plan};
use program::Program;
use text::{LINES, TEXT, no_line, read_lines};

// One byte more than a block has: a longer file is then seen to be none.
const ROOM: usize = 15441;

// The arguments.
const PLAN: usize = 1;

const BOARD: usize = 2;

// Checks a plan on a block, and prints the answer.
fn judge(rt: &impl Print, block: &mut [u8], lines: &[Line]) {
    let (number, index) = answered(place_plan(block, lines));
    let _ = println!(rt; "{number} {index}");
}

// The same on the board that a report tells of.
fn judge_report(program: Program<'_>, report: &[u8], lines: &[Line]) {
    let mut block = [0u8; LENGTH];
    memblock_fresh(&mut block);
    let number = memblock_intake_e820(&mut block, report);
    if number != 0 {
        program.say_about(BOARD);
        let _ = eprintln!(program.rt; "the report is refused with {number}");
        return;
    }
    judge(program.rt, &mut block, lines);
}

// The same on the bytes of a file.
fn judge_board(program: Program<'_>, board: &mut [u8], lines: &[Line]) {
    if board.len() == LENGTH {
        judge(program.rt, board, lines);
    } else {
        judge_report(program, board, lines);
    }
}

fn main(rt: HostRuntime) {
    let program = Program {
        rt: &rt,
        name: b"checkplan",
    };
    if !program.names_files(b"PLAN BOARD", 2) {
        return;
    }
    let mut text = [0u8; TEXT];
    let Some(n) = program.read_named(PLAN, &mut text) else {
        return;
    };
    let mut board = [0u8; ROOM];
    let Some(m) = program.read_named(BOARD, &mut board) else {
        return;
    };
    let mut lines = [no_line(); LINES];
    match read_lines(&text[..n], &mut lines) {
        Ok(lines) => judge_board(program, &mut board[..m], lines),
        Err(fault) => {
            program.say_about(PLAN);
            let _ = eprintln!(&rt; "{fault}");
        }
    }
}
