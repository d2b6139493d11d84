// Ranges of a tree, taken in: those of a reg, and those of the reservation list.
ghost use Rattle.std.specs.Prelude.{◌≡◌, true, ◌+◌, ◌*◌, ◌/◌, ◌≤◌, ◌<◌, length, drop};
ghost use Rattle.block.specs.Block.{current, good};
ghost use Rattle.refusals.specs.Numbers.{answered};
ghost use Rattle.range.specs.Outcomes.{outcome};
ghost use Rattle.tables.specs.Commands.{legal_verb};
ghost use Rattle.tables.specs.declared.commands.Verb.TheVariants.{Reserve};
ghost use Rattle.intake.specs.Turns.{steps, in_turn};
ghost use Rattle.tree.specs.Words.{big};
ghost use Rattle.tree.specs.Header.{pairs, before_end};
ghost use Rattle.board.specs.Board.{entries, on_ranges};
ghost use Rattle.board.specs.Steps.{OneOrTwo};

use address::{Address, Size};
use refusals::Refusal;
use tables::commands::{Verb, on_good};
use tree::header::is_end;
use tree::words::{double_at, word_at};

// How many cells of 4 bytes an address and a size have.
#[derive(Clone, Copy)]
pub struct Cells {
    pub address: usize,
    pub size: usize,
}

// A number of 1 or 2 cells.
fn cells_at(s: &[u8], at: usize, cells: usize) -> u64
    requires { (0 < cells) × (cells ≤ 2) × (at + 4 * cells ≤ length s.now) }
    ensures { result ≡ big 0 (4 * cells) (drop at s.now) }
{
    if cells == 1 {
        return word_at(s, at) as u64;
    }
    double_at(s, at)
}

// A command on each range of a value in turn; the first refusal ends it.
pub fn take_ranges(block: &mut [u8], verb: Verb, value: &[u8], cells: Cells) -> Result<(), Refusal>
    requires { (good current block.old ≡ true) × (legal_verb verb ≡ true) × (OneOrTwo cells) }
    ensures { outcome (answered result) block.new ≡ in_turn (steps current (on_ranges verb (entries (length value.now / (4 * (cells.address + cells.size))) cells.address cells.size value.now))) block.old }
{
    for entry in value.chunks_exact(4 * (cells.address + cells.size)) {
        let base = cells_at(entry, 0, cells.address);
        let size = cells_at(entry, 4 * cells.address, cells.size);
        on_good(block, verb, Address(base), Size(size))?;
    }
    Ok(())
}

// The pairs of the reservation list, up to two zeros, reserved in turn.
pub fn take_list(block: &mut [u8], list: &[u8]) -> Result<(), Refusal>
    requires { good current block.old ≡ true }
    ensures { outcome (answered result) block.new ≡ in_turn (steps current (on_ranges Reserve (before_end (pairs (length list.now / 16) list.now)))) block.old }
{
    for pair in list.chunks_exact(16) {
        let base = double_at(pair, 0);
        let size = double_at(pair, 8);
        if is_end(base, size) {
            return Ok(());
        }
        on_good(block, Verb::Reserve, Address(base), Size(size))?;
    }
    Ok(())
}
