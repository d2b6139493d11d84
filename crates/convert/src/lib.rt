// An edition 1 block's meaning, written as a block that the commands work on.
#![tactic(auto)]

ghost use Rattle.std.specs.Prelude.{◌≡◌, ◌*◌, ◌≤◌, length};
ghost use Rattle.refusals.specs.Numbers.{answered};
ghost use Rattle.regions.specs.Bytes.{read_regions};
ghost use Rattle.range.specs.Outcomes.{outcome};
ghost use Rattle.convert.specs.Convert.{old_flags, flags_one, good_one, convert as convert_outcome};

use block::{
    FRONT, LENGTH, LENGTH_ONE, block_good, current_layout, edition_one_layout, get_header,
    put_header,
};
use records::table::{Records, copy_front, put_zeros};
use refusals::Refusal;

// Whether document 01 knows these flags of memory: 0 or 4.
fn old_flags(flags: u32) -> bool
    ensures { result ≡ old_flags flags }
{
    matches!(flags, 0 | 4)
}

// Whether it knows those of the first `count` records.
fn flags_one(memory: Records) -> bool
    requires { 24 * memory.count ≤ length memory.bytes.now }
    ensures { result ≡ flags_one (read_regions memory.entry.count memory.entry.bytes.now) }
{
    for i in 0..memory.count {
        if !old_flags(memory.get(i).tag.flags) {
            return false;
        }
    }
    true
}

// Whether a block is a good edition 1 block by document 01, which knows no image end and fewer flags than a good block may have now.
fn good_one(old: &[u8]) -> bool
    ensures { result ≡ good_one old.now }
{
    if !block_good(old, edition_one_layout()) {
        return false;
    }
    let h = get_header(old);
    let memory = Records {
        bytes: &old[80..FRONT],
        count: h.memory.count as usize,
    };
    // By its number: with `== Address(0)` the goal where it is another was left open.
    h.settings.image.0 == 0 && flags_one(memory)
}

// Writes what an edition 1 block says over any bytes of the right length: its records as they stand, zeros behind them, and the header anew.
pub fn convert(old: &[u8], block: &mut [u8]) -> Result<(), Refusal>
    ensures { outcome (answered result) block.new ≡ convert_outcome old.now block.old }
{
    if !good_one(old) || block.len() != LENGTH {
        return Err(Refusal::Block);
    }
    copy_front(block, old, LENGTH_ONE);
    put_zeros(block, LENGTH_ONE);
    put_header(block, current_layout(), get_header(old));
    Ok(())
}
