// E820 reports: entries of 20 bytes, u64 base, u64 length, u32 kind, little-endian.
ghost use Rattle.std.specs.Prelude.{◌≡◌, ◌+◌, ◌≤◌, length, drop, true};
ghost use Rattle.refusals.specs.Numbers.{answered};
ghost use Rattle.block.specs.Block.{current, good};
ghost use Rattle.range.specs.Outcomes.{outcome};
ghost use Rattle.intake.specs.E820.{read_entry, entries, becomes as becomes_of, entry_commands, entry_steps, intake_e820};
ghost use Rattle.intake.specs.Turns.{steps, in_turn, wholly};

use address::{Address, Size};
use block::{FRONT, block_good, current_layout};
use records::table::copy_front;
use refusals::Refusal;
use regions::Tag;
use regions::bytes::{get_u32, get_u64};
use tables::commands::{Verb, on_good, trim_on_good};

// One range of the report.
// The kind is the report's number as it stands; `becomes` says what it means.
#[derive(Clone, Copy)]
pub struct Entry {
    pub base: Address,
    pub size: Size,
    pub kind: u32,
}

// What an entry becomes.
#[derive(Clone, Copy)]
pub enum Becomes {
    Added,
    PassedOver,
}

// By kind, as the ACPI specification numbers them.
const KINDS: [Becomes; 8] = [
    Becomes::PassedOver, // 0: no kind
    Becomes::Added, // 1: memory
    Becomes::PassedOver, // 2: reserved
    Becomes::PassedOver, // 3: ACPI tables
    Becomes::PassedOver, // 4: ACPI non-volatile
    Becomes::PassedOver, // 5: unusable
    Becomes::PassedOver, // 6: disabled
    Becomes::PassedOver, // 7: persistent
];

impl Entry {
    // What the table of kinds says; numbers outside it are passed over.
    fn becomes(self) -> Becomes
        ensures { result ≡ becomes_of self.kind }
    {
        match KINDS.get(self.kind as usize) {
            Some(becomes) => *becomes,
            None => Becomes::PassedOver,
        }
    }
}

// The entry at `at`.
fn get_entry(report: &[u8], at: usize) -> Entry
    requires { at + 20 ≤ length report.now }
    ensures { result ≡ read_entry (drop at report.now) }
{
    let base = get_u64(report, at);
    let size = get_u64(report, at + 8);
    let kind = get_u32(report, at + 16);
    Entry {
        base: Address(base),
        size: Size(size),
        kind,
    }
}

// One entry on a good block.
fn take_entry(block: &mut [u8], entry: Entry) -> Result<(), Refusal>
    requires { good current block.old ≡ true }
    ensures { outcome (answered result) block.new ≡ in_turn (steps current (entry_commands entry)) block.old }
{
    let plain = Tag { flags: 0, node: 0 };
    match entry.becomes() {
        Becomes::Added => on_good(block, Verb::Add(plain), entry.base, entry.size),
        Becomes::PassedOver => Ok(()),
    }
}

// The entries in turn, then memory trimmed by 4096; the first refusal ends it.
fn take_in_turn(block: &mut [u8], report: &[u8]) -> Result<(), Refusal>
    requires { good current block.old ≡ true }
    ensures { outcome (answered result) block.new ≡ in_turn (entry_steps current (entries report.now)) block.old }
{
    for i in 0..report.len() / 20 {
        take_entry(block, get_entry(report, 20 * i))?;
    }
    trim_on_good(block, Size(4096));
    Ok(())
}

// The same, whole or not at all: a copy of what an entry can change, the header and the memory table, is kept on the stack, and put back after a refusal.
// `take_wholly` of `board` tells why the two are not one.
fn take_wholly(block: &mut [u8], report: &[u8]) -> Result<(), Refusal>
    requires { good current block.old ≡ true }
    ensures { outcome (answered result) block.new ≡ wholly (entry_steps current (entries report.now)) block.old }
{
    let mut kept = [0u8; FRONT];
    copy_front(&mut kept, block, FRONT);
    if let Err(refusal) = take_in_turn(block, report) {
        copy_front(block, &kept, FRONT);
        return Err(refusal);
    }
    Ok(())
}

// Takes a report in. Whether the block is good is asked once: add and trim leave a good one.
pub fn intake(block: &mut [u8], report: &[u8]) -> Result<(), Refusal>
    ensures { outcome (answered result) block.new ≡ intake_e820 current report.now block.old }
{
    if !block_good(block, current_layout()) {
        return Err(Refusal::Block);
    }
    if report.len() % 20 != 0 || 128 < report.len() / 20 {
        return Err(Refusal::Report);
    }
    take_wholly(block, report)
}
