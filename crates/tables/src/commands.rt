// The commands on a lent block. Each answers document 01's number; a refusal leaves the block as it was.
ghost use Rattle.std.specs.Prelude.{◌≡◌, true};
ghost use Rattle.address.specs.Numbers.{power_of_two};
ghost use Rattle.refusals.specs.Numbers.{answered};
ghost use Rattle.block.specs.Block.{current, good};
ghost use Rattle.range.specs.Outcomes.{outcome};
ghost use Rattle.tables.specs.Commands.{fresh as fresh_outcome, set as set_outcome, set_image_end, trim as trim_outcome, table as table_of, change_of, legal_verb, strict as strict_of, command, command_outcome};

use address::{Address, Size};
use block::{
    Header, LENGTH, Settings, block_good, current_layout, get_header, put_header, put_image_end,
};
use range::{change_range, trim_memory};
use records::table::{Tally, put_zeros};
use refusals::Refusal;
use regions::{Change, Kind, Tag, one_flag};

// Writes a fresh block over any bytes of the right length.
pub fn fresh(block: &mut [u8]) -> Result<(), Refusal>
    ensures { outcome (answered result) block.new ≡ fresh_outcome current block.old }
{
    if block.len() != LENGTH {
        return Err(Refusal::Block);
    }
    let empty = Tally {
        count: 0,
        total: Size(0),
    };
    let header = Header {
        memory: empty,
        taken: empty,
        settings: Settings {
            limit: Address(0xFFFF_FFFF_FFFF_FFFF),
            direction: 0,
            image: Address(0),
        },
    };
    put_zeros(block, 80);
    put_header(block, current_layout(), header);
    Ok(())
}

// Stores a limit and a direction. The image end stays.
// The direction is C's number, refused with 7 above 1.
pub fn set(block: &mut [u8], limit: Address, direction: u32) -> Result<(), Refusal>
    ensures { outcome (answered result) block.new ≡ set_outcome current limit.0 direction block.old }
{
    let layout = current_layout();
    if !block_good(block, layout) {
        return Err(Refusal::Block);
    }
    if 1 < direction {
        return Err(Refusal::Direction);
    }
    let own = get_header(block);
    let header = Header {
        settings: Settings {
            limit,
            direction,
            ..own.settings
        },
        ..own
    };
    put_header(block, layout, header);
    Ok(())
}

// Stores the image end; 0 means none. All else stays.
pub fn set_image_end(block: &mut [u8], image: Address) -> Result<(), Refusal>
    ensures { outcome (answered result) block.new ≡ set_image_end current image.0 block.old }
{
    if !block_good(block, current_layout()) {
        return Err(Refusal::Block);
    }
    put_image_end(block, image);
    Ok(())
}

// The commands on a range; add has its tag, mark and unmark the flag that they name.
// Tag and flag are C's numbers, right or not: `legal` refuses the others with 2.
#[derive(Clone, Copy)]
pub enum Verb {
    Add(Tag),
    Remove,
    Mark(u32),
    Unmark(u32),
    Reserve,
    Free,
}

impl Verb {
    // The table that it works on.
    fn table(self) -> Kind
        ensures { result ≡ table_of self }
    {
        match self {
            Verb::Add(_) | Verb::Remove | Verb::Mark(_) | Verb::Unmark(_) => Kind::Memory,
            Verb::Reserve | Verb::Free => Kind::Taken,
        }
    }

    // What it makes of each address of its range.
    fn change(self) -> Change
        ensures { result ≡ change_of self }
    {
        let plain = Tag { flags: 0, node: 0 };
        match self {
            Verb::Add(tag) => Change::Fill(tag),
            Verb::Reserve => Change::Fill(plain),
            Verb::Remove | Verb::Free => Change::Clear,
            Verb::Mark(w) => Change::Mark(w),
            Verb::Unmark(w) => Change::Unmark(w),
        }
    }

    // Whether it may be asked for: add has a legal tag, mark and unmark name one flag.
    fn legal(self) -> bool
        ensures { result ≡ legal_verb self }
    {
        match self {
            Verb::Add(tag) => tag.legal(Kind::Memory),
            Verb::Mark(w) | Verb::Unmark(w) => one_flag(w),
            Verb::Remove | Verb::Reserve | Verb::Free => true,
        }
    }

    // Whether its table must have every address of its range.
    fn strict(self) -> bool
        ensures { result ≡ strict_of self }
    {
        matches!(self, Verb::Free)
    }
}

// What a command answers on a good block, with a legal tag or flag: nothing is checked again.
pub fn on_good(block: &mut [u8], verb: Verb, base: Address, size: Size) -> Result<(), Refusal>
    requires { (good current block.old ≡ true) × (legal_verb verb ≡ true) }
    ensures { outcome (answered result) block.new ≡ command_outcome current (command verb base.0 size.0) block.old }
{
    let strict = verb.strict();
    change_range(block, verb.table(), verb.change(), strict, base, size)
}

// A command on a range.
// Base and size stay two, as C's calls and the definition `command` have them; by their types they cannot change places.
pub fn on_range(block: &mut [u8], verb: Verb, base: Address, size: Size) -> Result<(), Refusal>
    ensures { outcome (answered result) block.new ≡ command_outcome current (command verb base.0 size.0) block.old }
{
    if !block_good(block, current_layout()) {
        return Err(Refusal::Block);
    }
    if !verb.legal() {
        return Err(Refusal::Tag);
    }
    on_good(block, verb, base, size)
}

// What trim does to a good block, by a power of two.
pub fn trim_on_good(block: &mut [u8], align: Size)
    requires { (good current block.old ≡ true) × (power_of_two align.0 ≡ true) }
    ensures { outcome 0 block.new ≡ trim_outcome current align.0 block.old }
{
    trim_memory(block, align)
}

// Rounds each memory record's base up and its end down; one of which nothing is left goes.
pub fn trim(block: &mut [u8], align: Size) -> Result<(), Refusal>
    ensures { outcome (answered result) block.new ≡ trim_outcome current align.0 block.old }
{
    if !block_good(block, current_layout()) {
        return Err(Refusal::Block);
    }
    if !align.power_of_two() {
        return Err(Refusal::Alignment);
    }
    trim_on_good(block, align);
    Ok(())
}
