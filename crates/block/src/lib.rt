// The block: a header of 80 bytes, the memory table, the taken table.
#![tactic(auto)]

ghost use Rattle.std.specs.Prelude.{◌≡◌, ◌+◌, ◌*◌, ◌<◌, ◌≤◌, length, take};
ghost use Rattle.std.proofs.lemmas.List.Edits.{sets};
ghost use Rattle.regions.specs.Bytes.{bytes};
ghost use Rattle.block.specs.Block.{edition_one, current, capacity as capacity_of, offset, entry_bytes, entries_bytes, settings_bytes, totals_bytes, header_bytes, read_header, same_bytes, good};
ghost use Rattle.block.specs.Checks.{Small, with_totals, tally_of, with_tally};

use address::{Address, Size};
use records::table::{Records, Tally};
use regions::Kind;
use regions::bytes::{get_u32, get_u64, put_u32, put_u64};

// The layout that the commands work on: how many records each table has room for, and the length of the block.
pub const MEMORY: u32 = 128;

pub const TAKEN: u32 = 512;

pub const LENGTH: usize = 15440;

// The header and the memory table: the bytes before the taken table.
pub const FRONT: usize = 3152;

// The length of an edition 1 block.
pub const LENGTH_ONE: usize = 6224;

// Which edition, and how many records each table has room for.
// The edition is the number in C's header.
#[derive(Clone, Copy)]
pub struct Layout {
    pub edition: u32,
    pub memory: u32,
    pub taken: u32,
}

// What a block is set to: searches end by the limit, and where the direction is 1 they go up from the image end (0: none) first.
// The direction is the field as C's block has it, right or not: `block_good` refuses a number above 1; 0 for no image end is C's number too.
#[derive(Clone, Copy)]
pub struct Settings {
    pub limit: Address,
    pub direction: u32,
    pub image: Address,
}

// What the header says beside the layout.
#[derive(Clone, Copy)]
pub struct Header {
    pub memory: Tally,
    pub taken: Tally,
    pub settings: Settings,
}

impl Header {
    // A table's count and total.
    pub fn tally(self, kind: Kind) -> Tally
        ensures { result ≡ tally_of self kind }
    {
        match kind {
            Kind::Memory => self.memory,
            Kind::Taken => self.taken,
        }
    }

    // The header with another count and total for a table.
    pub fn with_tally(self, kind: Kind, tally: Tally) -> Header
        ensures { result ≡ with_tally self kind tally }
    {
        match kind {
            Kind::Memory => Header {
                memory: tally,
                ..self
            },
            Kind::Taken => Header {
                taken: tally,
                ..self
            },
        }
    }
}

impl Layout {
    // Where a table begins.
    #[tactic(auto, unfolding(crate::specs::Block::offset))]
    pub fn start(self, kind: Kind) -> usize
        requires { Small self }
        ensures { result ≡ offset self kind }
    {
        match kind {
            Kind::Memory => 80,
            Kind::Taken => 80 + 24 * (self.memory as usize),
        }
    }

    // How many records a table has room for.
    #[tactic(auto, unfolding(crate::specs::Block::capacity))]
    pub fn capacity(self, kind: Kind) -> usize
        ensures { result ≡ capacity_of self kind }
    {
        match kind {
            Kind::Memory => self.memory as usize,
            Kind::Taken => self.taken as usize,
        }
    }
}

// The layout that the commands work on: edition 2.
pub fn current_layout() -> Layout
    ensures { result ≡ current }
{
    Layout {
        edition: 2,
        memory: MEMORY,
        taken: TAKEN,
    }
}

// Document 01's layout, which only the converting command reads.
pub fn edition_one_layout() -> Layout
    ensures { result ≡ edition_one }
{
    Layout {
        edition: 1,
        memory: 128,
        taken: 128,
    }
}

// A table's entry in the header.
// Its four numbers are the words of C's header in their order, 1 and 2 the kinds there.
fn put_entry(s: &mut [u8], at: usize, kind: u32, offset: u32, count: u32, capacity: u32)
    requires { at + 16 ≤ length s.old }
    ensures { s.new ≡ sets s.old at (entry_bytes kind offset count capacity) }
{
    put_u32(s, at, kind);
    put_u32(s, at + 4, offset);
    put_u32(s, at + 8, count);
    put_u32(s, at + 12, capacity);
}

// Limit and direction.
fn put_settings(s: &mut [u8], settings: Settings)
    requires { 56 ≤ length s.old }
    ensures { s.new ≡ sets s.old 40 (settings_bytes settings) }
{
    put_u64(s, 40, settings.limit.0);
    put_u32(s, 48, settings.direction);
    put_u32(s, 52, 0);
}

// The image end alone.
pub fn put_image_end(s: &mut [u8], image: Address)
    requires { 80 ≤ length s.old }
    ensures { s.new ≡ sets s.old 72 (bytes 8 image.0) }
{
    put_u64(s, 72, image.0);
}

// Both totals and the image end.
fn put_totals(s: &mut [u8], memory: Size, taken: Size, image: Address)
    requires { 80 ≤ length s.old }
    ensures { s.new ≡ sets s.old 56 (totals_bytes memory.0 taken.0 image.0) }
{
    put_u64(s, 56, memory.0);
    put_u64(s, 64, taken.0);
    put_image_end(s, image);
}

// Edition, number of bodies and both entries.
fn put_entries(s: &mut [u8], layout: Layout, memory: u32, taken: u32)
    requires { (40 ≤ length s.old) × Small layout }
    ensures { s.new ≡ sets s.old 0 (entries_bytes layout memory taken) }
{
    put_u32(s, 0, layout.edition);
    put_u32(s, 4, 2);
    put_entry(s, 8, 1, 80, memory, layout.memory);
    put_entry(s, 24, 2, 80 + 24 * layout.memory, taken, layout.taken);
}

// Writes the whole header.
pub fn put_header(s: &mut [u8], layout: Layout, h: Header)
    requires { (80 ≤ length s.old) × Small layout }
    ensures { s.new ≡ sets s.old 0 (header_bytes layout h) }
{
    put_entries(s, layout, h.memory.count, h.taken.count);
    put_settings(s, h.settings);
    put_totals(s, h.memory.total, h.taken.total, h.settings.image);
}

// What the header's fields hold, right or not.
pub fn get_header(b: &[u8]) -> Header
    requires { 80 ≤ length b.now }
    ensures { result ≡ read_header b.now }
{
    Header {
        memory: Tally {
            count: get_u32(b, 16),
            total: Size(get_u64(b, 56)),
        },
        taken: Tally {
            count: get_u32(b, 32),
            total: Size(get_u64(b, 64)),
        },
        settings: Settings {
            limit: Address(get_u64(b, 40)),
            direction: get_u32(b, 48),
            image: Address(get_u64(b, 72)),
        },
    }
}

// Whether two headers hold the same bytes, eight at a time: `==` of the slices goes by bytes, and header_byte_let_through is an edit of this loop.
fn same_header(a: &[u8], b: &[u8]) -> bool
    requires { (length a.now ≡ 80) × (length b.now ≡ 80) }
    ensures { result ≡ same_bytes a.now b.now }
{
    for i in 0..10 {
        if get_u64(a, 8 * i) != get_u64(b, 8 * i) {
            return false;
        }
    }
    true
}

// Whether the header is the spelling of what it says, with these totals.
fn header_right(b: &[u8], layout: Layout, memory: Size, taken: Size) -> bool
    requires { (80 ≤ length b.now) × Small layout }
    ensures { result ≡ same_bytes (take 80 b.now) (header_bytes layout (with_totals (read_header b.now) memory taken)) }
{
    let own = get_header(b);
    let right = Header {
        memory: Tally {
            total: memory,
            ..own.memory
        },
        taken: Tally {
            total: taken,
            ..own.taken
        },
        settings: own.settings,
    };
    let mut spelled = [0u8; 80];
    put_header(&mut spelled, layout, right);
    same_header(&b[0..80], &spelled)
}

// Whether the block is good.
// That is a fact of the bytes in the contracts and no type of its own: C lends the bytes, each call asks anew, and while a command writes them it does not
// hold.
pub fn block_good(b: &[u8], layout: Layout) -> bool
    requires { Small layout }
    ensures { result ≡ good layout b.now }
{
    let middle = 80 + 24 * (layout.memory as usize);
    let end = middle + 24 * (layout.taken as usize);
    if b.len() != end {
        return false;
    }
    let h = get_header(b);
    if 1 < h.settings.direction {
        return false;
    }
    let memory = Records {
        bytes: &b[80..middle],
        count: h.memory.count as usize,
    };
    let Some(memory) = memory.check_table(Kind::Memory) else {
        return false;
    };
    let taken = Records {
        bytes: &b[middle..end],
        count: h.taken.count as usize,
    };
    let Some(taken) = taken.check_table(Kind::Taken) else {
        return false;
    };
    header_right(b, layout, memory, taken)
}
