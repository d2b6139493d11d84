// One way to change a range of a table of a good block, over the change and the table.
#![tactic(auto)]

ghost use Rattle.std.specs.Prelude.{◌≡◌, true, ◌+◌, ◌*◌, ◌<◌, ◌≤◌, length};
ghost use Rattle.regions.specs.declared.Kind.TheVariants.{Memory, Taken};
ghost use Rattle.regions.specs.declared.Change.TheVariants.{Fill};
ghost use Rattle.regions.specs.Meaning.{top};
ghost use Rattle.address.specs.Numbers.{power_of_two};
ghost use Rattle.regions.specs.Trim.{trimmed_list};
ghost use Rattle.regions.specs.Changes.{cut, allowed};
ghost use Rattle.change.specs.Steps.{Vacant};
ghost use Rattle.range.specs.Steps.{Known, store_changed};
ghost use Rattle.block.specs.Block.{current, offset, capacity, list_of, with_list, block_bytes, contents, good};
ghost use Rattle.range.specs.Outcomes.{outcome, unless, change_range};
ghost use Rattle.refusals.specs.Numbers.{answered};

use address::{Address, Size};
use block::{Header, current_layout, get_header, put_header};
use change::gap::{change_table, fill_table};
use lists::Edit;
use records::table::Tally;
use refusals::Refusal;
use regions::{Change, Kind, Tag};
use trim::trim_table;

// Where the records of a table stand in a block.
#[derive(Clone, Copy)]
pub struct Span {
    pub start: usize,
    pub end: usize,
}

pub fn table_span(kind: Kind) -> Span
    ensures { (result.start ≡ offset current kind) × (result.end ≡ offset current kind + 24 * capacity current kind) }
{
    let layout = current_layout();
    let start = layout.start(kind);
    Span {
        start,
        end: start + 24 * layout.capacity(kind),
    }
}

// The end of a command's range, cut to 2^64 - 1.
pub fn cut_end(base: Address, size: Size) -> Address
    ensures { result.0 ≡ cut base.0 size.0 }
{
    let Some(end) = base.plus(size) else {
        return Address(0xFFFF_FFFF_FFFF_FFFF);
    };
    end
}

// Writes a changed table's tally into the header, or answers why the table is not changed.
#[tactic(auto, unfolding(crate::specs::Steps::store_changed))]
pub fn store_changed(
    block: &mut [u8],
    own: Header,
    kind: Kind,
    changed: Result<Tally, Refusal>,
) -> Result<(), Refusal>
    requires { 80 ≤ length block.old }
    ensures { outcome (answered result) block.new ≡ store_changed own kind changed block.old }
{
    let tally = changed?;
    put_header(block, current_layout(), own.with_tally(kind, tally));
    Ok(())
}

// Changes a range of a table that has room; if it is strict, only where the table has every address of the range.
// `strict`, base and size as the definitions `allowed` and `change_range` have them.
pub fn change_range(
    block: &mut [u8],
    kind: Kind,
    change: Change,
    strict: bool,
    base: Address,
    size: Size,
) -> Result<(), Refusal>
    requires { (good current block.old ≡ true) × (Known kind change × (strict ≡ true → kind ≡ Taken)) }
    ensures { outcome (answered result) block.new ≡ unless (allowed strict base.0 (cut base.0 size.0) (list_of (contents current block.old) kind)) 12 block.old (change_range current kind change base.0 size.0 block.old) }
{
    let span = table_span(kind);
    let own = get_header(block);
    let tally = own.tally(kind);
    let edit = Edit {
        change,
        lo: base,
        hi: cut_end(base, size),
    };
    let changed = change_table(&mut block[span.start..span.end], tally, strict, edit);
    store_changed(block, own, kind, changed)
}

// Puts a range of which a table has no address into it, with a tag, if the table has room.
pub fn fill_range(
    block: &mut [u8],
    kind: Kind,
    tag: Tag,
    base: Address,
    size: Size,
) -> Result<(), Refusal>
    requires { (good current block.old ≡ true) × ((0 < size.0) × ((base.0 + size.0 ≤ top) × Vacant base.0 (base.0 + size.0) (list_of (contents current block.old) kind))) }
    ensures { outcome (answered result) block.new ≡ change_range current kind (Fill tag) base.0 size.0 block.old }
{
    let span = table_span(kind);
    let own = get_header(block);
    let tally = own.tally(kind);
    let hi = cut_end(base, size);
    let changed = fill_table(&mut block[span.start..span.end], tally, base, hi, tag);
    store_changed(block, own, kind, changed)
}

// Trims the memory table of a good block by an alignment.
pub fn trim_memory(block: &mut [u8], align: Size)
    requires { (good current block.old ≡ true) × (power_of_two align.0 ≡ true) }
    ensures { block.new ≡ block_bytes current (with_list (contents current block.old) Memory (trimmed_list align.0 (contents current block.old).memory)) }
{
    let span = table_span(Kind::Memory);
    let own = get_header(block);
    let tally = own.tally(Kind::Memory);
    let new = trim_table(&mut block[span.start..span.end], tally, align);
    put_header(block, current_layout(), own.with_tally(Kind::Memory, new));
}
