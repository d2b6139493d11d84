// A range that no record meets is filled by one record: the one below grows, or the one above, or both become one, or it is put between them.
ghost use Rattle.std.specs.Prelude.{◌≡◌, true, ◌+◌, ◌*◌, ◌-◌, ◌<◌, ◌≤◌, length, drop};
ghost use Rattle.regions.specs.declared.Change.TheVariants.{Fill};
ghost use Rattle.regions.specs.Meaning.{at, shortest, top};
ghost use Rattle.regions.specs.Changes.{change, after, allowed as allowed_of};
ghost use Rattle.regions.specs.Bytes.{read_regions};
ghost use Rattle.records.specs.Steps.{Table, Whole, ending_by};
ghost use Rattle.change.specs.Steps.{OneTagged, Changeable, Stored, StoredIf, clear_to, Vacant, GapAs, JoinedBelow, JoinedAbove};
ghost use Rattle.lists.specs.Steps.{finished};

use crate::inplace::{allowed, meet, rebuild};
use address::{Address, Size};
use lists::Edit;
use moves::replace_one;
use records::table::{Records, Tally};
use refusals::Refusal;
use regions::bytes::get_u64;
use regions::{Change, Region, Tag};

// Where a filled stretch begins or ends among the records, and at which address.
#[derive(Clone, Copy)]
pub struct Side {
    pub at: usize,
    pub bound: Address,
}

// A range that no record meets: how many records end at or below it, and the tag with which it is filled.
#[derive(Clone, Copy)]
pub struct Gap {
    pub at: usize,
    pub tag: Tag,
}

// Whether no record from `i` on begins below `hi`.
// Of the record only the base is read, as the number that it is in the bytes.
fn clear_from(t: Records, i: usize, hi: Address) -> bool
    requires { (24 * t.count ≤ length t.bytes.now) × (i ≤ t.count) }
    ensures { result ≡ clear_to hi.0 (drop i (read_regions t.entry.count t.entry.bytes.now)) }
{
    t.count <= i || hi.0 <= get_u64(t.bytes, 24 * i)
}

// The lower side: record `i - 1` with it, if that ends at `lo` with the tag.
fn side_below(t: Records, i: usize, lo: Address, tag: Tag) -> Side
    requires { 24 * i ≤ length t.bytes.now }
    ensures { JoinedBelow t.entry.bytes.now i lo.0 tag result }
{
    if i == 0 {
        return Side { at: i, bound: lo };
    }
    let r = t.get(i - 1);
    if r.joins(lo, tag) {
        return Side {
            at: i - 1,
            bound: r.base,
        };
    }
    Side { at: i, bound: lo }
}

// The upper side: record `i` with it, if that begins at `hi` with the tag. Another function than for the lower side: records are told apart there by where they
// end, here by where they begin.
fn side_above(t: Records, i: usize, hi: Address, tag: Tag) -> Side
    requires { Table t.bytes.now t.count × ((i ≤ t.count) × ((hi.0 ≤ top) × (clear_to hi.0 (drop i (read_regions t.count t.bytes.now)) ≡ true))) }
    ensures { JoinedAbove (read_regions t.entry.count t.entry.bytes.now) i hi.0 tag result }
{
    let alone = Side { at: i, bound: hi };
    if t.count <= i {
        return alone;
    }
    let r = t.get(i);
    if r.base != hi || r.tag != tag {
        return alone;
    }
    let Some(end) = r.end() else {
        return alone;
    };
    Side {
        at: i + 1,
        bound: end,
    }
}

// Fills the gap from `lo` up to, not including, `hi`.
// The ends stay two addresses, here and in `fill_table`: an edit's, or a base and its cut end, of which a Run would be made for the call alone.
fn fill_gap(
    t: &mut [u8],
    tally: Tally,
    gap: Gap,
    lo: Address,
    hi: Address,
) -> Result<Tally, Refusal>
    requires { Whole t.old tally × (((gap.at ≡ ending_by lo.0 (read_regions tally.count t.old)) × (lo.0 < hi.0)) × ((hi.0 ≤ top) × (clear_to hi.0 (drop gap.at (read_regions tally.count t.old)) ≡ true))) }
    ensures { Stored t.old t.new (shortest (after (change (Fill gap.tag)) lo.0 hi.0 (at (read_regions tally.count t.old))) top) result }
{
    let count = tally.count as usize;
    let records = Records { bytes: t, count };
    let low = side_below(records, gap.at, lo, gap.tag);
    let high = side_above(records, gap.at, hi, gap.tag);
    let r = Region {
        base: low.bound,
        size: high.bound.offset_from(low.bound),
        tag: gap.tag,
    };
    let left = count - (high.at - low.at) + 1;
    if t.len() / 24 < left {
        return Err(Refusal::Full);
    }
    replace_one(t, count, low.at, high.at, r);
    // by its number: with a copy of the field the tally is no longer passed in registers
    let total = Size(tally.total.0);
    Ok(Tally {
        count: left as u32,
        total: total.add(hi.offset_from(lo)),
    })
}

// Fills a range of which the table has no address, if there is room.
pub fn fill_table(
    t: &mut [u8],
    tally: Tally,
    lo: Address,
    hi: Address,
    tag: Tag,
) -> Result<Tally, Refusal>
    requires { Whole t.old tally × ((lo.0 < hi.0) × ((hi.0 ≤ top) × Vacant lo.0 hi.0 (read_regions tally.count t.old))) }
    ensures { Stored t.old t.new (shortest (after (change (Fill tag)) lo.0 hi.0 (at (read_regions tally.count t.old))) top) result }
{
    let records = Records {
        bytes: t,
        count: tally.count as usize,
    };
    let at = records.place(lo);
    fill_gap(t, tally, Gap { at, tag }, lo, hi)
}

// How many of the records end at or below `a`; `first` of them end below it.
fn place_from(t: Records, first: usize, a: Address) -> usize
    requires { Table t.bytes.now t.count × (first ≡ ending_by (a.0 - 1) (read_regions t.count t.bytes.now)) }
    ensures { result ≡ ending_by a.0 (read_regions t.entry.count t.entry.bytes.now) }
{
    if first < t.count && t.ends_by(first, a) {
        return first + 1;
    }
    first
}

// Where the range goes, if the change fills it and no record meets it; `first` records end below it.
fn gap_of(t: Records, first: usize, edit: Edit) -> Option<Gap>
    requires { Table t.bytes.now t.count × (first ≡ ending_by (edit.lo.0 - 1) (read_regions t.count t.bytes.now)) }
    ensures { GapAs result edit (read_regions t.entry.count t.entry.bytes.now) }
{
    let Change::Fill(tag) = edit.change else {
        return None;
    };
    if edit.hi <= edit.lo {
        return None;
    }
    let at = place_from(t, first, edit.lo);
    if !clear_from(t, at, edit.hi) {
        return None;
    }
    Some(Gap { at, tag })
}

// Makes a table hold the finished shortest list, if the change is allowed and there is room.
pub fn change_table(t: &mut [u8], tally: Tally, strict: bool, edit: Edit) -> Result<Tally, Refusal>
    requires { Whole t.old tally × (Changeable t.old tally edit × (strict ≡ true → OneTagged (read_regions tally.count t.old))) }
    ensures { StoredIf (allowed_of strict edit.lo.0 edit.hi.0 (read_regions tally.count t.old)) t.old t.new (finished edit (read_regions tally.count t.old)) result }
{
    let records = Records {
        bytes: t,
        count: tally.count as usize,
    };
    let met = meet(records, edit);
    if !allowed(records, met.first, strict, edit) {
        return Err(Refusal::NotTaken);
    }
    let Some(gap) = gap_of(records, met.first, edit) else {
        return rebuild(t, tally, met, edit);
    };
    fill_gap(t, tally, gap, edit.lo, edit.hi)
}
