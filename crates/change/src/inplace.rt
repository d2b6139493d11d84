// A change over a range of a table, in place: only the records that the range meets or touches are built anew, and the rest is moved.
ghost use Rattle.std.specs.Prelude.{◌≡◌, true, ◌+◌, ◌*◌, ◌-◌, ◌/◌, ◌≤◌, length};
ghost use Rattle.regions.specs.declared.State.TheVariants.{Absent};
ghost use Rattle.regions.specs.Meaning.{top};
ghost use Rattle.regions.specs.Lists.{rises};
ghost use Rattle.regions.specs.Bytes.{read_regions};
ghost use Rattle.records.specs.Steps.{Table, Whole, ending_by, put};
ghost use Rattle.regions.specs.Changes.{allowed as allowed_of};
ghost use Rattle.change.specs.Steps.{OneTagged, Meets, Stored, TriedAs, starting_by};
ghost use Rattle.lists.specs.Steps.{finished};

use address::{Address, Size};
use lists::{Edit, change_list};
use moves::replace;
use records::table::{Records, Tally};
use refusals::Refusal;
use regions::bytes::get_u64;

// The records that a range meets or touches: from `first` up to, not including, `stop`.
#[derive(Clone, Copy)]
pub struct Met {
    pub first: usize,
    pub stop: usize,
}

// The address below; 0, if there is none.
fn below(a: Address) -> Address
    ensures { result.0 ≡ a.0 - 1 }
{
    if a == Address(0) {
        return a;
    }
    a.sub(Size(1))
}

// How many of the records begin at or below `a`; the first `from` do.
// Of a record only the base is read, as the number that it is in the bytes.
fn starting_by(t: Records, from: usize, a: Address) -> usize
    requires { (24 * t.count ≤ length t.bytes.now) × (from ≤ starting_by a.0 (read_regions t.count t.bytes.now)) }
    ensures { result ≡ starting_by a.0 (read_regions t.entry.count t.entry.bytes.now) }
{
    for i in from..t.count {
        if a.0 < get_u64(t.bytes, 24 * i) {
            return i;
        }
    }
    t.count
}

// All records before `first` end below the edit's range, all from `stop` on begin above it.
pub fn meet(t: Records, edit: Edit) -> Met
    requires { Table t.bytes.now t.count × (edit.lo.0 ≤ edit.hi.0) }
    ensures { (result.first ≡ ending_by (edit.lo.0 - 1) (read_regions t.entry.count t.entry.bytes.now)) × (result.stop ≡ starting_by edit.hi.0 (read_regions t.entry.count t.entry.bytes.now)) }
{
    let first = t.place(below(edit.lo));
    let stop = starting_by(t, first, edit.hi);
    Met { first, stop }
}

// Whether an edit is allowed: a strict one must find every address of its range in the table, and so, where all records have one tag, in one record; the first
// `first` of them end below the range. One look at a record.
// `strict` is a bool, as the definition `allowed` has it.
pub fn allowed(t: Records, first: usize, strict: bool, edit: Edit) -> bool
    requires { Table t.bytes.now t.count × ((first ≡ ending_by (edit.lo.0 - 1) (read_regions t.count t.bytes.now)) × (strict ≡ true → OneTagged (read_regions t.count t.bytes.now))) }
    ensures { result ≡ allowed_of strict edit.lo.0 edit.hi.0 (read_regions t.entry.count t.entry.bytes.now) }
{
    if !strict || edit.hi <= edit.lo {
        return true;
    }
    if t.count <= first {
        return false;
    }
    let r = t.get(first);
    let Some(end) = r.end() else {
        return false;
    };
    r.base <= edit.lo && edit.hi <= end
}

// Puts records in the place of those met, if there is room.
pub fn splice(t: &mut [u8], tally: Tally, met: Met, new: Records) -> Result<Tally, Refusal>
    requires { Whole t.old tally × (((met.first ≤ met.stop) × (met.stop ≤ tally.count)) × ((24 * new.count ≤ length new.bytes.now) × ((rises 0 Absent top (read_regions new.count new.bytes.now) ≡ true) × (rises 0 Absent top (put met.first met.stop (read_regions new.count new.bytes.now) (read_regions tally.count t.old)) ≡ true)))) }
    ensures { Stored t.old t.new (put met.first met.stop (read_regions new.entry.count new.entry.bytes.now) (read_regions tally.count t.old)) result }
{
    let count = tally.count as usize;
    let gone = met.stop - met.first;
    let left = count - gone + new.count;
    if t.len() / 24 < left {
        return Err(Refusal::Full);
    }
    let old = Records {
        bytes: &t[24 * met.first..24 * met.stop],
        count: gone,
    };
    let total = tally.total.sub(old.total()).add(new.total());
    replace(t, count, met.first, met.stop, new);
    Ok(Tally {
        count: left as u32,
        total,
    })
}

// Makes a table hold the finished shortest list, if it has room; the records met are built anew in a scratch table. None if that has no room for them.
fn rebuild_in(
    t: &mut [u8],
    tally: Tally,
    met: Met,
    edit: Edit,
    scratch: &mut [u8],
) -> Option<Result<Tally, Refusal>>
    requires { Meets t.old tally edit met }
    ensures { TriedAs (length scratch.old / 24) result t.old t.new (finished edit (read_regions tally.count t.old)) }
{
    let old = Records {
        bytes: &t[24 * met.first..24 * met.stop],
        count: met.stop - met.first,
    };
    let count = change_list(old, scratch, edit)?;
    let new = Records {
        bytes: scratch,
        count,
    };
    Some(splice(t, tally, met, new))
}

// In a scratch table of N bytes of its own.
fn rebuild_with<const N: usize>(
    t: &mut [u8],
    tally: Tally,
    met: Met,
    edit: Edit,
) -> Option<Result<Tally, Refusal>>
    requires { (N ≤ 3072) × Meets t.old tally edit met }
    ensures { TriedAs (N / 24) result t.old t.new (finished edit (read_regions tally.count t.old)) }
{
    let mut scratch = [0u8; N];
    rebuild_in(t, tally, met, edit, &mut scratch)
}

// In a scratch table of 8 records first, enough where the change makes one state of a whole range; then in one of 128, enough for any change of a table that
// is no longer. The two are not on the stack at once.
pub fn rebuild(t: &mut [u8], tally: Tally, met: Met, edit: Edit) -> Result<Tally, Refusal>
    requires { Meets t.old tally edit met }
    ensures { Stored t.old t.new (finished edit (read_regions tally.count t.old)) result }
{
    if let Some(r) = rebuild_with::<192>(t, tally, met, edit) {
        return r;
    }
    rebuild_with::<3072>(t, tally, met, edit).unwrap_or(Err(Refusal::Full))
}
