// A change over a range of a table: the finished shortest list is built in a scratch table.
#![tactic(auto)]

ghost use Rattle.std.specs.Prelude.{◌≡◌, true, [], ◌∷◌, ◌++◌, ◌+◌, ◌*◌, ◌-◌, ◌/◌, ◌^◌, ◌<◌, ◌≤◌, min, max, length, drop};
ghost use Rattle.regions.specs.Bytes.{read_region, read_regions};
ghost use Rattle.regions.specs.Meaning.{region, end as end_of, joins, join, push};
ghost use Rattle.lists.specs.Steps.{HoldsList, Became, Editable, finished};
ghost use Rattle.records.specs.Steps.{Table};
ghost use Rattle.regions.specs.Changes.{change};
ghost use Rattle.regions.specs.declared.State.TheVariants.{Absent, Present};
ghost use Rattle.regions.specs.Steps.{FlagsBounded, stretch};

use address::Address;
use records::table::Records;
use regions::bytes::{get_region, put_region};
use regions::{Change, Region, Run, State};

// A change over the addresses from `lo` up to, not including, `hi`.
#[derive(Clone, Copy)]
pub struct Edit {
    pub change: Change,
    pub lo: Address,
    pub hi: Address,
}

impl Edit {
    // What of the addresses from `from` up to, not including, `to` lies in the range.
    fn within(self, from: Address, to: Address) -> Run
        ensures { (result.low.0 ≡ max from.0 (min self.lo.0 to.0)) × (result.end.0 ≡ max from.0 (min self.hi.0 to.0)) }
    {
        Run {
            low: from.max(self.lo.min(to)),
            end: from.max(self.hi.min(to)),
        }
    }
}

// A list that is being built: the first `count` records of `out`.
// A slice and a count: fixed memory, a rule of the project.
#[derive(Drop)]
struct Built<'a> {
    out: &'a mut [u8],
    count: usize,
}

// The region `p`, which `r` joins, with r's addresses.
fn grown(p: Region, r: Region) -> Region
    requires { (joins p r.base.0 r.tag ≡ true) × (end_of r < 2 ^ 64) }
    ensures { result ≡ region p.base.0 (p.size.0 + r.size.0) r.tag }
{
    let own = p.size;
    Region {
        base: p.base,
        size: own.add(r.size),
        tag: r.tag,
    }
}

impl<'a> Built<'a> {
    // The last region.
    fn last(&self) -> Region
        requires { (0 < self.now.count) × (24 * self.now.count ≤ length self.now.out.now) }
        ensures { result ≡ read_region (drop (24 * (self.now.count - 1)) self.now.out.now) }
    {
        get_region(self.out, 24 * (self.count - 1))
    }

    // Appends a region, if there is room.
    fn append(&mut self, r: Region) -> Option<()>
        requires { 24 * self.old.count ≤ length self.old.out.now }
        ensures { Became self.old self.new (read_regions self.old.count self.old.out.now ++ (r ∷ [])) result }
    {
        let at = 24 * self.count;
        if self.out.len() - at < 24 {
            return None;
        }
        put_region(self.out, at, r);
        self.count += 1;
        Some(())
    }

    // Puts a region behind the list: the last one grows by it, or it is one more.
    fn push_region(&mut self, r: Region) -> Option<()>
        requires { (24 * self.old.count ≤ length self.old.out.now) × (end_of r < 2 ^ 64) }
        ensures { Became self.old self.new (join (read_regions self.old.count self.old.out.now) r.base.0 r.size.0 r.tag) result }
    {
        if self.count == 0 {
            return self.append(r);
        }
        let last = self.last();
        if last.joins(r.base, r.tag) {
            put_region(self.out, 24 * (self.count - 1), grown(last, r));
            return Some(());
        }
        self.append(r)
    }

    // Puts the addresses from `from` up to, not including, `to`, all of one state, behind the list.
    // The ends stay two addresses, here and below: a stretch is cut at both ends of `inside`, and a Run of each piece would be made for the call alone.
    fn push_piece(&mut self, from: Address, to: Address, v: State) -> Option<()>
        requires { (24 * self.old.count ≤ length self.old.out.now) × (from.0 ≤ to.0) }
        ensures { Became self.old self.new (push (read_regions self.old.count self.old.out.now) from.0 (to.0 - from.0) v) result }
    {
        let State::Present(tag) = v else {
            return Some(());
        };
        if from == to {
            return Some(());
        }
        let size = to.offset_from(from);
        self.push_region(Region {
            base: from,
            size,
            tag,
        })
    }

    // Puts a stretch of one state behind the list: as it was outside the edit's range, changed inside it.
    fn push_stretch(&mut self, edit: Edit, from: Address, to: Address, v: State) -> Option<()>
        requires { (24 * self.old.count ≤ length self.old.out.now) × ((from.0 ≤ to.0) × (Editable edit × FlagsBounded v)) }
        ensures { Became self.old self.new (stretch (change edit.change) edit.lo.0 edit.hi.0 (read_regions self.old.count self.old.out.now) from.0 to.0 v) result }
    {
        let change = edit.change;
        let inside = edit.within(from, to);
        self.push_piece(from, inside.low, v)?;
        self.push_piece(inside.low, inside.end, change.apply(v))?;
        self.push_piece(inside.end, to, v)
    }

    // Puts the addresses from `from` up to, not including, `to`, of which the table has none, behind the list: filled where the edit fills them.
    fn push_gap(&mut self, edit: Edit, from: Address, to: Address) -> Option<()>
        requires { (24 * self.old.count ≤ length self.old.out.now) × ((from.0 ≤ to.0) × Editable edit) }
        ensures { Became self.old self.new (stretch (change edit.change) edit.lo.0 edit.hi.0 (read_regions self.old.count self.old.out.now) from.0 to.0 Absent) result }
    {
        let change = edit.change;
        let State::Present(tag) = change.apply(State::Absent) else {
            return Some(());
        };
        let inside = edit.within(from, to);
        self.push_piece(inside.low, inside.end, State::Present(tag))
    }

    // Puts a record behind the list, changed inside the edit's range.
    fn push_record(&mut self, edit: Edit, r: Region, end: Address) -> Option<()>
        requires { (24 * self.old.count ≤ length self.old.out.now) × ((end.0 ≡ end_of r) × ((r.tag.flags ≤ 7) × Editable edit)) }
        ensures { Became self.old self.new (stretch (change edit.change) edit.lo.0 edit.hi.0 (read_regions self.old.count self.old.out.now) r.base.0 (end_of r) (Present r.tag)) result }
    {
        let base = r.base;
        let tag = r.tag;
        if edit.lo <= base && end <= edit.hi {
            let change = edit.change;
            return self.push_piece(base, end, change.apply(State::Present(tag)));
        }
        self.push_stretch(edit, base, end, State::Present(tag))
    }
}

// Builds the finished shortest list of changed records in `out`, if it has room there.
pub fn change_list(table: Records, out: &mut [u8], edit: Edit) -> Option<usize>
    requires { Table table.bytes.now table.count × Editable edit }
    ensures { HoldsList out.new (length out.old / 24) (finished edit (read_regions table.entry.count table.entry.bytes.now)) result }
{
    let mut built = Built { out, count: 0 };
    let mut from = Address(0);
    for i in 0..table.count {
        let r = table.get(i);
        let base = r.base;
        let end = base.add(r.size);
        built.push_gap(edit, from, base)?;
        built.push_record(edit, r, end)?;
        from = end;
    }
    built.push_gap(edit, from, from.max(edit.hi))?;
    Some(built.count)
}
