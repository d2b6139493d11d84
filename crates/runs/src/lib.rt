// The walk over two tables, lent as parts of the block: memory records, and in each the gaps that the taken records leave. The two walks stay loops over
// indices that go on only where a record is passed: document 01 fixes this form, and it was tuned so (each taken record is read once).
#![tactic(auto)]

ghost use Rattle.std.specs.Prelude.{◌≡◌, ◌-◌, ◌≤◌, ◌<◌};
ghost use Rattle.regions.specs.Meaning.{end as end_of};
ghost use Rattle.records.specs.Steps.{Table, ending_by};
ghost use Rattle.fits.specs.declared.Way.TheVariants.{Up, Down};
ghost use Rattle.fits.specs.Places.{place_of};
ghost use Rattle.runs.specs.Steps.{regions_of, memory_of, taken_of, bounds_of, bounds_low, bounds_high, Searchable, first_in};

use address::Address;
use fits::{Query, Spot, Way, fit_high, fit_low, serving};
use records::table::Records;
use regions::{Region, Run};

// The first address past a record of a good table.
pub fn past(r: Region) -> Address
    requires { end_of r < 18446744073709551616 }
    ensures { result.0 ≡ end_of r }
{
    r.base.add(r.size)
}

// Where a record begins and ends.
// Not a Run, which is what a walk answers: the two stand beside each other there and cannot change places so.
#[derive(Clone, Copy)]
pub struct Bounds {
    pub base: Address,
    pub end: Address,
}

impl Bounds {
    // Those of a record of a good table.
    fn of(r: Region) -> Bounds
        requires { end_of r < 18446744073709551616 }
        ensures { result ≡ bounds_of r }
    {
        Bounds {
            base: r.base,
            end: past(r),
        }
    }
}

// The bounds of record `j`; behind the last, of one at the top that is never met.
// Not an Option: the walks compare the bounds anyway, and so need no case for none.
pub fn bounds_low(t: Records<'_>, j: usize) -> Bounds
    requires { Table t.bytes.now t.count }
    ensures { result ≡ bounds_low t.entry j }
{
    if t.count <= j {
        let none = Address(0xFFFF_FFFF_FFFF_FFFF);
        return Bounds {
            base: none,
            end: none,
        };
    }
    Bounds::of(t.get(j))
}

// The bounds of the record before `j`; before the first, of one at 0 that is never met.
// The mirror of `bounds_low`: the other neighbour, and for none the other end.
pub fn bounds_high(t: Records<'_>, j: usize) -> Bounds
    requires { Table t.bytes.now t.count × (j ≤ t.count) }
    ensures { result ≡ bounds_high t.entry j }
{
    if j == 0 {
        let none = Address(0);
        return Bounds {
            base: none,
            end: none,
        };
    }
    Bounds::of(t.get(j - 1))
}

// How many of the first records end at or below `a`: one look where the first ends above it, else by halving.
fn ended(t: Records<'_>, a: Address) -> usize
    requires { Table t.bytes.now t.count }
    ensures { result ≡ ending_by a.0 (regions_of t.entry) }
{
    if t.count == 0 || !t.ends_by(0, a) {
        return 0;
    }
    t.place(a)
}

// A block's two tables.
#[derive(Clone, Copy)]
pub struct Tables<'a> {
    pub memory: Records<'a>,
    pub taken: Records<'a>,
}

impl<'a> Tables<'a> {
    // The lowest eligible address, with its run. The records are taken from the first that reaches into the window to the last; the place `j` in the taken
    // table begins at the last record that ends below the window, never goes back, and stays where a taken record reaches past the memory record.
    // What is left of a record is a run from `low` on, cut to the window from `lo` on.
    fn walk_low(self, q: Query) -> Option<Spot>
        requires { Searchable self q }
        ensures { result ≡ place_of (first_in Up (memory_of self.entry) (taken_of self.entry) q) }
    {
        let first = q.start;
        let last = q.end;
        let mut i = ended(self.memory, first);
        let mut j = ended(self.taken, first).saturating_sub(1);
        let mut t = bounds_low(self.taken, j);
        'records: loop {
            if self.memory.count <= i {
                break 'records None;
            }
            let r = self.memory.get(i);
            i += 1;
            if serving(r, q) {
                let top = past(r);
                let hi = top.min(last);
                let mut low = r.base;
                let mut lo = low.max(first);
                while t.base < hi {
                    let base = t.base;
                    if let Some(at) = fit_low(lo, base, q) {
                        let run = Run { low, end: base };
                        break 'records Some(Spot { at, run });
                    }
                    let end = t.end;
                    if hi < end {
                        continue 'records;
                    }
                    low = low.max(end);
                    lo = lo.max(end);
                    j += 1;
                    t = bounds_low(self.taken, j);
                }
                if let Some(at) = fit_low(lo, hi, q) {
                    let next = t.base;
                    let end = top.min(next);
                    let run = Run { low, end };
                    break 'records Some(Spot { at, run });
                }
            }
        }
    }

    // The highest eligible address, with its run: the records from the last to the first, and in each the gaps from the top.
    // The mirror of `walk_low`, which no type or constant makes of it: what is the start of a record, gap or window there is its end here.
    fn walk_high(self, q: Query) -> Option<Spot>
        requires { Searchable self q }
        ensures { result ≡ place_of (first_in Down (memory_of self.entry) (taken_of self.entry) q) }
    {
        let first = q.start;
        let last = q.end;
        let mut i = self.memory.count;
        let mut j = self.taken.count;
        let mut t = bounds_high(self.taken, j);
        'records: loop {
            if i == 0 {
                break 'records None;
            }
            i -= 1;
            let r = self.memory.get(i);
            if serving(r, q) {
                let bottom = r.base;
                let lo = bottom.max(first);
                let mut top = past(r);
                let mut hi = top.min(last);
                while lo < t.end {
                    let end = t.end;
                    if let Some(at) = fit_high(end, hi, q) {
                        let run = Run { low: end, end: top };
                        break 'records Some(Spot { at, run });
                    }
                    let base = t.base;
                    if base < lo {
                        continue 'records;
                    }
                    top = top.min(base);
                    hi = hi.min(base);
                    j -= 1;
                    t = bounds_high(self.taken, j);
                }
                if let Some(at) = fit_high(lo, hi, q) {
                    let next = t.end;
                    let low = bottom.max(next);
                    let run = Run { low, end: top };
                    break 'records Some(Spot { at, run });
                }
            }
        }
    }

    // The first eligible address in the order of the way, with its run.
    pub fn walk(self, q: Query, way: Way) -> Option<Spot>
        requires { Searchable self q }
        ensures { result ≡ place_of (first_in way (memory_of self.entry) (taken_of self.entry) q) }
    {
        match way {
            Way::Up => self.walk_low(q),
            Way::Down => self.walk_high(q),
        }
    }
}
