// Trim: each memory record with its base rounded up and its end rounded down.
#![tactic(auto)]

ghost use Rattle.std.specs.Prelude.{◌≡◌, true, ◌+◌, ◌*◌, ◌<◌, ◌≤◌, ◌++◌, length, drop};
ghost use Rattle.regions.specs.Meaning.{end as end_of, top};
ghost use Rattle.address.specs.Numbers.{power_of_two};
ghost use Rattle.regions.specs.Trim.{round_one, round_each};
ghost use Rattle.regions.specs.Bytes.{read_regions};
ghost use Rattle.records.specs.Steps.{Table, Whole};
ghost use Rattle.trim.specs.Steps.{Trimmed, left_of};

use address::Size;
use moves::replace;
use records::table::{Records, Tally};
use regions::Region;
use regions::bytes::{get_region, put_region};

// What is left of a record, if anything is.
fn round_region(r: Region, align: Size) -> Option<Region>
    requires { (power_of_two align.0 ≡ true) × (end_of r ≤ top) }
    ensures { left_of result ≡ round_one align.0 r }
{
    let start = r.base;
    let base = start.up(align)?;
    let end = start.add(r.size);
    let past = end.down(align);
    if past <= base {
        return None;
    }
    Some(Region {
        base,
        size: past.offset_from(base),
        tag: r.tag,
    })
}

// Writes what is left of each record over the first of them, and answers how many there are.
// In place, since there is no second table (fixed memory): the place to write at goes on by hand, only where something is left.
fn round_records(t: &mut [u8], count: usize, align: Size) -> usize
    requires { Table t.old count × (power_of_two align.0 ≡ true) }
    ensures { (result ≤ count) × ((read_regions result t.new ≡ round_each align.0 (read_regions count t.old)) × (drop (24 * count) t.new ≡ drop (24 * count) t.old)) }
{
    let mut n = 0;
    for i in 0..count {
        let r = get_region(t, 24 * i);
        if let Some(left) = round_region(r, align) {
            put_region(t, 24 * n, left);
            n += 1;
        }
    }
    n
}

// Makes a table hold what is left of its records, and answers their count and total.
pub fn trim_table(t: &mut [u8], tally: Tally, align: Size) -> Tally
    requires { Whole t.old tally × (power_of_two align.0 ≡ true) }
    ensures { Trimmed t.old t.new (round_each align.0 (read_regions tally.count t.old)) result }
{
    let count = tally.count as usize;
    let none = Records {
        bytes: &[],
        count: 0,
    };
    let n = round_records(t, count, align);
    let left = Records {
        bytes: &*t,
        count: n,
    };
    let total = left.total();
    replace(t, count, n, count, none);
    Tally {
        count: n as u32,
        total,
    }
}
