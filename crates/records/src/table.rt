// A table as a lent part of the block: records first, then zeros.
ghost use Rattle.std.specs.Prelude.{◌≡◌, ◌+◌, ◌-◌, ◌*◌, ◌/◌, ◌≤◌, true, ◌++◌, length, take, drop, replicate, ◌==◌, nat_le};
ghost use Rattle.regions.specs.Bytes.{read_region, read_regions};
ghost use Rattle.regions.specs.declared.State.TheVariants.{Absent};
ghost use Rattle.regions.specs.Meaning.{end as end_of, at, total, top};
ghost use Rattle.regions.specs.Lists.{rises};
ghost use Rattle.records.specs.Checks.{all_zeros, checked_list, checked_table};
ghost use Rattle.records.specs.Steps.{Table, Halved, ending_by};

use address::{Address, Size};
use regions::bytes::{get_region, get_u64};
use regions::{Kind, Region, State};

// How many records a table has, and how many addresses they say.
// It goes beside its table's bytes, not in one value with them: it stands in the header, and a change answers a new one, or why there is none.
#[derive(Clone, Copy)]
pub struct Tally {
    pub count: u32,
    pub total: Size,
}

// The first `count` records of these bytes.
// The count comes from C's header. That they are a good table stays in the contracts: `check_table` takes bytes of which nothing is known.
#[derive(Clone, Copy)]
pub struct Records<'a> {
    pub bytes: &'a [u8],
    pub count: usize,
}

// Where a range begins among the records, and how many of them were looked at. A counter of the code, since a body has no ghost variables.
#[derive(Clone, Copy)]
struct Placed {
    at: usize,
    looks: usize,
}

impl<'a> Records<'a> {
    // Record `i`.
    pub fn get(self, i: usize) -> Region
        requires { 24 * i + 24 ≤ length self.bytes.now }
        ensures { result ≡ read_region (drop (24 * i) self.entry.bytes.now) }
    {
        get_region(self.bytes, 24 * i)
    }

    // Whether record `i` ends at or below `a`: one look at a record.
    pub fn ends_by(self, i: usize, a: Address) -> bool
        requires { 24 * i + 24 ≤ length self.bytes.now }
        ensures { result ≡ nat_le (end_of (read_region (drop (24 * i) self.entry.bytes.now))) a.0 }
    {
        let r = self.get(i);
        let Some(end) = r.end() else {
            return false;
        };
        end <= a
    }

    // How many of the first records end at or below `a`, by halving: the records are bytes that C lends, no slice that the library could search.
    fn halve(self, a: Address) -> Placed
        requires { (24 * self.count ≤ length self.bytes.now) × (rises 0 Absent top (read_regions self.count self.bytes.now) ≡ true) }
        ensures { (result.at ≡ ending_by a.0 (read_regions self.entry.count self.entry.bytes.now)) × Halved self.entry.count result.looks }
    {
        let mut low = 0;
        let mut high = self.count;
        let mut looks = 0;
        while low < high {
            let mid = low + (high - low) / 2;
            if self.ends_by(mid, a) {
                low = mid + 1;
            } else {
                high = mid;
            }
            looks += 1;
        }
        Placed { at: low, looks }
    }

    // How many of the first records end at or below `a`: where a range that begins at `a` begins among them.
    pub fn place(self, a: Address) -> usize
        requires { Table self.bytes.now self.count }
        ensures { result ≡ ending_by a.0 (read_regions self.entry.count self.entry.bytes.now) }
    {
        self.halve(a).at
    }

    // How many addresses they say.
    pub fn total(self) -> Size
        requires { (24 * self.count ≤ length self.bytes.now) × (rises 0 Absent top (read_regions self.count self.bytes.now) ≡ true) }
        ensures { result.0 ≡ total (at (read_regions self.entry.count self.entry.bytes.now)) top }
    {
        let mut sum = Size(0);
        for i in 0..self.count {
            let r = self.get(i);
            sum = sum.add(r.size);
        }
        sum
    }

    // The total, if each record is legal and fits after the one before.
    pub fn check(self, kind: Kind) -> Option<Size>
        requires { 24 * self.count ≤ length self.bytes.now }
        ensures { result ≡ checked_list kind (read_regions self.entry.count self.entry.bytes.now) }
    {
        let mut total = 0;
        let mut low = 0;
        let mut below = State::Absent;
        for i in 0..self.count {
            let r = self.get(i);
            let tag = r.tag;
            let base = r.base.0;
            let size = r.size.0;
            let end = base.wrapping_add(size);
            if !tag.legal(kind) {
                return None;
            }
            if end <= base {
                return None;
            }
            if base <= low {
                if base < low {
                    return None;
                }
                if below.is(tag) {
                    return None;
                }
            }
            total += size;
            low = end;
            below = State::Present(tag);
        }
        Some(Size(total))
    }

    // The total of a whole table: these records, and zeros behind them.
    pub fn check_table(self, kind: Kind) -> Option<Size>
        ensures { result ≡ checked_table kind self.entry.count self.entry.bytes.now }
    {
        if self.bytes.len() / 24 < self.count {
            return None;
        }
        let total = self.check(kind)?;
        if !all_zero(self.bytes, 24 * self.count) {
            return None;
        }
        Some(total)
    }
}

// Whether every byte from `at` on is 0.
fn rest_zero(t: &[u8], at: usize) -> bool
    requires { at ≤ length t.now }
    ensures { result ≡ all_zeros (drop at t.now) }
{
    t[at..].iter().all(|b| *b == 0)
}

// The same, eight bytes at a time as far as they go: one at a time takes six times as long. An index by hand, for the bytes left over are tested too.
fn few_zero(t: &[u8], at: usize) -> bool
    requires { at ≤ length t.now }
    ensures { result ≡ all_zeros (drop at t.now) }
{
    let mut i = at;
    while 8 <= t.len() - i {
        if get_u64(t, i) != 0 {
            return false;
        }
        i += 8;
    }
    rest_zero(t, i)
}

// Four words joined: 0 exactly when the 32 bytes from `i` on are.
fn any4(t: &[u8], i: usize) -> u64
    requires { i + 32 ≤ length t.now }
    ensures { (result == 0) ≡ all_zeros (take 32 (drop i t.now)) }
{
    get_u64(t, i) | get_u64(t, i + 8) | get_u64(t, i + 16) | get_u64(t, i + 24)
}

// Sixteen words joined: 0 exactly when the 128 bytes from `i` on are.
fn any16(t: &[u8], i: usize) -> u64
    requires { i + 128 ≤ length t.now }
    ensures { (result == 0) ≡ all_zeros (take 128 (drop i t.now)) }
{
    any4(t, i) | any4(t, i + 32) | any4(t, i + 64) | any4(t, i + 96)
}

// Whether every byte from `at` on is 0, 128 at a time from the end, and what is left with the first 128: a table ends at a multiple of 16, wherever its
// records end. An index by hand: the library has no chunks from the end.
pub fn all_zero(t: &[u8], at: usize) -> bool
    requires { at ≤ length t.now }
    ensures { result ≡ all_zeros (drop at t.now) }
{
    let n = t.len();
    let mut i = n;
    while 128 <= i - at {
        i -= 128;
        if any16(t, i) != 0 {
            return false;
        }
    }
    if 128 <= n - at {
        return any16(t, at) == 0;
    }
    few_zero(t, at)
}

// Writes zeros from `at` on.
pub fn put_zeros(t: &mut [u8], at: usize)
    requires { at ≤ length t.old }
    ensures { t.new ≡ take at t.old ++ replicate (length t.old - at) 0 }
{
    t[at..].fill(0);
}

// Copies the first `m` bytes.
// Byte by byte: by the library's copy the archive needs `memmove` from boot code, which nothing else in it does.
pub fn copy_front(dst: &mut [u8], src: &[u8], m: usize)
    requires { (m ≤ length dst.old) × (m ≤ length src.now) }
    ensures { dst.new ≡ take m src.now ++ drop m dst.old }
{
    for i in 0..m {
        dst[i] = src[i];
    }
}
