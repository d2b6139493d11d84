// A placement plan: lines that each propose an address, accepted and reserved all at once, or refused with the first line at fault. It is judged line by
// line, each with the ranges of those before it; `place_plan` does so over a lent slice of lines, `plan_numbers` over slices of numbers.
#![tactic(auto)]

ghost use Rattle.std.specs.Prelude.{◌≡◌, true, [], ◌∷◌, ◌++◌, ◌+◌, ◌≤◌, ◌<◌, List, length, take, get_or};
ghost use Rattle.refusals.specs.Numbers.{answered as refused};
ghost use Rattle.regions.specs.Meaning.{at, shortest, top};
ghost use Rattle.regions.specs.declared.Run.{Run as RunOf};
ghost use Rattle.regions.specs.declared.Kind.TheVariants.{Taken};
ghost use Rattle.regions.specs.Lists.{good_list};
ghost use Rattle.regions.specs.Bytes.{read_regions};
ghost use Rattle.records.specs.Steps.{Whole};
ghost use Rattle.change.specs.Steps.{Stored};
ghost use Rattle.block.specs.Block.{current, contents, good};
ghost use Rattle.range.specs.Outcomes.{outcome};
ghost use Rattle.plan.specs.declared.Line.{Line as LineOf};
ghost use Rattle.plan.specs.Answers.{answer, with_index, number_of, index_of};
ghost use Rattle.plan.specs.Plan.{share, passes as passes_by, any, with_ranges, reserving, plan};
ghost use Rattle.plan.specs.Numbers.{lists, lines_of};
ghost use Rattle.plan.specs.Steps.{begun, judged, judged_all, AllApart, Spells};

use address::{Address, Size};
use block::{block_good, current_layout, get_header};
use change::gap::fill_table;
use fits::Query;
use range::{store_changed, table_span};
use records::table::{Tally, copy_front};
use refusals::Refusal;
use regions::{Kind, Run, Tag};
use search::find::refusal;
use seek::eligible_in;
use std::marker::Model;

// The most lines that a plan may have.
const LINES: usize = 64;

// What is asked of find, and the address proposed for it.
#[derive(Clone, Copy)]
pub struct Line {
    pub query: Query,
    pub at: Address,
}

// Why a plan is refused, and the index of the line at fault, 0 where it is none.
// 0 and no Option, as the answer beside the number has it.
#[derive(Clone, Copy)]
pub struct Fault {
    pub refusal: Refusal,
    pub index: u32,
}

impl From<Refusal> for Fault {
    ghost from_gives = { λ refusal f. f ≡ record { refusal = refusal; index = 0 } };

    fn from(refusal: Refusal) -> Fault {
        Fault { refusal, index: 0 }
    }
}

// The number that is answered for a plan, 0 for one accepted, and the index beside it.
pub fn answered(planned: Result<(), Fault>) -> (u32, u32)
    ensures { result ≡ (number_of planned, index_of planned) }
{
    match planned {
        Ok(()) => (0, 0),
        Err(fault) => (fault.refusal.into(), fault.index),
    }
}

// The ranges of the lines judged so far. An array and how many of it count: fixed memory, a rule of the project.
#[derive(Drop)]
struct Ranges {
    runs: [Run; 64],
    count: usize,
}

impl Model for Ranges {
    ghost Value = { List RunOf };

    ghost view = { λ r. take r.count r.runs };

    ghost invariant = { λ r. r.count ≤ 64 };
}

impl Ranges {
    // No ranges.
    fn none() -> Ranges
        ensures { result ≡ [] }
    {
        let none = Run {
            low: Address(0),
            end: Address(0),
        };
        Ranges {
            runs: [none; 64],
            count: 0,
        }
    }

    // The ranges, in the lines' order.
    fn as_slice(&self) -> &[Run]
        ensures value { result.now ≡ self.now }
        ensures few { length result.now ≤ 64 }
    {
        &self.runs[..self.count]
    }

    // One more.
    fn push(&mut self, r: Run)
        requires { length self.old < 64 }
        ensures { self.new ≡ self.old ++ (r ∷ []) }
    {
        self.runs[self.count] = r;
        self.count += 1;
    }
}

// Whether two ranges share an address.
fn shares(r: Run, s: Run) -> bool
    ensures { result ≡ share r s }
{
    r.low.max(s.low) < r.end.min(s.end)
}

// Whether a range shares an address with one of those seen.
fn shares_any(seen: &[Run], r: Run) -> bool
    ensures { result ≡ any (share r) seen.now }
{
    seen.iter().any(|s| shares(r, *s))
}

// Before the first line: the block's check, then the number of lines.
fn begin(block: &[u8], count: usize) -> Result<(), Refusal>
    ensures { result ≡ begun block.now count }
{
    if !block_good(block, current_layout()) {
        return Err(Refusal::Block);
    }
    if LINES < count {
        return Err(Refusal::Lines);
    }
    Ok(())
}

// Whether a line passes by itself: its own numbers the checks of find, and its address eligible.
fn passes(block: &[u8], line: Line) -> bool
    requires { good current block.now ≡ true }
    ensures { result ≡ passes_by (contents current block.now) line }
{
    refusal(line.query).is_ok() && eligible_in(block, line.query, line.at)
}

// The range of the line behind those whose ranges are seen, if it is not at fault.
fn judge(block: &[u8], seen: &[Run], line: Line) -> Result<Run, Fault>
    requires good { good current block.now ≡ true }
    requires few { length seen.now ≤ 64 }
    ensures { result ≡ judged (contents current block.now) seen.now line }
{
    let fault = Fault {
        refusal: Refusal::Line,
        index: seen.len() as u32,
    };
    if !passes(block, line) {
        return Err(fault);
    }
    let low = line.at;
    let end = low.add(line.query.size);
    let r = Run { low, end };
    if shares_any(seen, r) {
        return Err(fault);
    }
    Ok(r)
}

// Fills the ranges in turn into a scratch table that has none of their addresses, and room for a record more for each.
fn fill_each(t: &mut [u8], tally: Tally, ranges: &[Run]) -> Tally
    requires spells { Spells t.old tally (read_regions tally.count t.old) }
    requires room { tally.count + length ranges.now ≤ 576 }
    requires apart { AllApart (read_regions tally.count t.old) ranges.now }
    ensures { Spells t.new result (shortest (with_ranges ranges.now (at (read_regions tally.count t.old))) top) }
{
    let plain = Tag { flags: 0, node: 0 };
    let mut held = tally;
    for r in ranges {
        held = fill_table(t, held, r.low, r.end, plain).unwrap();
    }
    held
}

// Puts the ranges into a table that has none of their addresses, if the finished list has room. On the way there may be more records than that: a scratch
// table has room for one more for each range.
fn place_all(t: &mut [u8], tally: Tally, ranges: &[Run]) -> Result<Tally, Refusal>
    requires whole { Whole t.old tally }
    requires long { length t.old ≡ 12288 }
    requires good { good_list Taken (read_regions tally.count t.old) ≡ true }
    requires few { length ranges.now ≤ 64 }
    requires apart { AllApart (read_regions tally.count t.old) ranges.now }
    ensures { Stored t.old t.new (shortest (with_ranges ranges.now (at (read_regions tally.count t.old))) top) result }
{
    let mut scratch = [0u8; 13824];
    let n = 24 * (tally.count as usize);
    copy_front(&mut scratch, t, n);
    let new = fill_each(&mut scratch, tally, ranges);
    if t.len() / 24 < new.count as usize {
        return Err(Refusal::Full);
    }
    let room = t.len();
    copy_front(t, &scratch, room);
    Ok(new)
}

// Reserves the ranges, all at once.
fn reserve_all(block: &mut [u8], ranges: &[Run]) -> Result<(), Refusal>
    requires good { good current block.old ≡ true }
    requires few { length ranges.now ≤ 64 }
    requires apart { AllApart (contents current block.old).taken ranges.now }
    ensures { outcome (refused result) block.new ≡ reserving current ranges.now block.old }
{
    let span = table_span(Kind::Taken);
    let start = span.start;
    let end = span.end;
    let own = get_header(block);
    let tally = own.tally(Kind::Taken);
    let changed = place_all(&mut block[start..end], tally, ranges);
    store_changed(block, own, Kind::Taken, changed)
}

// Lines that are read by their index.
pub trait Lines {
    ghost lines: { Self → List LineOf };

    // How many there are.
    fn count(&self) -> usize
        ensures { result ≡ length (lines self.now) };

    // The line at an index.
    fn line_at(&self, i: usize) -> Line
        requires { i < length (lines self.now) }
        ensures { result ≡ get_or (lines self.now) i result };
}

// The ranges of the lines, if none is at fault.
fn judge_all<L: Lines>(block: &[u8], lines: &L) -> Result<Ranges, Fault>
    requires good { good current block.now ≡ true }
    requires few { length (L.lines lines.now) ≤ 64 }
    ensures { result ≡ judged_all (contents current block.now) [] (L.lines lines.now) }
{
    let mut seen = Ranges::none();
    for i in 0..lines.count() {
        let r = judge(block, seen.as_slice(), lines.line_at(i))?;
        seen.push(r);
    }
    Ok(seen)
}

// Checks a plan, and reserves all its lines at once if it is accepted.
fn place<L: Lines>(block: &mut [u8], lines: &L) -> Result<(), Fault>
    ensures { with_index (index_of result) (answer (number_of result) block.new []) ≡ plan current (L.lines lines.now) block.old }
{
    begin(block, lines.count())?;
    let seen = judge_all(block, lines)?;
    reserve_all(block, seen.as_slice())?;
    Ok(())
}

impl<'a> Lines for &'a [Line] {
    ghost lines = { λ s. s.now };

    fn count(&self) -> usize {
        self.len()
    }

    fn line_at(&self, i: usize) -> Line {
        self[i]
    }
}

// A plan in a lent slice of lines.
pub fn place_plan(block: &mut [u8], lines: &[Line]) -> Result<(), Fault>
    ensures { with_index (index_of result) (answer (number_of result) block.new []) ≡ plan current lines.now block.old }
{
    place(block, &lines)
}

// The same for the first lines of an array, which a program can make; one more than a plan may have.
// The count stands beside it: fixed memory, a rule of the project.
pub fn place_array(block: &mut [u8], lines: [Line; 65], count: usize) -> Result<(), Fault>
    requires { count ≤ 65 }
    ensures { with_index (index_of result) (answer (number_of result) block.new []) ≡ plan current (take count lines) block.old }
{
    place_plan(block, &lines[..count])
}

// Lines as slices of numbers beside each other, in the request's order: as many lines as the shortest slice has numbers.
// Slices beside each other, for so C lends them (`memblock_plan_numbers`).
#[derive(Clone, Copy)]
pub struct Numbers<'a> {
    pub sizes: &'a [u64],
    pub aligns: &'a [u64],
    pub starts: &'a [u64],
    pub ends: &'a [u64],
    pub nodes: &'a [u32],
    pub wishes: &'a [u32],
    pub ats: &'a [u64],
}

impl<'a> Lines for Numbers<'a> {
    ghost lines = { λ n. lines_of (lists n) };

    fn count(&self) -> usize {
        self.sizes
            .len()
            .min(self.aligns.len())
            .min(self.starts.len())
            .min(self.ends.len())
            .min(self.nodes.len())
            .min(self.wishes.len())
            .min(self.ats.len())
    }

    #[tactic(auto, using(crate::proofs::Walking::many))]
    fn line_at(&self, i: usize) -> Line {
        Line {
            query: Query {
                size: Size(self.sizes[i]),
                align: Size(self.aligns[i]),
                start: Address(self.starts[i]),
                end: Address(self.ends[i]),
                node: self.nodes[i],
                wish: self.wishes[i],
            },
            at: Address(self.ats[i]),
        }
    }
}

// The same for lines given as slices of numbers beside each other, in the request's order.
pub fn plan_numbers(block: &mut [u8], numbers: Numbers) -> Result<(), Fault>
    ensures { with_index (index_of result) (answer (number_of result) block.new []) ≡ plan current (lines_of (lists numbers.entry)) block.old }
{
    place(block, &numbers)
}
