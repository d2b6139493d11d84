// The free pages of a block, cut into pieces and handed over.
#![tactic(auto)]

ghost use Rattle.std.specs.Prelude.{◌≡◌, true, ◌+◌, ◌/◌, ◌<◌, ◌≤◌, ◌&&◌, leb, length};
ghost use Rattle.std.proofs.lemmas.List.Edits.{sets};
ghost use Rattle.address.specs.Numbers.{down, power_of_two};
ghost use Rattle.refusals.specs.Numbers.{answered};
ghost use Rattle.block.specs.Block.{current};
ghost use Rattle.search.specs.Answers.{answer, with_buffer};
ghost use Rattle.pages.specs.Pages.{piece_bytes, pieces_from, hand_over};
ghost use Rattle.runs.specs.Steps.{GoodTables};
ghost use Rattle.sweep.specs.Steps.{runs_in, Ahead};
ghost use Rattle.pages.specs.Steps.{Sized, NoneAbove, Around, Entered, HandedOver};

use address::{Address, round_down};
use block::{block_good, current_layout};
use refusals::Refusal;
use regions::bytes::{put_u32, put_u64};
use runs::Tables;
use search::find::{clear_slip, put_slip};
use seek::tables_of;
use sweep::{Sweep, advance, begin};

// One more than the number of the last page of 4096 bytes.
const PAGES: u64 = 4503599627370496;

// A piece: 2^order pages from `page` on.
#[derive(Clone, Copy)]
pub struct Piece {
    pub page: u64,
    pub order: u32,
}

// What a call tells: how many pieces were written, and the page where the next one begins, 2^52 if none is left.
// Both are C's numbers, as the slip has them, so no Option for the page.
#[derive(Clone, Copy)]
struct Told {
    count: u64,
    next: u64,
}

// The whole pages of a run, from `first` up to, not including, `last`.
#[derive(Clone, Copy)]
struct Span {
    first: u64,
    last: u64,
}

// Where the walk stands: at `page`, the run at hand having these whole pages, and the sweep being behind that run.
#[derive(Clone, Copy)]
struct Stand {
    pages: Span,
    page: u64,
    at: Sweep,
}

// An order, and how many pages a piece of it has. Both are kept: worked out of the order at each test, the size makes a handover take up to 1.6 times as long.
#[derive(Clone, Copy)]
struct Scale {
    order: u32,
    size: u64,
}

// The largest order.
const LARGEST: Scale = Scale {
    order: 10,
    size: 1024,
};

// The piece that a page lies in: its first page, the first past it, and its order.
#[derive(Clone, Copy)]
struct Found {
    start: u64,
    past: u64,
    scale: Scale,
}

impl Span {
    // Those from the address `low` up to `end`.
    fn of(low: Address, end: Address) -> Span
        ensures { (result.first ≡ (low.0 + 4095) / 4096) × (result.last ≡ end.0 / 4096) }
    {
        Span {
            first: low.0.div_ceil(4096),
            last: end.0 / 4096,
        }
    }

    // Whether the piece of `size` pages that `page` lies in lies among them.
    fn holds(self, page: u64, size: u64) -> bool
        requires { (page < self.last) × (power_of_two size ≡ true) }
        ensures { result ≡ leb self.first (down page size) && leb (down page size + size) self.last }
    {
        let start = round_down(page, size);
        self.first <= start && size <= self.last - start
    }

    // From the order `near` up, as long as the next larger piece fits.
    // A `while`, here and below: what is asked for is where it stops.
    fn raise(self, page: u64, near: Scale) -> Scale
        requires { (page < self.last) × Sized near }
        ensures { Sized result × NoneAbove self.first self.last page result.order }
    {
        let mut order = near.order;
        let mut size = near.size;
        while order < 10 && self.holds(page, 2 * size) {
            order += 1;
            size *= 2;
        }
        Scale { order, size }
    }

    // The piece that `page`, one of them, lies in. Where a larger piece fits, so do all smaller ones, so that the order is looked for from `near` up, and
    // from there down.
    fn piece_at(self, page: u64, near: Scale) -> Found
        requires { ((self.first ≤ page) × (page < self.last)) × Sized near }
        ensures { Around self.first self.last page result }
    {
        let high = self.raise(page, near);
        let mut order = high.order;
        let mut size = high.size;
        while 0 < order && !self.holds(page, size) {
            order -= 1;
            size /= 2;
        }
        let start = round_down(page, size);
        Found {
            start,
            past: start + size,
            scale: Scale { order, size },
        }
    }
}

// Writes a piece's 12 bytes at `at`.
fn put_piece(s: &mut [u8], at: usize, p: Piece)
    requires { at + 12 ≤ length s.old }
    ensures { s.new ≡ sets s.old at (piece_bytes p) }
{
    put_u64(s, at, p.page);
    put_u32(s, at + 8, p.order);
}

// On to the next run, if there is one: at its first whole page, or where the walk stands if that is above.
fn next_run(t: Tables<'_>, s: Stand) -> Option<Stand>
    requires { GoodTables t × Ahead t s.at }
    ensures { Entered t.entry s result }
{
    let run = advance(t, s.at)?;
    let pages = Span::of(run.low, run.end);
    Some(Stand {
        pages,
        page: s.page.max(pages.first),
        at: run.behind,
    })
}

// Writes the pieces of two tables that begin at or above `page`, as many as fit. A turn goes on to the next run, or past one piece of the run at hand: a
// loop, since a `for` goes on by one thing alone.
fn walk(t: Tables<'_>, page: u64, buffer: &mut [u8]) -> Told
    requires { GoodTables t }
    ensures { HandedOver (pieces_from (runs_in t.entry) page) buffer.old result.count result.next buffer.new }
{
    if PAGES <= page {
        return Told {
            count: 0,
            next: PAGES,
        };
    }
    let from = begin(t, Address(4096 * page));
    let room = buffer.len() / 12;
    let mut count: usize = 0;
    let mut at = Stand {
        pages: Span { first: 0, last: 0 },
        page,
        at: from,
    };
    let mut scale = LARGEST;
    loop {
        let page = at.page;
        let pages = at.pages;
        if pages.last <= page {
            let Some(s) = next_run(t, at) else {
                return Told {
                    count: count as u64,
                    next: PAGES,
                };
            };
            at = s;
            continue;
        }
        let f = pages.piece_at(page, scale);
        scale = f.scale;
        at.page = f.past;
        if f.start < page {
            continue;
        }
        if count == room {
            return Told {
                count: count as u64,
                next: page,
            };
        }
        let order = scale.order;
        put_piece(buffer, 12 * count, Piece { page, order });
        count += 1;
    }
}

// The pieces from page `from` on, in a lent buffer; how many and the next piece's page in a lent slip of 16 bytes. The block stays.
pub fn hand_over(block: &[u8], from: u64, buffer: &mut [u8], slip: &mut [u8]) -> Result<(), Refusal>
    ensures { with_buffer buffer.new (answer (answered result) block.now slip.new) ≡ hand_over current from block.now buffer.old slip.old }
{
    if slip.len() != 16 {
        return Err(Refusal::Slip);
    }
    if !block_good(block, current_layout()) {
        clear_slip(slip);
        return Err(Refusal::Block);
    }
    let t = walk(tables_of(block), from, buffer);
    put_slip(slip, t.count, t.next);
    Ok(())
}
