// The search of a good block: its header says what to do, and its two tables are lent as parts of it.
#![tactic(auto)]

ghost use Rattle.std.specs.Prelude.{◌≡◌, true};
ghost use Rattle.block.specs.Block.{current, contents, good};
ghost use Rattle.fits.specs.Eligible.{eligible};
ghost use Rattle.seek.specs.Search.{bounded_end, window as window_of, runs_of, found_place, next_place};
ghost use Rattle.seek.specs.Steps.{Ready, TablesOf, with_window, first_of, bottom_up_of, next_query};

use address::{Address, Size};
use block::{FRONT, LENGTH, get_header};
use fits::{Query, Spot, Way};
use records::table::Records;
use runs::Tables;

// Where a search with this end ends in a block with this limit: 0 means the limit, and a named end is cut to it.
fn bounded_end(limit: Address, end: Address) -> Address
    ensures { result.0 ≡ bounded_end limit.0 end.0 }
{
    if end == Address(0) {
        return limit;
    }
    end.min(limit)
}

// The query with another window.
fn with_window(q: Query, start: Address, end: Address) -> Query
    ensures { result ≡ with_window q start end }
{
    Query { start, end, ..q }
}

// What is searched in a block with this limit: start is raised to at least 4096, then the bounded end to at least start.
fn window(limit: Address, q: Query) -> Query
    ensures { result ≡ window_of limit.0 q }
{
    let start = q.start.max(Address(4096));
    with_window(q, start, bounded_end(limit, q.end).max(start))
}

// The block's two tables, lent as parts of it.
pub fn tables_of<'a>(block: &'a [u8]) -> Tables<'a>
    requires { good current block.now ≡ true }
    ensures { TablesOf block.now result }
{
    let h = get_header(block);
    Tables {
        memory: Records {
            bytes: &block[80..FRONT],
            count: h.memory.count as usize,
        },
        taken: Records {
            bytes: &block[FRONT..LENGTH],
            count: h.taken.count as usize,
        },
    }
}

// The first eligible address of the block in the order of the way, with its run.
// `Ready` stays in the contracts: C lends the block and gives the query for one call, and no value outlives it that could hold both.
fn first_in(block: &[u8], q: Query, way: Way) -> Option<Spot>
    requires { Ready block.now q }
    ensures { result ≡ first_of way (contents current block.now) q }
{
    tables_of(block).walk(q, way)
}

// The lowest eligible address at or above the image end or, where there is none, the highest of the window, with its run. Where the window
// begins at or above the image end, the way up has seen all of it.
// Never inlined: so a find needs no more stack than `memblock.h` tells.
#[inline(never)]
fn bottom_up_in(block: &[u8], w: Query, image: Address) -> Option<Spot>
    requires { Ready block.now w }
    ensures { result ≡ bottom_up_of (contents current block.now) w image.0 }
{
    let above = with_window(w, w.start.max(image), w.end);
    let found = first_in(block, above, Way::Up);
    if found.is_some() || image <= w.start {
        return found;
    }
    first_in(block, w, Way::Down)
}

// What find finds, with its run: bottom-up (direction 1) the lowest at or above the image end first, top-down the highest.
pub fn find_in(block: &[u8], q: Query) -> Option<Spot>
    requires { Ready block.now q }
    ensures { result ≡ found_place (contents current block.now) q }
{
    let settings = get_header(block).settings;
    let w = window(settings.limit, q);
    if settings.direction != 1 {
        return first_in(block, w, Way::Down);
    }
    bottom_up_in(block, w, settings.image)
}

// Whether an address is eligible in a window: it lies there with its range, and the walk over that range finds it.
fn eligible_at(block: &[u8], w: Query, a: Address) -> bool
    requires { Ready block.now w }
    ensures { result ≡ eligible w (runs_of (contents current block.now)) a.0 }
{
    if a < w.start {
        return false;
    }
    let Some(end) = a.plus(w.size) else {
        return false;
    };
    end <= w.end && first_in(block, with_window(w, a, end), Way::Up).is_some()
}

// Whether find may give an address.
pub fn eligible_in(block: &[u8], q: Query, a: Address) -> bool
    requires { Ready block.now q }
    ensures { result ≡ eligible (window_of (contents current block.now).settings.limit.0 q) (runs_of (contents current block.now)) a.0 }
{
    eligible_at(block, window(get_header(block).settings.limit, q), a)
}

// What next free asks: one address from `p` on.
pub fn next_query(p: Address, node: u32, wish: u32) -> Query
    ensures { result ≡ next_query p node wish }
{
    Query {
        size: Size(1),
        align: Size(1),
        start: p,
        end: Address(0xFFFF_FFFF_FFFF_FFFF),
        node,
        wish,
    }
}

// The lowest address at or above `p` in a free run of the node and the wish asked for, with that run: the rising walk for one address.
// The three as the definition `next_place` has them.
pub fn next_in(block: &[u8], p: Address, node: u32, wish: u32) -> Option<Spot>
    requires { good current block.now ≡ true }
    ensures { result ≡ next_place (contents current block.now) p.0 node wish }
{
    first_in(block, next_query(p, node, wish), Way::Up)
}
