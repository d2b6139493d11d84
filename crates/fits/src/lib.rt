// What is asked of the free runs, what a search answers, and what fits one stretch of free addresses of one tag, cut to the window.
#![tactic(auto)]

ghost use Rattle.std.specs.Prelude.{◌≡◌, true};
ghost use Rattle.address.specs.Numbers.{power_of_two};
ghost use Rattle.fits.specs.Eligible.{asks};
ghost use Rattle.fits.specs.Steps.{spot_of, open_to, serves, cut_low, cut_high};

use address::{Address, Size};
use regions::{Region, Run, has};

// Which way a walk goes: from the lowest address up, or from the highest down.
// A value and no closure: the definitions of the first address in a walk's order (`first_in`, `first_of`) take it.
#[derive(Clone, Copy)]
pub enum Way {
    Up,
    Down,
}

// A size, an alignment, a window from `start` up to, not including, `end`, a node (0xFFFFFFFF: any) and a wish (1 allows hotplug memory, 2 demands mirror).
// Node and wish are C's numbers, of which `may_ask` refuses the others with 2; an end of 0 means the block's limit, as in C.
#[derive(Clone, Copy)]
pub struct Query {
    pub size: Size,
    pub align: Size,
    pub start: Address,
    pub end: Address,
    pub node: u32,
    pub wish: u32,
}

// An address, and the whole free run that it lies in.
#[derive(Clone, Copy)]
pub struct Spot {
    pub at: Address,
    pub run: Run,
}

// Whether memory of these flags is open to the wish: not no-map, hotplug only if the wish has 1, and if it has 2 mirror only. Most memory has no flag.
fn open(wish: u32, flags: u32) -> bool
    ensures { result ≡ open_to wish flags }
{
    if flags == 0 {
        return !has(2, wish);
    }
    !has(4, flags) && flags % 2 <= wish % 2 && wish / 2 % 2 <= flags / 2 % 2
}

// Whether the record's addresses may lie in free runs that the query asks for: of its node, and open to its wish.
pub fn serving(r: Region, q: Query) -> bool
    ensures { result ≡ serves (asks q) r }
{
    (q.node == 0xFFFF_FFFF || r.tag.node == q.node) && open(q.wish, r.tag.flags)
}

// The lowest address that fits from `from` up to, not including, `to`. It and the next are mirrors, not one function by a type or a constant: one rounds up and
// tests the end, the other goes back by the size, rounds down and tests the start.
pub fn fit_low(from: Address, to: Address, q: Query) -> Option<Address>
    requires { power_of_two q.align.0 ≡ true }
    ensures { result ≡ spot_of (cut_low q from.0 to.0) }
{
    if to < from || to.offset_from(from) < q.size {
        return None;
    }
    let a = from.up(q.align)?;
    let end = a.plus(q.size)?;
    if to < end {
        return None;
    }
    Some(a)
}

// The highest address that fits from `from` up to, not including, `to`. With a `?` a search from the top takes 3 instructions more for each record.
pub fn fit_high(from: Address, to: Address, q: Query) -> Option<Address>
    requires { power_of_two q.align.0 ≡ true }
    ensures { result ≡ spot_of (cut_high q from.0 to.0) }
{
    let Some(last) = to.minus(q.size) else {
        return None;
    };
    if last < from {
        return None;
    }
    let a = last.down(q.align);
    if a < from {
        return None;
    }
    Some(a)
}
