// Find and next free on a lent block. Each answers document 01's number and writes a lent slip of 16 bytes; a refusal leaves it all zero.
ghost use Rattle.std.specs.Prelude.{◌≡◌, length, replicate};
ghost use Rattle.refusals.specs.Numbers.{answered};
ghost use Rattle.block.specs.Block.{current};
ghost use Rattle.search.specs.Answers.{answer, slip_of, askable, refusal as refusal_of, check_number, find as find_spec, next_free};
ghost use Rattle.search.specs.Steps.{begun, Told};

use address::{Address, Size};
use block::{block_good, current_layout};
use fits::{Query, Spot};
use records::table::put_zeros;
use refusals::Refusal;
use regions::bytes::put_u64;
use seek::{find_in, next_in, next_query};

// Whether the node and the wish may be asked for: a node of 0 to 63, or any, and a wish of 0 to 3.
fn may_ask(node: u32, wish: u32) -> bool
    ensures { result ≡ askable node wish }
{
    wish <= 3 && (node <= 63 || node == 0xFFFF_FFFF)
}

// What a query's own numbers are refused for, in document 01's order: the node and the wish, the alignment, the size.
pub fn refusal(q: Query) -> Result<(), Refusal>
    ensures { answered result ≡ refusal_of q }
{
    if !may_ask(q.node, q.wish) {
        return Err(Refusal::Tag);
    }
    if !q.align.power_of_two() {
        return Err(Refusal::Alignment);
    }
    if q.size == Size(0) {
        return Err(Refusal::Size);
    }
    Ok(())
}

// The checks: the block comes first.
fn check(block: &[u8], q: Query) -> Result<(), Refusal>
    ensures { answered result ≡ check_number current q block.now }
{
    if !block_good(block, current_layout()) {
        return Err(Refusal::Block);
    }
    refusal(q)
}

// An answer slip that says nothing.
// A slip is a slice and no array: C lends it with its length, and `begin` refuses another one than 16.
pub fn clear_slip(slip: &mut [u8])
    requires { length slip.old ≡ 16 }
    ensures { slip.new ≡ replicate 16 0 }
{
    put_zeros(slip, 0)
}

// The two numbers of an answer.
pub fn put_slip(slip: &mut [u8], first: u64, second: u64)
    requires { length slip.old ≡ 16 }
    ensures { slip.new ≡ slip_of first second }
{
    put_u64(slip, 0, first);
    put_u64(slip, 8, second);
}

// The slip and the checks, before a search: a slip of another length is refused; else it is cleared, and the answer is that of the checks.
pub fn begin(block: &[u8], q: Query, slip: &mut [u8]) -> Result<(), Refusal>
    ensures { answer (answered result) block.now slip.new ≡ begun (check_number current q block.now) block.now slip.old }
{
    if slip.len() != 16 {
        return Err(Refusal::Slip);
    }
    clear_slip(slip);
    check(block, q)
}

// Writes what was found, an address and the end of its free run, if there is any.
fn tell(found: Option<Spot>, slip: &mut [u8]) -> Result<(), Refusal>
    requires { slip.old ≡ replicate 16 0 }
    ensures { Told found (answered result) slip.new }
{
    let Some(spot) = found else {
        return Err(Refusal::Nowhere);
    };
    put_slip(slip, spot.at.0, spot.run.end.0);
    Ok(())
}

// Writes the address found and the end of its free run.
pub fn find(block: &[u8], q: Query, slip: &mut [u8]) -> Result<(), Refusal>
    ensures { answer (answered result) block.now slip.new ≡ find_spec current q block.now slip.old }
{
    begin(block, q, slip)?;
    tell(find_in(block, q), slip)
}

// Writes the lowest free address at or above `p` of the node and the wish asked for, and the end of its run.
// Address, node and wish are the three of C's call, of which `next_query` makes a query.
pub fn next_free(
    block: &[u8],
    p: Address,
    node: u32,
    wish: u32,
    slip: &mut [u8],
) -> Result<(), Refusal>
    ensures { answer (answered result) block.now slip.new ≡ next_free current p.0 node wish block.now slip.old }
{
    begin(block, next_query(p, node, wish), slip)?;
    tell(next_in(block, p, node, wish), slip)
}
