// Allocate: looks for an address and goes on only when there is one; then it reserves the size found there.
ghost use Rattle.std.specs.Prelude.{◌≡◌};
ghost use Rattle.regions.specs.declared.Kind.TheVariants.{Taken};
ghost use Rattle.regions.specs.declared.Change.TheVariants.{Fill};
ghost use Rattle.refusals.specs.Numbers.{answered};
ghost use Rattle.block.specs.Block.{current};
ghost use Rattle.range.specs.Outcomes.{tag, change_range};
ghost use Rattle.search.specs.Answers.{answer, reserved, allocate as allocate_spec};
ghost use Rattle.search.specs.Steps.{Reservable};

use crate::find::{begin, put_slip};
use address::{Address, Size};
use fits::Query;
use range::fill_range;
use refusals::Refusal;
use regions::{Kind, Tag};
use seek::find_in;

// Reserves the `size` addresses from `a` on, and writes `a` and `end` to the slip. It stays a call of its own, so that allocate needs no more stack than find.
#[inline(never)]
fn take_found(
    block: &mut [u8],
    a: Address,
    size: Size,
    end: Address,
    slip: &mut [u8],
) -> Result<(), Refusal>
    requires { Reservable block.old a.0 size.0 slip.old }
    ensures { answer (answered result) block.new slip.new ≡ reserved block.old a.0 end.0 (change_range current Taken (Fill (tag 0 0)) a.0 size.0 block.old) }
{
    let plain = Tag { flags: 0, node: 0 };
    fill_range(block, Kind::Taken, plain, a, size)?;
    put_slip(slip, a.0, end.0);
    Ok(())
}

// Reserves the address that find finds, and writes it and the end of the free run that held it.
pub fn allocate(block: &mut [u8], q: Query, slip: &mut [u8]) -> Result<(), Refusal>
    ensures { answer (answered result) block.new slip.new ≡ allocate_spec current q block.old slip.old }
{
    begin(block, q, slip)?;
    let Some(spot) = find_in(block, q) else {
        return Err(Refusal::Nowhere);
    };
    take_found(block, spot.at, q.size, spot.run.end, slip)
}
