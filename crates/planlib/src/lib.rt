// The plan's two forms under C names, for tests alone: an archive of its own. Both take a plan's lines as slices of numbers beside each other, in the
// request's order, as many as the shortest of them has, and answer number + 2^32 * index.
#![tactic(auto)]

ghost use Rattle.std.specs.Prelude.{◌≡◌, ◌/◌, ◌%◌, ◌≤◌, length, take};
ghost use Rattle.block.specs.Block.{current};
ghost use Rattle.plan.specs.Answers.{number_of, index_of};
ghost use Rattle.plan.specs.Plan.{plan};
ghost use Rattle.plan.specs.Numbers.{numbers, lists, lines_from, lines_of};
ghost use Rattle.planlib.specs.Packed.{packed_answer, first_lines};

use address::{Address, Size};
use fits::Query;
use plan::{Fault, Line, Lines, Numbers, answered, place_array, plan_numbers};

// The most lines that are made into an array: one more than a plan may have.
const MOST: usize = 65;

// number + 2^32 * index.
fn packed(planned: Result<(), Fault>) -> u64
    ensures { (result % 4294967296 ≡ number_of planned) × (result / 4294967296 ≡ index_of planned) }
{
    let (number, index) = answered(planned);
    4294967296 * (index as u64) + number as u64
}

// An array whose first lines are these.
fn first_lines(numbers: Numbers, count: usize) -> [Line; 65]
    requires { (count ≤ 65) × (count ≤ length (lines_of (lists numbers))) }
    ensures { take count result ≡ lines_from (lists numbers.entry) 0 count }
{
    let none = Line {
        query: Query {
            size: Size(0),
            align: Size(0),
            start: Address(0),
            end: Address(0),
            node: 0,
            wish: 0,
        },
        at: Address(0),
    };
    let mut lines = [none; 65];
    for i in 0..count {
        lines[i] = numbers.line_at(i);
    }
    lines
}

// The form over slices of numbers.
#[unsafe(no_mangle)]
pub extern "C" fn memblock_plan_numbers(
    block: &mut [u8],
    sizes: &[u64],
    aligns: &[u64],
    starts: &[u64],
    ends: &[u64],
    nodes: &[u32],
    wishes: &[u32],
    ats: &[u64],
) -> u64
    ensures { packed_answer result block.new ≡ plan current (lines_of (numbers sizes.now aligns.now starts.now ends.now nodes.now wishes.now ats.now)) block.old }
{
    let numbers = Numbers {
        sizes,
        aligns,
        starts,
        ends,
        nodes,
        wishes,
        ats,
    };
    packed(plan_numbers(block, numbers))
}

// The form over an array of lines: of more than 65 the first 65.
#[tactic(auto, using(plan::proofs::Walking::lines_long))]
#[unsafe(no_mangle)]
pub extern "C" fn memblock_plan_lines(
    block: &mut [u8],
    sizes: &[u64],
    aligns: &[u64],
    starts: &[u64],
    ends: &[u64],
    nodes: &[u32],
    wishes: &[u32],
    ats: &[u64],
) -> u64
    ensures { packed_answer result block.new ≡ plan current (first_lines (numbers sizes.now aligns.now starts.now ends.now nodes.now wishes.now ats.now)) block.old }
{
    let numbers = Numbers {
        sizes,
        aligns,
        starts,
        ends,
        nodes,
        wishes,
        ats,
    };
    let count = numbers.count().min(MOST);
    let lines = first_lines(numbers, count);
    packed(place_array(block, lines, count))
}
