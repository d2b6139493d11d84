// The functions that boot code calls; `memblock_c` gives them their C names. Each takes numbers and lent bytes, answers document 01's number, and asks
// nothing of its caller. Its contract is the equation with its line in the table of calls; that of lookup, which is lent no block, with its own.
#![tactic(auto)]

ghost use Rattle.std.specs.Prelude.{◌≡◌, []};
ghost use Rattle.fits.specs.Eligible.{query};
ghost use Rattle.search.specs.Answers.{answer, with_buffer};
ghost use Rattle.tables.specs.declared.commands.Verb.TheVariants.{Add, Remove, Mark, Unmark, Reserve, Free};
ghost use Rattle.range.specs.Outcomes.{tag};
ghost use Rattle.tables.specs.Commands.{command};
ghost use Rattle.memblock.specs.Calls.{to_fresh, to_set, to_set_image_end, to_command, to_trim, to_find, to_next_free, to_allocate, to_pages, to_intake, to_intake_tree, to_intake_trees, to_convert, answer_of};
ghost use Rattle.memblock.specs.Lookups.{looked_up};

use address::{Address, Size};
use fits::Query;
use paths::pairs::find_pair;
use refusals::{Refusal, answered};
use regions::Tag;
use search::find::put_slip;
use tables::commands::{Verb, on_range};

// Writes a fresh block over any 15,440 bytes.
pub fn memblock_fresh(block: &mut [u8]) -> u32
    ensures { answer result block.new [] ≡ answer_of to_fresh block.old }
{
    answered(tables::commands::fresh(block))
}

// Stores a limit and a direction (0 top-down, 1 bottom-up).
pub fn memblock_set(block: &mut [u8], limit: u64, direction: u32) -> u32
    ensures { answer result block.new [] ≡ answer_of (to_set limit direction) block.old }
{
    answered(tables::commands::set(block, Address(limit), direction))
}

// Stores the image end (0: none), from where a bottom-up search goes up first.
pub fn memblock_set_image_end(block: &mut [u8], end: u64) -> u32
    ensures { answer result block.new [] ≡ answer_of (to_set_image_end end) block.old }
{
    answered(tables::commands::set_image_end(block, Address(end)))
}

// Gives the tag to each address of the range not yet in memory.
pub fn memblock_add(block: &mut [u8], base: u64, size: u64, flags: u32, node: u32) -> u32
    ensures { answer result block.new [] ≡ answer_of (to_command (command (Add (tag flags node)) base size)) block.old }
{
    let verb = Verb::Add(Tag { flags, node });
    answered(on_range(block, verb, Address(base), Size(size)))
}

// Takes addresses out of memory.
pub fn memblock_remove(block: &mut [u8], base: u64, size: u64) -> u32
    ensures { answer result block.new [] ≡ answer_of (to_command (command Remove base size)) block.old }
{
    answered(on_range(block, Verb::Remove, Address(base), Size(size)))
}

// Sets a flag (1 hotplug, 2 mirror, 4 no-map) on the range's addresses that are in memory.
pub fn memblock_mark(block: &mut [u8], base: u64, size: u64, flag: u32) -> u32
    ensures { answer result block.new [] ≡ answer_of (to_command (command (Mark flag) base size)) block.old }
{
    answered(on_range(block, Verb::Mark(flag), Address(base), Size(size)))
}

// Clears it on them.
pub fn memblock_unmark(block: &mut [u8], base: u64, size: u64, flag: u32) -> u32
    ensures { answer result block.new [] ≡ answer_of (to_command (command (Unmark flag) base size)) block.old }
{
    answered(on_range(block, Verb::Unmark(flag), Address(base), Size(size)))
}

// Puts addresses into the taken set.
pub fn memblock_reserve(block: &mut [u8], base: u64, size: u64) -> u32
    ensures { answer result block.new [] ≡ answer_of (to_command (command Reserve base size)) block.old }
{
    answered(on_range(block, Verb::Reserve, Address(base), Size(size)))
}

// Takes addresses out of it, if every one is in it.
pub fn memblock_free(block: &mut [u8], base: u64, size: u64) -> u32
    ensures { answer result block.new [] ≡ answer_of (to_command (command Free base size)) block.old }
{
    answered(on_range(block, Verb::Free, Address(base), Size(size)))
}

// Rounds each memory record's base up and its end down by an alignment; one of which nothing is left goes.
pub fn memblock_trim(block: &mut [u8], alignment: u64) -> u32
    ensures { answer result block.new [] ≡ answer_of (to_trim alignment) block.old }
{
    answered(tables::commands::trim(block, Size(alignment)))
}

// Writes the lowest free address at or above `from` of the node and the wish asked for, and the end of its free run. The block stays.
pub fn memblock_next_free(block: &[u8], from: u64, node: u32, wish: u32, slip: &mut [u8]) -> u32
    ensures { answer result block.now slip.new ≡ answer_of (to_next_free from node wish slip.old) block.now }
{
    answered(search::find::next_free(block, Address(from), node, wish, slip))
}

// Writes the address found and the end of its free run. The block stays.
pub fn memblock_find(
    block: &[u8],
    size: u64,
    alignment: u64,
    start: u64,
    end: u64,
    node: u32,
    wish: u32,
    slip: &mut [u8],
) -> u32
    ensures { answer result block.now slip.new ≡ answer_of (to_find (query size alignment start end node wish) slip.old) block.now }
{
    let q = Query {
        size: Size(size),
        align: Size(alignment),
        start: Address(start),
        end: Address(end),
        node,
        wish,
    };
    answered(search::find::find(block, q, slip))
}

// Reserves the size addresses that find finds; writes the address and the end of the free run that held it before the call.
// A function that makes the query, here and for find, would take the same six numbers.
pub fn memblock_allocate(
    block: &mut [u8],
    size: u64,
    alignment: u64,
    start: u64,
    end: u64,
    node: u32,
    wish: u32,
    slip: &mut [u8],
) -> u32
    ensures { answer result block.new slip.new ≡ answer_of (to_allocate (query size alignment start end node wish) slip.old) block.old }
{
    let q = Query {
        size: Size(size),
        align: Size(alignment),
        start: Address(start),
        end: Address(end),
        node,
        wish,
    };
    answered(search::allocate::allocate(block, q, slip))
}

// Writes the free pages from page `from` on as pieces, as many as fit in the buffer, and in the slip how many and where the next one begins. The block stays.
pub fn memblock_pages(block: &[u8], from: u64, buffer: &mut [u8], slip: &mut [u8]) -> u32
    ensures { with_buffer buffer.new (answer result block.now slip.new) ≡ answer_of (to_pages from buffer.old slip.old) block.now }
{
    answered(pages::hand_over(block, from, buffer, slip))
}

// Takes an E820 report in, whole or not at all.
pub fn memblock_intake_e820(block: &mut [u8], report: &[u8]) -> u32
    ensures { answer result block.new [] ≡ answer_of (to_intake report.now) block.old }
{
    answered(intake::e820::intake(block, report))
}

// Takes a board's device tree in: memory, the reservation list, reserved children, marks; whole or not at all.
pub fn memblock_intake_tree(block: &mut [u8], board: &[u8]) -> u32
    ensures { answer result block.new [] ≡ answer_of (to_intake_tree board.now) block.old }
{
    answered(board::taking::intake_tree(block, board))
}

// The same with the properties that a service tree corrects.
pub fn memblock_intake_trees(block: &mut [u8], board: &[u8], service: &[u8]) -> u32
    ensures { answer result block.new [] ≡ answer_of (to_intake_trees board.now service.now) block.old }
{
    answered(board::taking::intake_trees(block, board, service))
}

// Looks a property up by path and name, in a service tree before a board's: says which has it, and writes its value's offset and length there.
pub fn memblock_lookup(
    service: &[u8],
    board: &[u8],
    path: &[u8],
    name: &[u8],
    slip: &mut [u8],
) -> u32
    ensures { answer result [] slip.new ≡ looked_up service.now board.now path.now name.now slip.old }
{
    if slip.len() != 16 {
        return Refusal::Slip.into();
    }
    match find_pair(service, board, path, name) {
        Ok(Some(place)) => {
            put_slip(slip, place.offset as u64, place.length as u64);
            place.holder.into()
        }
        Ok(None) => {
            put_slip(slip, 0, 0);
            0
        }
        Err(refusal) => {
            put_slip(slip, 0, 0);
            refusal.into()
        }
    }
}

// Writes what an edition 1 block says over any 15,440 bytes. The old block stays.
pub fn memblock_convert(old: &[u8], block: &mut [u8]) -> u32
    ensures { answer result block.new [] ≡ answer_of (to_convert old.now) block.old }
{
    answered(convert::convert(old, block))
}
