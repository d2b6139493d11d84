// The worked cases of document 01, run on real blocks through the exported functions. Each call is written out with the number answered and, for a
// search, the two numbers of its slip; a table is written as its count, its total and its records. `stdout` has the lines as document 01 gives them.
#![tactic(auto)]

ghost use Rattle.std.specs.Prelude.{◌≤◌, ◌+◌};

use block::LENGTH;
use regions::Kind;
use regions::bytes::{get_u32, get_u64};
use std::fmt::Display;

const TOP: u64 = 0xFFFF_FFFF_FFFF_FFFF;

const ANY_NODE: u32 = 0xFFFF_FFFF;

const NO_WISH: u32 = 0;

// The directions of a search.
#[derive(Clone, Copy)]
enum Direction {
    TopDown,
    BottomUp,
}

// A table's count and total, as the block's header has them.
fn say_table(rt: &impl Print, block: &[u8; LENGTH], kind: Kind) {
    let (name, count, total) = match kind {
        Kind::Memory => ("memory", get_u32(block, 16), get_u64(block, 56)),
        Kind::Taken => ("taken", get_u32(block, 32), get_u64(block, 64)),
    };
    let _ = println!(rt; "{name}: count {count} total {total:#x}");
}

// The record that stands at an offset of the block.
fn say_record(rt: &impl Print, block: &[u8; LENGTH], at: usize)
    requires { at + 24 ≤ 15440 }
{
    let base = get_u64(block, at);
    let size = get_u64(block, at + 8);
    let flags = get_u32(block, at + 16);
    let node = get_u32(block, at + 20);
    let _ = println!(rt; "  {base:#x} size {size:#x} flags {flags} node {node}");
}

fn say_same(rt: &impl Print, before: &[u8; LENGTH], after: &[u8; LENGTH]) {
    let words = if before == after {
        "no byte changed"
    } else {
        "bytes changed"
    };
    let _ = println!(rt; "{words}");
}

fn fresh(rt: &impl Print, block: &mut [u8]) {
    let number = memblock::memblock_fresh(block);
    let _ = println!(rt; "fresh = {number}");
}

fn set(rt: &impl Print, block: &mut [u8], direction: Direction) {
    let (words, n) = match direction {
        Direction::TopDown => ("top-down", 0),
        Direction::BottomUp => ("bottom-up", 1),
    };
    let number = memblock::memblock_set(block, TOP, n);
    let _ = println!(rt; "set {words} = {number}");
}

fn add(rt: &impl Print, block: &mut [u8], base: u64, size: u64, node: u32) {
    let number = memblock::memblock_add(block, base, size, 0, node);
    let _ = println!(rt; "add {base:#x} size {size:#x} flags 0 node {node} = {number}");
}

// A command that takes a block and a range alone.
fn on_range<F: FnOnce(&mut [u8], u64, u64) -> u32>(
    rt: &impl Print,
    block: &mut [u8],
    name: &str,
    command: F,
    base: u64,
    size: u64,
)
    requires { F.IsAlwaysCallable command }
{
    let number = command(block, base, size);
    let _ = println!(rt; "{name} {base:#x} size {size:#x} = {number}");
}

fn remove(rt: &impl Print, block: &mut [u8], base: u64, size: u64) {
    on_range(rt, block, "remove", memblock::memblock_remove, base, size);
}

fn reserve(rt: &impl Print, block: &mut [u8], base: u64, size: u64) {
    on_range(rt, block, "reserve", memblock::memblock_reserve, base, size);
}

fn free(rt: &impl Print, block: &mut [u8], base: u64, size: u64) {
    on_range(rt, block, "free", memblock::memblock_free, base, size);
}

fn trim(rt: &impl Print, block: &mut [u8], alignment: u64) {
    let number = memblock::memblock_trim(block, alignment);
    let _ = println!(rt; "trim {alignment:#x} = {number}");
}

// A search and its slip, which starts as ones, so that the zeros of a refusal are written by the call.
fn search<F: FnOnce(&mut [u8]) -> u32>(rt: &impl Print, asked: impl Display + Drop, ask: F)
    requires { F.IsAlwaysCallable ask }
{
    let mut slip = [0xFFu8; 16];
    let number = ask(&mut slip);
    let first = get_u64(&slip, 0);
    let second = get_u64(&slip, 8);
    let _ = println!(rt; "{asked} = {number}: {first:#x} and {second:#x}");
}

// Every search has start 0, end 0 and any node.
fn find(rt: &impl Print, block: &[u8], size: u64, alignment: u64) {
    let asked = format_args!("find size {size:#x} alignment {alignment:#x}");
    search(rt, asked, |slip| {
        memblock::memblock_find(block, size, alignment, 0, 0, ANY_NODE, NO_WISH, slip)
    });
}

fn allocate(rt: &impl Print, block: &mut [u8], size: u64, alignment: u64) {
    let asked = format_args!("allocate size {size:#x} alignment {alignment:#x}");
    search(rt, asked, |slip| {
        memblock::memblock_allocate(block, size, alignment, 0, 0, ANY_NODE, NO_WISH, slip)
    });
}

fn next_free(rt: &impl Print, block: &[u8], from: u64) {
    let asked = format_args!("next free from {from:#x}");
    search(rt, asked, |slip| {
        memblock::memblock_next_free(block, from, ANY_NODE, NO_WISH, slip)
    });
}

// A fresh block with M, memory [0x10000, 0x20000).
fn with_m(rt: &impl Print, block: &mut [u8]) {
    fresh(rt, block);
    add(rt, block, 0x10000, 0x10000, 0);
}

// Case 4's tables.
fn with_m_and_taken(rt: &impl Print, block: &mut [u8]) {
    with_m(rt, block);
    reserve(rt, block, 0x18000, 0x1000);
}

fn case_1(rt: &impl Print) {
    let mut block = [0u8; LENGTH];
    let _ = println!(rt; "case 1");
    with_m(rt, &mut block);
    set(rt, &mut block, Direction::BottomUp);
    find(rt, &block, 0x1000, 0x1000);
    set(rt, &mut block, Direction::TopDown);
    find(rt, &block, 0x1000, 0x1000);
}

fn case_2(rt: &impl Print, block: &mut [u8; LENGTH]) {
    let _ = println!(rt; "case 2");
    with_m(rt, block);
    set(rt, block, Direction::TopDown);
    allocate(rt, block, 0x1000, 0x1000);
    allocate(rt, block, 0x1000, 0x1000);
    say_table(rt, block, Kind::Taken);
    say_record(rt, block, 3152);
}

fn case_3(rt: &impl Print, block: &mut [u8; LENGTH]) {
    let _ = println!(rt; "case 3, from case 2");
    free(rt, block, 0x1E800, 0x800);
    say_table(rt, block, Kind::Taken);
    say_record(rt, block, 3152);
    say_record(rt, block, 3176);
    set(rt, block, Direction::TopDown);
    find(rt, block, 0x800, 0x800);
}

fn cases_2_and_3(rt: &impl Print) {
    let mut block = [0u8; LENGTH];
    case_2(rt, &mut block);
    case_3(rt, &mut block);
}

fn case_4(rt: &impl Print) {
    let mut block = [0u8; LENGTH];
    let _ = println!(rt; "case 4");
    with_m_and_taken(rt, &mut block);
    set(rt, &mut block, Direction::BottomUp);
    find(rt, &block, 0x8000, 1);
    find(rt, &block, 0x8001, 1);
    set(rt, &mut block, Direction::TopDown);
    find(rt, &block, 0x8000, 1);
    find(rt, &block, 0x8001, 1);
}

fn case_5(rt: &impl Print) {
    let mut block = [0u8; LENGTH];
    let _ = println!(rt; "case 5");
    fresh(rt, &mut block);
    add(rt, &mut block, 0x1000, 0x1000, 0);
    set(rt, &mut block, Direction::TopDown);
    find(rt, &block, 0x3000, 1);
}

fn case_6(rt: &impl Print) {
    let mut block = [0u8; LENGTH];
    let _ = println!(rt; "case 6");
    fresh(rt, &mut block);
    add(rt, &mut block, 0, 0x2000, 0);
    set(rt, &mut block, Direction::BottomUp);
    find(rt, &block, 0x1000, 0x1000);
    find(rt, &block, 0x1001, 0x1000);
}

fn case_7(rt: &impl Print) {
    let mut block = [0u8; LENGTH];
    let _ = println!(rt; "case 7");
    fresh(rt, &mut block);
    add(rt, &mut block, TOP - 4095, 0x2000, 0);
    say_table(rt, &block, Kind::Memory);
    say_record(rt, &block, 80);
    let before = block;
    add(rt, &mut block, TOP, 1, 0);
    say_same(rt, &before, &block);
    say_table(rt, &block, Kind::Memory);
    say_record(rt, &block, 80);
}

fn case_8(rt: &impl Print) {
    let mut block = [0u8; LENGTH];
    let _ = println!(rt; "case 8");
    fresh(rt, &mut block);
    add(rt, &mut block, TOP - 4094, 0xFFE, 0);
    set(rt, &mut block, Direction::BottomUp);
    find(rt, &block, 1, 0x1000);
    set(rt, &mut block, Direction::TopDown);
    find(rt, &block, 1, 0x1000);
    trim(rt, &mut block, 0x1000);
    say_table(rt, &block, Kind::Memory);
}

fn case_9(rt: &impl Print) {
    let mut block = [0u8; LENGTH];
    let _ = println!(rt; "case 9");
    fresh(rt, &mut block);
    add(rt, &mut block, 0x1000, 0x1000, 0);
    add(rt, &mut block, 0, 0x3000, 1);
    say_table(rt, &block, Kind::Memory);
    say_record(rt, &block, 80);
    say_record(rt, &block, 104);
    say_record(rt, &block, 128);
}

fn case_9_other_order(rt: &impl Print) {
    let mut block = [0u8; LENGTH];
    let _ = println!(rt; "case 9, the other order");
    fresh(rt, &mut block);
    add(rt, &mut block, 0, 0x3000, 1);
    add(rt, &mut block, 0x1000, 0x1000, 0);
    say_table(rt, &block, Kind::Memory);
    say_record(rt, &block, 80);
}

fn case_10(rt: &impl Print) {
    let mut block = [0u8; LENGTH];
    let _ = println!(rt; "case 10");
    fresh(rt, &mut block);
    add(rt, &mut block, 0x10000, 0x8000, 0);
    add(rt, &mut block, 0x18000, 0x8000, 1);
    set(rt, &mut block, Direction::BottomUp);
    find(rt, &block, 0x8001, 1);
    find(rt, &block, 0x8000, 1);
    set(rt, &mut block, Direction::TopDown);
    find(rt, &block, 0x8001, 1);
    find(rt, &block, 0x8000, 1);
}

// Gives a command on ranges of size 0x1000 with a gap as long after each, up to `most` of them, and says how many were done before one was refused.
fn fill<F: FnMut(u64) -> u32>(rt: &impl Print, most: u32, name: &str, mut command: F)
    requires { (state : F) (x : _) → F.pre state x }
{
    let done = (0..most)
        .take_while(|i| command(u64::from(*i) * 0x2000) == 0)
        .count();
    let _ = println!(rt; "{most} {name}, base 0 and every 0x2000 after, size 0x1000: done {done}");
}

// A fresh block with a full memory table.
fn with_128(rt: &impl Print, block: &mut [u8]) {
    fresh(rt, block);
    fill(
        rt,
        128,
        "adds",
        |base| memblock::memblock_add(block, base, 0x1000, 0, 0),
    );
}

fn case_11_add(rt: &impl Print) {
    let mut block = [0u8; LENGTH];
    let _ = println!(rt; "case 11");
    with_128(rt, &mut block);
    say_table(rt, &block, Kind::Memory);
    let before = block;
    add(rt, &mut block, 0x100000, 0x1000, 0);
    say_same(rt, &before, &block);
    add(rt, &mut block, 0x1000, 0x1000, 0);
    say_table(rt, &block, Kind::Memory);
    say_record(rt, &block, 80);
    say_record(rt, &block, 104);
}

fn case_11_remove(rt: &impl Print) {
    let mut block = [0u8; LENGTH];
    with_128(rt, &mut block);
    say_table(rt, &block, Kind::Memory);
    let before = block;
    remove(rt, &mut block, 0x2400, 0x800);
    say_same(rt, &before, &block);
    remove(rt, &mut block, 0x2000, 0x1000);
    say_table(rt, &block, Kind::Memory);
    say_record(rt, &block, 80);
    say_record(rt, &block, 104);
}

// A fresh block with a full taken table.
fn with_512(rt: &impl Print, block: &mut [u8]) {
    fresh(rt, block);
    fill(
        rt,
        512,
        "reserves",
        |base| memblock::memblock_reserve(block, base, 0x1000),
    );
}

fn case_11_reserve(rt: &impl Print) {
    let mut block = [0u8; LENGTH];
    let _ = println!(rt; "case 11, the taken table");
    with_512(rt, &mut block);
    say_table(rt, &block, Kind::Taken);
    let before = block;
    reserve(rt, &mut block, 0x400000, 0x1000);
    say_same(rt, &before, &block);
    reserve(rt, &mut block, 0x1000, 0x1000);
    say_table(rt, &block, Kind::Taken);
    say_record(rt, &block, 3152);
    say_record(rt, &block, 3176);
}

fn case_11_free(rt: &impl Print) {
    let mut block = [0u8; LENGTH];
    with_512(rt, &mut block);
    say_table(rt, &block, Kind::Taken);
    let before = block;
    free(rt, &mut block, 0x2400, 0x800);
    say_same(rt, &before, &block);
    free(rt, &mut block, 0x2000, 0x1000);
    say_table(rt, &block, Kind::Taken);
    say_record(rt, &block, 3152);
    say_record(rt, &block, 3176);
}

fn case_12(rt: &impl Print) {
    let mut block = [0u8; LENGTH];
    let _ = println!(rt; "case 12");
    with_m_and_taken(rt, &mut block);
    next_free(rt, &block, 0x18800);
    next_free(rt, &block, 0x1A000);
    next_free(rt, &block, 0x20000);
}

fn main(rt: HostRuntime) {
    case_1(&rt);
    cases_2_and_3(&rt);
    case_4(&rt);
    case_5(&rt);
    case_6(&rt);
    case_7(&rt);
    case_8(&rt);
    case_9(&rt);
    case_9_other_order(&rt);
    case_10(&rt);
    case_11_add(&rt);
    case_11_remove(&rt);
    case_11_reserve(&rt);
    case_11_free(&rt);
    case_12(&rt);
}
