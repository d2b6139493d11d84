// The header of a tree and its parts: reservation list, structure block, strings block.
ghost use Rattle.std.specs.Prelude.{◌≡◌, true, false, MatchOption, ◌&&◌, ◌+◌, ◌/◌, ◌≤◌, ◌<◌, leb, eqb, length, drop, take};
ghost use Rattle.tree.specs.Words.{word};
ghost use Rattle.tree.specs.Header.{extent, pairs, ended, list as list_good, listed, header, parts, form, structure as structure_of, strings as strings_of};
ghost use Rattle.tree.specs.Steps.{TreeOf};

use super::reader::{Tree, read, root_of};
use super::words::{double_at, word_at};

// Whether a pair of the reservation list ends it: two zeros.
pub fn is_end(base: u64, size: u64) -> bool
    ensures { result ≡ (eqb base 0 && eqb size 0) }
{
    base == 0 && size == 0
}

// Whether one of the pairs of a list ends it.
fn list_ended(s: &[u8]) -> bool
    ensures { result ≡ ended (pairs (length s.now / 16) s.now) }
{
    for i in 0..s.len() / 16 {
        if is_end(double_at(s, 16 * i), double_at(s, 16 * i + 8)) {
            return true;
        }
    }
    false
}

// How many bytes lie inside the total size and the lent buffer.
pub fn extent_of(tree: &[u8]) -> usize
    requires { 40 ≤ length tree.now }
    ensures { (result ≡ extent tree.now) × (result ≤ length tree.now) }
{
    tree.len().min(word_at(tree, 4) as usize)
}

// The header.
#[tactic(auto, unfolding(crate::specs::Header::header))]
fn header_ok(tree: &[u8]) -> bool
    ensures { result ≡ header tree.now }
{
    tree.len() >= 40
        && extent_of(tree) >= 40
        && word_at(tree, 0) == 0xd00dfeed
        && word_at(tree, 20) == 17
        && word_at(tree, 24) == 16
}

// Whether the part whose offset and size stand at two places of the header lies inside.
fn part_ok(tree: &[u8], offset: usize, size: usize) -> bool
    requires { (40 ≤ length tree.now) × (offset ≤ 36) × (size ≤ 36) }
    ensures { result ≡ leb (word (drop offset tree.now) + word (drop size tree.now)) (extent tree.now) }
{
    word_at(tree, offset) as usize + word_at(tree, size) as usize <= extent_of(tree)
}

// That part.
fn part<'a>(tree: &'a [u8], offset: usize, size: usize) -> &'a [u8]
    requires header { (40 ≤ length tree.now) × (offset ≤ 36) × (size ≤ 36) }
    requires inside { word (drop offset tree.now) + word (drop size tree.now) ≤ length tree.now }
    ensures is { result.now ≡ take (word (drop size tree.now)) (drop (word (drop offset tree.now)) tree.now) }
    ensures short { length result.now < 4294967296 }
{
    let at = word_at(tree, offset) as usize;
    let end = at + word_at(tree, size) as usize;
    &tree[at..end]
}

// The reservation list: aligned, and ended inside.
#[tactic(auto, unfolding(crate::specs::Header::list))]
fn list_ok(tree: &[u8]) -> bool
    requires { 40 ≤ length tree.now }
    ensures { result ≡ list_good tree.now }
{
    let at = word_at(tree, 16) as usize;
    let end = extent_of(tree);
    if end < at {
        return false;
    }
    at % 8 == 0 && list_ended(&tree[at..end])
}

// The parts, but for what stands in the structure block.
#[tactic(auto, unfolding(crate::specs::Header::parts))]
fn parts_ok(tree: &[u8]) -> bool
    requires { 40 ≤ length tree.now }
    ensures { result ≡ parts tree.now }
{
    part_ok(tree, 8, 36) && word_at(tree, 8) % 4 == 0 && part_ok(tree, 12, 32) && list_ok(tree)
}

// The structure block.
pub fn structure<'a>(tree: &'a [u8]) -> &'a [u8]
    requires { (40 ≤ length tree.now) × (parts tree.now ≡ true) }
    ensures { (result.now ≡ structure_of tree.now) × (length result.now < 4294967296) }
{
    part(tree, 8, 36)
}

// The strings block.
pub fn strings<'a>(tree: &'a [u8]) -> &'a [u8]
    requires { (40 ≤ length tree.now) × (parts tree.now ≡ true) }
    ensures { result.now ≡ strings_of tree.now }
{
    part(tree, 12, 32)
}

// From the reservation list to the last byte inside: no part, since its size stands nowhere in the header.
pub fn list<'a>(tree: &'a [u8]) -> &'a [u8]
    requires { (40 ≤ length tree.now) × (parts tree.now ≡ true) }
    ensures { result.now ≡ listed tree.now }
{
    let at = word_at(tree, 16) as usize;
    let end = extent_of(tree);
    &tree[at..end]
}

// The tree in lent bytes, where they have a tree's form.
pub fn open<'a>(tree: &'a [u8]) -> Option<Tree<'a>>
    ensures { MatchOption result (form tree.now ≡ false) (λ t. (form tree.now ≡ true) × TreeOf tree.now t) }
{
    if header_ok(tree) && parts_ok(tree) {
        read(strings(tree), structure(tree))
    } else {
        None
    }
}

// The tree in lent bytes that have the form.
pub fn tree_of<'a>(tree: &'a [u8]) -> Tree<'a>
    requires { form tree.now ≡ true }
    ensures { TreeOf tree.now result }
{
    root_of(strings(tree), structure(tree))
}

// Whether lent bytes have a tree's form.
pub fn has_form(tree: &[u8]) -> bool
    ensures { result ≡ form tree.now }
{
    open(tree).is_some()
}
