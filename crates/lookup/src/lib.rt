// What stands in the nodes of a tree: a property by its name, and the nodes in a node one by one.
#![tactic(auto)]

ghost use Rattle.std.specs.Prelude.{◌≡◌, true, false, ◌-◌, ◌<◌, ◌≤◌, length};
ghost use Rattle.tree.specs.Tokens.{to_zero};
ghost use Rattle.tree.specs.Steps.{rest_at, places_at};
ghost use Rattle.lookup.specs.Values.{same, name_at, value_of};
ghost use Rattle.lookup.specs.Steps.{PlacedIn, next_is};

use tree::reader::{Structure, Tree};
use tree::tokens::Token;

// Where a value stands: its place and its length.
#[derive(Clone, Copy)]
pub struct Found {
    pub at: usize,
    pub len: usize,
}

// A node among what stands in a node: where its name begins, the name's length, where what stands in it begins, where what follows it begins.
#[derive(Clone, Copy)]
pub struct Child {
    pub name: usize,
    pub len: usize,
    pub inner: usize,
    pub after: usize,
}

// Whether two slices hold equal bytes: `==` in the specification's word.
#[tactic(auto, using(crate::proofs::Bytes::same_pointwise))]
pub fn same_bytes(a: &[u8], b: &[u8]) -> bool
    ensures { result ≡ same a.now b.now }
{
    a == b
}

// Whether bytes begin with `name` and its zero byte, or end behind it; no more of them are looked at than that has, and one, and none behind a zero or a byte
// that differs.
fn begins_name(bytes: &[u8], name: &[u8]) -> bool
    ensures { result ≡ same (to_zero bytes.now) name.now }
{
    if bytes.len() < name.len() {
        return false;
    }
    let begins = bytes.iter().zip(name).all(|(b, n)| *b != 0 && *b == *n);
    begins && (bytes.len() == name.len() || bytes[name.len()] == 0)
}

// Whether the name at `at` of the strings block is `name`.
fn is_named(strings: &[u8], at: usize, name: &[u8]) -> bool
    ensures { result ≡ same (name_at strings.now at) name.now }
{
    begins_name(&strings[at.min(strings.len())..], name)
}

// The first property of a name among those from `at` on.
// The loop goes on at `next`, as the walks of `tree::reader` do.
pub fn find_property(tree: &Tree<'_>, name: &[u8], at: usize) -> Option<Found>
    requires { at ≤ length tree.now.structure.bytes.now }
    ensures { PlacedIn tree.now.structure.bytes.now (value_of tree.now.strings.now name.now (places_at tree.now.structure.names tree.now.structure.bytes.now at)) result }
{
    let s = &tree.structure;
    let mut i = at;
    while i < s.bytes.len() {
        let step = s.token_at(i);
        match step.token {
            Token::Property(m, len) => {
                if is_named(tree.strings, m, name) {
                    return Some(Found { at: i + 12, len });
                }
                i = step.next;
            }
            Token::Nop => i = step.next,
            _ => return None,
        }
    }
    None
}

// The first node from `at` on, in a node of a tree, where `left` more nodes may be open.
pub fn next_node(s: &Structure<'_>, at: usize, left: usize) -> Option<Child>
    requires { (at ≤ length s.now.bytes.now) × (left < 16) × (rest_at s.now.names s.now.bytes.now (16 - left) false at ≡ true) }
    ensures { next_is s.now.names s.now.bytes.now left at result }
{
    let begins = s.skip_properties(at);
    let step = s.token_at(begins);
    let Token::Begin(len) = step.token else {
        return None;
    };
    let after = s.read_node(step.next, left.checked_sub(1)?)?;
    Some(Child {
        name: begins + 4,
        len,
        inner: step.next,
        after,
    })
}
