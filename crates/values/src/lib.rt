// The values of a board's tree, corrected by a service tree: which are as E8 asks.
#![tactic(auto)]

ghost use Rattle.std.specs.Prelude.{length, ◌≡◌, [], ◌∷◌, ◌≤◌, ◌<◌};
ghost use Rattle.lookup.specs.Steps.{inside, value_at};
ghost use Rattle.paths.specs.Steps.{names_of};
ghost use Rattle.values.specs.Names.{reg};
ghost use Rattle.values.specs.Values.{own, is, has as has_value, whole_entries};
ghost use Rattle.values.specs.Steps.{Sources, Goes, AtNode, AtChild, node_at, root_at, stands, correction, gets, found, told, cells_of, NextChild, NextBelow, memory_ok, reserved_ok, child_ok, children_ok};

use lookup::{Found, find_property, next_node, same_bytes};
use paths::nodes::look_up;
use paths::ways::Way;
use tree::reader::Tree;
use tree::words::word_at;

// A board's tree, and the tree that corrects it, if there is one.
#[derive(Clone, Copy)]
pub struct Trees<'a> {
    pub service: Option<Tree<'a>>,
    pub board: Tree<'a>,
}

// A node of the board: the way to it, and where what stands in it begins.
// That it is one of these trees (`AtNode`) stays in the contracts: a node does not hold the trees, and so cannot say it.
#[derive(Clone, Copy)]
pub struct Node<'a> {
    pub way: Way<'a>,
    pub at: usize,
}

// A child of the board's root: its name, and where what stands in it begins.
#[derive(Clone, Copy)]
pub struct Child<'a> {
    pub name: &'a [u8],
    pub at: usize,
}

impl<'a> Child<'a> {
    // As a node.
    pub fn node(&self) -> Node<'a>
        ensures { result ≡ record { way = Way.Child self.now.name; at = self.now.at } }
    {
        Node {
            way: Way::Child(self.name),
            at: self.at,
        }
    }
}

// A value as a part of the structure block that has it.
fn part<'a>(bytes: &'a [u8], place: Option<Found>) -> Option<&'a [u8]>
    requires { inside bytes.now place }
    ensures { found result ≡ value_at bytes.now place }
{
    let Found { at, len } = place?;
    Some(&bytes[at..at + len])
}

impl<'a> Trees<'a> {
    // The first child of the root from `at` on, and the place behind it.
    // The walks over it are `while let`: a `for` would need an iterator that holds the trees and a place, with laws of its own, and be no plainer.
    pub fn next_child(&self, at: usize) -> Option<(Child<'a>, usize)>
        requires { Sources self.now × Goes self.now 1 at }
        ensures { NextChild self.now at result }
    {
        let bytes = self.board.structure.bytes;
        let next = next_node(&self.board.structure, at, 15)?;
        let name = &bytes[next.name..next.name + next.len];
        Some((
            Child {
                name,
                at: next.inner,
            },
            next.after,
        ))
    }

    // The first node from `at` on in a child of the root, and the place behind it.
    // Apart from `next_child`: its node has the child's name on the way, and one node fewer may be open.
    pub fn next_below(&self, child: &Child<'a>, at: usize) -> Option<(Node<'a>, usize)>
        requires { AtChild self.now child.now × Goes self.now 2 at }
        ensures { NextBelow self.now child.now.name.now at result }
    {
        let bytes = self.board.structure.bytes;
        let next = next_node(&self.board.structure, at, 14)?;
        let name = &bytes[next.name..next.name + next.len];
        let way = Way::Below(child.name, name);
        Some((
            Node {
                way,
                at: next.inner,
            },
            next.after,
        ))
    }

    // The first property of a name at a node's path in the service tree.
    fn correction(&self, node: &Node<'_>, name: &[u8]) -> Option<&'a [u8]>
        requires { AtNode self.now node.now }
        ensures { found result ≡ correction self.now.service (names_of node.now.way) name.now }
    {
        let tree = self.service?;
        part(tree.structure.bytes, look_up(&tree, &node.way, name))
    }

    // The first property of a name among the node's own.
    fn own(&self, node: &Node<'_>, name: &[u8]) -> Option<&'a [u8]>
        requires { AtNode self.now node.now }
        ensures { found result ≡ own self.now.board.strings.now (node_at self.now node.now) name.now }
    {
        part(
            self.board.structure.bytes,
            find_property(&self.board, name, node.at),
        )
    }

    // A property of a node: the service tree's if that has it at the node's path, else the node's own.
    pub fn get(&self, node: &Node<'_>, name: &[u8]) -> Option<&'a [u8]>
        requires { AtNode self.now node.now }
        ensures { found result ≡ gets self.now (node_at self.now node.now) name.now }
    {
        // The closure of an `or_else` would borrow the trees at two lifetimes, which gets no proof.
        match self.correction(node, name) {
            None => self.own(node, name),
            corrected => corrected,
        }
    }

    // Whether a node has a property.
    pub fn has(&self, node: &Node<'_>, name: &[u8]) -> bool
        requires { AtNode self.now node.now }
        ensures { result ≡ has_value (gets self.now (node_at self.now node.now) name.now) }
    {
        self.get(node, name).is_some()
    }

    // Whether a property holds just these bytes.
    pub fn is_just(&self, node: &Node<'_>, name: &[u8], bytes: &[u8]) -> bool
        requires { AtNode self.now node.now }
        ensures { result ≡ is bytes.now (gets self.now (node_at self.now node.now) name.now) }
    {
        match self.get(node, name) {
            Some(value) => same_bytes(value, bytes),
            None => false,
        }
    }

    // A property as a number: `absent` where there is none; none where it has another length than 4 bytes.
    pub fn number_of(&self, node: &Node<'_>, name: &[u8], absent: u32) -> Option<u32>
        requires { AtNode self.now node.now }
        ensures { result ≡ told absent (gets self.now (node_at self.now node.now) name.now) }
    {
        let Some(value) = self.get(node, name) else {
            return Some(absent);
        };
        if value.len() != 4 {
            return None;
        }
        Some(word_at(value, 0))
    }

    // How many cells a property of the root says, where what stands in it begins at `at`, if that is 1 or 2.
    pub fn cell_count(&self, at: usize, name: &[u8], absent: u32) -> Option<usize>
        requires { Sources self.now × (at ≤ length self.now.board.structure.bytes.now) × (0 < absent) × (absent ≤ 2) }
        ensures { result ≡ cells_of absent (gets self.now (root_at self.now at) name.now) }
    {
        let root = Node { way: Way::Top, at };
        let n = self.number_of(&root, name, absent)?;
        if n == 0 || 2 < n {
            return None;
        }
        Some(n as usize)
    }

    // Whether a node has no reg, or one of whole entries.
    fn whole_reg(&self, node: &Node<'_>, width: usize) -> bool
        requires { AtNode self.now node.now × (0 < width) }
        ensures { result ≡ whole_entries width (gets self.now (node_at self.now node.now) reg) }
    {
        self.get(node, b"reg")
            .is_none_or(|value| value.len() % width == 0)
    }

    // Whether a child of the root is no memory, or memory with whole entries and a node id from 0 to 63.
    #[tactic(auto, unfolding(crate::specs::Steps::memory_ok))]
    fn memory_ok(&self, node: &Node<'_>, width: usize) -> bool
        requires { AtNode self.now node.now × (0 < width) }
        ensures { result ≡ memory_ok (gets self.now) width (node_at self.now node.now) }
    {
        !self.is_just(node, b"device_type", b"memory\0")
            || self.whole_reg(node, width)
                && self
                    .number_of(node, b"numa-node-id", 0)
                    .is_some_and(|n| n <= 63)
    }

    // Whether each node in a /reserved-memory has no reg, or one of whole entries.
    fn reserved_ok(&self, child: &Child<'a>, width: usize) -> bool
        requires { AtChild self.now child.now × (0 < width) }
        ensures { result ≡ reserved_ok (gets self.now) width (child.now.name.now ∷ []) (stands self.now child.now.at) }
    {
        let mut at = child.at;
        while let Some((node, after)) = self.next_below(child, at) {
            if !self.whole_reg(&node, width) {
                return false;
            }
            at = after;
        }
        true
    }

    // Whether a child of the root has the values that E8 asks for.
    #[tactic(auto, unfolding(crate::specs::Steps::child_ok))]
    fn child_ok(&self, child: &Child<'a>, width: usize) -> bool
        requires { AtChild self.now child.now × (0 < width) }
        ensures { result ≡ child_ok (gets self.now) width child.now.name.now (stands self.now child.now.at) }
    {
        self.memory_ok(&child.node(), width)
            && (!same_bytes(child.name, b"reserved-memory") || self.reserved_ok(child, width))
    }

    // Whether each child of the root from `at` on has.
    pub fn children_ok(&self, at: usize, width: usize) -> bool
        requires { Sources self.now × Goes self.now 1 at × (0 < width) }
        ensures { result ≡ children_ok (gets self.now) width (stands self.now at) }
    {
        let mut i = at;
        while let Some((child, after)) = self.next_child(i) {
            if !self.child_ok(&child, width) {
                return false;
            }
            i = after;
        }
        true
    }
}
