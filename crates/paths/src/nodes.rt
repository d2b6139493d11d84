// The node of a path in a tree, and the first property of a name there: a node is searched by searching its children that are on the path.
ghost use Rattle.std.specs.Prelude.{Bool, true, false, [], ◌+◌, ◌-◌, ◌<◌, ◌≤◌, length, drop};
ghost use Rattle.tree.specs.Steps.{places_at};
ghost use Rattle.lookup.specs.Steps.{PlacedIn};
ghost use Rattle.paths.specs.Lookup.{listing, first_of};
ghost use Rattle.paths.specs.Steps.{fits, way_of, looks, InRoot};

use super::ways::Way;
use lookup::{Found, find_property};
use std::ops::ControlFlow;
use tree::reader::Tree;
use tree::tokens::Token;

// A search for the first property of a name at the path of a way. It breaks off with what it found, and with nothing where a node is none; where the node
// has no such property it goes on behind that.
#[derive(Clone, Copy)]
struct Search<'a> {
    tree: Tree<'a>,
    way: Way<'a>,
    name: &'a [u8],
    ghost fits: { fits way },
}

impl<'a> Search<'a> {
    // A node, from behind its name on: `done` bytes of the path lead to it, and `here` says whether these are all.
    // `done` alone does not say it: the root's path is a /, and yet 0 bytes lead to its children.
    #[cycle(find_children_find_node)]
    fn find_node(
        &self,
        at: usize,
        done: usize,
        here: bool,
        left: usize,
    ) -> ControlFlow<Option<Found>, usize>
        requires { (at ≤ length self.now.tree.structure.bytes.now) × (done ≤ length (way_of self.now.way)) × (left < 16) }
        ensures { looks self.now.tree.strings.now self.now.tree.structure.names self.now.tree.structure.bytes.now self.now.name.now (drop done (way_of self.now.way)) (16 - left) false here at result }
    {
        if here {
            if let Some(found) = find_property(&self.tree, self.name, at) {
                return ControlFlow::Break(Some(found));
            }
        }
        self.find_children(self.tree.structure.skip_properties(at), done, left)
    }

    // The children of a node, each that is on the path as a node, and the node's end.
    // The loop goes on at `next`, as the walks of `tree::reader` do.
    #[cycle(find_children_find_node)]
    fn find_children(
        &self,
        at: usize,
        done: usize,
        left: usize,
    ) -> ControlFlow<Option<Found>, usize>
        requires { (at ≤ length self.now.tree.structure.bytes.now) × (done ≤ length (way_of self.now.way)) × (left < 16) }
        ensures { (here : Bool) → looks self.now.tree.strings.now self.now.tree.structure.names self.now.tree.structure.bytes.now self.now.name.now (drop done (way_of self.now.way)) (16 - left) true here at result }
    {
        let s = &self.tree.structure;
        let mut i = at;
        while i < s.bytes.len() {
            let step = s.token_at(i);
            match step.token {
                Token::Nop => i = step.next,
                Token::End => return ControlFlow::Continue(step.next),
                Token::Begin(n) => {
                    if left == 0 {
                        return ControlFlow::Break(None);
                    }
                    if self.way.goes_on(done, &s.bytes[i + 4..i + 4 + n]) {
                        let to = done + n + 1;
                        i = self.find_node(step.next, to, to == self.way.len(), left - 1)?;
                    } else {
                        let Some(end) = s.read_node(step.next, left - 1) else {
                            return ControlFlow::Break(None);
                        };
                        i = end;
                    }
                }
                _ => return ControlFlow::Break(None),
            }
        }
        ControlFlow::Break(None)
    }
}

// The first property of a name at a node's path.
pub fn look_up(tree: &Tree<'_>, way: &Way<'_>, name: &[u8]) -> Option<Found>
    requires { (InRoot tree.now) × (fits way.now) }
    ensures { PlacedIn tree.now.structure.bytes.now (first_of (way_of way.now) name.now (listing tree.now.strings.now [] (places_at tree.now.structure.names tree.now.structure.bytes.now tree.now.root))) result }
{
    let search = Search {
        tree: *tree,
        way: *way,
        name,
    };
    match search.find_node(tree.root, 0, way.len() == 1, 15) {
        ControlFlow::Break(found) => found,
        ControlFlow::Continue(_) => None,
    }
}

// The same by a path as bytes: what stands behind its / is one name here.
#[tactic(auto, unfolding(lookup::specs::Values::path, lookup::specs::Values::steps))]
pub fn find_path(tree: &Tree<'_>, path: &[u8], name: &[u8]) -> Option<Found>
    requires { InRoot tree.now }
    ensures { PlacedIn tree.now.structure.bytes.now (first_of path.now name.now (listing tree.now.strings.now [] (places_at tree.now.structure.names tree.now.structure.bytes.now tree.now.root))) result }
{
    if path.is_empty() || path[0] != b'/' {
        return None;
    }
    look_up(tree, &Way::Child(&path[1..]), name)
}
