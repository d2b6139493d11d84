// Which structure blocks are a tree's: a node is read by reading its children, and each child as a node.
ghost use Rattle.std.specs.Prelude.{◌≡◌, true, false, MatchOption, ◌-◌, ◌<◌, ◌≤◌, length};
ghost use Rattle.tree.specs.Form.{formed, named};
ghost use Rattle.tree.specs.Steps.{rest_at, ReadsOn, Behind, RootIs, RootOf};

use super::tokens::Token;

// A structure block, and how many places of the strings block begin a name that ends inside it.
#[derive(Clone, Copy)]
pub struct Structure<'a> {
    pub names: usize,
    pub bytes: &'a [u8],
}

// A tree that has the form: its strings block, its structure block, and where what stands in its root begins.
#[derive(Clone, Copy)]
pub struct Tree<'a> {
    pub strings: &'a [u8],
    pub structure: Structure<'a>,
    pub root: usize,
}

// The walks go on at `next`, since each token has its own length.
impl<'a> Structure<'a> {
    // The place of the first token from `at` on that is neither a property nor no operation.
    pub fn skip_properties(&self, at: usize) -> usize
        requires { at ≤ length self.now.bytes.now }
        ensures { Behind self.now.names self.now.bytes.now at result }
    {
        let mut i = at;
        while i < self.bytes.len() {
            let step = self.token_at(i);
            match step.token {
                Token::Property(_, _) | Token::Nop => i = step.next,
                _ => return i,
            }
        }
        i
    }

    // A node, from behind its name on: its properties and its children; the place behind it. `left` more nodes may be open.
    #[cycle(read_children_read_node)]
    pub fn read_node(&self, at: usize, left: usize) -> Option<usize>
        requires { (at ≤ length self.now.bytes.now) × (left < 16) }
        ensures { ReadsOn self.now.names self.now.bytes.now (16 - left) false at result }
    {
        self.read_children(self.skip_properties(at), left)
    }

    // The children of a node, each as a node, and the node's end.
    #[cycle(read_children_read_node)]
    fn read_children(&self, at: usize, left: usize) -> Option<usize>
        requires { (at ≤ length self.now.bytes.now) × (left < 16) }
        ensures { ReadsOn self.now.names self.now.bytes.now (16 - left) true at result }
    {
        let mut i = at;
        while i < self.bytes.len() {
            let step = self.token_at(i);
            match step.token {
                Token::Nop => i = step.next,
                Token::End => return Some(step.next),
                Token::Begin(_) => i = self.read_node(step.next, left.checked_sub(1)?)?,
                _ => return None,
            }
        }
        None
    }

    // The end token, with nothing after it.
    fn read_stop(&self, at: usize) -> bool
        requires { at ≤ length self.now.bytes.now }
        ensures { result ≡ rest_at self.now.names self.now.bytes.now 0 true at }
    {
        let mut i = at;
        while i < self.bytes.len() {
            let step = self.token_at(i);
            match step.token {
                Token::Nop => i = step.next,
                Token::Stop => return step.next == self.bytes.len(),
                _ => return false,
            }
        }
        false
    }

    // The place behind the root's name.
    fn root_at(&self) -> Option<usize>
        ensures { RootIs self.now.names self.now.bytes.now result }
    {
        let mut i = 0;
        while i < self.bytes.len() {
            let step = self.token_at(i);
            match step.token {
                Token::Nop => i = step.next,
                Token::Begin(_) => return Some(step.next),
                _ => return None,
            }
        }
        None
    }
}

// How many places of a strings block begin a name that ends inside it: those up to its last zero byte.
fn names_in(strings: &[u8]) -> usize
    ensures { result ≡ named strings.now }
{
    for i in (0..strings.len()).rev() {
        if strings[i] == 0 {
            return i + 1;
        }
    }
    0
}

// A tree by its strings block and its structure block, where that is a tree's.
pub fn read<'a>(strings: &'a [u8], bytes: &'a [u8]) -> Option<Tree<'a>>
    ensures { MatchOption result (formed strings.now bytes.now ≡ false) (λ t. (formed strings.now bytes.now ≡ true) × RootOf strings.now bytes.now t) }
{
    let structure = Structure {
        names: names_in(strings),
        bytes,
    };
    let root = structure.root_at()?;
    let end = structure.read_node(root, 15)?;
    if structure.read_stop(end) {
        Some(Tree {
            strings,
            structure,
            root,
        })
    } else {
        None
    }
}

// The same where it is known to be one.
// Apart from `read`, which goes through all of it.
pub fn root_of<'a>(strings: &'a [u8], bytes: &'a [u8]) -> Tree<'a>
    requires { formed strings.now bytes.now ≡ true }
    ensures { RootOf strings.now bytes.now result }
{
    let structure = Structure {
        names: names_in(strings),
        bytes,
    };
    let root = structure.root_at().unwrap();
    Tree {
        strings,
        structure,
        root,
    }
}
