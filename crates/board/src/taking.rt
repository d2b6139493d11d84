// A board's tree taken in, corrected by a service tree: memory, then the reservation list, then what is reserved, then what is marked; whole or not at all.
ghost use Rattle.std.specs.Prelude.{◌≡◌, true, cond, [], ◌∷◌};
ghost use Rattle.block.specs.Block.{current, good};
ghost use Rattle.refusals.specs.Numbers.{answered};
ghost use Rattle.range.specs.Outcomes.{outcome};
ghost use Rattle.tables.specs.Commands.{legal_verb};
ghost use Rattle.intake.specs.Turns.{steps, in_turn, wholly};
ghost use Rattle.lookup.specs.Values.{same};
ghost use Rattle.values.specs.Names.{reserved_memory};
ghost use Rattle.paths.specs.Steps.{InRoot};
ghost use Rattle.values.specs.Steps.{Sources, AtNode, AtChild, node_at, stands, gets, memory_ok, child_ok};
ghost use Rattle.board.specs.Board.{intake_tree};
ghost use Rattle.board.specs.Pairs.{intake_trees};
ghost use Rattle.board.specs.Steps.{OneOrTwo, Valued, width, reg_commands, memory_commands, marked_or_not, reserved_commands, child_commands, children_commands, turns, taking};

use super::ranges::{Cells, take_list, take_ranges};
use block::{LENGTH, block_good, current_layout};
use lookup::same_bytes;
use records::table::copy_front;
use refusals::Refusal;
use regions::Tag;
use tables::commands::Verb;
use tree::header::{list, open};
use values::{Child, Node, Trees};

// What a walk over the root's children takes in. A closure in its place would need a contract over every block and every child, which would say what
// `child_commands` says by cases.
#[derive(Clone, Copy)]
pub enum Pass {
    Memory,
    Reserved,
    Marked,
}

// What is taken in: the trees, and how many cells an address and a size have there.
#[derive(Clone, Copy)]
pub struct Taking<'a> {
    pub trees: Trees<'a>,
    pub cells: Cells,
}

impl<'a> Taking<'a> {
    // A command on each range of a node's reg.
    #[tactic(auto, unfolding(intake::specs::Turns::in_turn))]
    pub fn take_reg(&self, block: &mut [u8], verb: Verb, node: &Node<'_>) -> Result<(), Refusal>
        requires { (good current block.old ≡ true) × (legal_verb verb ≡ true) × OneOrTwo self.now.cells × AtNode self.now.trees node.now }
        ensures { outcome (answered result) block.new ≡ in_turn (steps current (reg_commands (gets self.now.trees) self.now.cells verb (node_at self.now.trees node.now))) block.old }
    {
        match self.trees.get(node, b"reg") {
            Some(value) => take_ranges(block, verb, value, self.cells),
            None => Ok(()),
        }
    }

    // A child of the root, if it is memory.
    fn take_memory(&self, block: &mut [u8], node: &Node<'_>) -> Result<(), Refusal>
        requires { (good current block.old ≡ true) × OneOrTwo self.now.cells × AtNode self.now.trees node.now × (memory_ok (gets self.now.trees) (width self.now.cells) (node_at self.now.trees node.now) ≡ true) }
        ensures { outcome (answered result) block.new ≡ in_turn (steps current (memory_commands (gets self.now.trees) self.now.cells (node_at self.now.trees node.now))) block.old }
    {
        if !self.trees.is_just(node, b"device_type", b"memory\0") {
            return Ok(());
        }
        // Its values are as asked, so it says a number.
        let Some(id) = self.trees.number_of(node, b"numa-node-id", 0) else {
            return Ok(());
        };
        self.take_reg(block, Verb::Add(Tag { flags: 0, node: id }), node)
    }

    // A node in a /reserved-memory: reserved, or marked no-map, if it is of those that this pass takes in.
    // `marked` is a bool, since it is compared with whether the node has a no-map.
    fn take_reservation(
        &self,
        block: &mut [u8],
        node: &Node<'_>,
        marked: bool,
    ) -> Result<(), Refusal>
        requires { (good current block.old ≡ true) × OneOrTwo self.now.cells × AtNode self.now.trees node.now }
        ensures { outcome (answered result) block.new ≡ in_turn (steps current (marked_or_not (gets self.now.trees) self.now.cells marked (node_at self.now.trees node.now))) block.old }
    {
        if self.trees.has(node, b"no-map") != marked {
            return Ok(());
        }
        let verb = if marked { Verb::Mark(4) } else { Verb::Reserve };
        self.take_reg(block, verb, node)
    }

    // The nodes in a /reserved-memory in turn; the first refusal ends it.
    fn take_reserved(
        &self,
        block: &mut [u8],
        child: &Child<'a>,
        marked: bool,
    ) -> Result<(), Refusal>
        requires { (good current block.old ≡ true) × OneOrTwo self.now.cells × AtChild self.now.trees child.now }
        ensures { outcome (answered result) block.new ≡ in_turn (steps current (reserved_commands (gets self.now.trees) self.now.cells marked (child.now.name.now ∷ []) (stands self.now.trees child.now.at))) block.old }
    {
        let mut at = child.at;
        while let Some((node, after)) = self.trees.next_below(child, at) {
            self.take_reservation(block, &node, marked)?;
            at = after;
        }
        Ok(())
    }

    // A child of the root, if it is a /reserved-memory by its name.
    fn take_if_reserved(
        &self,
        block: &mut [u8],
        child: &Child<'a>,
        marked: bool,
    ) -> Result<(), Refusal>
        requires { (good current block.old ≡ true) × OneOrTwo self.now.cells × AtChild self.now.trees child.now }
        ensures { outcome (answered result) block.new ≡ in_turn (steps current (cond (same child.now.name.now reserved_memory) (reserved_commands (gets self.now.trees) self.now.cells marked (child.now.name.now ∷ []) (stands self.now.trees child.now.at)) [])) block.old }
    {
        if same_bytes(child.name, b"reserved-memory") {
            return self.take_reserved(block, child, marked);
        }
        Ok(())
    }

    // A child of the root: what this pass takes in of it.
    #[tactic(auto, unfolding(crate::specs::Steps::child_commands))]
    fn take_child(&self, block: &mut [u8], child: &Child<'a>, pass: Pass) -> Result<(), Refusal>
        requires { (good current block.old ≡ true) × OneOrTwo self.now.cells × AtChild self.now.trees child.now × (child_ok (gets self.now.trees) (width self.now.cells) child.now.name.now (stands self.now.trees child.now.at) ≡ true) }
        ensures { outcome (answered result) block.new ≡ in_turn (steps current (child_commands (gets self.now.trees) self.now.cells pass child.now.name.now (stands self.now.trees child.now.at))) block.old }
    {
        match pass {
            Pass::Memory => self.take_memory(block, &child.node()),
            Pass::Reserved => self.take_if_reserved(block, child, false),
            Pass::Marked => self.take_if_reserved(block, child, true),
        }
    }

    // The children of the root in turn; the first refusal ends it.
    // It walks as `children_ok` does: one walk for both would take the step as a closure, with a law of what it does to the block.
    fn take_children(&self, block: &mut [u8], pass: Pass) -> Result<(), Refusal>
        requires { (good current block.old ≡ true) × Valued self.now }
        ensures { outcome (answered result) block.new ≡ in_turn (steps current (children_commands (gets self.now.trees) self.now.cells pass (stands self.now.trees self.now.trees.board.root))) block.old }
    {
        let mut at = self.trees.board.root;
        while let Some((child, after)) = self.trees.next_child(at) {
            self.take_child(block, &child, pass)?;
            at = after;
        }
        Ok(())
    }

    // Memory, then the list, then what is reserved, then what is marked; the first refusal ends it.
    fn take_in_turn(&self, block: &mut [u8], list: &[u8]) -> Result<(), Refusal>
        requires { (good current block.old ≡ true) × Valued self.now }
        ensures { outcome (answered result) block.new ≡ in_turn (steps current (turns (gets self.now.trees) self.now.cells list.now (stands self.now.trees self.now.trees.board.root))) block.old }
    {
        self.take_children(block, Pass::Memory)?;
        take_list(block, list)?;
        self.take_children(block, Pass::Reserved)?;
        self.take_children(block, Pass::Marked)
    }

    // The same, whole or not at all: a copy of the block is kept on the stack, and put back after a refusal.
    // One function for this and that of `intake` would take the steps as a closure, with a law of what they leave as it was: here nothing, there the taken
    // table.
    fn take_wholly(&self, block: &mut [u8], list: &[u8]) -> Result<(), Refusal>
        requires { (good current block.old ≡ true) × Valued self.now }
        ensures { outcome (answered result) block.new ≡ wholly (steps current (turns (gets self.now.trees) self.now.cells list.now (stands self.now.trees self.now.trees.board.root))) block.old }
    {
        let mut kept = [0u8; LENGTH];
        copy_front(&mut kept, block, LENGTH);
        let answer = self.take_in_turn(block, list);
        if answer.is_err() {
            copy_front(block, &kept, LENGTH);
        }
        answer
    }
}

// A board's tree that has the form, with its reservation list: its values, then its commands.
fn take_valued(block: &mut [u8], trees: &Trees<'_>, list: &[u8]) -> Result<(), Refusal>
    requires { (good current block.old ≡ true) × Sources trees.now × InRoot trees.now.board }
    ensures { outcome (answered result) block.new ≡ taking (gets trees.now) (stands trees.now trees.now.board.root) list.now block.old }
{
    let root = trees.board.root;
    let Some(address) = trees.cell_count(root, b"#address-cells", 2) else {
        return Err(Refusal::Tree);
    };
    let Some(size) = trees.cell_count(root, b"#size-cells", 1) else {
        return Err(Refusal::Tree);
    };
    if !trees.children_ok(root, 4 * (address + size)) {
        return Err(Refusal::Tree);
    }
    let taking = Taking {
        trees: *trees,
        cells: Cells { address, size },
    };
    taking.take_wholly(block, list)
}

// Takes a board's tree in. Whether the block is good is asked once: add, reserve and mark leave a good one.
pub fn intake_tree(block: &mut [u8], board: &[u8]) -> Result<(), Refusal>
    ensures { outcome (answered result) block.new ≡ intake_tree current board.now block.old }
{
    if !block_good(block, current_layout()) {
        return Err(Refusal::Block);
    }
    let Some(tree) = open(board) else {
        return Err(Refusal::Tree);
    };
    let trees = Trees {
        service: None,
        board: tree,
    };
    take_valued(block, &trees, list(board))
}

// The same with a board's tree and a service tree that corrects it.
// One function for both would take the service tree's bytes as an Option and tell its two cases apart where each now has a function.
pub fn intake_trees(block: &mut [u8], board: &[u8], service: &[u8]) -> Result<(), Refusal>
    ensures { outcome (answered result) block.new ≡ intake_trees current board.now service.now block.old }
{
    if !block_good(block, current_layout()) {
        return Err(Refusal::Block);
    }
    let Some(tree) = open(board) else {
        return Err(Refusal::Tree);
    };
    let Some(fixes) = open(service) else {
        return Err(Refusal::Tree);
    };
    let trees = Trees {
        service: Some(fixes),
        board: tree,
    };
    take_valued(block, &trees, list(board))
}
