// A service tree before a board's: which has a property, and its value as a part of that tree.
ghost use Rattle.std.specs.Prelude.{◌≡◌, true, ◌&&◌, None};
ghost use Rattle.tree.specs.Header.{form};
ghost use Rattle.paths.specs.Lookup.{whereabouts, place_in, pair_place, holder_of, tree_by, part_of, number_of_holder, number_of};

use super::nodes::find_path;
use refusals::Refusal;
use tree::header::{has_form, tree_of};
use tree::words::word_at;

// Which of two trees has a property.
#[derive(Clone, Copy)]
pub enum Holder {
    Service,
    Board,
}

impl From<Holder> for u32 {
    ghost from_gives = { λ h n. n ≡ number_of_holder h };

    fn from(holder: Holder) -> u32 {
        match holder {
            Holder::Service => 1,
            Holder::Board => 2,
        }
    }
}

// Which tree has a property, and where its value stands in that tree.
#[derive(Clone, Copy)]
pub struct Place {
    pub holder: Holder,
    pub offset: usize,
    pub length: usize,
}

// The place of the first property of a name at a path in a tree that has the form, for the holder that this tree is.
fn find_in(holder: Holder, tree: &[u8], path: &[u8], name: &[u8]) -> Option<Place>
    requires { form tree.now ≡ true }
    ensures { result ≡ place_in tree.now holder (whereabouts tree.now path.now name.now) None }
{
    let found = find_path(&tree_of(tree), path, name)?;
    Some(Place {
        holder,
        offset: word_at(tree, 8) as usize + found.at,
        length: found.len,
    })
}

// Whether two trees have the form.
pub fn both_formed(service: &[u8], board: &[u8]) -> bool
    ensures { result ≡ (form service.now && form board.now) }
{
    has_form(service) && has_form(board)
}

// Where a property stands: in the service tree if that has it, else in the board's; nowhere if neither has it. Refused where a tree has not the form.
// The four slices here and below are those that C lends `memblock_lookup`.
#[tactic(auto, unfolding(crate::specs::Lookup::pair_place))]
pub fn find_pair(
    service: &[u8],
    board: &[u8],
    path: &[u8],
    name: &[u8],
) -> Result<Option<Place>, Refusal>
    ensures { result ≡ pair_place service.now board.now path.now name.now }
{
    if !both_formed(service, board) {
        return Err(Refusal::Tree);
    }
    let corrected = find_in(Holder::Service, service, path, name);
    Ok(corrected.or_else(|| find_in(Holder::Board, board, path, name)))
}

// Which of two trees has a property.
pub fn which_holds(
    service: &[u8],
    board: &[u8],
    path: &[u8],
    name: &[u8],
) -> Result<Option<Holder>, Refusal>
    ensures { result ≡ holder_of (pair_place service.now board.now path.now name.now) }
{
    Ok(find_pair(service, board, path, name)?.map(|place| place.holder))
}

// The tree that a holder is.
fn tree_by<'a>(holder: Holder, service: &'a [u8], board: &'a [u8]) -> &'a [u8]
    ensures { result.now ≡ tree_by holder service.now board.now }
{
    match holder {
        Holder::Service => service,
        Holder::Board => board,
    }
}

// The value of a property as a part of the tree that has it, the service tree first; an empty part where none has it.
pub fn lookup<'a>(service: &'a [u8], board: &'a [u8], path: &[u8], name: &[u8]) -> &'a [u8]
    ensures { result.now ≡ part_of service.now board.now (pair_place service.now board.now path.now name.now) }
{
    let Ok(Some(place)) = find_pair(service, board, path, name) else {
        return &board[..0];
    };
    let tree = tree_by(place.holder, service, board);
    &tree[place.offset..place.offset + place.length]
}

// The number that says which: 0 for neither, or the refusal's.
pub fn holder_number(holder: Result<Option<Holder>, Refusal>) -> u32
    ensures { result ≡ number_of holder }
{
    match holder {
        Ok(Some(holder)) => holder.into(),
        Ok(None) => 0,
        Err(refusal) => refusal.into(),
    }
}
