//! Judges members of the base. A member is right if it is a placement of the design that is not ruled out. How many members
//! have each item tells whether a member is in conflict with another one, and whether it has an item that others cover as often
//! as they may. So whether an atom lacks the member is asked only if its items fit.
ghost use Rattle.std.specs.Prelude.{false, length, map, not, take, true, ◌&&◌, ◌<◌, ◌∷◌, ◌≡◌};
ghost use Rattle.std.specs.List.{list_all};
ghost use Rattle.poly_tiling.specs.Lists.{mem};
ghost use Rattle.poly_tiling.specs.Puzzle.{items};
ghost use Rattle.poly_tiling.specs.declared.item.Item.TheVariants.{Cell as CellItem, Piece as PieceItem};
ghost use Rattle.poly_atom.specs.Hopeless.{base};
ghost use Rattle.poly_frame.specs.Alive.{KnowsDead};
ghost use Rattle.poly_frame.specs.Open.{dead, open_in, ruled_out};
ghost use Rattle.poly_frame.specs.FrameConsistent.{is_consistent, item_fits, items_fit};
ghost use Rattle.poly_frame.specs.FrameSteps.{IsAt};

use crate::frame::alive::is_dead;
use crate::frame::consistent::fits;
use crate::frame::items::{guess_item, index_of};
use crate::frame::node::Node;
use crate::frame::steps::Steps;
use poly_design::Name;
use poly_grid::Cell;
use poly_tiling::{Item, has_number};

// Whether at most as many members have the item as may have it, and at most one if it is a cell. No member may have an item
// that is not among those of the view.
fn item_fits(node: &Node<'_>, steps: &Steps, members: &[u32], item: &Item) -> bool
    requires kept { IsAt node.now steps.now }
    requires members { members.now ≡ base node.now.view.now node.now.trail.now }
    ensures { result ≡ item_fits node.now.view.now node.now.trail.now item.now }
{
    match index_of(
        node.view.items(),
        guess_item(&node.matrix.cells, item),
        *item,
    ) {
        Some(b) => fits(item, node.table.mosts[b], steps.have[b]),
        None => node.view.count(members, item) == 0,
    }
}

fn cells_fit(node: &Node<'_>, steps: &Steps, members: &[u32], cells: &[Cell]) -> bool
    requires kept { IsAt node.now steps.now }
    requires members { members.now ≡ base node.now.view.now node.now.trail.now }
    ensures { result ≡ list_all (λ c. item_fits node.now.view.now node.now.trail.now (CellItem c)) cells.now }
{
    for cell in cells {
        if !item_fits(node, steps, members, &Item::Cell(*cell)) {
            return false;
        }
    }
    true
}

fn piece_and_cells_fit(
    node: &Node<'_>,
    steps: &Steps,
    members: &[u32],
    name: Name,
    cells: &[Cell],
) -> bool
    requires kept { IsAt node.now steps.now }
    requires members { members.now ≡ base node.now.view.now node.now.trail.now }
    ensures { result ≡ list_all (λ i. item_fits node.now.view.now node.now.trail.now i) (PieceItem name ∷ map (λ c. CellItem c) cells.now) }
{
    if !item_fits(node, steps, members, &Item::Piece(name)) {
        return false;
    }
    cells_fit(node, steps, members, cells)
}

// Whether each item of the number's placement fits.
fn items_fit(node: &Node<'_>, steps: &Steps, members: &[u32], number: u32) -> bool
    requires kept { IsAt node.now steps.now }
    requires members { members.now ≡ base node.now.view.now node.now.trail.now }
    ensures { result ≡ items_fit node.now.view.now node.now.trail.now number }
{
    match node.view.placement(number) {
        None => true,
        Some(p) => piece_and_cells_fit(node, steps, members, p.name, p.cells.as_slice()),
    }
}

/// Whether each item of the number's placement fits and the placement is not dead. A member is right if and only if this holds.
pub(crate) fn is_sound(node: &Node<'_>, steps: &Steps, members: &[u32], number: u32) -> bool
    requires kept { IsAt node.now steps.now }
    requires alive { KnowsDead node.now }
    requires members { members.now ≡ base node.now.view.now node.now.trail.now }
    ensures { result ≡ (items_fit node.now.view.now node.now.trail.now number && not (dead node.now.view.now node.now.trail.now number)) }
{
    items_fit(node, steps, members, number) && !is_dead(node, number)
}

/// Whether a placement that is not open is a placement of the design that is not ruled out. Only a member can be that. If
/// `sure`, the base is known to be consistent.
pub(crate) fn is_right_member(
    node: &Node<'_>,
    steps: &Steps,
    members: &[u32],
    number: u32,
    sure: bool,
) -> bool
    requires kept { IsAt node.now steps.now }
    requires alive { KnowsDead node.now }
    requires members { members.now ≡ base node.now.view.now node.now.trail.now }
    requires sure { sure ≡ true → is_consistent node.now.view.now node.now.trail.now ≡ true }
    requires closed { mem node.now.view.now.live number ≡ true → open_in node.now.view.now node.now.trail.now number ≡ false }
    ensures { result ≡ (mem node.now.view.now.live number && not (ruled_out node.now.view.now node.now.trail.now number)) }
{
    if !has_number(members, number) {
        return false;
    }
    if sure {
        return true;
    }
    is_sound(node, steps, members, number)
}
