//! Counts the first levels of a frame at which its base is consistent: each member is a placement of the design that is not
//! ruled out. If all levels are counted, the base is a tiling that meets the atoms as soon as no item is due.
ghost use Rattle.std.specs.Prelude.{[], ℕ, length, not, take, true, ◌&&◌, ◌++◌, ◌-◌, ◌<◌, ◌∷◌, ◌≡◌, ◌≤◌};
ghost use Rattle.std.specs.List.{list_all, list_any};
ghost use Rattle.poly_tiling.specs.Lists.{mem};
ghost use Rattle.poly_atom.specs.Hopeless.{base, lacks};
ghost use Rattle.poly_tiling.specs.Puzzle.{is_piece};
ghost use Rattle.poly_frame.specs.Open.{open_in};
ghost use Rattle.poly_frame.specs.FrameConsistent.{AllFit, ConsistentShows, fits_at};
ghost use Rattle.poly_frame.specs.FrameTable.{HaveShows, MostsShow};
ghost use Rattle.poly_frame.specs.Matrices.{IsMatrix, StandsShow};

use crate::frame::matrix::Matrix;
use crate::frame::node::Node;
use crate::plain;
use poly_atom::Atom;
use poly_tiling::{Bound, Item, View, has_number};

/// Whether an item that `have` members have fits: at most `most` members may have it, and at most one if it is a cell.
pub(crate) fn fits(item: &Item, most: u8, have: u64) -> bool
    ensures { result ≡ fits_at item.now most have }
{
    have <= u64::from(most) && (is_piece(item) || have <= 1)
}

/// Whether the item is a piece.
pub(crate) fn is_piece(item: &Item) -> bool
    ensures { result ≡ is_piece item.now }
{
    match item {
        Item::Cell(_) => false,
        Item::Piece(_) => true,
    }
}

// Whether at most as many members have each item as may have it, and at most one if it is a cell.
fn all_fit(bounds: &[Bound], mosts: &[u8], have: &[u64]) -> bool
    requires mosts { length mosts.now ≡ length bounds.now }
    requires have { length have.now ≡ length bounds.now }
    ensures { result ≡ true → AllFit bounds.now mosts.now have.now }
{
    for b in 0..bounds.len() {
        if !fits(&bounds[b].item, mosts[b], have[b]) {
            return false;
        }
    }
    true
}

// Whether each of the members has a column and no atom lacks it.
fn are_kept(whole: &Matrix, atoms: &[Atom], members: &[u32]) -> bool
    requires { StandsShow whole.now.numbers.items whole.now.stands.items }
    ensures { result ≡ list_all (λ p. mem whole.now.numbers.items p && not (list_any (λ a. lacks a p) atoms.now)) members.now }
{
    for p in members {
        if whole.column_of(*p).is_none() || plain::any_lacks(atoms, *p) {
            return false;
        }
    }
    true
}

/// The count at the given atoms alone: 1 if their base is known to be consistent, otherwise 0. `mosts` is how many members may
/// have each item at most, and `have` how many have it.
pub(crate) fn begin(
    view: &View,
    part: &Matrix,
    atoms: &[Atom],
    members: &[u32],
    mosts: &[u8],
    have: &[u64],
) -> usize
    requires part { IsMatrix view.now part.now }
    requires base { members.now ≡ base view.now atoms.now }
    requires mosts_len { length mosts.now ≡ length view.now.bounds }
    requires have_len { length have.now ≡ length view.now.bounds }
    requires mosts { MostsShow view.now atoms.now mosts.now }
    requires have { HaveShows view.now members.now have.now }
    ensures { ConsistentShows view.now atoms.now (length atoms.now) result }
{
    if all_fit(view.items(), mosts, have) && are_kept(part, atoms, members) {
        1
    } else {
        0
    }
}

/// The count after a placement is taken. `members` is the base before that, and `opened` is whether the placement is known to
/// have been open. A member that is taken again doesn't change the base.
pub(crate) fn taken(
    node: &Node<'_>,
    members: &[u32],
    consistent: usize,
    number: u32,
    opened: bool,
) -> usize
    requires shows { ConsistentShows node.now.view.now node.now.trail.now node.now.given consistent }
    requires low { node.now.given ≤ length node.now.trail.now }
    requires members { members.now ≡ base node.now.view.now node.now.trail.now }
    requires opened { opened ≡ true → (mem node.now.view.now.live number ≡ true) × (open_in node.now.view.now node.now.trail.now number ≡ true) }
    ensures { ConsistentShows node.now.view.now (node.now.trail.now ++ Atom.Has number ∷ []) node.now.given result }
{
    if consistent <= node.trail.len() - node.given {
        return consistent;
    }
    if opened || has_number(members, number) {
        consistent + 1
    } else {
        consistent
    }
}

/// The count after a placement is left out. `members` is the base, and `opened` is whether the placement is known to have been
/// open. The base stays the same, and is consistent as before unless it has the placement.
pub(crate) fn left(
    node: &Node<'_>,
    members: &[u32],
    consistent: usize,
    number: u32,
    opened: bool,
) -> usize
    requires shows { ConsistentShows node.now.view.now node.now.trail.now node.now.given consistent }
    requires low { node.now.given ≤ length node.now.trail.now }
    requires members { members.now ≡ base node.now.view.now node.now.trail.now }
    requires opened { opened ≡ true → (mem node.now.view.now.live number ≡ true) × (open_in node.now.view.now node.now.trail.now number ≡ true) }
    ensures { ConsistentShows node.now.view.now (node.now.trail.now ++ Atom.Lacks number ∷ []) node.now.given result }
{
    if consistent <= node.trail.len() - node.given {
        return consistent;
    }
    if !opened && has_number(members, number) {
        consistent
    } else {
        consistent + 1
    }
}

/// The count after the last step is undone.
pub(crate) fn back(node: &Node<'_>, consistent: usize) -> usize
    requires shows { ConsistentShows node.now.view.now node.now.trail.now node.now.given consistent }
    requires some { node.now.given < length node.now.trail.now }
    ensures { ConsistentShows node.now.view.now (take (length node.now.trail.now - 1) node.now.trail.now) node.now.given result }
{
    consistent.min(node.trail.len() - node.given)
}
