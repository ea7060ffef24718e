//! The guards of a change and of its inverse, made from the change's `Delta`. Each number, item or name in a list of the
//! delta gives one guard, either of the change or of its inverse.
ghost use Rattle.std.specs.Prelude.{IfErr, IfOk, length, map, ◌≡◌};
ghost use Rattle.poly_atom.specs.Atoms.{AllSmall};
ghost use Rattle.poly_atom.specs.Guards.{guards, guards_by};
ghost use Rattle.poly_atom.specs.declared.atom.Atom.TheVariants.{AtLeast, AtMost};
ghost use Rattle.poly_place.specs.Between.{IsChangeOf};
ghost use Rattle.poly_tiling.specs.Puzzle.{least, most};
ghost use Rattle.poly_tiling.specs.declared.item.Item.TheVariants.{Piece as PieceItem};

use crate::atom::Atom;
use crate::change::{has_all, lacks_all};
use poly_design::Name;
use poly_grid::Refusal;
use poly_place::Delta;
use poly_tiling::{Item, View};
use std::alloc::{AllocError, Global};

/// The guards of a change and those of its inverse.
#[derive(Debug, Drop)]
pub struct BothGuards {
    /// The guards of the change: a tiling of the later design is a tiling of the earlier one too exactly if it meets them.
    pub forth: Vec<Atom>,
    /// The guards of the inverse: a tiling of the earlier design is a tiling of the later one too exactly if it meets them.
    pub back: Vec<Atom>,
}

/// The guards of the change that leads from the view before to the view after, and of its inverse. Requires that `delta` is
/// what the change does. Fails only when out of memory.
pub fn both_guards(
    alloc: Global,
    before: &View,
    after: &View,
    delta: &Delta,
) -> Result<BothGuards, Refusal>
    requires { IsChangeOf before.now after.now delta.now }
    ensures forth { IfOk result (λ both. both.forth.items ≡ guards before.now after.now) }
    ensures back { IfOk result (λ both. both.back.items ≡ guards after.now before.now) }
    ensures small { IfOk result (λ both. AllSmall both.forth.items × AllSmall both.back.items) }
    ensures why { IfErr result (λ e. e ≡ Refusal.Memory) }
{
    let forth = guards_by(
        alloc,
        before,
        &delta.fresh,
        &delta.unneeded,
        &delta.widened,
        &delta.unpinned,
    )?;
    let back = guards_by(
        alloc,
        after,
        &delta.gone,
        &delta.needed,
        &delta.narrowed,
        &delta.pinned,
    )?;
    Ok(BothGuards { forth, back })
}

/// Counts the guards of the change from the view before to the view after, and those of its inverse, in this order. Requires
/// that `delta` is what the change does. Never allocates.
pub fn guard_counts(before: &View, after: &View, delta: &Delta) -> (usize, usize)
    requires { IsChangeOf before.now after.now delta.now }
    ensures forth { result.0 ≡ length (guards before.now after.now) }
    ensures back { result.1 ≡ length (guards after.now before.now) }
{
    let forth = delta.fresh.len()
        + delta.unneeded.len()
        + delta.widened.len()
        + delta.unpinned.len();
    let back = delta.gone.len() + delta.needed.len() + delta.narrowed.len() + delta.pinned.len();
    (forth, back)
}

// `Lacks` of each number, `AtLeast` of each item with its least in the view, `AtMost` of each piece with its most in the
// view, and `Has` of each pin.
fn guards_by(
    alloc: Global,
    view: &View,
    lacked: &[u32],
    leasts: &[Item],
    mosts: &[Name],
    pins: &[u32],
) -> Result<Vec<Atom>, AllocError>
    ensures { IfOk result (λ atoms. atoms.items ≡ guards_by view.now lacked.now leasts.now mosts.now pins.now) }
{
    let mut atoms = lacks_all(alloc, lacked)?;
    let least = at_least_all(alloc, view, leasts)?;
    let most = at_most_all(alloc, view, mosts)?;
    let has = has_all(alloc, pins)?;
    atoms.extend_from_slice(&least)?;
    atoms.extend_from_slice(&most)?;
    atoms.extend_from_slice(&has)?;
    Ok(atoms)
}

fn at_least_all(alloc: Global, view: &View, items: &[Item]) -> Result<Vec<Atom>, AllocError>
    ensures { IfOk result (λ atoms. atoms.items ≡ map (λ i. AtLeast i (least view.now i)) items.now) }
{
    items.iter().map(|item| at_least(view, item)).collect(alloc)
}

fn at_least(view: &View, item: &Item) -> Atom
    ensures { result ≡ AtLeast item.now (least view.now item.now) }
{
    Atom::AtLeast(*item, view.bounds(*item).0)
}

fn at_most_all(alloc: Global, view: &View, names: &[Name]) -> Result<Vec<Atom>, AllocError>
    ensures { IfOk result (λ atoms. atoms.items ≡ map (λ n. AtMost (PieceItem n) (most view.now (PieceItem n))) names.now) }
{
    names.iter().map(|name| at_most(view, *name)).collect(alloc)
}

fn at_most(view: &View, name: Name) -> Atom
    ensures { result ≡ AtMost (PieceItem name) (most view.now (PieceItem name)) }
{
    let most = view.bounds(Item::Piece(name)).1;
    Atom::AtMost(Item::Piece(name), most)
}
