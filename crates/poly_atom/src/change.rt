//! The guards of a change: a tiling of the later design is a tiling of the earlier one exactly if it meets them. The guards
//! of each kind are found by reading two lists side by side, one of each design. Both lists are in the same order.
ghost use Rattle.std.specs.Prelude.{IfErr, IfOk, OnOk, [], if◌then◌else◌, map, nat_lt, not, true, ◌++◌, ◌∷◌, ◌≡◌};
ghost use Rattle.std.specs.List.{filter};
ghost use Rattle.poly_atom.specs.Atoms.{AllSmall};
ghost use Rattle.poly_atom.specs.Guards.{guards};
ghost use Rattle.poly_tiling.specs.Lists.{mem};
ghost use Rattle.poly_tiling.specs.Names.{Names, in_order, items_ascend};
ghost use Rattle.poly_tiling.specs.Puzzle.{bound_in};
ghost use Rattle.poly_atom.specs.declared.atom.Atom.TheVariants.{AtLeast, AtMost, Has, Lacks};

use crate::atom::Atom;
use crate::order::{bounds_at, past, skip_items, skip_numbers, stands_at};
use poly_grid::Refusal;
use poly_tiling::{Bound, View};
use std::alloc::{AllocError, Global};

/// The guards of the change from one design to another: `Lacks` of each new placement, in placement order; `AtLeast` of
/// each item whose least fell, with the earlier least, in item order; `AtMost` of each item of the earlier design whose most
/// rose, with the earlier most, in item order; `Has` of each pin that was removed, in placement order. Requires that
/// each number of the earlier view names the same placement in the later one. Fails only when out of memory.
pub fn guards(alloc: Global, before: &View, after: &View) -> Result<Vec<Atom>, Refusal>
    requires { Names before.now after.now }
    ensures ok { IfOk result (λ atoms. atoms.items ≡ guards before.now after.now) }
    ensures small { IfOk result (λ atoms. AllSmall atoms.items) }
    ensures why { IfErr result (λ e. e ≡ Refusal.Memory) }
{
    let fresh = missing(alloc, after, after.live(), before.live())?;
    let atoms = lacks_all(alloc, &fresh)?;
    let atoms = with_fallen(before.items(), after.items(), atoms)?;
    let mut atoms = with_risen(before.items(), after.items(), atoms)?;
    let freed = missing(alloc, after, before.pins(), after.pins())?;
    let asked = has_all(alloc, &freed)?;
    atoms.extend_from_slice(&asked)?;
    Ok(atoms)
}

// The numbers that aren't among the others.
fn missing(
    alloc: Global,
    view: &View,
    numbers: &[u32],
    others: &[u32],
) -> Result<Vec<u32>, AllocError>
    requires numbers_up { in_order view.now numbers.now ≡ true }
    requires others_up { in_order view.now others.now ≡ true }
    ensures { IfOk result (λ rest. rest.items ≡ filter (λ p. not (mem others.now p)) numbers.now) }
{
    let mut rest = Vec::new(alloc);
    let mut at = 0;
    for p in numbers {
        let here = skip_numbers(view, others, at, *p);
        let is_missing = !stands_at(others, here, *p);
        add_if(is_missing, *p, &mut rest)?;
        at = past(others, here, *p);
    }
    Ok(rest)
}

/// `Lacks` of each number.
pub(crate) fn lacks_all(alloc: Global, numbers: &[u32]) -> Result<Vec<Atom>, AllocError>
    ensures { IfOk result (λ atoms. atoms.items ≡ map (λ p. Lacks p) numbers.now) }
{
    numbers.iter().map(|p| Atom::Lacks(*p)).collect(alloc)
}

/// `Has` of each number.
pub(crate) fn has_all(alloc: Global, numbers: &[u32]) -> Result<Vec<Atom>, AllocError>
    ensures { IfOk result (λ atoms. atoms.items ≡ map (λ p. Has p) numbers.now) }
{
    numbers.iter().map(|p| Atom::Has(*p)).collect(alloc)
}

fn with_fallen(old: &[Bound], new: &[Bound], mut atoms: Vec<Atom>) -> Result<Vec<Atom>, AllocError>
    requires old_up { items_ascend old.now ≡ true }
    requires new_up { items_ascend new.now ≡ true }
    ensures { IfOk result (λ all. all.items ≡ atoms.items ++ map (λ b. AtLeast b.item b.least) (filter (λ b. nat_lt (bound_in new.now b.item (λ c. c.least)) b.least) old.now)) }
{
    let mut at = 0;
    for bound in old {
        at = skip_items(new, at, &bound.item);
        let fell = bounds_at(new, at, &bound.item).0 < bound.least;
        add_if(fell, Atom::AtLeast(bound.item, bound.least), &mut atoms)?;
    }
    Ok(atoms)
}

fn with_risen(old: &[Bound], new: &[Bound], mut atoms: Vec<Atom>) -> Result<Vec<Atom>, AllocError>
    requires old_up { items_ascend old.now ≡ true }
    requires new_up { items_ascend new.now ≡ true }
    ensures { IfOk result (λ all. all.items ≡ atoms.items ++ map (λ b. AtMost b.item b.most) (filter (λ b. nat_lt b.most (bound_in new.now b.item (λ c. c.most))) old.now)) }
{
    let mut at = 0;
    for bound in old {
        at = skip_items(new, at, &bound.item);
        let rose = bound.most < bounds_at(new, at, &bound.item).1;
        add_if(rose, Atom::AtMost(bound.item, bound.most), &mut atoms)?;
    }
    Ok(atoms)
}

fn add_if<T: Drop>(wanted: bool, item: T, items: &mut Vec<T>) -> Result<(), AllocError>
    ensures { OnOk result (items.new.items ≡ (if wanted then items.old.items ++ item ∷ [] else items.old.items)) }
{
    if wanted {
        items.push(item)?;
    }
    Ok(())
}
