//! Counts tilings up to symmetry.
//!
//! A tiling is counted if no symmetry carries it to an earlier one, in the order of their lists of numbers. So each class is
//! counted once, by the first of its tilings, and no tiling is looked up among the others.
ghost use Rattle.std.specs.Prelude.{IfErr, IfOk, length, ◌≡◌};
ghost use Rattle.std.specs.List.{filter};
ghost use Rattle.poly_tiling.specs.Lister.{HasEachOnce};
ghost use Rattle.poly_tiling.specs.Shows.{Shows};
ghost use Rattle.poly_browse.specs.Classes.{AreClasses};
ghost use Rattle.poly_browse.specs.Maps.{is_first};

use crate::symmetry::{Symmetry, symmetries};
use poly_book::Quiet;
use poly_design::Design;
use poly_grid::Refusal;
use poly_tiling::{Tiling, View, has_all};
use std::alloc::Global;

/// Returns the number of classes of a design's tilings, as [`classes_of`] does, from a [`Quiet`], which has all of them.
/// Fails only with `Memory`.
pub fn classes(alloc: Global, quiet: &Quiet) -> Result<u64, Refusal>
    ensures ok { IfOk result (AreClasses quiet.now.design) }
    ensures why { IfErr result (λ e. e ≡ Refusal.Memory) }
{
    let design = quiet.design();
    let view = quiet.view();
    let tilings = quiet.tilings();
    match classes_of(alloc, design, view, tilings) {
        Ok(count) => Ok(count),
        Err(refusal) => Err(refusal),
    }
}

/// Returns the number of classes of the design's tilings: two tilings are in one class if a symmetry of the design carries
/// one to the other. A symmetry is a turn followed by a translation. Together they carry the cells with their modes, the
/// placements and the pins to themselves and keep the names. The turn may be a reflection, whatever the pieces allow.
///
/// Requires a view that shows the design, and all tilings of the design, each once, as numbers of that view. Fails with
/// `Memory` only.
pub fn classes_of(
    alloc: Global,
    design: &Design,
    view: &View,
    tilings: &[Tiling],
) -> Result<u64, Refusal>
    requires shows { Shows view.now design.now }
    requires each_once { HasEachOnce view.now tilings.now }
    ensures ok { IfOk result (AreClasses design.now) }
    ensures why { IfErr result (λ e. e ≡ Refusal.Memory) }
{
    // If a pin is not a placement of the design, there is no tiling.
    if !has_all(view.live(), view.pins()) {
        return Ok(0);
    }
    let symmetries = symmetries(alloc, design, view)?;
    count_firsts(alloc, &symmetries, tilings)
}

// Counts the tilings that are the first of their class: no symmetry carries such a tiling to an earlier one.
fn count_firsts(alloc: Global, symmetries: &[Symmetry], tilings: &[Tiling]) -> Result<u64, Refusal>
    ensures ok { IfOk result (λ n. n ≡ length (filter (is_first symmetries.now) tilings.now)) }
    ensures why { IfErr result (λ e. e ≡ Refusal.Memory) }
{
    let mut room = Vec::new(alloc);
    let mut count = 0;
    for tiling in tilings {
        if is_first(symmetries, tiling.numbers(), &mut room)? {
            count += 1;
        }
    }
    Ok(count)
}

fn is_first(symmetries: &[Symmetry], numbers: &[u32], room: &mut Vec<u32>) -> Result<bool, Refusal>
    ensures ok { IfOk result (λ first. first ≡ is_first symmetries.now numbers.now) }
    ensures why { IfErr result (λ e. e ≡ Refusal.Memory) }
{
    for symmetry in symmetries {
        symmetry.write_image(numbers, room)?;
        if room.as_slice().cmp(numbers).is_lt() {
            return Ok(false);
        }
    }
    Ok(true)
}
