//! Whether the arms of a Branch fit, checked on a frame.
ghost use Rattle.std.specs.Prelude.{false, if◌then◌else◌, not, true, ◌&&◌, ◌==◌, ◌≡◌};
ghost use Rattle.std.specs.List.{list_all};
ghost use Rattle.poly_tiling.specs.Lists.{distinct, mem, tally};
ghost use Rattle.poly_tiling.specs.Puzzle.{has_item};
ghost use Rattle.poly_frame.specs.Open.{arms_fit, ruled_out};
ghost use Rattle.poly_report.specs.Trees.{heads};
ghost use Rattle.poly_report.specs.Shapes.{arms_list};

use crate::tree::Arm;
use poly_frame::Frame;
use poly_tiling::Item;

fn is_no_arm(arms: &[Arm], number: u32) -> bool
    ensures { result ≡ list_all (λ a. if number == a.placement then false else true) arms.now }
{
    arms.iter().all(|a| number != a.placement)
}

fn is_apart(arms: &[Arm], number: u32) -> bool
    ensures { result ≡ list_all (λ y. if number == y then false else true) (heads (arms_list arms.now)) }
{
    is_no_arm(arms, number)
}

fn stand_once(arms: &[Arm]) -> bool
    ensures { result ≡ distinct (heads (arms_list arms.now)) }
{
    let mut left = arms;
    while let [first, rest @ ..] = left {
        if !is_apart(rest, first.placement) {
            return false;
        }
        left = rest;
    }
    true
}

fn all_have(frame: &Frame<'_>, item: &Item, arms: &[Arm]) -> bool
    ensures { result ≡ list_all (λ a. has_item frame.now.scene a.placement item.now) arms.now }
{
    for a in arms {
        if !frame.covers(a.placement, *item) {
            return false;
        }
    }
    true
}

// How many arms have a placement of the design that is not ruled out.
fn count_allowed(frame: &Frame<'_>, arms: &[Arm]) -> usize
    ensures { result ≡ tally (λ a. mem frame.now.scene.live a.placement && not (ruled_out frame.now.scene frame.now.atoms a.placement)) arms.now }
{
    let mut n = 0;
    for a in arms {
        if frame.allows(a.placement) {
            n += 1;
        }
    }
    n
}

/// Whether a Branch on the item may have these arms: their placements differ and all have the item, and too few other
/// placements are left to cover the item often enough. The arms' trees don't matter.
pub(crate) fn arms_fit(frame: &Frame<'_>, item: &Item, arms: &[Arm]) -> bool
    ensures { result ≡ arms_fit frame.now.scene frame.now.atoms item.now (heads (arms_list arms.now)) }
{
    if !stand_once(arms) {
        return false;
    }
    if !all_have(frame, item, arms) {
        return false;
    }
    let others = frame
        .count_allowed(*item)
        .saturating_sub(count_allowed(frame, arms));
    others < frame.least(*item)
}
