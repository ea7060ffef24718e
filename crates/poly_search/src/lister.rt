//! Listing a whole family by sweeps over a frame. A sweep goes depth first, on the item with the fewest options beyond those
//! that it still needs (Knuth, The Art of Computer Programming, volume 4B, section 7.2.2.1), or on an open placement if no
//! item is due. It lists the tilings as it goes.
//!
//! No tree is built. A sweep ends early if the steps of its frame or the depth run out, or if more than 1,000,000 tilings
//! are listed already. What is left at each node on the path is then added to the rests, as atoms. A rest can be swept later.
ghost use Rattle.std.specs.Prelude.{◌≡◌, ◌&&◌, ◌+◌, ◌≤◌, ◌<◌, ◌++◌, ◌∷◌, [], ℕ, drop, false, true, length, IfOk, IfErr, OnOk};
ghost use Rattle.poly_atom.specs.declared.atom.Atom.TheVariants.{Has, Lacks};
ghost use Rattle.poly_tiling.specs.declared.item.Item.{Item as ItemOf};
ghost use Rattle.poly_frame.specs.Open.{arms_fit};
ghost use Rattle.poly_tiling.specs.Lists.{distinct, mem};
ghost use Rattle.poly_report.specs.Trees.{Finds};
ghost use Rattle.poly_report.specs.Leaves.{tilings};
ghost use Rattle.poly_report.specs.Gather.{lists};
ghost use Rattle.poly_frame.specs.declared.frame.TheConstants.{STEPS};
ghost use Rattle.poly_frame.specs.Walk.{is_due, is_open, is_option, with_step};
ghost use Rattle.poly_search.specs.Sweeps.{IsLighter, Partly, Swept};

use poly_atom::Atom;
use poly_grid::Refusal;
use poly_report::Frame;
use poly_tiling::{Item, MAX_TILINGS, Tiling};
use std::alloc::Global;

/// What was listed, and what is left.
#[derive(Drop)]
pub struct Listing {
    /// The tilings that were listed.
    pub found: Vec<Tiling>,
    /// The families that are left, each as atoms.
    pub rests: Vec<Vec<Atom>>,
    /// The options of the items that are being swept, those of the outermost item first.
    pub options: Vec<u32>,
}

// Lists the base of a node without open placements, if the base is a tiling that meets the atoms.
#[tactic(auto, using(crate::proofs::Swept::family_ascends))]
fn push_found(alloc: Global, frame: &Frame<'_>, list: &mut Listing) -> Result<(), Refusal>
    ensures found { OnOk result (list.new.found.items ≡ list.old.found.items ++ tilings frame.now.scene frame.now.atoms Finds) }
    ensures rests { OnOk result (list.new.rests.items ≡ list.old.rests.items) }
    ensures options { OnOk result (list.new.options.items ≡ list.old.options.items) }
    ensures why { IfErr result (λ e. e ≡ Refusal.Memory) }
{
    if let Some(numbers) = frame.found() {
        let tiling = Tiling::new(Vec::from_slice(alloc, numbers)?);
        list.found.push(tiling)?;
    }
    Ok(())
}

// Adds the node's atoms as a rest, for a later sweep.
fn push_rest(alloc: Global, frame: &Frame<'_>, list: &mut Listing) -> Result<(), Refusal>
    ensures found { OnOk result (list.new.found.items ≡ list.old.found.items) }
    ensures rests { OnOk result (lists list.new.rests.items ≡ lists list.old.rests.items ++ frame.now.atoms ∷ []) }
    ensures options { OnOk result (list.new.options.items ≡ list.old.options.items) }
    ensures why { IfErr result (λ e. e ≡ Refusal.Memory) }
{
    let rest = Vec::from_slice(alloc, frame.atoms())?;
    list.rests.push(rest)?;
    Ok(())
}

/// Lists the family of the frame's atoms, and returns whether the whole family is listed. If it isn't, what is left is added
/// to the rests. The level of the frame never exceeds `end`, and the recursion goes no deeper than `depth`. If the
/// call isn't refused, the frame stays as it was. The only refusal is `Memory`.
#[cycle(sweep)]
pub fn sweep(
    alloc: Global,
    frame: &mut Frame<'_>,
    list: &mut Listing,
    end: usize,
    depth: u32,
) -> Result<bool, Refusal>
    requires begun { frame.old.given ≤ length frame.old.atoms }
    requires room { length frame.old.atoms < end }
    requires end { end ≤ frame.old.given + STEPS }
    requires once { distinct frame.old.scene.live ≡ true }
    ensures same { OnOk result (frame.new ≡ frame.old) }
    ensures swept { OnOk result (Swept frame.old.scene frame.old.atoms list.old.found.items list.new.found.items (lists list.old.rests.items) (lists list.new.rests.items)) }
    ensures lighter { OnOk result (IsLighter frame.old.scene frame.old.atoms (lists list.old.rests.items) (lists list.new.rests.items)) }
    ensures whole { IfOk result (λ whole. whole ≡ true → lists list.new.rests.items ≡ lists list.old.rests.items) }
    ensures left { IfOk result (λ whole. whole ≡ false → length (lists list.old.rests.items) < length (lists list.new.rests.items)) }
    ensures options { OnOk result (list.new.options.items ≡ list.old.options.items) }
    ensures why { IfErr result (λ e. e ≡ Refusal.Memory) }
{
    match frame.next_due() {
        Some(item) => sweep_item(alloc, frame, list, end, depth, &item),
        None => sweep_open(alloc, frame, list, end, depth),
    }
}

// Sweeps the options of an item that is due, one after another. Each tiling of the family has at least one of them, so
// nothing remains to be swept after the last option. The frame narrows itself first, if that pays for so many options.
#[cycle(sweep)]
fn sweep_item(
    alloc: Global,
    frame: &mut Frame<'_>,
    list: &mut Listing,
    end: usize,
    depth: u32,
    item: &Item,
) -> Result<bool, Refusal>
    requires begun { frame.old.given ≤ length frame.old.atoms }
    requires room { length frame.old.atoms < end }
    requires end { end ≤ frame.old.given + STEPS }
    requires once { distinct frame.old.scene.live ≡ true }
    requires due { is_due frame.old item.now ≡ true }
    ensures same { OnOk result (frame.new ≡ frame.old) }
    ensures swept { OnOk result (Swept frame.old.scene frame.old.atoms list.old.found.items list.new.found.items (lists list.old.rests.items) (lists list.new.rests.items)) }
    ensures lighter { OnOk result (IsLighter frame.old.scene frame.old.atoms (lists list.old.rests.items) (lists list.new.rests.items)) }
    ensures whole { IfOk result (λ whole. whole ≡ true → lists list.new.rests.items ≡ lists list.old.rests.items) }
    ensures left { IfOk result (λ whole. whole ≡ false → length (lists list.old.rests.items) < length (lists list.new.rests.items)) }
    ensures options { OnOk result (list.new.options.items ≡ list.old.options.items) }
    ensures why { IfErr result (λ e. e ≡ Refusal.Memory) }
{
    let from = list.options.len();
    list.options.extend_from_slice(frame.options(*item))?;
    if list.options.len() > from {
        frame.focus(alloc)?;
    }
    let whole = sweep_options(alloc, frame, list, end, depth, item, from);
    list.options.truncate(from);
    whole
}

#[cycle(sweep)]
fn sweep_options(
    alloc: Global,
    frame: &mut Frame<'_>,
    list: &mut Listing,
    end: usize,
    depth: u32,
    item: &Item,
    from: usize,
) -> Result<bool, Refusal>
    requires begun { frame.old.given ≤ length frame.old.atoms }
    requires room { length frame.old.atoms < end }
    requires end { end ≤ frame.old.given + STEPS }
    requires once { distinct frame.old.scene.live ≡ true }
    requires due { is_due frame.old item.now ≡ true }
    requires from { from ≤ length list.old.options.items }
    requires each_once { distinct (drop from list.old.options.items) ≡ true }
    requires members { (p : ℕ) → mem (drop from list.old.options.items) p ≡ (mem frame.old.scene.live p && is_option frame.old item.now p) }
    ensures same { OnOk result (frame.new ≡ frame.old) }
    ensures swept { OnOk result (Swept frame.old.scene frame.old.atoms list.old.found.items list.new.found.items (lists list.old.rests.items) (lists list.new.rests.items)) }
    ensures lighter { OnOk result (IsLighter frame.old.scene frame.old.atoms (lists list.old.rests.items) (lists list.new.rests.items)) }
    ensures whole { IfOk result (λ whole. whole ≡ true → lists list.new.rests.items ≡ lists list.old.rests.items) }
    ensures left { IfOk result (λ whole. whole ≡ false → length (lists list.old.rests.items) < length (lists list.new.rests.items)) }
    ensures options { OnOk result (list.new.options.items ≡ list.old.options.items) }
    ensures why { IfErr result (λ e. e ≡ Refusal.Memory) }
{
    let level = frame.level();
    for at in from..list.options.len() {
        let placement = list.options[at];
        let whole = sweep_arm(alloc, frame, list, end, depth, placement)?;
        if !whole {
            frame.backtrack_to(level);
            return Ok(false);
        }
        if at + 1 < list.options.len() {
            frame.leave(placement);
        }
    }
    frame.backtrack_to(level);
    Ok(true)
}

// No item is due, so a tiling may have or lack each open placement. Sweeps the tilings that have one of the open placements,
// leaves this placement out and goes on with another that is still open, until no placement is open. The frame narrows itself
// first, if that pays.
#[cycle(sweep)]
fn sweep_open(
    alloc: Global,
    frame: &mut Frame<'_>,
    list: &mut Listing,
    end: usize,
    depth: u32,
) -> Result<bool, Refusal>
    requires begun { frame.old.given ≤ length frame.old.atoms }
    requires room { length frame.old.atoms < end }
    requires end { end ≤ frame.old.given + STEPS }
    requires once { distinct frame.old.scene.live ≡ true }
    ensures same { OnOk result (frame.new ≡ frame.old) }
    ensures swept { OnOk result (Swept frame.old.scene frame.old.atoms list.old.found.items list.new.found.items (lists list.old.rests.items) (lists list.new.rests.items)) }
    ensures lighter { OnOk result (IsLighter frame.old.scene frame.old.atoms (lists list.old.rests.items) (lists list.new.rests.items)) }
    ensures whole { IfOk result (λ whole. whole ≡ true → lists list.new.rests.items ≡ lists list.old.rests.items) }
    ensures left { IfOk result (λ whole. whole ≡ false → length (lists list.old.rests.items) < length (lists list.new.rests.items)) }
    ensures options { OnOk result (list.new.options.items ≡ list.old.options.items) }
    ensures why { IfErr result (λ e. e ≡ Refusal.Memory) }
{
    frame.focus(alloc)?;
    let level = frame.level();
    while let Some(placement) = frame.first_open() {
        let whole = sweep_arm(alloc, frame, list, end, depth, placement)?;
        if !whole {
            frame.backtrack_to(level);
            return Ok(false);
        }
        frame.leave(placement);
    }
    push_found(alloc, frame, list)?;
    frame.backtrack_to(level);
    Ok(true)
}

// Takes the placement, unless it is known that no tiling of the family has it, and the frame would have room for one more step
// after taking it. Returns whether the placement was taken. If not, the frame stays as it was.
fn leads_on(frame: &mut Frame<'_>, end: usize, placement: u32) -> bool
    requires room { length frame.old.atoms < end }
    requires end { end ≤ frame.old.given + STEPS }
    ensures taken { result ≡ true → frame.new ≡ with_step frame.old (Has placement) }
    ensures same { result ≡ false → frame.new ≡ frame.old }
    ensures room { result ≡ false → length frame.old.atoms + 1 < end }
    ensures starved { result ≡ false → (i : ItemOf) × (arms_fit frame.old.scene (frame.old.atoms ++ Has placement ∷ []) i [] ≡ true) }
{
    if frame.level() + 1 >= end {
        frame.pick(placement);
        return true;
    }
    match frame.pick_unless_starved(placement) {
        None => true,
        Some(_) => false,
    }
}

// Sweeps the tilings that have the open placement. If this sweep ends early, the tilings without the placement are added as
// a rest too. If it is known that there is no tiling with the placement, the placement isn't taken. If the call isn't refused,
// the frame stays as it was.
#[cycle(sweep)]
fn sweep_arm(
    alloc: Global,
    frame: &mut Frame<'_>,
    list: &mut Listing,
    end: usize,
    depth: u32,
    placement: u32,
) -> Result<bool, Refusal>
    requires begun { frame.old.given ≤ length frame.old.atoms }
    requires room { length frame.old.atoms < end }
    requires end { end ≤ frame.old.given + STEPS }
    requires once { distinct frame.old.scene.live ≡ true }
    requires place { mem frame.old.scene.live placement ≡ true }
    requires open { is_open frame.old placement ≡ true }
    ensures same { OnOk result (frame.new ≡ frame.old) }
    ensures room { IfOk result (λ whole. whole ≡ true → length frame.old.atoms + 1 < end) }
    ensures more { IfOk result (λ whole. whole ≡ true → Partly frame.old.scene frame.old.atoms (frame.old.atoms ++ Lacks placement ∷ []) list.old.found.items list.new.found.items (lists list.old.rests.items) (lists list.new.rests.items)) }
    ensures swept { IfOk result (λ whole. whole ≡ false → Swept frame.old.scene frame.old.atoms list.old.found.items list.new.found.items (lists list.old.rests.items) (lists list.new.rests.items)) }
    ensures lighter { IfOk result (λ whole. whole ≡ false → IsLighter frame.old.scene frame.old.atoms (lists list.old.rests.items) (lists list.new.rests.items)) }
    ensures whole { IfOk result (λ whole. whole ≡ true → lists list.new.rests.items ≡ lists list.old.rests.items) }
    ensures left { IfOk result (λ whole. whole ≡ false → length (lists list.old.rests.items) < length (lists list.new.rests.items)) }
    ensures options { OnOk result (list.new.options.items ≡ list.old.options.items) }
    ensures why { IfErr result (λ e. e ≡ Refusal.Memory) }
{
    if !leads_on(frame, end, placement) {
        return Ok(true);
    }
    let whole = sweep_below(alloc, frame, list, end, depth)?;
    frame.back();
    if !whole {
        frame.leave(placement);
        push_rest(alloc, frame, list)?;
        frame.back();
    }
    Ok(whole)
}

// Sweeps the family of the frame's atoms, or adds it as a rest if a limit is reached.
#[cycle(sweep)]
fn sweep_below(
    alloc: Global,
    frame: &mut Frame<'_>,
    list: &mut Listing,
    end: usize,
    depth: u32,
) -> Result<bool, Refusal>
    requires begun { frame.old.given ≤ length frame.old.atoms }
    requires end { end ≤ frame.old.given + STEPS }
    requires once { distinct frame.old.scene.live ≡ true }
    ensures same { OnOk result (frame.new ≡ frame.old) }
    ensures room { IfOk result (λ whole. whole ≡ true → length frame.new.atoms < end) }
    ensures swept { OnOk result (Swept frame.old.scene frame.old.atoms list.old.found.items list.new.found.items (lists list.old.rests.items) (lists list.new.rests.items)) }
    ensures whole { IfOk result (λ whole. whole ≡ true → lists list.new.rests.items ≡ lists list.old.rests.items) }
    ensures left { IfOk result (λ whole. whole ≡ false → length (lists list.old.rests.items) < length (lists list.new.rests.items)) }
    ensures options { OnOk result (list.new.options.items ≡ list.old.options.items) }
    ensures why { IfErr result (λ e. e ≡ Refusal.Memory) }
{
    if depth == 0 || frame.level() >= end || list.found.len() > MAX_TILINGS {
        push_rest(alloc, frame, list)?;
        return Ok(false);
    }
    sweep(alloc, frame, list, end, depth - 1)
}
