//! How many members may have each item, and how many are asked for.
ghost use Rattle.std.specs.Prelude.{true, IfErr, IfOk, length, map, slice_index, ℕ, ◌<◌, ◌≡◌};
ghost use Rattle.poly_tiling.specs.Names.{items_ascend};
ghost use Rattle.poly_frame.specs.Plain.{most_by, least_by};
ghost use Rattle.poly_frame.specs.FrameItems.{item_at};
ghost use Rattle.poly_frame.specs.FrameTable.{LeastsShow, MostsShow};

use crate::frame::items::{guess_item, index_of};
use poly_atom::Atom;
use poly_grid::Refusal;
use poly_tiling::{Bound, View};
use std::alloc::Global;

/// The bounds of each item of a view, narrowed by atoms.
#[derive(Drop)]
pub(crate) struct Wanted {
    /// How many members may have each item.
    pub(crate) mosts: Vec<u8>,
    /// How many members with each item are asked for.
    pub(crate) leasts: Vec<u8>,
}

// Lowers the most of the item of an `AtMost`; other atoms change nothing.
fn lower_most(bounds: &[Bound], cells: &[usize], atom: &Atom, mosts: &mut Vec<u8>)
    requires order { items_ascend bounds.now ≡ true }
    requires len { length mosts.old.items ≡ length bounds.now }
    ensures len { length mosts.new.items ≡ length bounds.now }
    ensures value { (b : ℕ) → b < length bounds.now → slice_index mosts.new.items b ≡ most_by atom.now (item_at bounds.now b) (slice_index mosts.old.items b) }
{
    if let Atom::AtMost(item, n) = atom {
        if let Some(b) = index_of(bounds, guess_item(cells, item), *item) {
            mosts[b] = (*n).min(mosts[b]);
        }
    }
}

// Raises the least of the item of an `AtLeast`; other atoms change nothing.
fn raise_least(bounds: &[Bound], cells: &[usize], atom: &Atom, leasts: &mut Vec<u8>)
    requires order { items_ascend bounds.now ≡ true }
    requires len { length leasts.old.items ≡ length bounds.now }
    ensures len { length leasts.new.items ≡ length bounds.now }
    ensures value { (b : ℕ) → b < length bounds.now → slice_index leasts.new.items b ≡ least_by atom.now (item_at bounds.now b) (slice_index leasts.old.items b) }
{
    if let Atom::AtLeast(item, n) = atom {
        if let Some(b) = index_of(bounds, guess_item(cells, item), *item) {
            leasts[b] = (*n).max(leasts[b]);
        }
    }
}

// The mosts and the leasts of the bounds.
fn mosts_and_leasts(alloc: Global, bounds: &[Bound]) -> Result<(Vec<u8>, Vec<u8>), Refusal>
    ensures mosts { IfOk result (λ r. r.0.items ≡ map (λ b. b.most) bounds.now) }
    ensures leasts { IfOk result (λ r. r.1.items ≡ map (λ b. b.least) bounds.now) }
    ensures why { IfErr result (λ e. e ≡ Refusal.Memory) }
{
    let mut mosts = Vec::with_capacity(alloc, bounds.len())?;
    let mut leasts = Vec::with_capacity(alloc, bounds.len())?;
    for b in bounds {
        mosts.push_reserved(b.most);
        leasts.push_reserved(b.least);
    }
    Ok((mosts, leasts))
}

/// What the view and the atoms say of each item. `cells` guesses the index of a cell.
pub(crate) fn wanted_of(
    alloc: Global,
    view: &View,
    atoms: &[Atom],
    cells: &[usize],
) -> Result<Wanted, Refusal>
    ensures mosts_len { IfOk result (λ w. length w.mosts.items ≡ length view.now.bounds) }
    ensures mosts { IfOk result (λ w. MostsShow view.now atoms.now w.mosts.items) }
    ensures leasts_len { IfOk result (λ w. length w.leasts.items ≡ length view.now.bounds) }
    ensures leasts { IfOk result (λ w. LeastsShow view.now atoms.now w.leasts.items) }
    ensures why { IfErr result (λ e. e ≡ Refusal.Memory) }
{
    let bounds = view.items();
    let (mut mosts, mut leasts) = mosts_and_leasts(alloc, bounds)?;
    let mut k = atoms.len();
    while k > 0 {
        k -= 1;
        lower_most(bounds, cells, &atoms[k], &mut mosts);
        raise_least(bounds, cells, &atoms[k], &mut leasts);
    }
    Ok(Wanted { mosts, leasts })
}
