//! What stays the same while a frame moves, and the first count of the members that have each item.
ghost use Rattle.std.specs.Prelude.{IfErr, IfOk, OnOk, length, nat_le, slice_index, vec_capacity, ℕ, ◌&&◌, ◌<◌, ◌^◌, ◌≡◌, ◌≤◌};
ghost use Rattle.std.specs.List.{list_all, list_any};
ghost use Rattle.poly_tiling.specs.Puzzle.{same_item};
ghost use Rattle.poly_atom.specs.Hopeless.{base};
ghost use Rattle.poly_frame.specs.Plain.{of_asked};
ghost use Rattle.poly_frame.specs.FrameItems.{item_at};
ghost use Rattle.poly_frame.specs.declared.frame.matrix.Matrix.{Matrix as MatrixOf};

use crate::frame::items::{PLACEMENT_ITEMS, note_items, raise};
use crate::frame::wanted::Wanted;
use poly_atom::Atom;
use poly_grid::Refusal;
use poly_tiling::{Bound, Item, View, find_bound};
use std::alloc::Global;

/// What the design and the given atoms say about the items of the view.
#[derive(Drop)]
pub(crate) struct Table {
    /// For each item: once a member that has it is added, and at least this many members have it, all other placements that
    /// have it are closed. 0 for a cell, since the first member that has the cell closes them.
    pub(crate) limits: Vec<u8>,
    /// For each item, how many members may have it.
    pub(crate) mosts: Vec<u8>,
    /// For each item, how many members with the item are asked for by the design and the atoms.
    pub(crate) leasts: Vec<u8>,
    /// Whether the atoms ask only for items of the view.
    pub(crate) listed: bool,
    /// From this index on, `leasts` is 0.
    pub(crate) leasts_end: usize,
    /// Whether no entry of `leasts` is over 1. If this is wrong, only the choice of a due item is worse.
    pub(crate) single: bool,
    /// Whether it is known that no entry of `limits` is over 1.
    pub(crate) alone: bool,
}

impl Table {
    /// A table without items. Takes no memory.
    pub(crate) fn none(alloc: Global) -> Table {
        Table {
            limits: Vec::new(alloc),
            mosts: Vec::new(alloc),
            leasts: Vec::new(alloc),
            listed: false,
            leasts_end: 0,
            single: false,
            alone: false,
        }
    }
}

ghost use Rattle.poly_frame.specs.Matrices.{IsMatrix};
ghost use Rattle.poly_frame.specs.FrameTable.{LeastsShow, HasOpen, HaveShows, TableShows, MostsShow, limit_at};
ghost use Rattle.poly_frame.specs.declared.frame.items.TheConstants.{PLACEMENT_ITEMS};

/// How many of the members have each item. `noted` is overwritten.
pub(crate) fn counts_of(
    alloc: Global,
    view: &View,
    members: &[u32],
    cells: &[usize],
    noted: &mut Vec<usize>,
) -> Result<Vec<u64>, Refusal>
    requires few { length members.now < 2 ^ 63 }
    ensures len { IfOk result (λ h. length h.items ≡ length view.now.bounds) }
    ensures value { IfOk result (λ h. HaveShows view.now members.now h.items) }
    ensures why { IfErr result (λ e. e ≡ Refusal.Memory) }
{
    noted.reserve(PLACEMENT_ITEMS)?;
    let mut have = vec![in alloc; 0u64; view.items().len()]?;
    for p in members {
        noted.clear();
        note_items(view, cells, 0, *p, noted);
        raise(&mut have, noted);
    }
    Ok(have)
}

fn limit(item: &Item, most: u8) -> u8
    ensures { result ≡ limit_at item.now most }
{
    match item {
        Item::Cell(_) => 0,
        Item::Piece(_) => most,
    }
}

fn limits_of(alloc: Global, bounds: &[Bound], mosts: &[u8]) -> Result<Vec<u8>, Refusal>
    requires { length mosts.now ≡ length bounds.now }
    ensures len { IfOk result (λ l. length l.items ≡ length bounds.now) }
    ensures value { IfOk result (λ l. (b : ℕ) → b < length bounds.now → slice_index l.items b ≡ limit_at (item_at bounds.now b) (slice_index mosts.now b)) }
    ensures why { IfErr result (λ e. e ≡ Refusal.Memory) }
{
    let mut limits = Vec::with_capacity(alloc, bounds.len())?;
    for b in 0..bounds.len() {
        limits.push_reserved(limit(&bounds[b].item, mosts[b]));
    }
    Ok(limits)
}

// Whether the atoms ask only for items of the view.
fn all_listed(view: &View, atoms: &[Atom]) -> bool
    ensures { result ≡ list_all (of_asked (λ i. list_any (λ b. same_item b.item i) view.now.bounds)) atoms.now }
{
    for atom in atoms {
        if let Atom::AtLeast(item, _) = atom {
            if find_bound(view.items(), item).is_none() {
                return false;
            }
        }
    }
    true
}

// The index after the last item that is asked for; 0 if none is.
fn end_of(leasts: &[u8]) -> usize
    ensures { (b : ℕ) → result ≤ b → b < length leasts.now → slice_index leasts.now b ≡ 0 }
{
    let mut end = leasts.len();
    while end > 0 {
        let n = leasts[end - 1];
        if n > 0 {
            return end;
        }
        end -= 1;
    }
    0
}

// Whether no entry is over 1.
fn are_single(entries: &[u8]) -> bool
    ensures { result ≡ list_all (λ n. nat_le n 1) entries.now }
{
    for n in entries {
        if *n > 1 {
            return false;
        }
    }
    true
}

/// The table of the atoms, for any matrix with a column for each placement that is open at them.
pub(crate) fn table_of(
    alloc: Global,
    view: &View,
    atoms: &[Atom],
    wanted: Wanted,
) -> Result<Table, Refusal>
    requires few { length (base view.now atoms.now) < 2 ^ 63 }
    requires mosts_len { length wanted.mosts.items ≡ length view.now.bounds }
    requires mosts { MostsShow view.now atoms.now wanted.mosts.items }
    requires leasts_len { length wanted.leasts.items ≡ length view.now.bounds }
    requires leasts { LeastsShow view.now atoms.now wanted.leasts.items }
    ensures value { IfOk result (λ t. (m : MatrixOf) → IsMatrix view.now m → HasOpen view.now atoms.now m → TableShows view.now atoms.now m t) }
    ensures why { IfErr result (λ e. e ≡ Refusal.Memory) }
{
    let bounds = view.items();
    let limits = limits_of(alloc, bounds, &wanted.mosts)?;
    let Wanted { mosts, leasts } = wanted;
    let listed = all_listed(view, atoms);
    let leasts_end = end_of(&leasts);
    let single = are_single(&leasts);
    let alone = are_single(&limits);
    Ok(Table {
        limits,
        mosts,
        leasts,
        listed,
        leasts_end,
        single,
        alone,
    })
}

/// Makes `copy` what `table` says, for its atoms and the `later` ones, which only take placements or leave them out. If one of
/// them asks for an item that isn't listed, the copy is not known to be listed.
pub(crate) fn table_again(
    view: &View,
    table: &Table,
    later: &[Atom],
    copy: &mut Table,
) -> Result<(), Refusal>
    ensures limits { OnOk result (copy.new.limits.items ≡ table.now.limits.items) }
    ensures mosts { OnOk result (copy.new.mosts.items ≡ table.now.mosts.items) }
    ensures leasts { OnOk result (copy.new.leasts.items ≡ table.now.leasts.items) }
    ensures listed { OnOk result (copy.new.listed ≡ (table.now.listed && list_all (of_asked (λ i. list_any (λ b. same_item b.item i) view.now.bounds)) later.now)) }
    ensures end { OnOk result (copy.new.leasts_end ≡ table.now.leasts_end) }
    ensures alone { OnOk result (copy.new.alone ≡ table.now.alone) }
    ensures why { IfErr result (λ e. e ≡ Refusal.Memory) }
{
    copy.limits.clear();
    copy.limits.extend_from_slice(&table.limits)?;
    copy.mosts.clear();
    copy.mosts.extend_from_slice(&table.mosts)?;
    copy.leasts.clear();
    copy.leasts.extend_from_slice(&table.leasts)?;
    copy.listed = table.listed && all_listed(view, later);
    copy.leasts_end = table.leasts_end;
    copy.single = table.single;
    copy.alone = table.alone;
    Ok(())
}
