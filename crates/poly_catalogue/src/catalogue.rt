//! The listed tilings of a design, and how an edit or a report changes them.
ghost use Rattle.std.specs.Prelude.{◌≡◌, ◌+◌, ◌++◌, ◌⊎◌, ◌↔◌, ◌<◌, ◌≤◌, [], Err, IfErr, IfOk, MatchOption, OnErr, OnOk, Some, filter, length, nat_le, not, slice_get, true};
ghost use Rattle.std.specs.List.{list_all};
ghost use Rattle.poly_tiling.specs.Puzzle.{is_tiling};
ghost use Rattle.poly_catalogue.specs.Catalogued.{HasFlags};
ghost use Rattle.poly_catalogue.specs.Covering.{AreCovering};
ghost use Rattle.poly_catalogue.specs.Listed.{AreOfEither, AreOnce, AreSame};

use crate::add::add;
use crate::covering::covering;
use crate::keep::keep;
use crate::leaving::leaving;
use crate::listing::Listing;
use crate::staying::count_staying;
use poly_grid::Refusal;
use poly_place::Delta;
use poly_tiling::{Item, MAX_TILINGS, Tiling, View};
use std::alloc::Global;
use std::marker::Model;

/// The listed tilings of a design, each once and at most 1,000,000, in no particular order.
#[derive(Drop)]
pub struct Catalogue {
    /// The allocator of all memory here.
    alloc: Global,
    /// The tilings, with their index.
    listing: Listing,
    /// A flag for each placement number of the tilings. Between calls the flags mean nothing.
    flags: Vec<bool>,
    /// A count for each listed tiling. Between calls the counts mean nothing.
    counts: Vec<u8>,
}

impl Model for Catalogue {
    ghost use Rattle.std.specs.Prelude.{List, length, ℕ, ◌≤◌};
    ghost use Rattle.poly_catalogue.specs.Catalogued.{IsCatalogue};

    ghost Value = { List (List ℕ) };

    ghost view = { λ c. c.listing };

    ghost invariant = { λ c. IsCatalogue c.listing (length c.flags.items) (length c.counts.items) };
}

impl Catalogue {
    /// A catalogue that lists nothing.
    pub fn new(alloc: Global) -> Catalogue
        ensures { result ≡ [] }
    {
        Catalogue {
            alloc,
            listing: Listing::new(alloc),
            flags: Vec::new(alloc),
            counts: Vec::new(alloc),
        }
    }

    /// How many tilings are listed.
    pub fn len(&self) -> usize
        ensures value { result ≡ length self.now }
        ensures few { length self.now ≤ MAX_TILINGS }
    {
        self.listing.len()
    }

    /// Whether no tiling is listed.
    pub fn is_empty(&self) -> bool
        ensures { result ≡ nat_le (length self.now) 0 }
    {
        self.listing.len() == 0
    }

    /// The tiling at an index of the list, or `None` past the end.
    pub fn get(&self, index: usize) -> Option<&Tiling>
        ensures { MatchOption result (length self.now ≤ index) (λ t. slice_get self.now index ≡ Some t.now) }
    {
        self.listing.all().get(index)
    }

    /// All listed tilings.
    pub fn all(&self) -> &[Tiling]
        ensures value { result.now ≡ self.now }
        ensures once { AreOnce self.now }
    {
        self.listing.all()
    }

    /// A mark for each listed tiling, in the order of the list: whether the tiling covers the item. Requires that all
    /// listed tilings are tilings of the view. Fails only with `Memory`.
    ///
    /// No index by item is kept: it would take more memory than the index by placement, and that one already leads to the
    /// tilings that have one of the item's placements.
    pub fn covering(&self, view: &View, item: Item) -> Result<Vec<bool>, Refusal>
        requires { list_all (is_tiling view.now) self.now ≡ true }
        ensures ok { IfOk result (λ marks. AreCovering view.now item self.now marks.items) }
        ensures why { IfErr result (λ e. e ≡ Refusal.Memory) }
    {
        covering(self.alloc, &self.listing, view, item)
    }

    /// Adds these tilings of the view to the list. Requires that none is given twice or is listed already.
    ///
    /// Fails with `CatalogueFull` exactly if more than 1,000,000 would be listed, and otherwise only with `Memory`. If it
    /// fails, the list stays as it was.
    pub fn list_all(&mut self, view: &View, tilings: Vec<Tiling>) -> Result<(), Refusal>
        requires tilings { list_all (is_tiling view.now) tilings.items ≡ true }
        requires once { AreOnce (self.old ++ tilings.items) }
        ensures ok { OnOk result (self.new ≡ self.old ++ tilings.items) }
        ensures err { OnErr result (self.new ≡ self.old) }
        ensures full { (result ≡ Err Refusal.CatalogueFull) ↔ (MAX_TILINGS < length self.old + length tilings.items) }
        ensures why { IfErr result (λ e. (e ≡ Refusal.CatalogueFull) ⊎ (e ≡ Refusal.Memory)) }
    {
        if tilings.len() > MAX_TILINGS - self.listing.len() {
            return Err(Refusal::CatalogueFull);
        }
        add(
            &mut self.listing,
            &mut self.flags,
            &mut self.counts,
            view,
            tilings,
        )?;
        Ok(())
    }

    /// Keeps exactly the listed tilings that are tilings of the view; their order may change. Never allocates. Requires an
    /// earlier view such that each listed tiling is a tiling of it or of this view, and such that the differences lead from
    /// the earlier view to this one.
    pub fn keep_only(&mut self, view: &View, delta: &Delta)
        requires { AreOfEither view.now delta.now self.old }
        ensures { AreSame self.new (filter (is_tiling view.now) self.old) }
    {
        keep(
            &mut self.listing,
            &mut self.counts,
            self.flags.len(),
            view,
            delta,
        );
    }

    /// Copies of the tilings that `keep_only` would take away, in the order of the list. Requires what `keep_only` requires.
    /// Fails only with `Memory`.
    pub fn leaving(&self, view: &View, delta: &Delta) -> Result<Vec<Tiling>, Refusal>
        requires { AreOfEither view.now delta.now self.now }
        ensures ok { IfOk result (λ list. list.items ≡ filter (λ T. not (is_tiling view.now T)) self.now) }
        ensures why { IfErr result (λ e. e ≡ Refusal.Memory) }
    {
        leaving(self.alloc, &self.listing, self.flags.len(), view, delta)
    }

    /// Whether `exchange` wouldn't be refused for the limit if it had this many tilings to add: at most 1,000,000 would be listed
    /// at the end. Requires what `keep_only` requires. Never allocates.
    pub fn has_room(&mut self, view: &View, delta: &Delta, more: usize) -> bool
        requires { AreOfEither view.now delta.now self.old }
        ensures stays { self.new ≡ self.old }
        ensures room { result ≡ nat_le (length (filter (is_tiling view.now) self.old) + more) MAX_TILINGS }
    {
        has_room(&self.listing, &mut self.flags, view, delta, more)
    }

    /// Does what `keep_only` and then `list_all` do, or changes nothing. Requires what both require.
    ///
    /// Fails with `CatalogueFull` exactly if more than 1,000,000 would be listed at the end, and otherwise only with `Memory`.
    /// If it fails, the list stays as it was.
    pub fn exchange(
        &mut self,
        view: &View,
        delta: &Delta,
        tilings: Vec<Tiling>,
    ) -> Result<(), Refusal>
        requires from { AreOfEither view.now delta.now self.old }
        requires tilings { list_all (is_tiling view.now) tilings.items ≡ true }
        requires once { AreOnce (self.old ++ tilings.items) }
        ensures ok { OnOk result (AreSame self.new (filter (is_tiling view.now) self.old ++ tilings.items)) }
        ensures err { OnErr result (self.new ≡ self.old) }
        ensures full { (result ≡ Err Refusal.CatalogueFull) ↔ (MAX_TILINGS < length (filter (is_tiling view.now) self.old) + length tilings.items) }
        ensures why { IfErr result (λ e. (e ≡ Refusal.CatalogueFull) ⊎ (e ≡ Refusal.Memory)) }
    {
        if !has_room(&self.listing, &mut self.flags, view, delta, tilings.len()) {
            return Err(Refusal::CatalogueFull);
        }
        add(
            &mut self.listing,
            &mut self.flags,
            &mut self.counts,
            view,
            tilings,
        )?;
        keep(
            &mut self.listing,
            &mut self.counts,
            self.flags.len(),
            view,
            delta,
        );
        Ok(())
    }
}

// Whether there is room for this many more once the tilings that leave are gone. Never allocates. Before the call, the flags
// may have any values.
fn has_room(
    listing: &Listing,
    flags: &mut Vec<bool>,
    view: &View,
    delta: &Delta,
    more: usize,
) -> bool
    requires from { AreOfEither view.now delta.now listing.now }
    requires few { length listing.now ≤ MAX_TILINGS }
    requires flags { HasFlags listing.now (length flags.old.items) }
    ensures room { result ≡ nat_le (length (filter (is_tiling view.now) listing.now) + more) MAX_TILINGS }
    ensures long { length flags.new.items ≡ length flags.old.items }
{
    if more <= MAX_TILINGS - listing.len() {
        return true;
    }
    let count = count_staying(listing, flags, view, delta);
    more <= MAX_TILINGS - count
}
