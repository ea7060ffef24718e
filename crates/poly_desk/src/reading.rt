//! The calls that only read a floor: `next`, `take`, `browse` and `quiet`.
ghost use Rattle.std.specs.Prelude.{◌≡◌, ◌<◌, ◌⊎◌, [], IfErr, IfOk, IfSome, MatchOption, OnOk, length, map};
ghost use Rattle.std.specs.Arc.{arc_value};
ghost use Rattle.poly_grid.specs.declared.refusal.Refusal.TheVariants.{Busy, Memory};
ghost use Rattle.poly_tiling.specs.Shows.{names};
ghost use Rattle.poly_book.specs.AllTilings.{IsQuietOf};
ghost use Rattle.poly_book.specs.Jobs.{IsMissing, IsTaken};
ghost use Rattle.poly_tasks.specs.Nexts.{IsLeastFrom, NoneFrom};
ghost use Rattle.poly_browse.specs.Browsing.{IsAnswer};
ghost use Rattle.poly_desk.specs.Calls.{HasNoted, IsBehind, IsRefused};
ghost use Rattle.poly_desk.specs.Floors.{IsViewAt};

use crate::call::note_numbers;
use crate::floor::Floor;
use crate::opening::Opening;
use crate::pass::Pass;
use poly_book::{Job, Quiet, Which};
use poly_browse::{Answer, Query, browse};
use poly_grid::Refusal;
use std::alloc::Global;
use std::sync::ledger::Ledger;

impl<C: Ledger, K: Ledger, O: Opening> Floor<C, K, O> {
    /// Returns the least number of a pending task that is at least `from`, or `None` if there is none. Fails only with
    /// `Unsettled`, if the book's edition is below the one that the pass has noted. Never allocates.
    pub fn next(&self, pass: &mut Pass<C, K, O>, from: u32) -> Result<Option<u32>, Refusal>
        ensures noted { OnOk result (HasNoted self.now.book self.now.book pass.old pass.new 0 0) }
        ensures ok { IfOk result (λ o. MatchOption o (NoneFrom from self.now.book.pending) (λ n. IsLeastFrom from self.now.book.pending n)) }
        ensures why { IfErr result (λ e. IsBehind self.now.book pass.old pass.new e) }
    {
        note_numbers(&self.book, pass)?;
        Ok(self.book.next(from))
    }

    /// Returns the newest pending task with its atoms, or the one with the given number; `None` only if there is no such task.
    /// A job of the opening edition has the opening view. Fails with `Unsettled` as `next` does, otherwise only with `Memory`.
    pub fn take(&self, pass: &mut Pass<C, K, O>, which: Which) -> Result<Option<Job>, Refusal>
        ensures noted { OnOk result (HasNoted self.now.book self.now.book pass.old pass.new 0 0) }
        ensures ok { IfOk result (λ o. MatchOption o (IsMissing self.now.book which) (λ j. IsTaken self.now.book which j)) }
        ensures view { IfOk result (λ o. IfSome o (λ j. IsViewAt O.steps O.view j.edition (arc_value j.view))) }
        ensures why { IfErr result (λ e. IsRefused self.now.book pass.old pass.new e (e ≡ Refusal.Memory)) }
    {
        note_numbers(&self.book, pass)?;
        self.book.take(which)
    }

    /// Returns the answer to the query about the listed tilings. Fails with `Unsettled` as `next` does, otherwise only with
    /// `Memory`.
    pub fn browse(
        &self,
        alloc: Global,
        pass: &mut Pass<C, K, O>,
        query: &Query,
    ) -> Result<Answer, Refusal>
        ensures noted { OnOk result (HasNoted self.now.book self.now.book pass.old pass.new 0 0) }
        ensures ok { IfOk result (λ a. IsAnswer self.now.book.design (map (names self.now.book.view) self.now.book.listed) (record { has = query.now.has.items; lacks = query.now.lacks.items; covers = query.now.covers.items }) a.count a.forced.items a.options.items) }
        ensures why { IfErr result (λ e. IsRefused self.now.book pass.old pass.new e (e ≡ Refusal.Memory)) }
    {
        note_numbers(&self.book, pass)?;
        browse(
            alloc,
            self.book.design(),
            self.book.catalogue().all(),
            self.book.view(),
            query,
        )
    }

    /// Returns all tilings of the book's design. Fails with `Unsettled` as `next` does, then with `Busy` if tasks are pending,
    /// and otherwise only with `Memory`.
    pub fn quiet(&self, pass: &mut Pass<C, K, O>) -> Result<Quiet, Refusal>
        ensures noted { OnOk result (HasNoted self.now.book self.now.book pass.old pass.new 0 0) }
        ensures ok { IfOk result (λ q. IsQuietOf self.now.book q) }
        ensures why { IfErr result (λ e. IsRefused self.now.book pass.old pass.new e (((e ≡ Refusal.Busy (length self.now.book.pending)) × (0 < length self.now.book.pending)) ⊎ ((e ≡ Refusal.Memory) × (self.now.book.pending ≡ [])))) }
    {
        note_numbers(&self.book, pass)?;
        self.book.quiet()
    }
}
