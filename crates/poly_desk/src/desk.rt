//! The desk: a floor under one lock. Each call but `begin`, `look` and `settle_up` locks, runs the floor's call of the same
//! name, unlocks, and fails as the floor's call does.
//!
//! A contract can't name what a lock protects. So the contracts of the calls that lock say that there is a book for which the
//! answer is right: what holds of every book holds of it, it began with the desk's opening, and it has the numbers that the pass
//! has noted. They also say what the pass has noted and counted.
ghost use Rattle.std.specs.Prelude.{◌≡◌, ◌≤◌, ◌<◌, ◌∷◌, ◌⊎◌, [], IfErr, IfOk, IfSome, MatchOption, OnOk, length, map};
ghost use Rattle.std.specs.Arc.{arc_value};
ghost use Rattle.poly_grid.specs.declared.refusal.Refusal.TheVariants.{Busy, Memory, Spent};
ghost use Rattle.poly_tiling.specs.Shows.{names};
ghost use Rattle.poly_report.specs.Shapes.{plan_of};
ghost use Rattle.poly_board.specs.Posts.{IsRising, NoneFalls, StartsWith, last_of};
ghost use Rattle.poly_book.specs.declared.step.Kind.TheVariants as kind;
ghost use Rattle.poly_book.specs.AllTilings.{IsQuietOf};
ghost use Rattle.poly_book.specs.Jobs.{IsMissing, IsTaken};
ghost use Rattle.poly_tasks.specs.Nexts.{IsLeastFrom, NoneFrom};
ghost use Rattle.poly_book.specs.Refused.{IsNotApplied, IsNotEdited, IsNotRedone, IsNotUndone};
ghost use Rattle.poly_book.specs.Reports.{IsApplied};
ghost use Rattle.poly_book.specs.Steps.{IsEdited, IsRedone, IsUndone};
ghost use Rattle.poly_browse.specs.Browsing.{IsAnswer};
ghost use Rattle.poly_desk.specs.Books.{HasBook, HasBooks};
ghost use Rattle.poly_desk.specs.Changes.{IsChanged, cut_count};
ghost use Rattle.poly_desk.specs.Floors.{IsViewAt};
ghost use Rattle.poly_desk.specs.Noted.{held, numbers_of};
ghost use Rattle.poly_desk.specs.Seen.{IsAskedFor, IsLaterOf, IsMade, IsRefusedAtDesk, IsUnsettled, Later};
ghost use Rattle.poly_desk.specs.declared.ledgers.TheConstants.{PARTS};

use crate::floor::{Floor, NotBegun};
use crate::opening::Opening;
use crate::pass::Pass;
use crate::receipt::Receipt;
use crate::waiting::{self, OFTEN, SELDOM};
use poly_board::Posted;
use poly_book::{Applied, Book, Found, Job, Quiet, Remains, Which};
use poly_browse::{Answer, Query};
use poly_design::Edit;
use poly_grid::Refusal;
use poly_report::{Report, Tree};
use std::alloc::Global;
use std::mem;
use std::sync::ledger::{Blank, Ledger};
use std::sync::{Mutex, Wait};

/// A floor under one lock.
#[derive(Drop)]
pub struct Desk<C: Ledger, K: Ledger, O: Opening> {
    /// The floor and its lock.
    pub(crate) floor: Mutex<Floor<C, K, O>>,
}

/// A desk that wasn't settled up, with everything that the call was given.
#[derive(Drop)]
pub struct NotSettled<C: Ledger, K: Ledger, O: Opening> {
    /// The desk, with the book as it was.
    pub desk: Desk<C, K, O>,
    /// The passes, in the order in which they were given.
    pub passes: Vec<Pass<C, K, O>>,
    /// The receipts, in the order in which they were given.
    pub receipts: Vec<Vec<Receipt>>,
    /// Why the desk wasn't settled up: `Unsettled`, with the numbers that [`Desk::settle_up`] names.
    pub why: Refusal,
}

impl<C: Ledger, K: Ledger, O: Opening> Desk<C, K, O> {
    /// Returns a desk with the book, and a first pass, which has noted the book's numbers. The book must have what the
    /// opening `O` names. The blank ledgers must be those that `C` and `K` name, each with [`PARTS`](crate::PARTS) parts.
    /// Fails only when out of memory, and then hands the book back.
    pub fn begin(
        alloc: Global,
        changes: Blank,
        cuts: Blank,
        book: Book,
    ) -> Result<(Desk<C, K, O>, Pass<C, K, O>), NotBegun>
        requires changes { (changes.name ≡ C.name) × (changes.parts ≡ C.parts) × (changes.parts ≡ PARTS) }
        requires cuts { (cuts.name ≡ K.name) × (cuts.parts ≡ K.parts) × (cuts.parts ≡ PARTS) }
        requires design { book.opened ≡ O.design }
        requires view { book.view ≡ O.view }
        requires steps { book.steps ≡ O.steps }
        requires endings { cut_count book.endings ≡ O.cuts }
        ensures pass { IfOk result (λ r. r.1 ≡ held (numbers_of book) 0 0 (numbers_of book ∷ [])) }
        ensures stays { IfErr result (λ n. n.book ≡ book) }
        ensures why { IfErr result (λ n. n.why ≡ Refusal.Memory) }
    {
        match Floor::begin(alloc, changes, cuts, book) {
            Ok((floor, pass)) => {
                let desk = Desk {
                    floor: Mutex::new(floor),
                };
                Ok((desk, pass))
            }
            Err(not_begun) => Err(not_begun),
        }
    }

    /// Runs [`Floor::pass`] under the lock. Returns a further pass, which has noted the same numbers as the given one has
    /// after the call.
    #[tactic(auto, using(crate::proofs::Passes::noted_later, crate::proofs::Passes::pass_refused))]
    pub fn pass<R: Wait>(
        &self,
        rt: &R,
        alloc: Global,
        pass: &mut Pass<C, K, O>,
    ) -> Result<Pass<C, K, O>, Refusal>
        ensures later { OnOk result (Later pass.old pass.new 0 0) }
        ensures ok { IfOk result (λ p. p ≡ held pass.new.noted 0 0 pass.new.posts) }
        ensures why { IfErr result (λ e. IsRefusedAtDesk O.design O.steps O.cuts pass.old pass.new (λ b. (e ≡ Refusal.Spent) ⊎ (e ≡ Refusal.Memory)) e) }
    {
        let mut floor = self.floor.lock(rt);
        floor.whole();
        match floor.pass(alloc, pass) {
            Ok(further) => Ok(further),
            Err(refusal) => Err(refusal),
        }
    }

    /// Runs [`Floor::edit`] under the lock. Returns the receipt of the change.
    #[tactic(auto, using(crate::proofs::Passes::edited_later, crate::proofs::Passes::edited_made, crate::proofs::Passes::edited_asked, crate::proofs::Passes::edited_books, crate::proofs::Passes::edit_refused))]
    pub fn edit<R: Wait>(
        &self,
        rt: &R,
        pass: &mut Pass<C, K, O>,
        edit: Edit,
    ) -> Result<Receipt, Refusal>
        ensures later { OnOk result (Later pass.old pass.new 1 0) }
        ensures made { IfOk result (λ r. IsMade kind.Edit pass.old pass.new r) }
        ensures asked { IfOk result (λ r. IsAskedFor edit r) }
        ensures done { IfOk result (λ r. HasBooks O.design O.steps O.cuts pass.new (λ s t. IsChanged (λ done. IsEdited edit s t done) r)) }
        ensures why { IfErr result (λ e. IsRefusedAtDesk O.design O.steps O.cuts pass.old pass.new (λ b. IsNotEdited edit b e) e) }
    {
        let mut floor = self.floor.lock(rt);
        floor.whole();
        match floor.edit(pass, edit) {
            Ok(receipt) => {
                floor.whole();
                Ok(receipt)
            }
            Err(refusal) => Err(refusal),
        }
    }

    /// Runs [`Floor::undo`] under the lock. Returns the receipt of the change.
    #[tactic(auto, using(crate::proofs::Passes::undone_later, crate::proofs::Passes::undone_made, crate::proofs::Passes::undone_books, crate::proofs::Passes::undo_refused))]
    pub fn undo<R: Wait>(&self, rt: &R, pass: &mut Pass<C, K, O>) -> Result<Receipt, Refusal>
        ensures later { OnOk result (Later pass.old pass.new 1 0) }
        ensures made { IfOk result (λ r. IsMade kind.Undo pass.old pass.new r) }
        ensures done { IfOk result (λ r. HasBooks O.design O.steps O.cuts pass.new (λ s t. IsChanged (λ done. IsUndone s t done) r)) }
        ensures why { IfErr result (λ e. IsRefusedAtDesk O.design O.steps O.cuts pass.old pass.new (λ b. IsNotUndone b e ⊎ (e ≡ Refusal.Memory)) e) }
    {
        let mut floor = self.floor.lock(rt);
        floor.whole();
        match floor.undo(pass) {
            Ok(receipt) => {
                floor.whole();
                Ok(receipt)
            }
            Err(refusal) => Err(refusal),
        }
    }

    /// Runs [`Floor::redo`] under the lock. Returns the receipt of the change.
    #[tactic(auto, using(crate::proofs::Passes::redone_later, crate::proofs::Passes::redone_made, crate::proofs::Passes::redone_books, crate::proofs::Passes::redo_refused))]
    pub fn redo<R: Wait>(&self, rt: &R, pass: &mut Pass<C, K, O>) -> Result<Receipt, Refusal>
        ensures later { OnOk result (Later pass.old pass.new 1 0) }
        ensures made { IfOk result (λ r. IsMade kind.Redo pass.old pass.new r) }
        ensures done { IfOk result (λ r. HasBooks O.design O.steps O.cuts pass.new (λ s t. IsChanged (λ done. IsRedone s t done) r)) }
        ensures why { IfErr result (λ e. IsRefusedAtDesk O.design O.steps O.cuts pass.old pass.new (λ b. IsNotRedone b e ⊎ (e ≡ Refusal.Memory)) e) }
    {
        let mut floor = self.floor.lock(rt);
        floor.whole();
        match floor.redo(pass) {
            Ok(receipt) => {
                floor.whole();
                Ok(receipt)
            }
            Err(refusal) => Err(refusal),
        }
    }

    /// Runs [`Floor::hand_in`] under the lock. Returns what the report changed, and the receipt of its cut.
    #[tactic(auto, using(crate::proofs::Passes::applied_later, crate::proofs::Passes::applied_books, crate::proofs::Passes::report_refused))]
    pub fn hand_in<R: Wait>(
        &self,
        rt: &R,
        pass: &mut Pass<C, K, O>,
        report: Report,
    ) -> Result<(Applied, Receipt), Refusal>
        ensures later { OnOk result (Later pass.old pass.new 0 1) }
        ensures receipt { IfOk result (λ r. r.1 ≡ Receipt.Cut r.0.place report.task) }
        ensures done { IfOk result (λ r. HasBooks O.design O.steps O.cuts pass.new (λ s t. IsApplied report.task report.edition (plan_of report.tree) s t r.0)) }
        ensures why { IfErr result (λ e. IsRefusedAtDesk O.design O.steps O.cuts pass.old pass.new (λ b. IsNotApplied report.task (plan_of report.tree) b e) e) }
    {
        let mut floor = waiting::lock(rt, &self.floor, SELDOM);
        floor.whole();
        match floor.hand_in(pass, report) {
            Ok(both) => {
                floor.whole();
                Ok(both)
            }
            Err(refusal) => Err(refusal),
        }
    }

    /// Runs [`Floor::hand_in_found`] under the lock. Returns what the report changed, and the receipt of its cut.
    #[tactic(auto, using(crate::proofs::Passes::applied_later, crate::proofs::Passes::applied_books, crate::proofs::Passes::report_refused))]
    pub fn hand_in_found<R: Wait>(
        &self,
        rt: &R,
        pass: &mut Pass<C, K, O>,
        found: Found,
    ) -> Result<(Applied, Receipt), Refusal>
        requires searched { IsViewAt O.steps O.view found.report.edition (arc_value found.view) }
        ensures later { OnOk result (Later pass.old pass.new 0 1) }
        ensures receipt { IfOk result (λ r. r.1 ≡ Receipt.Cut r.0.place found.report.task) }
        ensures done { IfOk result (λ r. HasBooks O.design O.steps O.cuts pass.new (λ s t. IsApplied found.report.task found.report.edition (plan_of found.report.tree) s t r.0)) }
        ensures why { IfErr result (λ e. IsRefusedAtDesk O.design O.steps O.cuts pass.old pass.new (λ b. IsNotApplied found.report.task (plan_of found.report.tree) b e) e) }
    {
        let mut floor = waiting::lock(rt, &self.floor, SELDOM);
        floor.whole();
        match floor.hand_in_found(pass, found) {
            Ok((applied, receipt, remains)) => {
                floor.whole();
                // Freeing a large report takes long, so the desk is unlocked first.
                drop(floor);
                drop_searched(remains);
                Ok((applied, receipt))
            }
            Err(refusal) => Err(refusal),
        }
    }

    /// Runs [`Floor::next`] under the lock. Returns the least number of a pending task that is at least `from`, or `None` if
    /// there is none. Refused only with `Unsettled`. Never allocates.
    #[tactic(auto, using(crate::proofs::Passes::noted_later, crate::proofs::Passes::next_book, crate::proofs::Passes::behind_unsettled))]
    pub fn next<R: Wait>(
        &self,
        rt: &R,
        pass: &mut Pass<C, K, O>,
        from: u32,
    ) -> Result<Option<u32>, Refusal>
        ensures later { OnOk result (Later pass.old pass.new 0 0) }
        ensures answer { IfOk result (λ o. HasBook O.design O.steps O.cuts pass.new (λ b. MatchOption o (NoneFrom from b.pending) (λ n. IsLeastFrom from b.pending n))) }
        ensures from { IfOk result (λ o. IfSome o (λ n. from ≤ n)) }
        ensures why { IfErr result (λ e. IsUnsettled pass.old pass.new e) }
    {
        let floor = self.floor.lock(rt);
        floor.whole();
        match floor.next(pass, from) {
            Ok(task) => Ok(task),
            Err(refusal) => Err(refusal),
        }
    }

    /// Runs [`Floor::take`] under the lock. Returns the newest pending task, or the one with the given number, as a job;
    /// `None` only if there is no such task. The job's edition isn't below the one that the pass had noted. A job of the
    /// opening edition has the opening view.
    #[tactic(auto, using(crate::proofs::Passes::noted_later, crate::proofs::Passes::taken_later, crate::proofs::Passes::taken_book, crate::proofs::Passes::memory_refused))]
    pub fn take<R: Wait>(
        &self,
        rt: &R,
        pass: &mut Pass<C, K, O>,
        which: Which,
    ) -> Result<Option<Job>, Refusal>
        ensures later { OnOk result (Later pass.old pass.new 0 0) }
        ensures edition { IfOk result (λ o. IfSome o (λ j. pass.old.noted.edition ≤ j.edition)) }
        ensures view { IfOk result (λ o. IfSome o (λ j. IsViewAt O.steps O.view j.edition (arc_value j.view))) }
        ensures answer { IfOk result (λ o. HasBook O.design O.steps O.cuts pass.new (λ b. MatchOption o (IsMissing b which) (λ j. IsTaken b which j))) }
        ensures why { IfErr result (λ e. IsRefusedAtDesk O.design O.steps O.cuts pass.old pass.new (λ b. e ≡ Refusal.Memory) e) }
    {
        let floor = waiting::lock(rt, &self.floor, OFTEN);
        floor.whole();
        match floor.take(pass, which) {
            Ok(taken) => Ok(taken),
            Err(refusal) => Err(refusal),
        }
    }

    /// Runs [`Floor::browse`] under the lock. Returns the answer to the query about the tilings that are listed at that
    /// moment.
    #[tactic(auto, using(crate::proofs::Passes::noted_later, crate::proofs::Passes::answer_book, crate::proofs::Passes::memory_refused))]
    pub fn browse<R: Wait>(
        &self,
        rt: &R,
        alloc: Global,
        pass: &mut Pass<C, K, O>,
        query: &Query,
    ) -> Result<Answer, Refusal>
        ensures later { OnOk result (Later pass.old pass.new 0 0) }
        ensures answer { IfOk result (λ a. HasBook O.design O.steps O.cuts pass.new (λ b. IsAnswer b.design (map (names b.view) b.listed) (record { has = query.now.has.items; lacks = query.now.lacks.items; covers = query.now.covers.items }) a.count a.forced.items a.options.items)) }
        ensures why { IfErr result (λ e. IsRefusedAtDesk O.design O.steps O.cuts pass.old pass.new (λ b. e ≡ Refusal.Memory) e) }
    {
        let floor = self.floor.lock(rt);
        floor.whole();
        match floor.browse(alloc, pass, query) {
            Ok(answer) => Ok(answer),
            Err(refusal) => Err(refusal),
        }
    }

    /// Runs [`Floor::quiet`] under the lock. Returns all tilings of the design, with the edition, which isn't below the one
    /// that the pass had noted.
    #[tactic(auto, using(crate::proofs::Passes::noted_later, crate::proofs::Passes::quiet_later, crate::proofs::Passes::quiet_book, crate::proofs::Passes::quiet_refused))]
    pub fn quiet<R: Wait>(&self, rt: &R, pass: &mut Pass<C, K, O>) -> Result<Quiet, Refusal>
        ensures later { OnOk result (Later pass.old pass.new 0 0) }
        ensures edition { IfOk result (λ q. pass.old.noted.edition ≤ q.edition) }
        ensures answer { IfOk result (λ q. HasBook O.design O.steps O.cuts pass.new (λ b. IsQuietOf b q)) }
        ensures why { IfErr result (λ e. IsRefusedAtDesk O.design O.steps O.cuts pass.old pass.new (λ b. ((e ≡ Refusal.Busy (length b.pending)) × (0 < length b.pending)) ⊎ ((e ≡ Refusal.Memory) × (b.pending ≡ []))) e) }
    {
        let floor = self.floor.lock(rt);
        floor.whole();
        match floor.quiet(pass) {
            Ok(quiet) => Ok(quiet),
            Err(refusal) => Err(refusal),
        }
    }

    /// Returns the last post, or what the pass has noted if that is later. The later of two posts is the one with the higher
    /// edition or, if the editions are equal, with more endings. Never allocates or waits.
    pub fn look(&self, pass: &mut Pass<C, K, O>) -> Posted
        ensures edition { pass.old.noted.edition ≤ result.edition }
        ensures value { IsLaterOf pass.old.noted (last_of pass.new.posts) result }
        ensures known { StartsWith pass.new.posts pass.old.posts }
        ensures rising { IsRising pass.new.posts }
        ensures after { NoneFalls (last_of pass.old.posts) (last_of pass.new.posts) }
        ensures stays { pass.new ≡ held pass.old.noted pass.old.changes pass.old.cuts pass.new.posts }
    {
        let given = pass.look.look();
        later(pass.noted, given)
    }
}

// Drops what is left of a report that a search made. Its tree has at most the depth of a report that fits. So it doesn't need the
// way in which reports are dropped, which uses a small stack whatever the depth is, but takes several times as many steps.
fn drop_searched(mut remains: Remains) {
    let tree = mem::replace(&mut remains.report.tree, Tree::Rest);
    drop(tree);
}

// The later of two posts: by edition and, if the editions are equal, by endings.
fn later(noted: Posted, given: Posted) -> Posted
    ensures value { IsLaterOf noted given result }
    ensures edition { noted.edition ≤ result.edition }
{
    if given.edition < noted.edition {
        noted
    } else if noted.edition < given.edition {
        given
    } else if given.endings < noted.endings {
        noted
    } else {
        given
    }
}
