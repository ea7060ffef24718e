//! The floor of a desk, and its events: the calls that change its book.
ghost use Rattle.std.specs.Prelude.{◌≡◌, ◌≤◌, ◌+◌, ◌⊎◌, ◌∷◌, [], IfErr, IfOk, OnErr, OnOk, true};
ghost use Rattle.poly_grid.specs.declared.refusal.Refusal.TheVariants.{Memory, Spent};
ghost use Rattle.poly_report.specs.Shapes.{plan_of};
ghost use Rattle.poly_book.specs.Refused.{IsNotApplied, IsNotEdited, IsNotRedone, IsNotUndone};
ghost use Rattle.poly_book.specs.Reports.{IsApplied};
ghost use Rattle.poly_book.specs.Steps.{IsEdited, IsRedone, IsUndone};
ghost use Rattle.poly_desk.specs.Books.{IsBookOf};
ghost use Rattle.poly_desk.specs.Calls.{HasNoted, IsRefused};
ghost use Rattle.poly_desk.specs.Changes.{IsChanged, cut_count};
ghost use Rattle.poly_desk.specs.Floors.{on_floor};
ghost use Rattle.poly_desk.specs.Noted.{held, numbers_of};
ghost use Rattle.poly_desk.specs.declared.ledgers.TheConstants.{PARTS};

use crate::call::{make_room, note_change, note_cut, note_numbers, numbers_of_book};
use crate::ledgers::{MOST_PASSES, Spare, Totals, open};
use crate::marks::Marks;
use crate::opening::Opening;
use crate::pass::Pass;
use crate::receipt::Receipt;
use poly_board::{Board, Poster};
use poly_book::{Applied, Book};
use poly_design::Edit;
use poly_grid::Refusal;
use poly_report::Report;
use std::alloc::Global;
use std::marker::{Model, PhantomData};
use std::sync::ledger::{Blank, Ledger};

/// What the lock of a desk protects: a book, and what the desk posts and counts. Contracts see the book and how
/// many passes were made.
#[derive(Drop)]
pub struct Floor<C: Ledger, K: Ledger, O: Opening> {
    /// The book.
    pub(crate) book: Book,
    /// The edition at which the desk began: the number of the opening steps.
    pub(crate) opened: u64,
    /// Posts the numbers of the book.
    pub(crate) poster: Poster,
    /// How many changes and cuts all passes have made.
    pub(crate) totals: Totals<C, K>,
    /// The parts of both ledgers that no pass has.
    pub(crate) spare: Spare<C, K>,
    /// The flags for settling up.
    pub(crate) marks: Marks,
    /// Names what the book had when the desk began.
    pub(crate) opening: PhantomData<O>,
}

impl<C: Ledger, K: Ledger, O: Opening> Model for Floor<C, K, O> {
    ghost use Rattle.std.specs.Prelude.{◌≡◌, ◌≤◌, length, vec_len};
    ghost use Rattle.poly_desk.specs.Floors.{Counts, IsViewAt, OnFloor, Shows, on_floor};
    ghost use Rattle.poly_desk.specs.declared.ledgers.TheConstants.{MOST_PASSES};

    ghost Value = { OnFloor };

    ghost view = { λ f. on_floor f.book f.spare.passes };

    ghost invariant = { λ f. Counts O.design O.steps O.cuts f.book f.totals.changes f.totals.cuts × Shows f.book f.poster.posts (vec_len f.marks.steps) (vec_len f.marks.endings) × (f.spare.passes ≤ MOST_PASSES) × (f.opened ≡ length O.steps) × IsViewAt O.steps O.view (length f.book.steps) f.book.view };
}

/// A book for which no floor or desk could be begun.
#[derive(Drop)]
pub struct NotBegun {
    /// The book as it was.
    pub book: Book,
    /// Why the floor or desk wasn't begun: always `Memory`.
    pub why: Refusal,
}

impl<C: Ledger, K: Ledger, O: Opening> Floor<C, K, O> {
    /// Returns a floor with the book, and a first pass, which has noted the book's numbers. The book must have what the
    /// opening `O` names. The blank ledgers must be those that `C` and `K` name, each with [`PARTS`](crate::PARTS) parts.
    /// Fails only when out of memory, and then hands the book back.
    pub fn begin(
        alloc: Global,
        changes: Blank,
        cuts: Blank,
        book: Book,
    ) -> Result<(Floor<C, K, O>, Pass<C, K, O>), NotBegun>
        requires changes { (changes.name ≡ C.name) × (changes.parts ≡ C.parts) × (changes.parts ≡ PARTS) }
        requires cuts { (cuts.name ≡ K.name) × (cuts.parts ≡ K.parts) × (cuts.parts ≡ PARTS) }
        requires design { book.opened ≡ O.design }
        requires view { book.view ≡ O.view }
        requires steps { book.steps ≡ O.steps }
        requires endings { cut_count book.endings ≡ O.cuts }
        ensures floor { IfOk result (λ r. r.0 ≡ on_floor book 1) }
        ensures pass { IfOk result (λ r. r.1 ≡ held (numbers_of book) 0 0 (numbers_of book ∷ [])) }
        ensures stays { IfErr result (λ n. n.book ≡ book) }
        ensures why { IfErr result (λ n. n.why ≡ Refusal.Memory) }
    {
        let numbers = numbers_of_book(&book);
        let opened = u64::from(numbers.edition);
        let steps = numbers.edition as usize;
        let endings = numbers.endings as usize;
        let marks = match Marks::new(alloc, steps, endings) {
            Ok(marks) => marks,
            Err(why) => return Err(NotBegun { book, why }),
        };
        let (poster, look) = match Board::new(alloc, numbers) {
            Ok(both) => both,
            Err(why) => return Err(NotBegun { book, why }),
        };
        let (totals, mut spare) = open(changes, cuts);
        let shares = spare.split_off();
        let floor = Floor {
            book,
            opened,
            poster,
            totals,
            spare,
            marks,
            opening: PhantomData,
        };
        let pass = Pass {
            noted: numbers,
            shares,
            look,
            opening: PhantomData,
        };
        Ok((floor, pass))
    }

    /// Always returns true: its contract states what holds of the book of every floor.
    pub(crate) fn whole(&self) -> bool
        ensures book { IsBookOf O.design O.steps O.cuts self.now.book }
        ensures yes { result ≡ true }
    {
        self.book.whole()
    }

    /// Returns a further pass, which has noted the same numbers as the given one has after the call.
    ///
    /// Like each other call of a floor that is given a pass, fails with `Unsettled` if the book's edition is below the one
    /// that the pass has noted. Otherwise fails with `Spent` if 10,000 passes were made already, even if some of them were
    /// dropped. Apart from these, fails only with `Memory`.
    pub fn pass(
        &mut self,
        alloc: Global,
        pass: &mut Pass<C, K, O>,
    ) -> Result<Pass<C, K, O>, Refusal>
        ensures noted { OnOk result (HasNoted self.old.book self.new.book pass.old pass.new 0 0) }
        ensures floor { OnOk result (self.new ≡ on_floor self.old.book (self.old.passes + 1)) }
        ensures ok { IfOk result (λ p. p ≡ held pass.new.noted 0 0 pass.new.posts) }
        ensures stays { OnErr result (self.new ≡ self.old) }
        ensures why { IfErr result (λ e. IsRefused self.old.book pass.old pass.new e (((e ≡ Refusal.Spent) × (self.old.passes ≡ MOST_PASSES)) ⊎ (e ≡ Refusal.Memory))) }
    {
        note_numbers(&self.book, pass)?;
        if self.spare.passes >= MOST_PASSES {
            return Err(Refusal::Spent);
        }
        let look = pass.look.split(alloc)?;
        let shares = self.spare.split_off();
        Ok(Pass {
            noted: pass.noted,
            shares,
            look,
            opening: PhantomData,
        })
    }

    /// Makes the change that the edit asks for, by the book's `edit`, and returns the receipt of the change. Fails with
    /// `Unsettled` as `pass` does, otherwise as the book's `edit` does. `Memory` may come in place of any refusal of the book.
    pub fn edit(&mut self, pass: &mut Pass<C, K, O>, edit: Edit) -> Result<Receipt, Refusal>
        ensures noted { OnOk result (HasNoted self.old.book self.new.book pass.old pass.new 1 0) }
        ensures ok { IfOk result (λ r. IsChanged (λ done. IsEdited edit self.old.book self.new.book done) r) }
        ensures passes { self.new.passes ≡ self.old.passes }
        ensures stays { OnErr result (self.new ≡ self.old) }
        ensures why { IfErr result (λ e. IsRefused self.old.book pass.old pass.new e (IsNotEdited edit self.old.book e)) }
    {
        note_numbers(&self.book, pass)?;
        make_room(&self.book, &mut self.marks)?;
        let done = self.book.edit(edit)?;
        Ok(note_change(&self.book, &mut self.poster, &mut self.totals, pass, done))
    }

    /// Undoes the last change that can be undone, by the book's `undo`, and returns the receipt. Fails with `Unsettled` as
    /// `pass` does, otherwise as the book's `undo` does. `Memory` may come in place of any refusal of the book.
    pub fn undo(&mut self, pass: &mut Pass<C, K, O>) -> Result<Receipt, Refusal>
        ensures noted { OnOk result (HasNoted self.old.book self.new.book pass.old pass.new 1 0) }
        ensures ok { IfOk result (λ r. IsChanged (λ done. IsUndone self.old.book self.new.book done) r) }
        ensures passes { self.new.passes ≡ self.old.passes }
        ensures stays { OnErr result (self.new ≡ self.old) }
        ensures why { IfErr result (λ e. IsRefused self.old.book pass.old pass.new e (IsNotUndone self.old.book e ⊎ (e ≡ Refusal.Memory))) }
    {
        note_numbers(&self.book, pass)?;
        make_room(&self.book, &mut self.marks)?;
        let done = self.book.undo()?;
        Ok(note_change(&self.book, &mut self.poster, &mut self.totals, pass, done))
    }

    /// Redoes the change that was undone last, by the book's `redo`, and returns the receipt. Fails with `Unsettled` as `pass`
    /// does, otherwise as the book's `redo` does. `Memory` may come in place of any refusal of the book.
    pub fn redo(&mut self, pass: &mut Pass<C, K, O>) -> Result<Receipt, Refusal>
        ensures noted { OnOk result (HasNoted self.old.book self.new.book pass.old pass.new 1 0) }
        ensures ok { IfOk result (λ r. IsChanged (λ done. IsRedone self.old.book self.new.book done) r) }
        ensures passes { self.new.passes ≡ self.old.passes }
        ensures stays { OnErr result (self.new ≡ self.old) }
        ensures why { IfErr result (λ e. IsRefused self.old.book pass.old pass.new e (IsNotRedone self.old.book e ⊎ (e ≡ Refusal.Memory))) }
    {
        note_numbers(&self.book, pass)?;
        make_room(&self.book, &mut self.marks)?;
        let done = self.book.redo()?;
        Ok(note_change(&self.book, &mut self.poster, &mut self.totals, pass, done))
    }

    /// Applies the report, by the book's `hand_in`, and returns what the report changed, with the receipt of its cut. Fails
    /// with `Unsettled` as `pass` does, otherwise as the book's `hand_in` does. `Memory` may come in place of any refusal of
    /// the book.
    pub fn hand_in(
        &mut self,
        pass: &mut Pass<C, K, O>,
        report: Report,
    ) -> Result<(Applied, Receipt), Refusal>
        ensures noted { OnOk result (HasNoted self.old.book self.new.book pass.old pass.new 0 1) }
        ensures ok { IfOk result (λ r. IsApplied report.task report.edition (plan_of report.tree) self.old.book self.new.book r.0) }
        ensures receipt { IfOk result (λ r. r.1 ≡ Receipt.Cut r.0.place report.task) }
        ensures passes { self.new.passes ≡ self.old.passes }
        ensures stays { OnErr result (self.new ≡ self.old) }
        ensures why { IfErr result (λ e. IsRefused self.old.book pass.old pass.new e (IsNotApplied report.task (plan_of report.tree) self.old.book e)) }
    {
        note_numbers(&self.book, pass)?;
        make_room(&self.book, &mut self.marks)?;
        let task = report.task;
        let applied = self.book.hand_in(report)?;
        note_cut(&self.book, &mut self.poster, &mut self.totals, pass);
        let receipt = Receipt::Cut {
            place: applied.place,
            task,
        };
        Ok((applied, receipt))
    }
}
