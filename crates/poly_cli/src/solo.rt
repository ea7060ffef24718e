//! An engine that works alone: it keeps a book, and settles it on the spot whenever all tilings are asked for.
ghost use Rattle.std.specs.Prelude.{◌≡◌, ◌≢◌, ◌⊎◌, [], IfErr, IfOk, IsTrue, None, OnErr, OnOk, false, true};
ghost use Rattle.poly_cli.specs.Books.{session_of};
ghost use Rattle.poly_cli.specs.States.{IsUnfinished, opened};

use crate::engine::{Engine, Limited};
use poly_book::{Book, Numbers, Quiet};
use poly_design::{Design, Edit};
use poly_grid::{Grid, Refusal};
use poly_tiling::listings_show;
use std::alloc::Global;
use std::marker::Model;

/// The most nodes that the tree of one turn may have, not counting its Rest nodes.
pub(crate) const NODES: u32 = 256;

/// A book, with the most turns that settling it may take.
#[derive(Drop)]
pub struct Solo {
    /// Allocates the books with which the engine begins.
    alloc: Global,
    /// The design under edits, its listed tilings and its pending tasks.
    book: Book,
    /// The most turns that settling may take each time.
    turns: u64,
    /// Whether a question about all tilings was answered since the last change.
    settled: bool,
}

impl Model for Solo {
    ghost use Rattle.std.specs.Prelude.{◌≡◌, [], true};
    ghost use Rattle.poly_cli.specs.Books.{session_of};
    ghost use Rattle.poly_cli.specs.States.{State};

    ghost Value = { State };

    ghost view = { λ s. session_of s.book s.settled };

    ghost invariant = { λ s. s.settled ≡ true → s.book.pending ≡ [] };
}

impl Solo {
    /// Returns an engine whose design is a square grid without cells and pieces, until it begins with another design.
    /// Settling takes at most `turns` turns each time. Fails only with `Memory`.
    pub fn new(alloc: Global, turns: u64) -> Result<Solo, Refusal>
        ensures ok { IfOk result (λ s. s ≡ opened (record { grid = Grid.Square; cells = []; pieces = [] })) }
        ensures why { IfErr result (λ e. e ≡ Refusal.Memory) }
    {
        Solo::on(alloc, turns, Design::empty(alloc, Grid::Square))
    }

    /// Returns an engine that has begun with the design. Fails only with `Memory`.
    pub(crate) fn on(alloc: Global, turns: u64, design: Design) -> Result<Solo, Refusal>
        ensures ok { IfOk result (λ s. s ≡ opened design) }
        ensures why { IfErr result (λ e. e ≡ Refusal.Memory) }
    {
        let book = Book::begin(alloc, design)?;
        Ok(Solo::of_book(alloc, turns, book))
    }

    /// Returns an engine with the book. No question counts as answered yet.
    pub(crate) fn of_book(alloc: Global, turns: u64, book: Book) -> Solo
        ensures { result ≡ session_of book false }
    {
        Solo {
            alloc,
            book,
            turns,
            settled: false,
        }
    }

    /// Returns the book.
    pub(crate) fn into_book(self) -> Book
        ensures { self ≡ session_of result self.settled }
    {
        let Solo { book, .. } = self;
        book
    }

    /// Whether tasks are pending.
    pub(crate) fn is_pending(&self) -> bool
        ensures unsettled { IsTrue result → self.now.settled ≡ false }
        ensures alive { self.now.failed ≡ None }
    {
        self.book.numbers().pending > 0
    }
}

impl Engine for Solo {
    ghost state = { λ s. s };

    fn begin(&mut self, design: Design) -> Result<(), Refusal> {
        let book = Book::begin(self.alloc, design)?;
        self.book = book;
        self.settled = false;
        Ok(())
    }

    fn edit(&mut self, edit: Edit) -> Result<u64, Refusal> {
        let done = self.book.edit(edit)?;
        self.settled = false;
        Ok(done.place)
    }

    fn undo(&mut self) -> Result<u64, Refusal> {
        let done = self.book.undo()?;
        self.settled = false;
        Ok(done.place)
    }

    fn redo(&mut self) -> Result<u64, Refusal> {
        // The contract of this call guarantees that at most 256 changes in all can be undone or redone.
        self.book.whole();
        let done = match self.book.redo() {
            Ok(done) => done,
            Err(refusal) => return Err(refusal),
        };
        self.settled = false;
        Ok(done.place)
    }

    fn settle(&mut self) -> Result<Quiet, Refusal> {
        settle_book(&mut self.book, self.turns)?;
        let quiet = self.book.quiet()?;
        self.settled = true;
        Ok(quiet)
    }

    fn count(&mut self) -> Result<u64, Refusal> {
        settle_book(&mut self.book, self.turns)?;
        self.settled = true;
        // The contracts of these calls guarantee that all tilings are listed.
        self.book.whole();
        listings_show();
        Ok(self.book.numbers().listed)
    }

    fn numbers(&self) -> Numbers {
        self.book.numbers()
    }
}

impl Limited for Solo {
    fn set_turns(&mut self, turns: u64) {
        self.turns = turns;
    }
}

// Settles the book if tasks are pending. The changes that can be undone and redone stay the same.
fn settle_book(book: &mut Book, turns: u64) -> Result<(), Refusal>
    ensures same { session_of book.new false ≡ session_of book.old false }
    ensures none { OnOk result (book.new.pending ≡ []) }
    ensures some { OnErr result (book.old.pending ≢ []) }
    ensures why { IfErr result (λ e. (e ≡ Refusal.Memory) ⊎ IsUnfinished book.old.design e) }
{
    if book.numbers().pending == 0 {
        return Ok(());
    }
    // Before and after settling, the contract of `whole` guarantees that the steps determine which changes can be undone and
    // redone.
    book.whole();
    let settled = book.settle(turns, NODES);
    book.whole();
    settled?;
    Ok(())
}
