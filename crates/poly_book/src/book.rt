//! The book: a design, its listed tilings and its pending tasks. Whatever happens to the book, each tiling of
//! the design is listed once or belongs to exactly one pending task.
ghost use Rattle.std.specs.Prelude.{true, ◌≡◌, ◌≤◌, ◌<◌, length, reverse};
ghost use Rattle.std.specs.Arc.{arc_value};
ghost use Rattle.poly_book.specs.Amounts.{AreAllTilingsOf, AreTilingsOf};
ghost use Rattle.poly_book.specs.Whole.{Whole};
ghost use Rattle.poly_book.specs.declared.prepare.TheConstants.{MAX_CHANGES};

use crate::parts::Parts;
use crate::step::{Ending, Step};
use poly_catalogue::Catalogue;
use poly_design::Design;
use poly_tiling::View;
use std::marker::Model;
use std::sync::Arc;

/// The numbers of steps, endings, listed tilings and pending tasks.
#[derive(Clone, Copy, Debug, PartialEq, Eq)]
pub struct Numbers {
    /// The number of changes that were made, at most 100,000.
    pub edition: u64,
    /// The number of tasks that have ended.
    pub endings: u64,
    /// The number of listed tilings.
    pub listed: u64,
    /// The number of pending tasks.
    pub pending: u64,
}

/// A design under edits with exact undo, its listed tilings and its pending tasks.
#[derive(Drop)]
pub struct Book {
    /// The fields.
    pub(crate) parts: Parts,
}

impl Model for Book {
    ghost use Rattle.poly_book.specs.States.{State};
    ghost use Rattle.poly_book.specs.Keeps.{Keeps, state_of};

    ghost Value = { State };

    ghost view = { λ b. state_of b.parts };

    ghost invariant = { λ b. Keeps b.parts };
}

impl Book {
    /// Always returns true: its contract states what holds of every book. The tilings are shared out between the list and
    /// the pending tasks, the steps lead to the design, each kept shelf is right, and the numbers of the pending tasks rise.
    /// Undoing a change that found nothing pending, or redoing a change whose undo found nothing pending, leaves nothing
    /// pending if a shelf was kept for each undo and redo since.
    pub fn whole(&self) -> bool
        ensures whole { Whole self.now }
        ensures yes { result ≡ true }
    {
        self.parts.next > 0
    }

    /// The numbers of steps, endings, listed tilings and pending tasks. If no task is pending, the number of listed tilings
    /// is the number of tilings of the design. Otherwise there may be fewer listed tilings. Never allocates.
    pub fn numbers(&self) -> Numbers
        ensures edition { result.edition ≡ length self.now.steps }
        ensures endings { result.endings ≡ length self.now.endings }
        ensures listed { result.listed ≡ length self.now.listed }
        ensures pending { result.pending ≡ length self.now.pending }
        ensures tilings { AreTilingsOf result.listed self.now.design }
        ensures all { result.pending ≡ 0 → AreAllTilingsOf result.listed self.now.design }
        ensures few_changes { result.edition ≤ MAX_CHANGES }
        ensures few_endings { result.endings < 4294967296 }
        ensures few_tasks { result.pending < 4294967296 }
    {
        Numbers {
            edition: self.parts.steps.len() as u64,
            endings: self.parts.endings.len() as u64,
            listed: self.parts.listed.len() as u64,
            pending: self.parts.tasks.len() as u64,
        }
    }

    /// The design now. Never allocates.
    pub fn design(&self) -> &Design
        ensures { result.now ≡ self.now.design }
    {
        &self.parts.design
    }

    /// The design now, by the numbers of its placements. Never allocates.
    pub fn view(&self) -> &Arc<View>
        ensures { arc_value result.now ≡ self.now.view }
    {
        self.parts.scene.shared()
    }

    /// The listed tilings. Never allocates.
    pub fn catalogue(&self) -> &Catalogue
        ensures { result.now ≡ self.now.listed }
    {
        &self.parts.listed
    }

    /// The changes that were made, the oldest first. Never allocates.
    pub fn steps(&self) -> &[Step]
        ensures { self.now.steps ≡ reverse result.now }
    {
        &self.parts.steps
    }

    /// The endings of tasks, the oldest first. Never allocates.
    pub fn endings(&self) -> &[Ending]
        ensures { result.now ≡ self.now.endings }
    {
        &self.parts.endings
    }
}
