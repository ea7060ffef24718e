//! A pass: the right to use a desk.
ghost use Rattle.std.specs.Prelude.{◌≡◌};

use crate::ledgers::Shares;
use crate::opening::Opening;
use poly_board::{Look, Posted};
use std::marker::{Model, PhantomData};
use std::sync::ledger::Ledger;

/// The right to use a desk. Contracts see the numbers that the pass has noted, how many changes and cuts it has made, and the
/// posts that its look knows. A cut is the end of a task by a report.
#[derive(Drop)]
pub struct Pass<C: Ledger, K: Ledger, O: Opening> {
    /// The book's numbers, as the pass noted them last.
    pub(crate) noted: Posted,
    /// How many changes and cuts the pass has made.
    pub(crate) shares: Shares<C, K>,
    /// Reads the last post without the lock.
    pub(crate) look: Look,
    /// Names what the book had when the desk began.
    pub(crate) opening: PhantomData<O>,
}

impl<C: Ledger, K: Ledger, O: Opening> Model for Pass<C, K, O> {
    ghost use Rattle.poly_desk.specs.Noted.{Held, held};

    ghost Value = { Held };

    ghost view = { λ p. held p.noted p.shares.changes p.shares.cuts p.look.posts };
}

impl<C: Ledger, K: Ledger, O: Opening> Pass<C, K, O> {
    /// Returns how many changes the pass has made.
    pub fn changes(&self) -> u64
        ensures { result ≡ self.now.changes }
    {
        self.shares.changes
    }

    /// Returns how many cuts the pass has made.
    pub fn cuts(&self) -> u64
        ensures { result ≡ self.now.cuts }
    {
        self.shares.cuts
    }
}
