//! What a team keeps between two commands.
ghost use Rattle.std.specs.Prelude.{◌≡◌, true};
ghost use Rattle.poly_desk.specs.Seen.{is_unsettled};
ghost use Rattle.poly_cli.specs.States.{AreNumbers, after_failure};

use crate::solo::Solo;
use poly_book::Numbers;
use poly_grid::Refusal;
use std::snapshot::Snapshot;

/// A book, or what is left of one that didn't come back from a desk.
#[derive(Drop)]
pub(crate) enum Kept {
    /// A book that can be settled alone at any time.
    Whole(Solo),
    /// The book is at a desk, or was lost there.
    Lost(LostBook),
}

/// What is left of a book that a desk has: its last numbers, and the refusal that answers every command but `status`.
/// Contracts also see the book's last state.
#[derive(Drop)]
pub(crate) struct LostBook {
    /// The book's last state, for contracts only.
    pub(crate) was: Snapshot<Solo>,
    /// The numbers of that state.
    pub(crate) numbers: Numbers,
    /// Why the book counts as lost: an `Unsettled`.
    pub(crate) why: Refusal,
    ghost numbers_are: { AreNumbers (after_failure was.value why) numbers },
    ghost failed: { is_unsettled why ≡ true },
}
