//! What a worker has.
ghost use Rattle.std.specs.Prelude.{◌≡◌, vec_len};
ghost use Rattle.crossbeam_utils.specs.Padded.{padded_value};

use crate::hints::Hints;
use crossbeam_utils::CachePadded;
use poly_desk::Receipt;
use poly_grid::Refusal;

/// What a worker has of its own. It has a receipt for each of its reports that was applied.
#[derive(Drop)]
pub(crate) struct Worker<P: Drop> {
    /// Its right to take tasks and to hand reports in.
    pub(crate) pass: P,
    /// Its own lane of hints, and a thief of every other worker's lane.
    pub(crate) hints: Hints,
    /// The receipts of its reports, in the order in which they came.
    pub(crate) receipts: Vec<Receipt>,
    /// The number of its reports that were applied. Each worker writes only its own number, so each number has cache lines of
    /// its own.
    pub(crate) applied: CachePadded<u64>,
    /// How it ended: `Ok` if no task was left to take, `Unfinished` if it has used up its turns, or else the refusal that
    /// ended it.
    pub(crate) end: Result<(), Refusal>,
    ghost counted: { padded_value applied ≡ vec_len receipts },
}
