//! What a crew leaves.

use poly_desk::Receipt;
use poly_grid::Refusal;

/// What a crew leaves: the passes that it was given, and what its workers did with them.
#[derive(Drop)]
pub struct Crew<P: Drop> {
    /// The passes, in the order in which they were given.
    pub passes: Vec<P>,
    /// For each pass the receipts of its worker, in the order in which they came. Empty if the workers couldn't be set up.
    pub receipts: Vec<Vec<Receipt>>,
    /// The number of reports that were applied.
    pub applied: u64,
    /// `Memory` if the workers couldn't be set up. Otherwise `Ok` if each worker ended because no task was left to take.
    /// Otherwise the end of the first worker, in the order of the passes, that ended in another way: `Unfinished` if that
    /// worker used up its turns, or else the refusal that ended it.
    pub end: Result<(), Refusal>,
}
