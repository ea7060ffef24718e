//! What a change stores for its undo or redo.

use poly_atom::Atom;
use poly_tiling::Tiling;

/// What a change stores, so that its undo or redo need not search again for the tilings that the change took away.
#[derive(Drop)]
pub struct Shelf {
    /// The listed tilings that the change took away.
    pub tilings: Vec<Tiling>,
    /// The atoms of each task that was pending before the change.
    pub frozen: Vec<Vec<Atom>>,
}
