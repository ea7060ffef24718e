//! Puzzle designs: a board, named pieces, and the placements of the pieces on the board.
//!
//! - [`Design`]: the cells and the pieces, within limits that its type keeps. It lists placements, checks edits and makes
//!   changes.
//! - [`Edit`]: a request to change a design. [`Design::check`] returns the change that the edit makes, or a refusal.
//! - [`Change`]: a change of one cell or one piece, which has an inverse.
//! - [`Placement`]: a piece's name with the cells that it covers. [`Mode`]: what a tiling does with a cell.
//! - [`Name`], [`Spec`], [`Copies`], [`CellsSet`]: a piece and its parts. [`Need`]: how an edit asks for exactly one copy of a
//!   piece, or for at most one.
//! - Limits of a design: [`MAX_CELLS`], [`MAX_PIECES`], [`MAX_PLACEMENTS`]; [`limits_of_designs`] states their values.
#![tactic(auto)]

mod board;
mod cells_set;
mod change;
mod copies;
mod design;
mod edit;
mod equal;
mod laws;
mod listing;
mod mode;
mod name;
mod need;
mod parts;
mod placement;
mod places;
mod spec;

pub use cells_set::CellsSet;
pub use change::Change;
pub use copies::Copies;
pub use design::{Design, MAX_CELLS, MAX_PIECES};
pub use edit::Edit;
pub use laws::limits_of_designs;
pub use listing::MAX_PLACEMENTS;
pub use mode::Mode;
pub use name::Name;
pub use need::Need;
pub use placement::Placement;
pub use spec::Spec;
