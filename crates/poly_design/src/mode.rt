//! The modes of cells.

/// What a tiling does with a cell.
#[derive(Clone, Copy, Debug, PartialEq, Eq)]
pub enum Mode {
    /// Each tiling covers the cell.
    Required,
    /// A tiling may cover the cell.
    Optional,
    /// No placement lies on the cell.
    Blocked,
}
