//! One step of a history.

/// A change, and what is kept with it for its undo or redo.
#[derive(Debug, Drop, PartialEq, Eq)]
pub struct Step<C, K> {
    /// The change that the step makes.
    pub change: C,
    /// What is kept with the change, if anything is.
    pub kept: Option<K>,
}
