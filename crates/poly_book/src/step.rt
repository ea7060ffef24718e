//! What has happened to a book: the changes that were made, and how tasks ended.

use poly_design::Change;

/// How a change came about.
#[derive(Clone, Copy, Debug, PartialEq, Eq)]
pub enum Kind {
    /// By an edit.
    Edit,
    /// By undoing a change: its inverse was made.
    Undo,
    /// By redoing a change that was undone.
    Redo,
}

/// A change that was made. An undo makes the inverse of the change that it undoes.
#[derive(Drop)]
pub struct Step {
    /// How it came about.
    pub kind: Kind,
    /// What it changed.
    pub change: Change,
    /// The number of tasks that were pending before the change.
    pub pending: u64,
    /// Whether the change is an edit, or an undo or redo for which a shelf was kept.
    pub shelved: bool,
}

/// The end of a task.
#[derive(Clone, Copy, Debug, PartialEq, Eq)]
pub enum Ending {
    /// A report on the task was applied.
    Cut {
        /// The task's number.
        task: u32,
    },
    /// A change ended the task: the task's own atoms are hopeless in the view after the change.
    Hopeless {
        /// The task's number.
        task: u32,
        /// The edition after the change.
        edition: u64,
    },
}

/// The answer to an edit, an undo or a redo that made a change.
#[derive(Drop)]
pub struct Done {
    /// The edition after the change.
    pub place: u64,
    /// The change.
    pub step: Step,
}

/// The answer to a report that was applied.
#[derive(Clone, Copy, Debug, PartialEq, Eq)]
pub struct Applied {
    /// The number of endings after the report.
    pub place: u64,
    /// The number of tilings that the report listed.
    pub listed: u64,
    /// The number of tasks that the report opened.
    pub opened: u64,
    /// The number of the first task that the report opened; the other tasks that it opened have the numbers that follow. If
    /// it opened none, the number that the next new task gets.
    pub first: u64,
    /// Whether the report's edition is below the book's. A late report is applied like any other.
    pub late: bool,
}
