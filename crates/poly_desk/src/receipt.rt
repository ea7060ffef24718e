//! What a desk gives for a change or a report.

use poly_book::Step;

/// One change or one cut, and its place among the steps or the endings of the book, counted from 1.
#[derive(Drop)]
pub enum Receipt {
    /// A change was made.
    Changed {
        /// The edition after the change.
        place: u64,
        /// What was changed.
        step: Step,
    },
    /// A report was applied.
    Cut {
        /// How many endings the book had once the report was applied.
        place: u64,
        /// The task that the report ended.
        task: u32,
    },
}
