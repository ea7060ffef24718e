//! The test kit of books: a book from a puzzle line, edits from command lines, and what a test expects of a book.
//!
//! If something is refused, `begun` and `edit_by` return the refusal. The others end the test.

use crate::designs;
use crate::designs::design_of;
use poly_book::Book;
use poly_design::Edit;
use poly_grid::Refusal;
use std::alloc::Global;
use std::process::Abort;

/// The opening book of the design of the puzzle line, or the first refusal.
pub(crate) fn begun(alloc: Global, puzzle: &[u8]) -> Result<Book, Refusal> {
    let design = design_of(alloc, puzzle, &[])?;
    Book::begin(alloc, design)
}

/// The edit that the command line asks for. A line that asks for no edit is a `BadCommand`.
pub(crate) fn edit_by(alloc: Global, book: &Book, line: &[u8]) -> Result<Edit, Refusal> {
    designs::edit_by(alloc, book.design().grid(), line)
}

/// The opening book of the design of the puzzle line.
pub(crate) fn book_of(rt: &impl Abort, alloc: Global, puzzle: &[u8]) -> Book {
    begun(alloc, puzzle).expect(rt, "a puzzle line")
}

/// The edit that the command line asks for.
pub(crate) fn edit_of(rt: &impl Abort, alloc: Global, book: &Book, line: &[u8]) -> Edit {
    edit_by(alloc, book, line).expect(rt, "the line of an edit")
}

/// Ends the test with the message `why`.
pub(crate) fn fail<T>(rt: &impl Abort, why: &str) -> T {
    let none: Option<T> = None;
    none.expect(rt, why)
}

/// Makes the edit that the command line asks for.
pub(crate) fn edit(rt: &impl Abort, alloc: Global, book: &mut Book, line: &[u8]) {
    let edit = edit_of(rt, alloc, book, line);
    let refusal = book.edit(edit).err();
    assert!(rt; refusal.is_none());
}

/// Asserts the edition and the numbers of listed tilings and pending tasks.
pub(crate) fn expect_status(rt: &impl Abort, book: &Book, want: (u64, u64, u64)) {
    let numbers = book.numbers();
    assert!(rt; (numbers.edition, numbers.listed, numbers.pending) == want);
}
