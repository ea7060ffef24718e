//! Edits, undo and redo, settling, and the numbers of a book.

use crate::reply::Reply;
use crate::words::{Words, node_count, number, short_number};
use poly_book::{Book, Done, Kind};
use poly_design::Edit;
use poly_grid::{Grid, Refusal};
use poly_text::{Command, asked};
use std::alloc::Global;

/// Makes the edit that the line asks for.
pub fn edit(alloc: Global, book: &mut Book, reply: &mut Reply, line: &str) -> Result<(), Refusal> {
    let edit = edit_of(alloc, book.design().grid(), line)?;
    say_done(reply, &book.edit(edit)?);
    Ok(())
}

/// The edit that the line asks for. Fails with `BadCommand` if it asks for something else.
pub fn edit_of(alloc: Global, grid: Grid, line: &str) -> Result<Edit, Refusal> {
    match &asked(alloc, grid, line.as_bytes()) {
        Ok(Some(Command::Edit(edit))) => Ok(*edit),
        Ok(_) => Err(Refusal::BadCommand),
        Err(refusal) => Err(*refusal),
    }
}

/// `undo`
pub fn undo(book: &mut Book, reply: &mut Reply) -> Result<(), Refusal> {
    say_done(reply, &book.undo()?);
    Ok(())
}

/// `redo`
pub fn redo(book: &mut Book, reply: &mut Reply) -> Result<(), Refusal> {
    say_done(reply, &book.redo()?);
    Ok(())
}

/// Says which step was made, and where.
pub fn say_done(reply: &mut Reply, done: &Done) {
    reply.field("done ", done.place);
    reply.text(match done.step.kind {
        Kind::Edit => " edit",
        Kind::Undo => " undo",
        Kind::Redo => " redo",
    });
    reply.field(" pending ", done.step.pending);
    reply.text(if done.step.shelved {
        " shelved\n"
    } else {
        "\n"
    });
}

/// `numbers`
pub fn numbers(book: &Book, reply: &mut Reply) {
    let numbers = book.numbers();
    reply.field("edition ", numbers.edition);
    reply.field(" endings ", numbers.endings);
    reply.field(" listed ", numbers.listed);
    reply.line(" pending ", numbers.pending);
}

/// `next FROM`
pub fn next(book: &Book, reply: &mut Reply, words: &mut Words<'_>) -> Result<(), Refusal> {
    match book.next(short_number(words)?) {
        Some(task) => reply.line("next ", u64::from(task)),
        None => reply.text("next -\n"),
    }
    Ok(())
}

/// `settle TURNS NODES`
pub fn settle(book: &mut Book, reply: &mut Reply, words: &mut Words<'_>) -> Result<(), Refusal> {
    let turns = number(words)?;
    let nodes = node_count(words)?;
    reply.line("settled by ", book.settle(turns, nodes.count)?);
    Ok(())
}
