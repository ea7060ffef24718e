//! What the listed tilings have in common.

use crate::reply::Reply;
use poly_book::Book;
use poly_browse::{Answer, Query, browse};
use poly_grid::{Grid, Refusal};
use poly_text::{Command, asked};
use poly_tiling::Item;
use std::alloc::Global;

/// `browse WORD ..` over what is listed now.
pub fn browse_listed(
    alloc: Global,
    book: &Book,
    reply: &mut Reply,
    line: &str,
) -> Result<(), Refusal> {
    let query = query_of(alloc, book.design().grid(), line)?;
    let answer = answer_to(alloc, book, &query)?;
    say_answer(reply, &answer);
    Ok(())
}

// The query of a line of `browse`.
fn query_of(alloc: Global, grid: Grid, line: &str) -> Result<Query, Refusal> {
    match asked(alloc, grid, line.as_bytes())? {
        Some(Command::Browse(question)) => Ok(Query {
            has: question.has,
            lacks: question.lacks,
            covers: question.covers,
        }),
        _ => Err(Refusal::BadCommand),
    }
}

fn answer_to(alloc: Global, book: &Book, query: &Query) -> Result<Answer, Refusal> {
    browse(
        alloc,
        book.design(),
        book.catalogue().all(),
        book.view(),
        query,
    )
}

fn say_answer(reply: &mut Reply, answer: &Answer) {
    reply.text("forced");
    reply.each_placement(answer.forced.as_slice());
    reply.end();
    say_options(reply, answer.options.as_slice());
    reply.line("matches ", answer.count);
}

fn say_options(reply: &mut Reply, options: &[(Item, u64)]) {
    for option in options {
        reply.text("item ");
        reply.item(&option.0);
        reply.line(" ", option.1);
    }
}
