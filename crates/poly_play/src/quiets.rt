//! The tilings that a book lists, which are all tilings of its design if nothing is pending.

use crate::names::put_tilings;
use crate::reply::Reply;
use crate::slots::Slots;
use crate::words::{Words, name};
use poly_book::{Book, Quiet};
use poly_browse::classes;
use poly_design::Name;
use poly_grid::Refusal;
use std::alloc::Global;

/// `listed`
pub fn listed(book: &Book, reply: &mut Reply) {
    put_tilings(reply, book.view(), book.catalogue().all());
}

/// `quiet QUIET`
pub fn quiet(
    book: &Book,
    quiets: &mut Slots<Quiet>,
    reply: &mut Reply,
    words: &mut Words<'_>,
) -> Result<(), Refusal> {
    let slot = name(words)?;
    let quiet = book.quiet()?;
    keep(quiets, reply, slot, quiet);
    Ok(())
}

fn keep(quiets: &mut Slots<Quiet>, reply: &mut Reply, slot: Name, quiet: Quiet) {
    reply.field("quiet edition ", quiet.edition());
    reply.line(" tilings ", quiet.tilings().len() as u64);
    quiets.put(slot, quiet);
}

/// `vouch QUIET`
pub fn vouch(
    book: &Book,
    quiets: &Slots<Quiet>,
    reply: &mut Reply,
    words: &mut Words<'_>,
) -> Result<(), Refusal> {
    let quiet = quiets.get(name(words)?)?;
    reply.answer("vouched", book.vouch(quiet)?);
    Ok(())
}

/// `list QUIET`
pub fn list(
    quiets: &Slots<Quiet>,
    reply: &mut Reply,
    words: &mut Words<'_>,
) -> Result<(), Refusal> {
    let quiet = quiets.get(name(words)?)?;
    put_tilings(reply, quiet.view(), quiet.tilings());
    Ok(())
}

/// `classes QUIET`
pub fn count_classes(
    alloc: Global,
    quiets: &Slots<Quiet>,
    reply: &mut Reply,
    words: &mut Words<'_>,
) -> Result<(), Refusal> {
    let quiet = quiets.get(name(words)?)?;
    reply.line("classes ", classes(alloc, quiet)?);
    Ok(())
}
