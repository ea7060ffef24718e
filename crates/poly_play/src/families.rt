//! The tilings that meet given atoms, and what a report's tree makes of them.

use crate::atoms::read_atoms;
use crate::names::put_tilings;
use crate::reply::Reply;
use crate::slots::Slots;
use crate::words::{Words, name};
use poly_atom::{Atom, hopeless};
use poly_grid::Refusal;
use poly_report::{Leaves, Report, Tree, cut_up, fits, holds, leaves};
use poly_search::search_all;
use poly_tiling::{Tiling, View, list_tilings, sort_tilings};
use std::alloc::Global;

/// `hopeless ATOM ..`
pub fn is_hopeless(
    alloc: Global,
    view: &View,
    reply: &mut Reply,
    words: &mut Words<'_>,
) -> Result<(), Refusal> {
    let atoms = read_atoms(alloc, view, words)?;
    reply.answer("hopeless", hopeless(view, atoms.as_slice()));
    Ok(())
}

/// `search ATOM ..` says how many tilings `search_all` finds.
pub fn search(
    alloc: Global,
    view: &View,
    reply: &mut Reply,
    words: &mut Words<'_>,
) -> Result<(), Refusal> {
    let atoms = read_atoms(alloc, view, words)?;
    say_count(reply, &search_all(alloc, view, atoms.as_slice())?);
    Ok(())
}

/// `search_list ATOM ..` lists them, in the order of tilings.
pub fn search_list(
    alloc: Global,
    view: &View,
    reply: &mut Reply,
    words: &mut Words<'_>,
) -> Result<(), Refusal> {
    let atoms = read_atoms(alloc, view, words)?;
    let found = search_all(alloc, view, atoms.as_slice())?;
    say_in_order(alloc, view, reply, found)
}

/// `lister` says how many tilings the plain lister finds.
pub fn lister(alloc: Global, view: &View, reply: &mut Reply) -> Result<(), Refusal> {
    say_count(reply, &list_tilings(alloc, view)?);
    Ok(())
}

/// `lister_list` lists them, in the order of tilings.
pub fn lister_list(alloc: Global, view: &View, reply: &mut Reply) -> Result<(), Refusal> {
    let found = list_tilings(alloc, view)?;
    say_in_order(alloc, view, reply, found)
}

fn say_count(reply: &mut Reply, found: &[Tiling]) {
    reply.line("found ", found.len() as u64);
}

fn say_in_order(
    alloc: Global,
    view: &View,
    reply: &mut Reply,
    found: Vec<Tiling>,
) -> Result<(), Refusal> {
    let mut found = found;
    sort_tilings(alloc, view, &mut found)?;
    put_tilings(reply, view, found.as_slice());
    say_count(reply, found.as_slice());
    Ok(())
}

/// `holds REPORT ATOM ..`
pub fn does_hold(
    alloc: Global,
    view: &View,
    reports: &Slots<Report>,
    reply: &mut Reply,
    words: &mut Words<'_>,
) -> Result<(), Refusal> {
    let report = reports.get(name(words)?)?;
    let atoms = read_atoms(alloc, view, words)?;
    if !fits(&report.tree) {
        return Err(Refusal::TooLarge);
    }
    reply.answer("holds", holds(alloc, view, atoms.as_slice(), &report.tree)?);
    Ok(())
}

/// `leaves REPORT ATOM ..` says the leaves of the report's tree, if it holds.
pub fn say_leaves(
    alloc: Global,
    view: &View,
    reports: &Slots<Report>,
    reply: &mut Reply,
    words: &mut Words<'_>,
) -> Result<(), Refusal> {
    let report = reports.get(name(words)?)?;
    let atoms = read_atoms(alloc, view, words)?;
    let leaves = leaves_of(alloc, view, atoms.as_slice(), &report.tree)?;
    put_leaves(alloc, view, reply, &leaves)
}

fn leaves_of(alloc: Global, view: &View, atoms: &[Atom], tree: &Tree) -> Result<Leaves, Refusal> {
    if !fits(tree) {
        return Err(Refusal::TooLarge);
    }
    let held = holds(alloc, view, atoms, tree)?;
    if !held {
        return Err(Refusal::DoesNotHold);
    }
    leaves(alloc, view, atoms, tree)
}

/// `cut REPORT ATOM ..` says the same by the call that checks the tree and gives its leaves in one walk.
pub fn cut(
    alloc: Global,
    view: &View,
    reports: &Slots<Report>,
    reply: &mut Reply,
    words: &mut Words<'_>,
) -> Result<(), Refusal> {
    let report = reports.get(name(words)?)?;
    let atoms = read_atoms(alloc, view, words)?;
    if !fits(&report.tree) {
        return Err(Refusal::TooLarge);
    }
    say_cut(
        alloc,
        view,
        reply,
        &cut_up(alloc, view, atoms.as_slice(), &report.tree)?,
    )
}

fn say_cut(
    alloc: Global,
    view: &View,
    reply: &mut Reply,
    cut: &Option<Leaves>,
) -> Result<(), Refusal> {
    match cut {
        Some(leaves) => put_leaves(alloc, view, reply, leaves),
        None => Err(Refusal::DoesNotHold),
    }
}

fn put_leaves(
    alloc: Global,
    view: &View,
    reply: &mut Reply,
    leaves: &Leaves,
) -> Result<(), Refusal> {
    put_tilings(reply, view, leaves.tilings.as_slice());
    let mut atoms = Vec::new(alloc);
    for index in 0..leaves.rests.len() {
        leaves.rests.read(index, &mut atoms)?;
        reply.text("rest");
        reply.atoms(view, atoms.as_slice());
        reply.end();
    }
    Ok(())
}
