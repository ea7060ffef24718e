//! Atoms that a script writes: `has PLACEMENT`, `lacks PLACEMENT`, `least ITEM COUNT` or `most ITEM COUNT`, one after the other.

use crate::words::{Words, item, placement, tiny_number};
use poly_atom::Atom;
use poly_grid::Refusal;
use poly_tiling::{Item, View};
use std::alloc::Global;

/// Reads atoms to the end of the line.
pub fn read_atoms(alloc: Global, view: &View, words: &mut Words<'_>) -> Result<Vec<Atom>, Refusal> {
    let mut atoms = Vec::new(alloc);
    read_all(alloc, view, words, &mut atoms)?;
    Ok(atoms)
}

fn read_all(
    alloc: Global,
    view: &View,
    words: &mut Words<'_>,
    atoms: &mut Vec<Atom>,
) -> Result<(), Refusal> {
    for _ in 0..u32::MAX {
        match words.next() {
            Some(word) => read_atom(alloc, view, word, words, atoms)?,
            None => break,
        }
    }
    Ok(())
}

fn read_atom(
    alloc: Global,
    view: &View,
    word: &str,
    words: &mut Words<'_>,
    atoms: &mut Vec<Atom>,
) -> Result<(), Refusal> {
    match word {
        "has" => push(atoms, Atom::Has(placement(alloc, view, words)?), None),
        "lacks" => push(atoms, Atom::Lacks(placement(alloc, view, words)?), None),
        "least" => push_least(atoms, item(words)?, tiny_number(words)?),
        "most" => push_most(atoms, item(words)?, tiny_number(words)?),
        _ => Err(Refusal::BadCommand),
    }
}

fn push_least(atoms: &mut Vec<Atom>, item: Item, count: u8) -> Result<(), Refusal> {
    push(atoms, Atom::AtLeast(item, count), None)
}

fn push_most(atoms: &mut Vec<Atom>, item: Item, count: u8) -> Result<(), Refusal> {
    push(atoms, Atom::AtMost(item, count), None)
}

// The item stands in the signature because the prover refuses to push a value whose type holds a type that the function
// doesn't name.
fn push(atoms: &mut Vec<Atom>, atom: Atom, _item: Option<Item>) -> Result<(), Refusal> {
    atoms.push(atom)?;
    Ok(())
}
