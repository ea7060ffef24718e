//! Hopeless lists of atoms: the atoms and the view show, without a search, that no tiling meets all of the atoms. A tiling
//! that meets all of them has the pins and each placement that the list asks for. Each of these placements is counted once,
//! even if the list asks for it many times.
//!
//! A list may be long. So if a list has more than a few atoms, the placements that it asks for are gathered first, each
//! once. They are then compared with one another, with the pins, and with the atoms that rule placements out. A list that
//! asks for more different placements than the view has items is hopeless: if no two placements share a cell, each has an
//! item of its own.
ghost use Rattle.std.specs.Prelude.{[], IfNone, IfSome, false, nat_lt, not, take, ◌&&◌, ◌+◌, ◌<◌, ◌||◌, ◌∷◌, ◌≡◌, ◌≤◌, length, ℕ};
ghost use Rattle.std.specs.List.{list_all, list_any};
ghost use Rattle.poly_atom.specs.Counted.{adds, asked_count};
ghost use Rattle.poly_atom.specs.Hopeless.{AskTheSame, asked, bad, base, beyond, hopeless, lost};
ghost use Rattle.poly_tiling.specs.Lists.{mem, one};
ghost use Rattle.poly_tiling.specs.Puzzle.{conflicts, count, is_piece, items, most};
ghost use Rattle.poly_tiling.specs.declared.item.Item.TheVariants.{Piece as PieceItem};

use crate::atom::Atom;
use crate::order::stands_in;
use poly_design::{MAX_CELLS, MAX_PIECES, Name};
use poly_tiling::{Item, View, find_bound, has_number};

// The most items that a design can have.
const MOST_ITEMS: usize = MAX_CELLS + MAX_PIECES;

// Lists up to this length are compared as they are: gathering first would cost more.
const FEW_ATOMS: usize = 8;

// A tiling of most boards has fewer placements than this, so most lists ask for fewer. Room for them is cleared much faster
// than room for one placement of each item.
const FEW_ASKED: usize = 32;

/// Whether the atoms and the view show, without a search, that no tiling meets all of the atoms. An atom shows this if it
/// rules out a pin; if it is `AtLeast` above the most of an item of the view, or `AtMost` below the least of one; or if it
/// asks for a placement that isn't in the design, that another atom rules out, that is in conflict with a pin or with another
/// placement asked for, or whose piece has more placements asked for or pinned than its most. Never allocates.
///
/// If the view shows a design, the time is at most in proportion to the number of atoms.
pub fn hopeless(view: &View, atoms: &[Atom]) -> bool
    ensures { result ≡ hopeless view.now atoms.now }
{
    if atoms.len() <= FEW_ATOMS {
        return any_bad(view, atoms, atoms);
    }
    is_long_hopeless(view, atoms)
}

// A list that asks for few different placements is compared with these alone.
fn is_long_hopeless(view: &View, atoms: &[Atom]) -> bool
    ensures { result ≡ hopeless view.now atoms.now }
{
    let mut list = [Atom::Has(0); FEW_ASKED];
    match gather(&mut list, atoms) {
        Some(count) => any_bad(view, atoms, &list[..count]),
        None => is_wide_hopeless(view, atoms),
    }
}

// If the list asks for more different placements than can be gathered, and the view has no more items than a design can
// have, then the list is hopeless.
fn is_wide_hopeless(view: &View, atoms: &[Atom]) -> bool
    ensures { result ≡ hopeless view.now atoms.now }
{
    let mut list = [Atom::Has(0); MOST_ITEMS];
    match gather(&mut list, atoms) {
        Some(count) => any_bad(view, atoms, &list[..count]),
        None => view.items().len() <= MOST_ITEMS || any_bad(view, atoms, atoms),
    }
}

// For each placement that the atoms ask for, writes one atom that asks for it to the front of the list. Returns how many
// these are, or `None` if the list is too short for them.
fn gather(list: &mut [Atom], atoms: &[Atom]) -> Option<usize>
    ensures fits { IfSome result (λ n. n ≤ length list.new) }
    ensures same { IfSome result (λ n. AskTheSame (take n list.new) atoms.now) }
    ensures many { IfNone result (length list.old < asked_count atoms.now) }
{
    let mut count = 0;
    for atom in atoms {
        match gather_one(list, count, *atom) {
            Some(next) => count = next,
            None => return None,
        }
    }
    Some(count)
}

// Adds the atom after the first `count` atoms of the list, if it asks for a placement that none of these atoms asks for.
// Returns the number of atoms that are gathered then. Returns `None` if the atom would be added but the list is full.
fn gather_one(list: &mut [Atom], count: usize, atom: Atom) -> Option<usize>
    requires { count ≤ length list.old }
    ensures long { length list.new ≡ length list.old }
    ensures fits { IfSome result (λ n. n ≤ length list.new) }
    ensures same { IfSome result (λ n. (p : ℕ) → mem (asked (take n list.new)) p ≡ (mem (asked (take count list.old)) p || mem (asked (atom ∷ [])) p)) }
    ensures counted { IfSome result (λ n. n ≡ count + one (not (list_all (λ p. mem (asked (take count list.old)) p) (asked (atom ∷ []))))) }
    ensures full { IfNone result ((count ≡ length list.old) × (list_all (λ p. mem (asked (take count list.old)) p) (asked (atom ∷ [])) ≡ false)) }
{
    if is_gathered(&list[..count], &atom) {
        return Some(count);
    }
    if count == list.len() {
        return None;
    }
    list[count] = atom;
    Some(count + 1)
}

// Whether the list asks for all that the atom asks for.
fn is_gathered(list: &[Atom], atom: &Atom) -> bool
    ensures { result ≡ list_all (λ p. mem (asked list.now) p) (asked (atom.now ∷ [])) }
{
    match atom {
        Atom::Has(p) => is_asked(list, *p),
        Atom::Lacks(_) => true,
        Atom::AtLeast(_, _) => true,
        Atom::AtMost(_, _) => true,
    }
}

// Whether the atoms are hopeless. `gathered` has to ask for the same placements as the atoms.
fn any_bad(view: &View, atoms: &[Atom], gathered: &[Atom]) -> bool
    requires { AskTheSame gathered.now atoms.now }
    ensures { result ≡ hopeless view.now atoms.now }
{
    any_lost(view, gathered) || any_beyond(view, atoms, gathered)
}

fn any_lost(view: &View, gathered: &[Atom]) -> bool
    ensures { result ≡ list_any (λ a. lost view.now gathered.now a) gathered.now }
{
    gathered.iter().any(|atom| is_lost(view, gathered, *atom))
}

fn is_lost(view: &View, gathered: &[Atom], atom: Atom) -> bool
    ensures { result ≡ lost view.now gathered.now atom }
{
    match atom {
        Atom::Has(p) => is_impossible(view, gathered, p),
        Atom::Lacks(_) => false,
        Atom::AtLeast(_, _) => false,
        Atom::AtMost(_, _) => false,
    }
}

fn is_impossible(view: &View, gathered: &[Atom], p: u32) -> bool
    ensures { result ≡ lost view.now gathered.now (Atom.Has p) }
{
    !is_live(view, p) || conflicts_base(view, gathered, p) || is_over(view, gathered, p)
}

// Whether the number is a placement of the design.
fn is_live(view: &View, p: u32) -> bool
    ensures { result ≡ mem view.now.live p }
{
    match view.live_mark(p) {
        Some(mark) => mark,
        None => stands_in(view, view.live(), p),
    }
}

fn any_beyond(view: &View, atoms: &[Atom], gathered: &[Atom]) -> bool
    ensures { result ≡ list_any (λ a. beyond view.now gathered.now a) atoms.now }
{
    atoms.iter().any(|atom| is_beyond(view, gathered, *atom))
}

fn is_beyond(view: &View, gathered: &[Atom], atom: Atom) -> bool
    ensures { result ≡ beyond view.now gathered.now atom }
{
    match atom {
        Atom::Has(_) => false,
        Atom::Lacks(p) => has_number(view.pins(), p) || is_asked(gathered, p),
        Atom::AtLeast(item, n) => is_too_many(view, &item, n),
        Atom::AtMost(item, n) => is_too_few(view, &item, n),
    }
}

fn is_too_many(view: &View, item: &Item, n: u8) -> bool
    ensures { result ≡ bad view.now [] (Atom.AtLeast item.now n) }
{
    match find_bound(view.items(), item) {
        None => false,
        Some(bound) => bound.most < n,
    }
}

fn is_too_few(view: &View, item: &Item, n: u8) -> bool
    ensures { result ≡ bad view.now [] (Atom.AtMost item.now n) }
{
    match find_bound(view.items(), item) {
        None => false,
        Some(bound) => n < bound.least,
    }
}

// Whether the placement is in conflict with a pin or with a placement that the atoms ask for.
fn conflicts_base(view: &View, atoms: &[Atom], p: u32) -> bool
    ensures { result ≡ list_any (λ q. conflicts view.now p q) (base view.now atoms.now) }
{
    conflicts_asked(view, atoms, p) || view.any_conflict(p, view.pins())
}

fn conflicts_asked(view: &View, atoms: &[Atom], p: u32) -> bool
    ensures { result ≡ list_any (λ a. list_any (λ q. conflicts view.now p q) (asked (a ∷ []))) atoms.now }
{
    atoms.iter().any(|atom| conflicts_with(view, *atom, p))
}

fn conflicts_with(view: &View, atom: Atom, p: u32) -> bool
    ensures { result ≡ list_any (λ q. conflicts view.now p q) (asked (atom ∷ [])) }
{
    match atom {
        Atom::Has(q) => view.conflicts(p, q),
        Atom::Lacks(_) => false,
        Atom::AtLeast(_, _) => false,
        Atom::AtMost(_, _) => false,
    }
}

// Whether the piece of `p` has more placements that are asked for or pinned than its most.
fn is_over(view: &View, atoms: &[Atom], p: u32) -> bool
    ensures { result ≡ list_any (λ i. is_piece i && nat_lt (most view.now i) (count view.now (base view.now atoms.now) i)) (items view.now p) }
{
    match view.placement(p) {
        None => false,
        Some(placement) => is_piece_over(view, atoms, placement.name),
    }
}

fn is_piece_over(view: &View, atoms: &[Atom], name: Name) -> bool
    ensures { result ≡ nat_lt (most view.now (PieceItem name)) (count view.now (base view.now atoms.now) (PieceItem name)) }
{
    let piece = Item::Piece(name);
    has_more(view, atoms, &piece, most_of(view, &piece))
}

fn most_of(view: &View, item: &Item) -> usize
    ensures { result ≡ most view.now item.now }
{
    match find_bound(view.items(), item) {
        None => 0,
        Some(bound) => bound.most as usize,
    }
}

// Whether more than `most` members of the base have the item. Stops as soon as more than `most` are counted.
fn has_more(view: &View, atoms: &[Atom], item: &Item, most: usize) -> bool
    ensures { result ≡ nat_lt most (count view.now (base view.now atoms.now) item.now) }
{
    let pins = view.pins();
    let mut n = view.count(pins, item);
    for i in 0..atoms.len() {
        if most < n {
            return true;
        }
        if adds_one(view, atoms[i], &atoms[i + 1..], item) {
            n += 1;
        }
    }
    most < n
}

fn adds_one(view: &View, atom: Atom, rest: &[Atom], item: &Item) -> bool
    ensures { result ≡ adds view.now atom rest.now item.now }
{
    match atom {
        Atom::Has(p) => view.covers(p, *item) && !is_asked(rest, p) && !has_number(view.pins(), p),
        Atom::Lacks(_) => false,
        Atom::AtLeast(_, _) => false,
        Atom::AtMost(_, _) => false,
    }
}

fn is_asked(atoms: &[Atom], p: u32) -> bool
    ensures { result ≡ mem (asked atoms.now) p }
{
    any_asking(atoms, p)
}

fn any_asking(atoms: &[Atom], p: u32) -> bool
    ensures { result ≡ list_any (λ a. mem (asked (a ∷ [])) p) atoms.now }
{
    atoms.iter().any(|atom| asks_for(*atom, p))
}

fn asks_for(atom: Atom, p: u32) -> bool
    ensures { result ≡ mem (asked (atom ∷ [])) p }
{
    match atom {
        Atom::Has(q) => q == p,
        Atom::Lacks(_) => false,
        Atom::AtLeast(_, _) => false,
        Atom::AtMost(_, _) => false,
    }
}
