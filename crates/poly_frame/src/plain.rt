//! What is dead, due and found at a list of atoms, read from the view placement by placement. `members` is the base of the
//! atoms; `make_base` makes it.
ghost use Rattle.std.specs.Prelude.{MatchOption, drop, length, nat_lt, not, take, true, vec_len, ◌||◌, ◌++◌, ◌+◌, ◌<◌, ◌≡◌, ◌≤◌, ◌∷◌};
ghost use Rattle.std.specs.List.{list_all, list_any};
ghost use Rattle.std.specs.Vec.{vec_capacity};
ghost use Rattle.poly_tiling.specs.Lists.{put, put_all};
ghost use Rattle.poly_tiling.specs.Puzzle.{count, items, same_item};
ghost use Rattle.poly_atom.specs.Atoms.{in_family, meets, meets_all};
ghost use Rattle.poly_atom.specs.Hopeless.{asked, base, lacks};
ghost use Rattle.poly_frame.specs.Open.{least_at, dead, least_with_base};
ghost use Rattle.poly_frame.specs.Plain.{least_by, of_asked};

use poly_atom::Atom;
use poly_tiling::{Item, View, find_bound, has_number};

// Inserts a number at an index of a list that has room for it.
fn insert_at(numbers: &mut Vec<u32>, k: usize, number: u32)
    requires inside { k ≤ length numbers.old.items }
    requires room { vec_len numbers.old < vec_capacity numbers.old }
    ensures items { numbers.new.items ≡ take k numbers.old.items ++ number ∷ drop k numbers.old.items }
    ensures len { vec_len numbers.new ≡ vec_len numbers.old + 1 }
    ensures room { vec_capacity numbers.new ≡ vec_capacity numbers.old }
{
    let len = numbers.len();
    numbers.push_reserved(number);
    numbers.copy_within(k..len, k + 1);
    numbers[k] = number;
}

/// Puts a number into its place in an ascending list, unless the list has it already.
pub(crate) fn put_number(numbers: &mut Vec<u32>, number: u32)
    requires { vec_len numbers.old < vec_capacity numbers.old }
    ensures items { numbers.new.items ≡ put number numbers.old.items }
    ensures len { vec_len numbers.new ≤ vec_len numbers.old + 1 }
    ensures room { vec_capacity numbers.old ≤ vec_capacity numbers.new }
{
    for k in 0..numbers.len() {
        if number == numbers[k] {
            return;
        }
        if number < numbers[k] {
            insert_at(numbers, k, number);
            return;
        }
    }
    numbers.push_reserved(number);
}

fn put_each(numbers: &[u32], onto: &mut Vec<u32>)
    requires { vec_len onto.old + length numbers.now ≤ vec_capacity onto.old }
    ensures items { onto.new.items ≡ put_all numbers.now onto.old.items }
    ensures len { vec_len onto.new ≤ vec_len onto.old + length numbers.now }
    ensures room { vec_capacity onto.old ≤ vec_capacity onto.new }
{
    let mut k = numbers.len();
    while k > 0 {
        k -= 1;
        put_number(onto, numbers[k]);
    }
}

fn put_asked(atoms: &[Atom], onto: &mut Vec<u32>)
    requires { vec_len onto.old + length atoms.now ≤ vec_capacity onto.old }
    ensures items { onto.new.items ≡ put_all (asked atoms.now) onto.old.items }
    ensures room { vec_capacity onto.old ≤ vec_capacity onto.new }
{
    let mut k = atoms.len();
    while k > 0 {
        k -= 1;
        if let Atom::Has(p) = atoms[k] {
            put_number(onto, p);
        }
    }
}

/// Overwrites `members` with the base of the atoms. Requires room for the pins and for one number for each atom.
pub fn make_base(view: &View, atoms: &[Atom], members: &mut Vec<u32>)
    requires { length view.now.pins + length atoms.now ≤ vec_capacity members.old }
    ensures items { members.new.items ≡ base view.now atoms.now }
    ensures room { vec_capacity members.old ≤ vec_capacity members.new }
{
    members.clear();
    put_each(view.pins(), members);
    put_asked(atoms, members);
}

/// Whether at least one of the atoms lacks the number.
pub(crate) fn any_lacks(atoms: &[Atom], number: u32) -> bool
    ensures { result ≡ list_any (λ a. lacks a number) atoms.now }
{
    for atom in atoms {
        if let Atom::Lacks(q) = atom {
            if *q == number {
                return true;
            }
        }
    }
    false
}

/// Whether the number's placement is dead.
pub fn is_dead(view: &View, atoms: &[Atom], number: u32) -> bool
    ensures { result ≡ dead view.now atoms.now number }
{
    !has_number(view.live(), number) || any_lacks(atoms, number)
}

// The least of an item after one more atom.
fn over(atom: &Atom, item: &Item, least: u8) -> u8
    ensures { result ≡ least_by atom.now item.now least }
{
    match atom {
        Atom::AtLeast(i, n) => { if i.is(item) { (*n).max(least) } else { least } }
        _ => least,
    }
}

/// How many members must have the item at least: its least in the view, raised by the `AtLeast` atoms.
pub(crate) fn least_of(view: &View, atoms: &[Atom], item: &Item) -> u8
    ensures { result ≡ least_at view.now atoms.now item.now }
{
    let mut least = view.bounds(*item).0;
    let mut k = atoms.len();
    while k > 0 {
        k -= 1;
        least = over(&atoms[k], item, least);
    }
    least
}

// Whether too few members have the item.
fn is_due(view: &View, atoms: &[Atom], members: &[u32], item: &Item) -> bool
    ensures { result ≡ nat_lt (count view.now members.now item.now) (least_at view.now atoms.now item.now) }
{
    view.count(members, item) < least_of(view, atoms, item) as usize
}

/// An item that an atom asks for, that is not in the view, and that the members don't cover often enough; `None` if there is
/// no such item. Such an item has no option.
pub(crate) fn due_elsewhere(view: &View, atoms: &[Atom], members: &[u32]) -> Option<Item>
    ensures { MatchOption result (list_all (of_asked (λ i. list_any (λ b. same_item b.item i) view.now.bounds || not (nat_lt (count view.now members.now i) (least_at view.now atoms.now i)))) atoms.now ≡ true) (λ i. nat_lt (count view.now members.now i) (least_at view.now atoms.now i) ≡ true) }
{
    for atom in atoms {
        if let Atom::AtLeast(item, _) = atom {
            if find_bound(view.items(), item).is_none() && is_due(view, atoms, members, item) {
                return Some(*item);
            }
        }
    }
    None
}

/// Each tiling of the family has at least this many members with the item: as many as the view and the atoms ask for, or as
/// many as the base has, whichever is more.
pub(crate) fn least_with_base(view: &View, atoms: &[Atom], members: &[u32], item: &Item) -> usize
    requires { members.now ≡ base view.now atoms.now }
    ensures { result ≡ least_with_base view.now atoms.now item.now }
{
    (least_of(view, atoms, item) as usize).max(view.count(members, item))
}

fn is_met(view: &View, numbers: &[u32], atom: &Atom) -> bool
    ensures { result ≡ meets view.now numbers.now atom.now }
{
    match atom {
        Atom::Has(p) => has_number(numbers, *p),
        Atom::Lacks(p) => !has_number(numbers, *p),
        Atom::AtLeast(i, n) => *n as usize <= view.count(numbers, i),
        Atom::AtMost(i, n) => view.count(numbers, i) <= *n as usize,
    }
}

fn all_met(view: &View, numbers: &[u32], atoms: &[Atom]) -> bool
    ensures { result ≡ meets_all view.now numbers.now atoms.now }
{
    for atom in atoms {
        if !is_met(view, numbers, atom) {
            return false;
        }
    }
    true
}

/// Whether the numbers are a tiling that meets the atoms.
pub fn is_member(view: &View, atoms: &[Atom], numbers: &[u32]) -> bool
    ensures { result ≡ in_family view.now atoms.now numbers.now }
{
    view.is_tiling(numbers) && all_met(view, numbers, atoms)
}
