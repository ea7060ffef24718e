//! The base of a frame's atoms: an ascending list. A step adds at most one number, and undoing the step removes that number.
ghost use Rattle.std.specs.Prelude.{[], drop, length, take, vec_capacity, vec_len, ℕ, ◌++◌, ◌+◌, ◌-◌, ◌<◌, ◌∷◌, ◌≡◌, ◌≢◌, ◌≤◌};
ghost use Rattle.poly_atom.specs.Hopeless.{base};
ghost use Rattle.poly_frame.specs.FrameMembers.{SizesShow, without};

use crate::frame::node::Node;
use crate::plain::put_number;
use poly_atom::Atom;

// Removes the first occurrence of a number from a list.
fn take_number(numbers: &mut Vec<u32>, number: u32)
    ensures items { numbers.new.items ≡ without number numbers.old.items }
    ensures room { vec_capacity numbers.new ≡ vec_capacity numbers.old }
{
    for k in 0..numbers.len() {
        if number == numbers[k] {
            let _ = numbers.remove(k);
            return;
        }
    }
}

// If the atom is a `Has`, removes its placement.
fn take_last(numbers: &mut Vec<u32>, atom: &Atom)
    ensures asked { (p : ℕ) → atom.now ≡ Atom.Has p → numbers.new.items ≡ without p numbers.old.items }
    ensures other { ((p : ℕ) → atom.now ≢ Atom.Has p) → numbers.new.items ≡ numbers.old.items }
    ensures room { vec_capacity numbers.new ≡ vec_capacity numbers.old }
{
    if let Atom::Has(number) = atom {
        take_number(numbers, *number);
    }
}

/// Takes a number into the base.
pub(crate) fn pick(node: &Node<'_>, members: &mut Vec<u32>, sizes: &mut Vec<usize>, number: u32)
    requires base { members.old.items ≡ base node.now.view.now node.now.trail.now }
    requires sizes { SizesShow node.now.view.now node.now.trail.now node.now.given sizes.old.items }
    requires room { length node.now.view.now.pins + length node.now.trail.now < vec_capacity members.old }
    requires space { vec_len sizes.old < vec_capacity sizes.old }
    ensures base { members.new.items ≡ base node.now.view.now (node.now.trail.now ++ Atom.Has number ∷ []) }
    ensures sizes { SizesShow node.now.view.now (node.now.trail.now ++ Atom.Has number ∷ []) node.now.given sizes.new.items }
    ensures room { vec_capacity members.old ≤ vec_capacity members.new }
    ensures space { vec_capacity sizes.new ≡ vec_capacity sizes.old }
{
    sizes.push_reserved(members.len());
    put_number(members, number);
}

/// Leaves a number out: the base stays the same.
pub(crate) fn leave(node: &Node<'_>, members: &[u32], sizes: &mut Vec<usize>, number: u32)
    requires base { members.now ≡ base node.now.view.now node.now.trail.now }
    requires sizes { SizesShow node.now.view.now node.now.trail.now node.now.given sizes.old.items }
    requires space { vec_len sizes.old < vec_capacity sizes.old }
    ensures base { members.now ≡ base node.now.view.now (node.now.trail.now ++ Atom.Lacks number ∷ []) }
    ensures sizes { SizesShow node.now.view.now (node.now.trail.now ++ Atom.Lacks number ∷ []) node.now.given sizes.new.items }
    ensures space { vec_capacity sizes.new ≡ vec_capacity sizes.old }
{
    sizes.push_reserved(members.len());
}

/// Undoes the last step.
pub(crate) fn back(node: &Node<'_>, members: &mut Vec<u32>, sizes: &mut Vec<usize>)
    requires base { members.old.items ≡ base node.now.view.now node.now.trail.now }
    requires sizes { SizesShow node.now.view.now node.now.trail.now node.now.given sizes.old.items }
    requires some { node.now.given < length node.now.trail.now }
    ensures base { members.new.items ≡ base node.now.view.now (take (length node.now.trail.now - 1) node.now.trail.now) }
    ensures sizes { SizesShow node.now.view.now (take (length node.now.trail.now - 1) node.now.trail.now) node.now.given sizes.new.items }
    ensures room { vec_capacity members.new ≡ vec_capacity members.old }
    ensures space { vec_capacity sizes.new ≡ vec_capacity sizes.old }
{
    let last = sizes.len() - 1;
    let size = sizes[last];
    sizes.truncate(last);
    if size == members.len() {
        return;
    }
    take_last(members, &node.trail[node.trail.len() - 1]);
}
