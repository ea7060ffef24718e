//! Which placements are alive at the given atoms: a bit for each number. With these bits, a frame tells whether a placement is
//! dead without reading the given atoms and the placements of the design, which can be many thousands. The steps of a frame don't
//! change the bits; what they leave out is read from the trail.
ghost use Rattle.std.specs.Prelude.{IfErr, IfOk, false, length, nat_lt, not, true, ℕ, ◌&&◌, ◌/◌, ◌<◌, ◌==◌, ◌||◌, ◌≡◌};
ghost use Rattle.std.specs.List.{list_all, list_any};
ghost use Rattle.poly_tiling.specs.Lists.{mem};
ghost use Rattle.poly_atom.specs.Hopeless.{lacks};
ghost use Rattle.poly_frame.specs.Alive.{AliveShows, KnowsDead};
ghost use Rattle.poly_frame.specs.Bits.{has_bit};
ghost use Rattle.poly_frame.specs.Open.{dead};

use crate::frame::node::Node;
use crate::{bits, plain};
use poly_atom::Atom;
use poly_grid::Refusal;
use poly_tiling::View;
use std::alloc::Global;

// As many words as a bit for each of `count` numbers takes, or one more, without a bit that is set.
fn no_bits(alloc: Global, count: usize) -> Result<Vec<u64>, Refusal>
    ensures wide { IfOk result (λ w. count / 64 < length w.items) }
    ensures bits { IfOk result (λ w. (x : ℕ) → has_bit w.items x ≡ false) }
    ensures why { IfErr result (λ e. e ≡ Refusal.Memory) }
{
    let words = vec![in alloc; 0u64; count / 64 + 1]?;
    Ok(words)
}

// Sets the bits of the numbers.
fn put_numbers(words: &mut Vec<u64>, numbers: &[u32])
    requires { (count : ℕ) × (count / 64 < length words.old.items) × (list_all (λ p. nat_lt p count) numbers.now ≡ true) }
    ensures len { length words.new.items ≡ length words.old.items }
    ensures bits { (x : ℕ) → has_bit words.new.items x ≡ (has_bit words.old.items x || mem numbers.now x) }
{
    for p in numbers {
        bits::put_in(words, 0, *p as usize);
    }
}

// Clears the bit of a number, if the words have that bit.
fn take_out_number(words: &mut Vec<u64>, number: u32)
    ensures len { length words.new.items ≡ length words.old.items }
    ensures bits { (x : ℕ) → has_bit words.new.items x ≡ (has_bit words.old.items x && not (number == x)) }
{
    let j = number as usize;
    if j / 64 < words.len() {
        bits::take_out(words, 0, j);
    }
}

fn take_out_lacked_by(words: &mut Vec<u64>, atom: &Atom)
    ensures len { length words.new.items ≡ length words.old.items }
    ensures bits { (x : ℕ) → has_bit words.new.items x ≡ (has_bit words.old.items x && not (lacks atom.now x)) }
{
    if let Atom::Lacks(number) = atom {
        take_out_number(words, *number);
    }
}

// Clears the bits of the numbers that an atom lacks.
fn take_out_lacked(words: &mut Vec<u64>, atoms: &[Atom])
    ensures len { length words.new.items ≡ length words.old.items }
    ensures bits { (x : ℕ) → has_bit words.new.items x ≡ (has_bit words.old.items x && not (list_any (λ a. lacks a x) atoms.now)) }
{
    for atom in atoms {
        take_out_lacked_by(words, atom);
    }
}

/// The bits of the numbers that are not dead at the atoms: those of the design's placements that no atom lacks.
pub(crate) fn alive_of(alloc: Global, view: &View, atoms: &[Atom]) -> Result<Vec<u64>, Refusal>
    ensures bits { IfOk result (λ w. AliveShows view.now atoms.now (length atoms.now) w.items) }
    ensures why { IfErr result (λ e. e ≡ Refusal.Memory) }
{
    let mut words = no_bits(alloc, view.number_count())?;
    put_numbers(&mut words, view.live());
    take_out_lacked(&mut words, atoms);
    Ok(words)
}

// Whether the number has a bit that is set.
fn has_number(words: &[u64], number: u32) -> bool
    ensures { result ≡ has_bit words.now number }
{
    let j = number as usize;
    if j / 64 >= words.len() {
        return false;
    }
    bits::has(words, 0, j)
}

/// Whether the number's placement is dead at the node. Reads the given atoms and the placements of the design only if the node
/// has no bits.
pub(crate) fn is_dead(node: &Node<'_>, number: u32) -> bool
    requires { KnowsDead node.now }
    ensures { result ≡ dead node.now.view.now node.now.trail.now number }
{
    if node.alive.is_empty() {
        return plain::is_dead(node.view, node.trail, number);
    }
    !has_number(node.alive, number) || plain::any_lacks(&node.trail[node.given..], number)
}
