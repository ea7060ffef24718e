//! The lists of a frame, with room for all of its steps.
ghost use Rattle.std.specs.Prelude.{IfErr, IfOk, [], length, vec_capacity, ◌+◌, ◌≡◌, ◌≤◌};
ghost use Rattle.poly_atom.specs.Hopeless.{base};
ghost use Rattle.poly_frame.specs.Frames.{IsKept};

use crate::frame::STEPS;
use crate::plain;
use poly_atom::Atom;
use poly_grid::Refusal;
use poly_tiling::View;

/// The lists of a frame.
#[derive(Drop)]
pub(crate) struct Lists {
    /// The given atoms, then one atom for each step.
    pub(crate) trail: Vec<Atom>,
    /// The base of the atoms on the trail, ascending.
    pub(crate) members: Vec<u32>,
    /// How many members the base had before each step.
    pub(crate) sizes: Vec<usize>,
    /// The list that `options` of the frame answers with.
    pub(crate) options: Vec<u32>,
}

/// Makes the lists those of a frame at the atoms, without steps.
pub(crate) fn begin_lists(view: &View, atoms: &[Atom], lists: &mut Lists) -> Result<(), Refusal>
    ensures kept { IfOk result (λ _. IsKept view.now lists.new.trail (length atoms.now) lists.new.members lists.new.options) }
    ensures trail { IfOk result (λ _. lists.new.trail.items ≡ atoms.now) }
    ensures sizes { IfOk result (λ _. lists.new.sizes.items ≡ []) }
    ensures changes { IfOk result (λ _. STEPS ≤ vec_capacity lists.new.sizes) }
    ensures why { IfErr result (λ e. e ≡ Refusal.Memory) }
{
    begin_trail(atoms, &mut lists.trail)?;
    begin_members(view, atoms, &mut lists.members)?;
    lists.sizes.clear();
    lists.sizes.reserve(STEPS)?;
    lists.options.clear();
    lists.options.reserve(view.live().len())?;
    Ok(())
}

// Makes the trail the atoms, with room for all steps.
fn begin_trail(atoms: &[Atom], trail: &mut Vec<Atom>) -> Result<(), Refusal>
    ensures items { IfOk result (λ _. trail.new.items ≡ atoms.now) }
    ensures room { IfOk result (λ _. length atoms.now + STEPS ≤ vec_capacity trail.new) }
    ensures why { IfErr result (λ e. e ≡ Refusal.Memory) }
{
    trail.clear();
    trail.reserve(atoms.len().saturating_add(STEPS))?;
    trail.extend_from_slice(atoms)?;
    Ok(())
}

// Makes the list the base of the atoms, with room for all steps.
fn begin_members(view: &View, atoms: &[Atom], members: &mut Vec<u32>) -> Result<(), Refusal>
    ensures base { IfOk result (λ _. members.new.items ≡ base view.now atoms.now) }
    ensures room { IfOk result (λ _. length view.now.pins + (length atoms.now + STEPS) ≤ vec_capacity members.new) }
    ensures why { IfErr result (λ e. e ≡ Refusal.Memory) }
{
    members.clear();
    members.reserve(view.pins().len() + atoms.len() + STEPS)?;
    plain::make_base(view, atoms, members);
    Ok(())
}
