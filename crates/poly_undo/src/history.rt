//! The steps to undo and the steps to redo. Each list has room for `MAX_STEPS` steps from the start, and never has more. So
//! only `new` can run out of memory, and every change that was made can be recorded.

ghost use Rattle.std.specs.Prelude.{◌≡◌, ◌+◌, ◌∷◌, ◌++◌, ◌<◌, ◌≤◌, ◌↔◌, [], IfErr, IfOk, IsSome, length, option_copied, slice_get};
ghost use Rattle.poly_undo.specs.Steps.{Moves, newest, next_of};

use crate::shelf::Shelf;
use crate::step::Step;
use circular_buffer::HeapCircularBuffer;
use poly_design::Change;
use poly_grid::Refusal;
use std::alloc::Global;
use std::marker::Model;
use std::mem::replace;

/// The most steps that a history has, those to undo and those to redo together.
pub const MAX_STEPS: usize = 256;

/// The steps that can be undone and the steps that can be redone, at most 256 together. If 256 steps can be undone, one
/// more step drops the oldest.
///
/// A `History` keeps changes of a design, each with its shelf if it has one. `History<C, K>` keeps changes of type `C`,
/// each with a `K` if it has one.
#[derive(Drop)]
pub struct History<C = Change, K = Shelf> {
    /// The steps that can be undone, oldest first. The last one is undone next.
    undo: HeapCircularBuffer<Step<C, K>>,
    /// The steps that can be redone. The last one is redone next.
    redo: Vec<Step<C, K>>,
}

impl<C, K> Model for History<C, K> {
    ghost use Rattle.poly_undo.specs.Steps.{HasRoom, Steps};

    ghost Value = { Steps C K };

    ghost view = { λ h. record { undo = h.undo.items; redo = h.redo.items } };

    ghost invariant = { λ h. HasRoom h.undo h.redo };
}

impl<C: Drop, K: Drop> History<C, K> {
    /// A history without steps. Fails only when out of memory.
    pub fn new(alloc: Global) -> Result<History<C, K>, Refusal>
        ensures ok { IfOk result (λ h. h ≡ record { undo = []; redo = [] }) }
        ensures why { IfErr result (λ e. e ≡ Refusal.Memory) }
    {
        let undo = HeapCircularBuffer::with_capacity(alloc, MAX_STEPS)?;
        let redo = Vec::with_capacity(alloc, MAX_STEPS)?;
        Ok(History { undo, redo })
    }

    /// Adds the change that was just made to the steps to undo, with what is kept for it. Drops all steps to redo, and the
    /// oldest step to undo if 256 could be undone already.
    pub fn push(&mut self, change: C, kept: Option<K>)
        ensures undo { self.new.undo ≡ newest (self.old.undo ++ (record { change = change; kept = kept }) ∷ []) }
        ensures redo { self.new.redo ≡ [] }
    {
        self.redo.clear();
        drop(self.undo.push_back(Step { change, kept }));
    }

    /// How many steps can be undone.
    pub fn undo_len(&self) -> usize
        ensures value { result ≡ length self.now.undo }
        ensures few { length self.now.undo + length self.now.redo ≤ MAX_STEPS }
    {
        self.undo.len()
    }

    /// How many steps can be redone.
    pub fn redo_len(&self) -> usize
        ensures value { result ≡ length self.now.redo }
        ensures few { length self.now.undo + length self.now.redo ≤ MAX_STEPS }
    {
        self.redo.len()
    }

    /// The step that would be undone next, if there is one.
    pub fn last(&self) -> Option<&Step<C, K>>
        ensures step { option_copied result ≡ next_of self.now.undo }
        ensures some { IsSome result ↔ (0 < length self.now.undo) }
        ensures few { length self.now.undo + length self.now.redo ≤ MAX_STEPS }
    {
        self.undo.back()
    }

    /// The step that would be redone next, if there is one.
    pub fn ahead(&self) -> Option<&Step<C, K>>
        ensures step { option_copied result ≡ next_of self.now.redo }
        ensures some { IsSome result ↔ (0 < length self.now.redo) }
        ensures few { length self.now.undo + length self.now.redo ≤ MAX_STEPS }
    {
        self.redo.last()
    }

    /// The step to undo at the index, if there is one. The step at index 0 is undone last.
    pub fn undo_step(&self, index: usize) -> Option<&Step<C, K>>
        ensures { option_copied result ≡ slice_get self.now.undo index }
    {
        self.undo.get(index)
    }

    /// The step to redo at the index, if there is one. The step at index 0 is redone last.
    pub fn redo_step(&self, index: usize) -> Option<&Step<C, K>>
        ensures { option_copied result ≡ slice_get self.now.redo index }
    {
        self.redo.get(index)
    }

    /// Removes the last of the steps to undo and adds it as the last of the steps to redo, so it is redone next. Keeps `kept`
    /// with this step, and returns what was kept with it before. Requires a step to undo.
    pub fn back(&mut self, kept: Option<K>) -> Option<K>
        requires { 0 < length self.old.undo }
        ensures { Moves self.old.undo self.old.redo self.new.undo self.new.redo kept result }
    {
        let mut step = self.undo.pop_back().unwrap();
        let stood = replace(&mut step.kept, kept);
        self.redo.push_reserved(step);
        stood
    }

    /// Removes the last of the steps to redo and adds it as the last of the steps to undo, so it is undone next. Keeps `kept`
    /// with this step, and returns what was kept with it before. Requires a step to redo.
    pub fn forward(&mut self, kept: Option<K>) -> Option<K>
        requires { 0 < length self.old.redo }
        ensures { Moves self.old.redo self.old.undo self.new.redo self.new.undo kept result }
    {
        let mut step = self.redo.pop().unwrap();
        let stood = replace(&mut step.kept, kept);
        let _ = self.undo.push_back(step);
        stood
    }
}
