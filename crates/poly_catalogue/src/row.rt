//! Lists of numbers.
ghost use Rattle.std.specs.Prelude.{◌≡◌, ◌+◌, ◌++◌, ◌-◌, ◌∷◌, ◌<◌, [], IfErr, OnErr, OnOk, length, slice_get, slice_index, slice_set, take};

use poly_grid::Refusal;
use std::alloc::Global;
use std::marker::Model;

/// A list of numbers. The index has one for each placement number: the indices of the tilings that have the number.
#[derive(Drop)]
pub(crate) struct Row {
    /// The numbers, in the order of the list.
    numbers: Vec<u32>,
}

impl Model for Row {
    ghost use Rattle.std.specs.Prelude.{List, ℕ};

    ghost Value = { List ℕ };

    ghost view = { λ r. r.numbers.items };
}

impl Row {
    /// A list without numbers.
    pub(crate) fn new(alloc: Global) -> Row
        ensures { result ≡ [] }
    {
        Row {
            numbers: Vec::new(alloc),
        }
    }

    pub(crate) fn numbers(&self) -> &[u32]
        ensures { result.now ≡ self.now }
    {
        &self.numbers
    }

    pub(crate) fn len(&self) -> usize
        ensures { result ≡ length self.now }
    {
        self.numbers.len()
    }

    pub(crate) fn get(&self, position: usize) -> u32
        requires { position < length self.now }
        ensures { result ≡ slice_index self.now position }
    {
        self.numbers[position]
    }

    pub(crate) fn set(&mut self, position: usize, number: u32)
        requires { position < length self.old }
        ensures { self.new ≡ slice_set self.old position number }
    {
        self.numbers[position] = number;
    }

    /// Adds the number at the end. Fails only with `Memory`, and then the list stays as it was.
    pub(crate) fn push(&mut self, number: u32) -> Result<(), Refusal>
        ensures ok { OnOk result (self.new ≡ self.old ++ number ∷ []) }
        ensures err { OnErr result (self.new ≡ self.old) }
        ensures why { IfErr result (λ e. e ≡ Refusal.Memory) }
    {
        self.numbers.push(number)?;
        Ok(())
    }

    /// Removes the last number, if there is one.
    pub(crate) fn cut(&mut self)
        ensures { self.new ≡ take (length self.old - 1) self.old }
    {
        let _ = self.numbers.pop();
    }
}
