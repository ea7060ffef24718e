//! A tiling, by numbers.
ghost use Rattle.std.specs.Prelude.{true, IfOk, IfErr, ◌≡◌};
ghost use Rattle.poly_tiling.specs.Lists.{ascending};

use poly_grid::Refusal;
use std::marker::Model;

/// The numbers of a tiling's placements, ascending and each once.
#[derive(Drop)]
pub struct Tiling {
    /// The numbers, ascending.
    numbers: Vec<u32>,
}

impl Model for Tiling {
    ghost use Rattle.std.specs.Prelude.{List, true, ℕ, ◌≡◌};
    ghost use Rattle.poly_tiling.specs.Lists.{ascending};

    ghost Value = { List ℕ };

    ghost view = { λ t. t.numbers.items };

    ghost invariant = { λ t. ascending t.numbers.items ≡ true };
}

impl Tiling {
    /// The tiling of these numbers, which must ascend without repeats.
    pub fn new(numbers: Vec<u32>) -> Tiling
        requires { ascending numbers.items ≡ true }
        ensures { result ≡ numbers.items }
    {
        Tiling { numbers }
    }

    /// The numbers, ascending and each once.
    pub fn numbers(&self) -> &[u32]
        ensures value { result.now ≡ self.now }
        ensures ascends { ascending self.now ≡ true }
    {
        &self.numbers
    }

    /// The list of the numbers itself. Never allocates.
    pub fn into_numbers(self) -> Vec<u32>
        ensures value { result.items ≡ self }
        ensures ascends { ascending result.items ≡ true }
    {
        self.numbers
    }

    /// An equal tiling. Fails only when out of memory.
    pub fn copy(&self) -> Result<Tiling, Refusal>
        ensures ok { IfOk result (λ tiling. tiling ≡ self.now) }
        ensures why { IfErr result (λ e. e ≡ Refusal.Memory) }
    {
        Ok(Tiling {
            numbers: Vec::from_slice(*self.numbers.allocator(), self.numbers())?,
        })
    }
}
