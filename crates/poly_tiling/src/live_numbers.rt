//! The numbers of the placements of a design.
ghost use Rattle.std.specs.Prelude.{IfSome, ℕ, ◌≡◌};
ghost use Rattle.poly_tiling.specs.Lists.{mem};
ghost use Rattle.poly_tiling.specs.Marks.{AreMarks};

use std::marker::Model;

/// The numbers that are placements of a design. If marks are kept for them, it takes one look-up to tell whether a number is
/// one of them.
#[derive(Drop)]
pub struct LiveNumbers {
    /// The numbers.
    numbers: Vec<u32>,
    /// For each number below a count, whether it is one of the numbers; `None` if that is not kept.
    marks: Option<Vec<bool>>,
}

impl Model for LiveNumbers {
    ghost use Rattle.std.specs.Prelude.{IfSome, List, ℕ};
    ghost use Rattle.poly_tiling.specs.Marks.{AreMarks};

    ghost Value = { List ℕ };

    ghost view = { λ l. l.numbers.items };

    ghost invariant = { λ l. IfSome l.marks (λ m. AreMarks l.numbers.items m.items) };
}

impl LiveNumbers {
    /// The numbers, without marks.
    pub fn unmarked(numbers: Vec<u32>) -> LiveNumbers
        ensures { result ≡ numbers.items }
    {
        LiveNumbers {
            numbers,
            marks: None,
        }
    }

    /// The numbers with these marks: for each number below a count, whether it is one of the numbers.
    pub fn marked(numbers: Vec<u32>, marks: Vec<bool>) -> LiveNumbers
        requires { AreMarks numbers.items marks.items }
        ensures { result ≡ numbers.items }
    {
        LiveNumbers {
            numbers,
            marks: Some(marks),
        }
    }

    /// The numbers.
    pub(crate) fn as_slice(&self) -> &[u32]
        ensures { result.now ≡ self.now }
    {
        &self.numbers
    }

    /// Whether the number is one of the numbers, if there is a mark for it.
    pub(crate) fn mark(&self, number: u32) -> Option<bool>
        ensures { IfSome result (λ yes. yes ≡ mem self.now number) }
    {
        match &self.marks {
            None => None,
            Some(marks) => marks.get(number as usize).copied(),
        }
    }
}
