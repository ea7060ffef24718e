//! How often a tiling uses a piece.
ghost use Rattle.std.specs.Prelude.{◌≡◌, ◌≤◌, SomeIff};

use std::marker::Model;

/// How many copies of a piece a tiling uses, at least and at most. Both are 0 to 16, and the least isn't above the most.
#[derive(Clone, Copy, Debug, PartialEq, Eq)]
pub struct Copies {
    /// The least number of copies, at most `most`.
    least: u8,
    /// The most copies, at most 16.
    most: u8,
}

impl Model for Copies {
    ghost use Rattle.std.specs.Prelude.{◌≤◌};
    ghost use Rattle.poly_design.specs.Bounds.{Bounds};

    ghost Value = { Bounds };

    ghost view = { λ c. record { least = c.least; most = c.most } };

    ghost invariant = { λ c. (c.least ≤ c.most) × (c.most ≤ 16) };

    ghost inverse = { λ b. record { least = b.least; most = b.most } };
}

impl Copies {
    /// Exactly one copy.
    pub const ONE: Copies = Copies { least: 1, most: 1 };

    /// One copy or none.
    pub const AT_MOST_ONE: Copies = Copies { least: 0, most: 1 };

    /// The copies with these bounds, or `None` if the least is over the most or the most is over 16.
    pub fn new(least: u64, most: u64) -> Option<Copies>
        ensures { SomeIff result ((least ≤ most) × (most ≤ 16)) (record { least = least; most = most }) }
    {
        if least <= most && most <= 16 {
            Some(Copies {
                least: least as u8,
                most: most as u8,
            })
        } else {
            None
        }
    }

    /// The least number of copies, 0 to 16.
    pub fn least(self) -> u8
        ensures value { result ≡ self.least }
        ensures bounded { (self.least ≤ self.most) × (self.most ≤ 16) }
    {
        self.least
    }

    /// The most copies, 0 to 16.
    pub fn most(self) -> u8
        ensures value { result ≡ self.most }
        ensures bounded { (self.least ≤ self.most) × (self.most ≤ 16) }
    {
        self.most
    }
}
