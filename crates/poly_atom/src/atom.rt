//! Atoms: what a set of placements is asked to meet.
ghost use Rattle.std.specs.Prelude.{◌≡◌};
ghost use Rattle.poly_atom.specs.Atoms.{IsSmall, negated};

use poly_tiling::Item;

/// A condition on a set of placements: it has a placement, it lacks one, it covers an item at least n times, or it covers
/// one at most n times.
#[derive(Clone, Copy, Debug, PartialEq, Eq)]
pub enum Atom {
    /// The set has the placement that the number names.
    Has(u32),
    /// The set doesn't have the placement that the number names.
    Lacks(u32),
    /// At least this many placements of the set have the item.
    AtLeast(Item, u8),
    /// At most this many placements of the set have the item.
    AtMost(Item, u8),
}

impl Atom {
    /// Returns the atom that a set meets exactly if it doesn't meet this one. Requires that the number of `AtLeast` is
    /// at least 1 and that of `AtMost` below 255, as in each guard of a change.
    pub fn negated(self) -> Atom
        requires { IsSmall self }
        ensures { result ≡ negated self }
    {
        match self {
            Atom::Has(p) => Atom::Lacks(p),
            Atom::Lacks(p) => Atom::Has(p),
            Atom::AtLeast(item, n) => Atom::AtMost(item, n - 1),
            Atom::AtMost(item, n) => Atom::AtLeast(item, n + 1),
        }
    }
}
