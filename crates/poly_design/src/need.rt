//! Whether a piece has to be used.
ghost use Rattle.std.specs.Prelude.{◌≡◌};
ghost use Rattle.poly_design.specs.Edits.{copies_of};

use crate::copies::Copies;

/// Whether a tiling has to use a piece once or may use it once.
#[derive(Clone, Copy, Debug, PartialEq, Eq)]
pub enum Need {
    /// Exactly one copy.
    Required,
    /// One copy or none.
    Optional,
}

impl Need {
    /// The copies that this need asks for: exactly one, or at most one.
    pub fn copies(self) -> Copies
        ensures { result ≡ copies_of self }
    {
        match self {
            Need::Required => Copies::ONE,
            Need::Optional => Copies::AT_MOST_ONE,
        }
    }
}
