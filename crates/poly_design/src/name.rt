//! The names of pieces.
ghost use Rattle.std.specs.Prelude.{◌≡◌, ◌↔◌, ◌≤◌, IsOk, IsTrue, IfOk, IfErr, length};
ghost use Rattle.poly_design.specs.Name.{IsName, is_name_byte};

use poly_grid::Refusal;
use std::cmp::Ordering;
use std::hash::{Hash, Hasher};
use std::marker::Model;

/// A piece's name: 1 to 16 bytes of `A-Z a-z 0-9 _`. Names are ordered by their bytes; a name that is a prefix of another
/// comes first.
#[derive(Clone, Copy, Debug)]
pub struct Name {
    /// The bytes of the name, and after them zeros up to the end.
    bytes: [u8; 16],
    /// How many bytes the name has, 1 to 16. One byte is enough for it: a book keeps millions of atoms, and most of an atom's
    /// size is that of a name.
    len: u8,
}

impl Model for Name {
    ghost use Rattle.std.specs.Prelude.{List, ℕ, length};
    ghost use Rattle.std.proofs.Common.{sym};

    ghost Value = { List ℕ };

    ghost use Rattle.poly_design.specs.NameKept.{IsWellKept, padded, list_of};

    ghost view = { list_of };

    ghost invariant = { IsWellKept };

    ghost inverse = { λ l. record { bytes = padded l; len = length l } };

    ghost inverse_ok = { λ a h i. record { bytes = (sym h.padding) i; len = h.full i } };
}

impl Name {
    /// The name of these bytes. Fails with `BadName` if they are not a name. Never allocates.
    pub fn new(bytes: &[u8]) -> Result<Name, Refusal>
        ensures ok { IfOk result (λ name. name ≡ bytes.now) }
        ensures when { IsOk result ↔ IsName bytes.now }
        ensures why { IfErr result (λ e. e ≡ Refusal.BadName) }
    {
        if !is_name(bytes) {
            return Err(Refusal::BadName);
        }
        let mut kept = [0u8; 16];
        kept[..bytes.len()].copy_from_slice(bytes);
        Ok(Name {
            bytes: kept,
            len: bytes.len() as u8,
        })
    }

    /// The bytes of the name.
    pub fn as_bytes(&self) -> &[u8]
        ensures value { result.now ≡ self.now }
        ensures name { IsName self.now }
    {
        &self.bytes[..self.len as usize]
    }
}

fn is_name(bytes: &[u8]) -> bool
    ensures { IsTrue result ↔ IsName bytes.now }
{
    !bytes.is_empty() && bytes.len() <= 16 && bytes.iter().all(|b| is_name_byte(*b))
}

fn is_name_byte(byte: u8) -> bool
    ensures { result ≡ is_name_byte byte }
{
    byte.is_ascii_alphanumeric() || byte == b'_'
}

impl PartialEq for Name {
    ghost use Rattle.std.specs.Prelude.{nat_eq};
    ghost use Rattle.std.specs.Cmp.{partial_equiv_from_equiv};
    ghost use Rattle.std.specs.Cmp.Lexicographic.{pointwise, nat_list_eq_equiv};

    ghost eq = { pointwise nat_eq };

    ghost laws = { partial_equiv_from_equiv nat_list_eq_equiv };

    fn eq(&self, other: &Name) -> bool {
        self.as_bytes() == other.as_bytes()
    }
}

impl Eq for Name {
    ghost use Rattle.std.specs.Cmp.Lexicographic.{nat_list_eq_equiv};

    ghost laws = { nat_list_eq_equiv };
}

impl PartialOrd for Name {
    ghost use Rattle.std.specs.Ordering.{as_partial_cmp};
    ghost use Rattle.poly_design.specs.Name.{name_cmp, name_laws};

    ghost partial_cmp = { as_partial_cmp name_cmp };

    ghost laws = { name_laws };

    fn partial_cmp(&self, other: &Name) -> Option<Ordering> {
        Some(self.cmp(other))
    }
}

impl Ord for Name {
    ghost use Rattle.std.specs.Prelude.{refl};
    ghost use Rattle.std.specs.Cmp.Lexicographic.{nat_list_cmp_total, texts_ties};
    ghost use Rattle.poly_design.specs.Name.{name_cmp};

    ghost cmp = { name_cmp };

    ghost total = { nat_list_cmp_total };

    ghost matches_partial_cmp = { λ x y. refl };

    ghost matches_eq = { texts_ties };

    fn cmp(&self, other: &Name) -> Ordering {
        self.as_bytes().cmp(other.as_bytes())
    }
}

impl Hash for Name {
    ghost use Rattle.std.specs.Hash.{slice, u8};
    ghost use Rattle.poly_design.specs.Name.{name_alike};

    ghost hash_input = { slice u8 };

    ghost respects_eq = { name_alike.fed };

    fn hash<H: Hasher>(&self, state: &mut H) {
        Hash::hash(&self.as_bytes(), state);
    }
}
