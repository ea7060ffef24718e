//! The leaves of a tree that holds.
ghost use Rattle.std.specs.Prelude.{◌≡◌, ◌++◌, ◌<◌, ◌↔◌, [], IfErr, IfOk, IsTrue, MatchOption, OnOk, length, map, slice_index_or, ⊤};

use poly_atom::Atom;
use poly_grid::Refusal;
use poly_lists::{AtomLists, SharedLists};
use poly_tiling::Tiling;
use std::alloc::Global;
use std::marker::Model;

/// The leaves of a tree: the tilings of its Found nodes, and for each Rest the atoms that say what is left there. Nodes under
/// a dead placement add nothing.
#[derive(Drop)]
pub struct Leaves {
    /// The tilings of the Found nodes, in the order of the tree.
    pub tilings: Vec<Tiling>,
    /// The atoms of each Rest, in the order of the tree.
    pub rests: Rests,
}

/// Lists of atoms that all begin with the same atoms, which are stored once.
#[derive(Drop)]
pub struct Rests {
    /// The atoms that each list begins with.
    stem: Vec<Atom>,
    /// What follows them, for each list.
    paths: AtomLists,
}

impl Model for Rests {
    ghost use Rattle.std.specs.Prelude.{List, map, ◌++◌};
    ghost use Rattle.poly_atom.specs.declared.atom.Atom.{Atom};

    ghost Value = { List (List Atom) };

    ghost view = { λ r. map (λ p. r.stem.items ++ p) r.paths };
}

impl Rests {
    /// The stem followed by each path.
    pub(crate) fn new(stem: Vec<Atom>, paths: AtomLists) -> Rests
        ensures { result ≡ map (λ p. stem.items ++ p) paths }
    {
        Rests { stem, paths }
    }

    /// How many rests there are.
    pub fn len(&self) -> usize
        ensures { result ≡ length self.now }
    {
        self.paths.len()
    }

    /// Whether there are no rests.
    pub fn is_empty(&self) -> bool
        ensures { IsTrue result ↔ (length self.now ≡ 0) }
    {
        self.len() == 0
    }

    /// Writes the rest at the index to the buffer, in place of what the buffer had. Requires that there is such a rest. The
    /// only refusal is `Memory`.
    pub fn read(&self, index: usize, buffer: &mut Vec<Atom>) -> Result<(), Refusal>
        requires { index < length self.now }
        ensures ok { OnOk result (buffer.new.items ≡ slice_index_or self.now index []) }
        ensures why { IfErr result (λ e. e ≡ Refusal.Memory) }
    {
        self.paths.read(index, buffer)?;
        let count = buffer.len();
        buffer.extend_from_slice(&self.stem)?;
        buffer.rotate_left(count);
        Ok(())
    }

    /// The rests, to be shared. If all of them begin with the list of other lists at an index, that list is not stored once
    /// more but read from there, unless it is already read from too many others. Requires that there is a list at the index.
    /// The only refusal is `Memory`.
    pub fn share(
        self,
        alloc: Global,
        base: Option<(&SharedLists, usize)>,
    ) -> Result<SharedLists, Refusal>
        requires { MatchOption base ⊤ (λ b. b.1 < length b.0.now) }
        ensures ok { IfOk result (λ lists. lists ≡ self) }
        ensures why { IfErr result (λ e. e ≡ Refusal.Memory) }
    {
        let Rests { stem, paths } = self;
        paths.share_over(alloc, &stem, base)
    }
}
