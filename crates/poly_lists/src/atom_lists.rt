//! Lists of atoms that share their beginnings.
//!
//! A walk over a tree meets its rests in order, and the path of each begins as that of the rest before it does, up to where
//! they part. A path can have thousands of atoms, and a tree thousands of rests. So each atom is stored once for all lists that
//! agree up to it, with a link to the atom before it: the lists are a trie, in which the end of a list leads back to its
//! beginning.
ghost use Rattle.std.specs.Prelude.{◌≡◌, ◌++◌, ◌∷◌, ◌<◌, ◌↔◌, [], IfErr, IfOk, IsTrue, MatchOption, OnErr, OnOk, length, map, slice_index_or, take, ⊤};

use crate::growing::Growing;
use crate::nodes::short;
use crate::shared_lists::SharedLists;
use crate::walk::read_back;
use poly_atom::Atom;
use poly_grid::Refusal;
use std::alloc::Global;
use std::marker::Model;

/// Lists of atoms, in the order in which they were added. What lists have in common at their beginning is stored once, if they
/// were added one right after the other.
#[derive(Drop)]
pub struct AtomLists {
    /// The nodes.
    nodes: Growing,
    /// The node of each list.
    ends: Vec<u32>,
}

impl Model for AtomLists {
    ghost use Rattle.std.specs.Prelude.{List};
    ghost use Rattle.poly_atom.specs.declared.atom.Atom.{Atom};
    ghost use Rattle.poly_lists.specs.Linked.{AreLinked, ended};

    ghost Value = { List (List Atom) };

    ghost view = { λ r. ended r.nodes r.ends.items };

    ghost invariant = { λ r. AreLinked r.nodes r.ends.items };
}

impl AtomLists {
    /// No lists.
    pub fn new(alloc: Global) -> AtomLists
        ensures { result ≡ [] }
    {
        AtomLists {
            nodes: Growing::new(alloc),
            ends: Vec::new(alloc),
        }
    }

    /// How many lists there are.
    pub fn len(&self) -> usize
        ensures { result ≡ length self.now }
    {
        self.ends.len()
    }

    /// Whether there are no lists.
    pub fn is_empty(&self) -> bool
        ensures { IsTrue result ↔ (length self.now ≡ 0) }
    {
        self.len() == 0
    }

    /// Adds a list. The only refusal is `Memory`, and it leaves the lists as they were.
    pub fn push(&mut self, list: &[Atom]) -> Result<(), Refusal>
        ensures ok { OnOk result (self.new ≡ self.old ++ list.now ∷ []) }
        ensures err { OnErr result (self.new ≡ self.old) }
        ensures why { IfErr result (λ e. e ≡ Refusal.Memory) }
    {
        self.push_both(list, &[])?;
        Ok(())
    }

    /// Adds a list with one more atom at its end. The only refusal is `Memory`, and it leaves the lists as they were.
    pub fn push_with(&mut self, list: &[Atom], last: Atom) -> Result<(), Refusal>
        ensures ok { OnOk result (self.new ≡ self.old ++ (list.now ++ last ∷ []) ∷ []) }
        ensures err { OnErr result (self.new ≡ self.old) }
        ensures why { IfErr result (λ e. e ≡ Refusal.Memory) }
    {
        self.push_both(list, &[last])?;
        Ok(())
    }

    // Adds a list with the atoms of both.
    fn push_both(&mut self, list: &[Atom], more: &[Atom]) -> Result<(), Refusal>
        ensures ok { OnOk result (self.new ≡ self.old ++ (list.now ++ more.now) ∷ []) }
        ensures err { OnErr result (self.new ≡ self.old) }
        ensures why { IfErr result (λ e. e ≡ Refusal.Memory) }
    {
        self.ends.reserve(1)?;
        let node = self.nodes.add(list, more)?;
        let end = short(node)?;
        self.ends.push_reserved(end);
        Ok(())
    }

    /// Removes the lists from this index on. Never allocates.
    pub fn truncate(&mut self, len: usize)
        ensures { self.new ≡ take len self.old }
    {
        self.ends.truncate(len);
    }

    /// Writes the list at the index to the buffer, in place of what the buffer had. Requires that there is such a list. The
    /// only refusal is `Memory`.
    pub fn read(&self, index: usize, buffer: &mut Vec<Atom>) -> Result<(), Refusal>
        requires { index < length self.now }
        ensures ok { OnOk result (buffer.new.items ≡ slice_index_or self.now index []) }
        ensures why { IfErr result (λ e. e ≡ Refusal.Memory) }
    {
        buffer.clear();
        read_back(self.nodes.nodes(), self.ends[index] as usize, buffer)?;
        buffer.reverse();
        Ok(())
    }

    /// The lists, each after the stem, to be shared. If the stem begins with the list of other lists at an index, that list is
    /// not stored once more but read from there, unless it is already read from too many others. Requires that there is a list
    /// at the index. The only refusal is `Memory`.
    pub fn share_over(
        self,
        alloc: Global,
        stem: &[Atom],
        base: Option<(&SharedLists, usize)>,
    ) -> Result<SharedLists, Refusal>
        requires { MatchOption base ⊤ (λ b. b.1 < length b.0.now) }
        ensures ok { IfOk result (λ lists. lists ≡ map (λ p. stem.now ++ p) self) }
        ensures why { IfErr result (λ e. e ≡ Refusal.Memory) }
    {
        SharedLists::over(alloc, stem, self.nodes.into_nodes(), self.ends, base)
    }
}
