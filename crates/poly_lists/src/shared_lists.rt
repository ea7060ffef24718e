//! Lists of atoms that are finished, and shared by whoever reads them.
//!
//! The rests of a report begin with the atoms of the task that the report cuts up. These are most of each rest on a wide
//! board, and they are often a list of an earlier report. So lists are kept over their stem, the list that all of them begin
//! with: it is a list of other lists, and whoever reads them begins there.
//!
//! A list is thus read through a chain of tries. On a wide board most of these add nothing but `Lacks`, so each trie has a
//! second stem, which leaves them out: reading the atoms that are no `Lacks` goes on from there.
ghost use Rattle.std.specs.Arc.{arc_value};
ghost use Rattle.std.specs.List.{filter};
ghost use Rattle.std.specs.Prelude.{◌≡◌, ◌++◌, ◌+◌, ◌∷◌, ◌<◌, ◌≤◌, ◌↔◌, [], IfErr, IfOk, IsTrue, MatchOption, OnOk, length, map, reverse, slice_index_or, ⊤, ℕ};
ghost use Rattle.poly_lists.specs.Linked.{AreLinked, ended};
ghost use Rattle.poly_lists.specs.Stems.{AreStems, IsStem, stem_of};
ghost use Rattle.poly_lists.specs.Words.{is_other};
ghost use Rattle.poly_lists.specs.declared.shared_lists.TheConstants.{DEEPEST};

use crate::growing::common;
use crate::nodes::{Nodes, short};
use crate::others::{jumps_of, others_back};
use crate::walk::{read_back, without_list};
use poly_atom::Atom;
use poly_grid::Refusal;
use std::alloc::Global;
use std::marker::Model;
use std::sync::Arc;

// The greatest depth of a trie. Reading a list is a recursion as deep as its trie.
const DEEPEST: u32 = 64;

/// Lists of atoms to which none is added any more. `try_clone` shares them.
#[derive(Drop)]
pub struct SharedLists {
    trie: Arc<Trie>,
}

impl Model for SharedLists {
    ghost use Rattle.std.specs.Arc.{arc_value};
    ghost use Rattle.std.specs.Prelude.{List};
    ghost use Rattle.poly_atom.specs.declared.atom.Atom.{Atom};

    ghost Value = { List (List Atom) };

    ghost view = { λ r. (arc_value r.trie).lists };
}

/// A trie whose lists all begin with the same list of an earlier trie, or with no list.
#[derive(Drop)]
#[cycle(trie)]
pub(crate) struct Trie {
    /// What each list begins with.
    stem: Stem,
    /// Has the same atoms as the stem besides each `Lacks`. These are read from here, past the tries that add nothing but `Lacks`.
    others: Stem,
    /// More than the depth of the trie that has the stem.
    depth: u32,
    /// The nodes of the atoms after the stem.
    nodes: Nodes,
    /// Where each node jumps to.
    jumps: Vec<u32>,
    /// The node of each list.
    ends: Vec<u32>,
}

/// What each list of a trie begins with.
#[derive(Drop)]
#[cycle(trie)]
pub(crate) enum Stem {
    /// No atoms.
    Empty,
    /// The list at the index.
    Listed(Arc<Trie>, usize),
}

impl Model for Trie {
    ghost use Rattle.std.specs.Prelude.{◌++◌, map};
    ghost use Rattle.poly_lists.specs.Linked.{ended};
    ghost use Rattle.poly_lists.specs.Tries.{TrieLists, lists_of};

    ghost Value = { TrieLists };

    ghost use Rattle.poly_lists.specs.Stems.{HasStem, stem_of};

    ghost view = { λ r. lists_of r.depth (map (λ B. stem_of r.stem ++ B) (ended r.nodes r.ends.items)) };

    ghost invariant = { λ r. HasStem r.stem r.others r.depth r.nodes r.jumps.items r.ends.items };

    ghost size = { λ t. t.depth };

    ghost use Rattle.std.proofs.Common.{arith};

    ghost size_decreases = { λ a h. Prim.grind (arith) };
}

impl Trie {
    // How many lists there are.
    fn len(&self) -> usize
        ensures { result ≡ length self.now.lists }
    {
        self.ends.len()
    }

    // The bound on how many other tries the lists are read from.
    fn depth(&self) -> u32
        ensures { result ≡ self.now.depth }
    {
        self.depth
    }

    // Appends the atoms of the list at the index to the buffer, the last one first.
    fn read_back(&self, index: usize, buffer: &mut Vec<Atom>) -> Result<(), Refusal>
        requires { index < length self.now.lists }
        ensures ok { OnOk result (buffer.new.items ≡ buffer.old.items ++ reverse (slice_index_or self.now.lists index [])) }
        ensures why { IfErr result (λ e. e ≡ Refusal.Memory) }
    {
        read_back(&self.nodes, self.ends[index] as usize, buffer)?;
        match &self.stem {
            Stem::Empty => Ok(()),
            Stem::Listed(trie, at) => {
                trie.read_back(*at, buffer)?;
                Ok(())
            }
        }
    }

    // Does what `read_back` does, but leaves each `Lacks` out.
    fn others_back(&self, index: usize, buffer: &mut Vec<Atom>) -> Result<(), Refusal>
        requires { index < length self.now.lists }
        ensures ok { OnOk result (buffer.new.items ≡ buffer.old.items ++ reverse (filter is_other (slice_index_or self.now.lists index []))) }
        ensures why { IfErr result (λ e. e ≡ Refusal.Memory) }
    {
        others_back(&self.nodes, &self.jumps, self.ends[index] as usize, buffer)?;
        match &self.others {
            Stem::Empty => Ok(()),
            Stem::Listed(trie, at) => {
                trie.others_back(*at, buffer)?;
                Ok(())
            }
        }
    }

    // Whether the list at the index is this one.
    fn matches(&self, index: usize, list: &[Atom]) -> bool
        requires { index < length self.now.lists }
        ensures { IsTrue result ↔ (slice_index_or self.now.lists index [] ≡ list.now) }
    {
        match without_list(&self.nodes, self.ends[index] as usize, list) {
            None => false,
            Some(rest) => {
                match &self.stem {
                    Stem::Empty => rest.is_empty(),
                    Stem::Listed(trie, at) => trie.matches(*at, rest),
                }
            }
        }
    }

    // A stem below this trie that has the same atoms as the list at the index besides each `Lacks`. If this trie adds such an
    // atom to the list, `None`.
    fn others_before(&self, index: usize) -> Result<Option<Stem>, Refusal>
        requires { index < length self.now.lists }
        ensures stem { IfOk result (λ o. MatchOption o ⊤ (λ s. IsStem s self.now.depth)) }
        ensures same { IfOk result (λ o. MatchOption o ⊤ (λ s. filter is_other (stem_of s) ≡ filter is_other (slice_index_or self.now.lists index []))) }
        ensures why { IfErr result (λ e. e ≡ Refusal.Memory) }
    {
        if self.jumps[self.ends[index] as usize] > 0 {
            return Ok(None);
        }
        let others = self.others.try_clone()?;
        Ok(Some(others))
    }
}

impl Stem {
    // The same list.
    fn try_clone(&self) -> Result<Stem, Refusal>
        ensures list { IfOk result (λ s. stem_of s ≡ stem_of self.now) }
        ensures stem { IfOk result (λ s. (d : ℕ) → IsStem self.now d → IsStem s d) }
        ensures why { IfErr result (λ e. e ≡ Refusal.Memory) }
    {
        match self {
            Stem::Empty => Ok(Stem::Empty),
            Stem::Listed(trie, at) => Ok(Stem::Listed(Arc::try_clone(trie)?, *at)),
        }
    }
}

impl SharedLists {
    /// The lists of these nodes, each after the stem. If the stem begins with the list of other lists at the index, that list
    /// is read from there, unless it is already read from too many others. The only refusal is `Memory`.
    pub(crate) fn over(
        alloc: Global,
        stem: &[Atom],
        nodes: Nodes,
        ends: Vec<u32>,
        base: Option<(&SharedLists, usize)>,
    ) -> Result<SharedLists, Refusal>
        requires linked { AreLinked nodes ends.items }
        requires index { MatchOption base ⊤ (λ b. b.1 < length b.0.now) }
        ensures ok { IfOk result (λ lists. lists ≡ map (λ B. stem.now ++ B) (ended nodes ends.items)) }
        ensures why { IfErr result (λ e. e ≡ Refusal.Memory) }
    {
        let stored = stem_for(alloc, stem, base)?;
        let trie = trie_over(alloc, stored, nodes, ends)?;
        shared(alloc, trie)
    }

    /// One list. The only refusal is `Memory`.
    pub fn one(alloc: Global, list: &[Atom]) -> Result<SharedLists, Refusal>
        ensures ok { IfOk result (λ lists. lists ≡ list.now ∷ []) }
        ensures why { IfErr result (λ e. e ≡ Refusal.Memory) }
    {
        let trie = trie_of_one(alloc, Stored::nothing(), list)?;
        shared(alloc, trie)
    }

    /// One list: the list at the index, followed by these atoms. It is kept over the list at the index, so that only the atoms
    /// that follow are stored, as far as this pays. Requires that there is a list at the index. The only refusal is `Memory`.
    pub fn after(&self, alloc: Global, index: usize, more: &[Atom]) -> Result<SharedLists, Refusal>
        requires { index < length self.now }
        ensures ok { IfOk result (λ lists. lists ≡ (slice_index_or self.now index [] ++ more.now) ∷ []) }
        ensures why { IfErr result (λ e. e ≡ Refusal.Memory) }
    {
        let trie = trie_after(alloc, &self.trie, index, more)?;
        shared(alloc, trie)
    }

    /// How many lists there are.
    pub fn len(&self) -> usize
        ensures { result ≡ length self.now }
    {
        self.trie.len()
    }

    /// Writes the list at the index to the buffer, in place of what the buffer had. Requires that there is such a list. The
    /// only refusal is `Memory`.
    pub fn read(&self, index: usize, buffer: &mut Vec<Atom>) -> Result<(), Refusal>
        requires { index < length self.now }
        ensures ok { OnOk result (buffer.new.items ≡ slice_index_or self.now index []) }
        ensures why { IfErr result (λ e. e ≡ Refusal.Memory) }
    {
        buffer.clear();
        self.trie.read_back(index, buffer)?;
        buffer.reverse();
        Ok(())
    }

    /// Does what `read` does, but leaves each `Lacks` out. On a wide board nearly all atoms of a list are of this kind; they take
    /// no time.
    pub fn read_others(&self, index: usize, buffer: &mut Vec<Atom>) -> Result<(), Refusal>
        requires { index < length self.now }
        ensures ok { OnOk result (buffer.new.items ≡ filter is_other (slice_index_or self.now index [])) }
        ensures why { IfErr result (λ e. e ≡ Refusal.Memory) }
    {
        buffer.clear();
        self.trie.others_back(index, buffer)?;
        buffer.reverse();
        Ok(())
    }

    /// Whether the list at the index is this one. Requires that there is a list at the index. Never allocates.
    pub fn matches(&self, index: usize, list: &[Atom]) -> bool
        requires { index < length self.now }
        ensures { IsTrue result ↔ (slice_index_or self.now index [] ≡ list.now) }
    {
        self.trie.matches(index, list)
    }

    /// The same lists, shared with this value. The only refusal is `Memory`.
    pub fn try_clone(&self) -> Result<SharedLists, Refusal>
        ensures ok { IfOk result (λ lists. lists ≡ self.now) }
        ensures why { IfErr result (λ e. e ≡ Refusal.Memory) }
    {
        let trie = Arc::try_clone(&self.trie)?;
        Ok(SharedLists { trie })
    }
}

// The lists of this trie.
fn shared(alloc: Global, trie: Trie) -> Result<SharedLists, Refusal>
    ensures ok { IfOk result (λ lists. lists ≡ trie.lists) }
    ensures why { IfErr result (λ e. e ≡ Refusal.Memory) }
{
    let trie = Arc::new(alloc, trie)?;
    Ok(SharedLists { trie })
}

// The stems and the depth of a trie.
#[derive(Drop)]
struct Stored {
    stem: Stem,
    others: Stem,
    depth: u32,
}

impl Stored {
    // Those of a trie whose lists begin with no list.
    fn nothing() -> Stored
        ensures stem { AreStems result.stem result.others result.depth }
        ensures list { stem_of result.stem ≡ [] }
        ensures depth { result.depth ≡ 0 }
    {
        Stored {
            stem: Stem::Empty,
            others: Stem::Empty,
            depth: 0,
        }
    }
}

// The lists of these nodes, each after the stem.
fn trie_over(alloc: Global, stored: Stored, nodes: Nodes, ends: Vec<u32>) -> Result<Trie, Refusal>
    requires linked { AreLinked nodes ends.items }
    requires stem { AreStems stored.stem stored.others stored.depth }
    ensures ok { IfOk result (λ trie. trie.lists ≡ map (λ B. stem_of stored.stem ++ B) (ended nodes ends.items)) }
    ensures depth { IfOk result (λ trie. trie.depth ≡ stored.depth) }
    ensures why { IfErr result (λ e. e ≡ Refusal.Memory) }
{
    let mut nodes = nodes;
    nodes.shrink();
    let mut ends = ends;
    ends.shrink_to_fit();
    let jumps = jumps_of(alloc, &nodes)?;
    let Stored {
        stem,
        others,
        depth,
    } = stored;
    Ok(Trie {
        stem,
        others,
        depth,
        nodes,
        jumps,
        ends,
    })
}

// The list as a stem. If it begins with the base's list at the index, only the atoms after that one are stored, unless the base
// is read from too many tries.
fn stem_for(
    alloc: Global,
    list: &[Atom],
    base: Option<(&SharedLists, usize)>,
) -> Result<Stored, Refusal>
    requires index { MatchOption base ⊤ (λ b. b.1 < length b.0.now) }
    ensures stem { IfOk result (λ s. AreStems s.stem s.others s.depth) }
    ensures list { IfOk result (λ s. stem_of s.stem ≡ list.now) }
    ensures why { IfErr result (λ e. e ≡ Refusal.Memory) }
{
    if let Some((lists, index)) = base {
        if let Some(stored) = stem_over(alloc, list, &lists.trie, index)? {
            return Ok(stored);
        }
    }
    stem_alone(alloc, list)
}

// The list as a stem, over the base's list at the index. If it doesn't begin with that list, or if the base is read from too
// many tries, `None`.
fn stem_over(
    alloc: Global,
    list: &[Atom],
    base: &Arc<Trie>,
    index: usize,
) -> Result<Option<Stored>, Refusal>
    requires index { index < length (arc_value base.now).lists }
    ensures stem { IfOk result (λ o. MatchOption o ⊤ (λ s. AreStems s.stem s.others s.depth)) }
    ensures list { IfOk result (λ o. MatchOption o ⊤ (λ s. stem_of s.stem ≡ list.now)) }
    ensures why { IfErr result (λ e. e ≡ Refusal.Memory) }
{
    if base.depth() >= DEEPEST - 1 {
        return Ok(None);
    }
    if base.matches(index, list) {
        let stored = stem_at(base, index)?;
        return Ok(Some(stored));
    }
    let Some(more) = without_begin(alloc, list, base, index)? else {
        return Ok(None);
    };
    let trie = trie_after(alloc, base, index, more)?;
    let stored = stem_first(alloc, trie)?;
    Ok(Some(stored))
}

// The list at the index, as a stem. If the trie adds nothing but `Lacks` to the list, the second stem leaves the trie out.
fn stem_at(trie: &Arc<Trie>, index: usize) -> Result<Stored, Refusal>
    requires index { index < length (arc_value trie.now).lists }
    requires depth { (arc_value trie.now).depth ≤ DEEPEST }
    ensures stem { IfOk result (λ s. AreStems s.stem s.others s.depth) }
    ensures list { IfOk result (λ s. stem_of s.stem ≡ slice_index_or (arc_value trie.now).lists index []) }
    ensures depth { IfOk result (λ s. s.depth ≡ (arc_value trie.now).depth + 1) }
    ensures why { IfErr result (λ e. e ≡ Refusal.Memory) }
{
    let depth = trie.depth() + 1;
    let stem = Stem::Listed(Arc::try_clone(trie)?, index);
    let others = match trie.others_before(index)? {
        None => stem.try_clone()?,
        Some(before) => before,
    };
    Ok(Stored {
        stem,
        others,
        depth,
    })
}

// The list as a stem that is stored in a trie of its own. An empty list needs none.
fn stem_alone(alloc: Global, list: &[Atom]) -> Result<Stored, Refusal>
    ensures stem { IfOk result (λ s. AreStems s.stem s.others s.depth) }
    ensures list { IfOk result (λ s. stem_of s.stem ≡ list.now) }
    ensures why { IfErr result (λ e. e ≡ Refusal.Memory) }
{
    if list.is_empty() {
        return Ok(Stored::nothing());
    }
    let trie = trie_of_one(alloc, Stored::nothing(), list)?;
    stem_first(alloc, trie)
}

// The first list of the trie, as a stem.
fn stem_first(alloc: Global, trie: Trie) -> Result<Stored, Refusal>
    requires index { 0 < length trie.lists }
    requires depth { trie.depth ≤ DEEPEST }
    ensures stem { IfOk result (λ s. AreStems s.stem s.others s.depth) }
    ensures list { IfOk result (λ s. stem_of s.stem ≡ slice_index_or trie.lists 0 []) }
    ensures why { IfErr result (λ e. e ≡ Refusal.Memory) }
{
    let whole = Arc::new(alloc, trie)?;
    stem_at(&whole, 0)
}

// What follows the trie's list at the index in this list, or `None` if this list doesn't begin so.
fn without_begin<'a>(
    alloc: Global,
    list: &'a [Atom],
    trie: &Trie,
    index: usize,
) -> Result<Option<&'a [Atom]>, Refusal>
    requires { index < length trie.now.lists }
    ensures ok { IfOk result (λ o. MatchOption o ⊤ (λ more. slice_index_or trie.now.lists index [] ++ more.now ≡ list.now)) }
    ensures why { IfErr result (λ e. e ≡ Refusal.Memory) }
{
    let begin = list_of(alloc, trie, index)?;
    let count = common(&begin, list, begin.len());
    if count < begin.len() {
        return Ok(None);
    }
    Ok(Some(&list[count..]))
}

// The list at the index.
fn list_of(alloc: Global, trie: &Trie, index: usize) -> Result<Vec<Atom>, Refusal>
    requires { index < length trie.now.lists }
    ensures ok { IfOk result (λ list. list.items ≡ slice_index_or trie.now.lists index []) }
    ensures why { IfErr result (λ e. e ≡ Refusal.Memory) }
{
    let mut list = Vec::new(alloc);
    trie.read_back(index, &mut list)?;
    list.reverse();
    Ok(list)
}

// The base's list at the index, followed by these atoms. If the base is read from too many tries, all atoms are stored.
fn trie_after(alloc: Global, base: &Arc<Trie>, index: usize, more: &[Atom]) -> Result<Trie, Refusal>
    requires { index < length (arc_value base.now).lists }
    ensures ok { IfOk result (λ trie. trie.lists ≡ (slice_index_or (arc_value base.now).lists index [] ++ more.now) ∷ []) }
    ensures depth { IfOk result (λ trie. trie.depth ≤ DEEPEST) }
    ensures why { IfErr result (λ e. e ≡ Refusal.Memory) }
{
    if base.depth() >= DEEPEST {
        let mut list = list_of(alloc, base, index)?;
        list.extend_from_slice(more)?;
        return trie_of_one(alloc, Stored::nothing(), &list);
    }
    let stored = stem_at(base, index)?;
    trie_of_one(alloc, stored, more)
}

// The stem's list, followed by these atoms.
fn trie_of_one(alloc: Global, stored: Stored, more: &[Atom]) -> Result<Trie, Refusal>
    requires { AreStems stored.stem stored.others stored.depth }
    ensures ok { IfOk result (λ trie. trie.lists ≡ (stem_of stored.stem ++ more.now) ∷ []) }
    ensures depth { IfOk result (λ trie. trie.depth ≡ stored.depth) }
    ensures why { IfErr result (λ e. e ≡ Refusal.Memory) }
{
    let (nodes, ends) = chain(alloc, more)?;
    trie_over(alloc, stored, nodes, ends)
}

// A node for each beginning of the list, shortest first, and the node of the list itself.
fn chain(alloc: Global, list: &[Atom]) -> Result<(Nodes, Vec<u32>), Refusal>
    ensures linked { IfOk result (λ r. AreLinked r.0 r.1.items) }
    ensures ok { IfOk result (λ r. ended r.0 r.1.items ≡ list.now ∷ []) }
    ensures why { IfErr result (λ e. e ≡ Refusal.Memory) }
{
    let mut nodes = Nodes::new(alloc);
    for atom in list {
        nodes.push(atom)?;
    }
    let end = short(nodes.len())?;
    let ends = Vec::from_slice(alloc, &[end])?;
    Ok((nodes, ends))
}
