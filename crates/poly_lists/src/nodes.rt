//! The nodes of a trie of lists of atoms, in 8 bytes each.
//!
//! A node stands for a list of atoms, and its link says which: the list of an earlier node, followed by one atom. In nearly
//! every link the earlier node is the one right before it, and nearly every atom says that a placement is there or is not. So
//! a link is stored as one word: the atom that follows the list of the node right before. If a list goes on from another node,
//! a word between them leads back to that node.
ghost use Rattle.std.specs.Prelude.{◌≡◌, ◌++◌, ◌∷◌, ◌<◌, [], All, IfErr, IfOk, None, OnErr, OnOk, Some, length, slice_index_or};
ghost use Rattle.poly_lists.specs.Words.{IsBeginning, IsStored, Reads, Stores, links_of};

use poly_atom::Atom;
use poly_grid::Refusal;
use std::alloc::Global;
use std::marker::Model;

/// What a node says of its list: it is the list of the node `before`, followed by the atom if there is one.
#[derive(Clone, Copy)]
pub(crate) struct Link {
    /// The number of an earlier node.
    pub before: usize,
    /// The last atom of the list. If there is none, the list is that of the node `before`.
    pub atom: Option<Atom>,
}

// A link as it is stored.
#[derive(Clone, Copy)]
enum Word {
    // The list of the node right before, followed by `Has` of this placement.
    Has(u32),
    // The list of the node right before, followed by `Lacks` of this placement.
    Lacks(u32),
    // The list of the node right before, followed by the other atom at this index.
    Other(u32),
    // The list of the node with this number.
    Back(u32),
}

// A pending task has thousands of words.
const _: () = prove!(size_of::<Word>() == 8);

/// The nodes after node 0, which is the empty list, in the order of their numbers. A contract sees the list of their links.
#[derive(Drop)]
pub(crate) struct Nodes {
    /// A word for each node.
    words: Vec<Word>,
    /// The atoms that are no `Has` and no `Lacks`.
    others: Vec<Atom>,
}

impl Model for Nodes {
    ghost use Rattle.std.specs.Prelude.{All, List, length};
    ghost use Rattle.poly_lists.specs.Words.{IsStored, links_of};
    ghost use Rattle.poly_lists.specs.declared.nodes.Link.{Link};

    ghost Value = { List Link };

    ghost view = { λ r. links_of r.others.items 0 r.words.items };

    ghost invariant = { λ r. All (λ w. IsStored (length r.others.items) w) r.words.items };
}

impl Nodes {
    /// No nodes but node 0.
    pub fn new(alloc: Global) -> Nodes
        ensures { result ≡ [] }
    {
        Nodes {
            words: Vec::new(alloc),
            others: Vec::new(alloc),
        }
    }

    /// The number of the last node.
    pub fn len(&self) -> usize
        ensures { result ≡ length self.now }
    {
        self.words.len()
    }

    /// The link of the node with the number `index + 1`. Requires that there is such a node.
    pub fn link(&self, index: usize) -> Link
        requires { index < length self.now }
        ensures { result ≡ slice_index_or self.now index result }
    {
        link_at(&self.words, &self.others, index)
    }

    /// Appends the atom of the node with the number `index + 1` to the buffer, if its link has one, and returns the node
    /// before. Requires that there is such a node. The only refusal is `Memory`.
    pub fn read_last(&self, index: usize, buffer: &mut Vec<Atom>) -> Result<usize, Refusal>
        requires { index < length self.now }
        ensures ok { IfOk result (λ before. Reads self.now index before buffer.old.items buffer.new.items) }
        ensures why { IfErr result (λ e. e ≡ Refusal.Memory) }
    {
        read_at(&self.words, &self.others, index, buffer)
    }

    /// Adds a node: the list of the last node, followed by the atom. The only refusal is `Memory`, and it leaves the nodes as
    /// they were.
    pub fn push(&mut self, atom: &Atom) -> Result<(), Refusal>
        ensures ok { OnOk result (self.new ≡ self.old ++ (record { before = length self.old; atom = Some atom.now }) ∷ []) }
        ensures err { OnErr result (self.new ≡ self.old) }
        ensures why { IfErr result (λ e. e ≡ Refusal.Memory) }
    {
        self.words.reserve(1)?;
        let word = store(&mut self.others, atom)?;
        self.words.push_reserved(word);
        Ok(())
    }

    /// Adds a node: the list of the node `before`. The only refusal is `Memory`, and it leaves the nodes as they were.
    pub fn push_back(&mut self, before: usize) -> Result<(), Refusal>
        ensures ok { OnOk result (self.new ≡ self.old ++ (record { before = before; atom = None }) ∷ []) }
        ensures err { OnErr result (self.new ≡ self.old) }
        ensures why { IfErr result (λ e. e ≡ Refusal.Memory) }
    {
        let node = short(before)?;
        self.words.push(Word::Back(node))?;
        Ok(())
    }

    /// Gives back memory that is kept for further nodes. Never fails.
    pub fn shrink(&mut self)
        ensures { self.new ≡ self.old }
    {
        self.words.shrink_to_fit();
        self.others.shrink_to_fit();
    }
}

/// The number in 32 bits. A number that is too great for them is refused as `Memory`: so much doesn't fit in a trie.
pub(crate) fn short(number: usize) -> Result<u32, Refusal>
    ensures ok { IfOk result (λ n. n ≡ number) }
    ensures why { IfErr result (λ e. e ≡ Refusal.Memory) }
{
    if number > u32::MAX as usize {
        return Err(Refusal::Memory);
    }
    Ok(number as u32)
}

// The link that the word at the index stores.
fn link_at(words: &[Word], others: &[Atom], index: usize) -> Link
    requires index { index < length words.now }
    requires stored { All (λ w. IsStored (length others.now) w) words.now }
    ensures { result ≡ slice_index_or (links_of others.now 0 words.now) index result }
{
    match words[index] {
        Word::Has(placement) => Link {
            before: index,
            atom: Some(Atom::Has(placement)),
        },
        Word::Lacks(placement) => Link {
            before: index,
            atom: Some(Atom::Lacks(placement)),
        },
        Word::Other(other) => Link {
            before: index,
            atom: Some(others[other as usize]),
        },
        Word::Back(node) => Link {
            before: node as usize,
            atom: None,
        },
    }
}

// Appends the atom of the word at the index, if it is one for an atom, and returns the node before.
fn read_at(
    words: &[Word],
    others: &[Atom],
    index: usize,
    buffer: &mut Vec<Atom>,
) -> Result<usize, Refusal>
    requires index { index < length words.now }
    requires stored { All (λ w. IsStored (length others.now) w) words.now }
    ensures ok { IfOk result (λ before. Reads (links_of others.now 0 words.now) index before buffer.old.items buffer.new.items) }
    ensures why { IfErr result (λ e. e ≡ Refusal.Memory) }
{
    match words[index] {
        Word::Has(placement) => {
            buffer.push(Atom::Has(placement))?;
            Ok(index)
        }
        Word::Lacks(placement) => {
            buffer.push(Atom::Lacks(placement))?;
            Ok(index)
        }
        Word::Other(other) => {
            buffer.extend_from_slice(&[others[other as usize]])?;
            Ok(index)
        }
        Word::Back(node) => Ok(node as usize),
    }
}

// The word for the atom, which is stored among the others if it is no `Has` and no `Lacks`.
fn store(others: &mut Vec<Atom>, atom: &Atom) -> Result<Word, Refusal>
    ensures more { IsBeginning others.old.items others.new.items }
    ensures ok { IfOk result (λ w. Stores others.new.items w atom.now) }
    ensures why { IfErr result (λ e. e ≡ Refusal.Memory) }
{
    match atom {
        Atom::Has(placement) => Ok(Word::Has(*placement)),
        Atom::Lacks(placement) => Ok(Word::Lacks(*placement)),
        Atom::AtLeast(_, _) => store_other(others, atom),
        Atom::AtMost(_, _) => store_other(others, atom),
    }
}

// The word for the atom, which is stored among the others.
fn store_other(others: &mut Vec<Atom>, atom: &Atom) -> Result<Word, Refusal>
    ensures more { IsBeginning others.old.items others.new.items }
    ensures ok { IfOk result (λ w. Stores others.new.items w atom.now) }
    ensures why { IfErr result (λ e. e ≡ Refusal.Memory) }
{
    let index = short(others.len())?;
    others.extend_from_slice(&[*atom])?;
    Ok(Word::Other(index))
}
