//! Nodes to which lists are added one after the other.
//!
//! A list that is added right after another mostly begins as that one does. So the list that was added last is kept beside the
//! nodes, with the node of each of its beginnings. Adding a list compares it with that one, and looks at no node.
ghost use Rattle.std.specs.Prelude.{◌≡◌, ◌++◌, ◌∷◌, ◌≤◌, [], IfErr, IfOk, List, OnOk, length, slice_index_or, take};
ghost use Rattle.poly_lists.specs.Linked.{AreEarlier, Extends, at_node};
ghost use Rattle.poly_lists.specs.Trails.{IsAt, IsTrail};
ghost use Rattle.poly_lists.specs.declared.nodes.Link.{Link};

use crate::nodes::Nodes;
use poly_atom::Atom;
use poly_grid::Refusal;
use std::alloc::Global;
use std::marker::Model;

/// Nodes that grow. A contract sees the list of their links.
#[derive(Drop)]
pub(crate) struct Growing {
    /// The nodes.
    nodes: Nodes,
    /// The list that was added last.
    last: Vec<Atom>,
    /// The nodes of the beginnings of that list, shortest first. If memory was refused, the longest ones may be missing.
    trail: Vec<usize>,
}

impl Model for Growing {
    ghost use Rattle.std.specs.Prelude.{List};
    ghost use Rattle.poly_lists.specs.Trails.{IsGrowing};
    ghost use Rattle.poly_lists.specs.declared.nodes.Link.{Link};

    ghost Value = { List Link };

    ghost view = { λ r. r.nodes };

    ghost invariant = { λ r. IsGrowing r.nodes r.trail.items r.last.items };
}

impl Growing {
    /// No nodes but node 0.
    pub fn new(alloc: Global) -> Growing
        ensures { result ≡ [] }
    {
        Growing {
            nodes: Nodes::new(alloc),
            last: Vec::new(alloc),
            trail: Vec::new(alloc),
        }
    }

    /// The nodes.
    pub fn nodes(&self) -> &Nodes
        ensures { result.now ≡ self.now }
    {
        &self.nodes
    }

    /// The nodes, which grow no more.
    pub fn into_nodes(self) -> Nodes
        ensures { result ≡ self }
    {
        self.nodes
    }

    /// Adds what is missing of the list that has the atoms of both, and returns its node. The only refusal is `Memory`, and it
    /// leaves the list of each node as it was.
    pub fn add(&mut self, list: &[Atom], more: &[Atom]) -> Result<usize, Refusal>
        requires { AreEarlier 0 self.old }
        ensures grows { Extends self.old self.new }
        ensures node { IfOk result (λ n. n ≤ length self.new) }
        ensures list { IfOk result (λ n. at_node self.new n ≡ list.now ++ more.now) }
        ensures why { IfErr result (λ e. e ≡ Refusal.Memory) }
    {
        let count = common(&self.last, list, self.trail.len());
        let known = go_back(&mut self.trail, &mut self.last, count);
        let before = extend(
            &mut self.nodes,
            &mut self.trail,
            &mut self.last,
            known,
            &list[count..],
        )?;
        extend(
            &mut self.nodes,
            &mut self.trail,
            &mut self.last,
            before,
            more,
        )
    }
}

/// How many atoms both lists begin with, but no more than `most`.
pub(crate) fn common(one: &[Atom], other: &[Atom], most: usize) -> usize
    requires { most ≤ length one.now }
    ensures most { result ≤ most }
    ensures other { result ≤ length other.now }
    ensures same { take result one.now ≡ take result other.now }
{
    let limit = if most < other.len() {
        most
    } else {
        other.len()
    };
    let mut count = 0;
    while count < limit && one[count] == other[count] {
        count += 1;
    }
    count
}

// Shortens the last list to this many atoms, and returns its node.
fn go_back(trail: &mut Vec<usize>, last: &mut Vec<Atom>, count: usize) -> usize
    requires { count ≤ length trail.old.items }
    ensures last { last.new.items ≡ take count last.old.items }
    ensures node { (links : List Link) → IsTrail links trail.old.items last.old.items → IsAt links trail.new.items last.new.items result }
{
    let node = node_on(trail, count);
    trail.truncate(count);
    last.truncate(count);
    node
}

// The node of the beginning with this many atoms.
fn node_on(trail: &[usize], count: usize) -> usize
    requires { count ≤ length trail.now }
    ensures { result ≡ slice_index_or (0 ∷ trail.now) count 0 }
{
    if count == 0 {
        return 0;
    }
    trail[count - 1]
}

// Makes the last node one with the list of the node `before`.
fn resume(nodes: &mut Nodes, before: usize) -> Result<(), Refusal>
    requires linked { AreEarlier 0 nodes.old }
    requires before { before ≤ length nodes.old }
    ensures grows { Extends nodes.old nodes.new }
    ensures list { OnOk result (at_node nodes.new (length nodes.new) ≡ at_node nodes.old before) }
    ensures why { IfErr result (λ e. e ≡ Refusal.Memory) }
{
    if before == nodes.len() {
        return Ok(());
    }
    nodes.push_back(before)?;
    Ok(())
}

// Adds a node for the last list followed by the atom, which is the last list from then on. The last node is to be that of the
// last list.
fn push_atom(
    nodes: &mut Nodes,
    trail: &mut Vec<usize>,
    last: &mut Vec<Atom>,
    atom: &Atom,
) -> Result<(), Refusal>
    requires linked { AreEarlier 0 nodes.old }
    requires at { IsAt nodes.old trail.old.items last.old.items (length nodes.old) }
    ensures grows { Extends nodes.old nodes.new }
    ensures trail { IsTrail nodes.new trail.new.items last.new.items }
    ensures at { OnOk result (IsAt nodes.new trail.new.items last.new.items (length nodes.new)) }
    ensures last { OnOk result (last.new.items ≡ last.old.items ++ atom.now ∷ []) }
    ensures why { IfErr result (λ e. e ≡ Refusal.Memory) }
{
    nodes.push(atom)?;
    last.extend_from_slice(&[*atom])?;
    trail.push(nodes.len())?;
    Ok(())
}

// Adds a node for each atom: for the last list, whose node is `before`, followed by the atoms up to this one. The list with
// all atoms is the last list from then on. Returns its node.
fn extend(
    nodes: &mut Nodes,
    trail: &mut Vec<usize>,
    last: &mut Vec<Atom>,
    before: usize,
    atoms: &[Atom],
) -> Result<usize, Refusal>
    requires linked { AreEarlier 0 nodes.old }
    requires at { IsAt nodes.old trail.old.items last.old.items before }
    ensures grows { Extends nodes.old nodes.new }
    ensures trail { IsTrail nodes.new trail.new.items last.new.items }
    ensures at { IfOk result (λ n. IsAt nodes.new trail.new.items last.new.items n) }
    ensures last { OnOk result (last.new.items ≡ last.old.items ++ atoms.now) }
    ensures why { IfErr result (λ e. e ≡ Refusal.Memory) }
{
    if atoms.is_empty() {
        return Ok(before);
    }
    resume(nodes, before)?;
    for atom in atoms {
        push_atom(nodes, trail, last, atom)?;
    }
    Ok(nodes.len())
}
