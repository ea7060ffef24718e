//! Walks from a node back to node 0, which read the node's list from its end.
ghost use Rattle.std.specs.Prelude.{◌≡◌, ◌++◌, ◌∷◌, ◌≤◌, [], IfErr, List, MatchOption, OnOk, length, option_to_list, reverse};
ghost use Rattle.poly_atom.specs.declared.atom.Atom.{Atom as AtomOf};
ghost use Rattle.poly_lists.specs.Linked.{AreEarlier, at_node};

use crate::nodes::Nodes;
use poly_atom::Atom;
use poly_grid::Refusal;

/// Appends the atoms of the node's list to the buffer, the last one first. The only refusal is `Memory`.
pub(crate) fn read_back(nodes: &Nodes, node: usize, buffer: &mut Vec<Atom>) -> Result<(), Refusal>
    requires linked { AreEarlier 0 nodes.now }
    requires node { node ≤ length nodes.now }
    ensures ok { OnOk result (buffer.new.items ≡ buffer.old.items ++ reverse (at_node nodes.now node)) }
    ensures why { IfErr result (λ e. e ≡ Refusal.Memory) }
{
    let mut left = node;
    while left > 0 {
        left = nodes.read_last(left - 1, buffer)?;
    }
    Ok(())
}

/// The list without the node's list at its end, or `None` if it doesn't end so. Never allocates.
pub(crate) fn without_list<'a>(nodes: &Nodes, node: usize, list: &'a [Atom]) -> Option<&'a [Atom]>
    requires linked { AreEarlier 0 nodes.now }
    requires node { node ≤ length nodes.now }
    ensures { MatchOption result ((B : List AtomOf) → ¬ (B ++ at_node nodes.now node ≡ list.now)) (λ s. s.now ++ at_node nodes.now node ≡ list.now) }
{
    let mut left = node;
    let mut rest = list;
    while left > 0 {
        let link = nodes.link(left - 1);
        match without_last(rest, link.atom) {
            Some(shorter) => rest = shorter,
            None => return None,
        }
        left = link.before;
    }
    Some(rest)
}

// The list without its last atom, if that is this one. If there is no atom to remove, the list itself.
fn without_last(list: &[Atom], last: Option<Atom>) -> Option<&[Atom]>
    ensures { MatchOption result ((B : List AtomOf) → ¬ (B ++ option_to_list last ≡ list.now)) (λ s. s.now ++ option_to_list last ≡ list.now) }
{
    match last {
        None => Some(list),
        Some(atom) => without_atom(list, atom),
    }
}

// The list without its last atom, if that is this one.
fn without_atom(list: &[Atom], atom: Atom) -> Option<&[Atom]>
    ensures { MatchOption result ((B : List AtomOf) → ¬ (B ++ atom ∷ [] ≡ list.now)) (λ s. s.now ++ atom ∷ [] ≡ list.now) }
{
    match list.split_last() {
        None => None,
        Some((last, rest)) => { if *last == atom { Some(rest) } else { None } }
    }
}
