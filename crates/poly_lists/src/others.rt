//! Jumps to the atoms of a node's list that are no `Lacks`.
//!
//! On a wide board nearly all atoms of a list are `Lacks`, thousands of them beside a few others. So each node of finished
//! lists has a jump over the `Lacks` on its way back, and reading the others takes time in proportion to their number.
ghost use Rattle.std.specs.Prelude.{◌≡◌, ◌++◌, ◌<◌, ◌≤◌, [], IfErr, IfOk, OnOk, false, length, option_to_list, reverse};
ghost use Rattle.std.specs.List.{filter};
ghost use Rattle.poly_lists.specs.Jumps.{AreJumps, AreRight, IsJump};
ghost use Rattle.poly_lists.specs.Linked.{AreEarlier, at_node};
ghost use Rattle.poly_lists.specs.Words.{is_other};

use crate::nodes::{Nodes, short};
use poly_atom::Atom;
use poly_grid::Refusal;
use std::alloc::Global;

/// The jump of node 0 and of each node after it. It leads to the first node on the way back, the node itself included, whose
/// link has an atom that is no `Lacks`; if there is none, to node 0. The only refusal is `Memory`.
pub(crate) fn jumps_of(alloc: Global, nodes: &Nodes) -> Result<Vec<u32>, Refusal>
    requires { AreEarlier 0 nodes.now }
    ensures ok { IfOk result (λ jumps. AreJumps nodes.now jumps.items) }
    ensures why { IfErr result (λ e. e ≡ Refusal.Memory) }
{
    let count = nodes.len();
    let mut jumps = Vec::with_capacity(alloc, count.saturating_add(1))?;
    jumps.push(0)?;
    for _ in 0..count {
        let jump = next_jump(nodes, &jumps)?;
        jumps.push(jump)?;
    }
    Ok(jumps)
}

// The jump of the next node, after those of all nodes before it.
fn next_jump(nodes: &Nodes, jumps: &[u32]) -> Result<u32, Refusal>
    requires linked { AreEarlier 0 nodes.now }
    requires some { 0 < length jumps.now }
    requires next { length jumps.now ≤ length nodes.now }
    requires right { AreRight nodes.now jumps.now }
    ensures ok { IfOk result (λ jump. IsJump nodes.now (length jumps.now) jump) }
    ensures why { IfErr result (λ e. e ≡ Refusal.Memory) }
{
    let node = jumps.len();
    let link = nodes.link(node - 1);
    if has_other(link.atom) {
        return short(node);
    }
    Ok(jumps[link.before])
}

// Whether there is an atom, and it is no `Lacks`.
fn has_other(atom: Option<Atom>) -> bool
    ensures { result ≡ false → filter is_other (option_to_list atom) ≡ [] }
{
    match atom {
        None => false,
        Some(Atom::Lacks(_)) => false,
        Some(_) => true,
    }
}

/// Appends the atoms of the node's list that are no `Lacks` to the buffer, the last one first. The only refusal is `Memory`.
pub(crate) fn others_back(
    nodes: &Nodes,
    jumps: &[u32],
    node: usize,
    buffer: &mut Vec<Atom>,
) -> Result<(), Refusal>
    requires linked { AreEarlier 0 nodes.now }
    requires jumps { AreJumps nodes.now jumps.now }
    requires node { node ≤ length nodes.now }
    ensures ok { OnOk result (buffer.new.items ≡ buffer.old.items ++ reverse (filter is_other (at_node nodes.now node))) }
    ensures why { IfErr result (λ e. e ≡ Refusal.Memory) }
{
    let mut left = jumps[node] as usize;
    while left > 0 {
        let link = nodes.link(left - 1);
        push_other(buffer, link.atom)?;
        left = jumps[link.before] as usize;
    }
    Ok(())
}

// Appends the atom if there is one and it is no `Lacks`.
fn push_other(buffer: &mut Vec<Atom>, atom: Option<Atom>) -> Result<(), Refusal>
    ensures ok { OnOk result (buffer.new.items ≡ buffer.old.items ++ filter is_other (option_to_list atom)) }
    ensures why { IfErr result (λ e. e ≡ Refusal.Memory) }
{
    match atom {
        None => Ok(()),
        Some(Atom::Lacks(_)) => Ok(()),
        Some(other) => {
            buffer.push(other)?;
            Ok(())
        }
    }
}
