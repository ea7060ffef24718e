//! How large a tree may be.
ghost use Rattle.std.specs.Prelude.{IfNone, IfSome, ◌+◌, ◌<◌, ◌≡◌, ◌≤◌};
ghost use Rattle.poly_report.specs.Shapes.{plan_of};
ghost use Rattle.poly_report.specs.Sizes.{deep, fits, total};

use crate::tree::Tree;

/// The most nodes of a tree that `fits`.
pub const NODES: u32 = 4096;

/// The greatest depth of a tree that `fits`; a tree of one node has depth 1.
pub const DEPTH: u32 = 512;

/// Whether a tree has at most 4,096 nodes and a depth of at most 512. Stops at the limit, however large the tree is.
pub fn fits(tree: &Tree) -> bool
    ensures { result ≡ fits (plan_of tree.now) }
{
    nodes_left(tree, NODES, DEPTH).is_some()
}

// How many of `nodes` remain after the nodes of the tree are counted off; `None` if the tree has more nodes or is deeper than
// `depth`.
fn nodes_left(tree: &Tree, nodes: u32, depth: u32) -> Option<u32>
    ensures left { IfSome result (λ left. (left + total (plan_of tree.now) ≡ nodes) × (deep (plan_of tree.now) ≤ depth)) }
    ensures none { IfNone result (total (plan_of tree.now) ≤ nodes → depth < deep (plan_of tree.now)) }
{
    if nodes == 0 || depth == 0 {
        return None;
    }
    match tree {
        Tree::Rest => Some(nodes - 1),
        Tree::Found => Some(nodes - 1),
        Tree::Branch { arms, .. } => {
            let mut left = nodes - 1;
            for arm in arms {
                left = nodes_left(&arm.tree, left, depth - 1)?;
            }
            Some(left)
        }
        Tree::Split { taken, left, .. } => {
            let more = nodes_left(taken, nodes - 1, depth - 1)?;
            nodes_left(left, more, depth - 1)
        }
    }
}
