//! Trees that cut a family of tilings into listed tilings and rests, and the reports in which workers hand trees in.
use poly_tiling::Item;
use std::mem;

/// A certificate of how a family is cut up. A tree that is dropped without [`discard`] is dropped by a recursion that is as
/// deep as the tree.
#[derive(Drop)]
#[cycle(tree)]
pub enum Tree {
    /// The family is left to another task.
    Rest,
    /// No placement of the design is open, so the family has at most one tiling.
    Found,
    /// An item that can't be covered often enough without a placement of the arms. Each of these placements has the item.
    Branch {
        item: Item,
        arms: Vec<Arm>,
    },
    /// A placement's number, a tree for the tilings with the placement (`taken`), and one for those without it (`left`).
    Split {
        placement: u32,
        taken: Box<Tree>,
        left: Box<Tree>,
    },
}

/// An arm of a Branch: a placement that has the Branch's item, and a tree.
#[derive(Drop)]
#[cycle(tree)]
pub struct Arm {
    /// The number of the placement.
    pub placement: u32,
    /// The tree for the tilings that have this placement and none of the placements of earlier arms.
    pub tree: Tree,
}

/// What a worker hands in: a tree for a task, made at an edition.
pub struct Report {
    /// The task's number.
    pub task: u32,
    /// The edition at which the tree was made. It decides only whether the report counts as late, not whether it is accepted.
    pub edition: u64,
    /// How the family of the task is cut up.
    pub tree: Tree,
}

/// A report's tree is dropped by [`discard`].
impl Drop for Report {
    fn drop(self) {
        let Report {
            task: _,
            edition: _,
            tree,
        } = self;
        discard(tree);
    }
}

/// Drops a tree, and uses a small stack however deep it is. Never allocates.
pub fn discard(tree: Tree) {
    let mut next = Some((tree, Tree::Rest));
    // A `while` would need a measure that decreases, so the turns are counted. No tree takes all of them.
    for _turn in 0..u64::MAX {
        next = match next {
            None => return,
            Some((tree, above)) => below(tree, above),
        };
    }
}

// Takes one tree out of `tree`, and returns it with what remains. That is `tree` with `above` in the place of the tree that was
// taken out: so the nodes from there up to the root form a chain, with Rest at its end. If no tree is left in `tree`, goes on
// with the chain; `None` at its end.
fn below(tree: Tree, above: Tree) -> Option<(Tree, Tree)> {
    match tree {
        Tree::Rest | Tree::Found => beside(above),
        Tree::Split {
            placement,
            taken,
            left,
        } => {
            let mut taken = taken;
            let inner = mem::replace(&mut *taken, above);
            Some((
                inner,
                Tree::Split {
                    placement,
                    taken,
                    left,
                },
            ))
        }
        Tree::Branch { item, arms } => {
            let mut arms = arms;
            let Some(arm) = arms.pop() else {
                return beside(above);
            };
            let Arm { placement, tree } = arm;
            arms.push_reserved(Arm {
                placement,
                tree: above,
            });
            Some((tree, Tree::Branch { item, arms }))
        }
    }
}

// Takes the first node off a chain that `below` made. Returns what is left of its trees, and the rest of the chain.
fn beside(above: Tree) -> Option<(Tree, Tree)> {
    match above {
        Tree::Rest | Tree::Found => None,
        Tree::Split { taken, left, .. } => Some((Box::into_inner(left), Box::into_inner(taken))),
        Tree::Branch { item, arms } => {
            let mut arms = arms;
            let Some(arm) = arms.pop() else {
                return None;
            };
            let Arm { tree, .. } = arm;
            Some((Tree::Branch { item, arms }, tree))
        }
    }
}
