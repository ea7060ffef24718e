//! A report whose tree is far deeper than any tree that fits.

use crate::books::begun;
use crate::designs::DOMINOES;
use poly_book::Book;
use poly_grid::{Cell, Refusal};
use poly_report::{Arm, Report, Tree};
use poly_tiling::Item;
use std::alloc::Global;

// How many Branches the tree has, one below the other, with a Split below each. To drop the tree by recursion would need more
// stack than a thread has.
const BRANCHES: u32 = 500_000;

// A Branch with one arm, a Split that takes the tree.
fn over(alloc: Global, placement: u32, tree: Tree) -> Result<Tree, Refusal> {
    let taken = Box::new(alloc, tree)?;
    let left = Box::new(alloc, Tree::Found)?;
    let split = Tree::Split {
        placement,
        taken,
        left,
    };
    let mut arms = Vec::new(alloc);
    arms.push(Arm {
        placement,
        tree: split,
    })?;
    let item = Item::Cell(Cell::ORIGIN);
    Ok(Tree::Branch { item, arms })
}

fn deep_tree(alloc: Global) -> Result<Tree, Refusal> {
    let mut tree = Tree::Rest;
    for placement in 0..BRANCHES {
        tree = over(alloc, placement, tree)?;
    }
    Ok(tree)
}

// Hands the tree in, and returns the refusal.
fn refusal_of(book: &mut Book, tree: Tree) -> Option<Refusal> {
    let report = Report {
        task: 1,
        edition: 0,
        tree,
    };
    book.hand_in(report).err()
}

// The refusal of the deep tree by an opening book.
fn refusal_by_a_book(alloc: Global) -> Result<Option<Refusal>, Refusal> {
    let tree = deep_tree(alloc)?;
    let mut book = begun(alloc, DOMINOES)?;
    Ok(refusal_of(&mut book, tree))
}

#[test]
fn a_report_of_any_depth_is_refused_and_dropped(rt: HostRuntime) {
    let refusal = refusal_by_a_book(rt.alloc()).expect(&rt, "memory");
    assert!(rt; refusal == Some(Refusal::TooLarge));
}
