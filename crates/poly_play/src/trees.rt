//! Trees that a script writes: `rest`, `found`, `split PLACEMENT TREE TREE`, or `branch ITEM`, then `PLACEMENT TREE` for each
//! arm, then `end`.
//!
//! A tree is read into a list of its nodes, from which it is built, and is copied and printed by such a list too: so only
//! `write_tree` calls itself.

use crate::reply::Reply;
use crate::words::{Words, item, numbered, placement};
use poly_grid::Refusal;
use poly_report::{Arm, Tree};
use poly_tiling::{Item, View};
use std::alloc::Global;

// A node as it is written: what comes before its trees. An arm is the placement before its tree.
#[derive(Clone, Copy)]
enum Node {
    Rest,
    Found,
    Split(u32),
    Branch,
    Arm(u32),
    End,
}

// The nodes in the order in which they are written, and the items of the Branches.
#[derive(Drop)]
struct Written {
    nodes: Vec<Node>,
    items: Vec<Item>,
}

// The trees and lists of arms to the right of what is built next.
#[derive(Drop)]
struct Built {
    trees: Vec<Tree>,
    arms: Vec<Vec<Arm>>,
}

fn nothing(alloc: Global) -> Written {
    Written {
        nodes: Vec::new(alloc),
        items: Vec::new(alloc),
    }
}

/// Reads a tree to the end of the line.
pub fn read_tree(alloc: Global, view: &View, words: &mut Words<'_>) -> Result<Tree, Refusal> {
    let mut written = nothing(alloc);
    read_nodes(alloc, view, words, &mut written)?;
    tree_of(alloc, &mut written)
}

/// A copy of the tree.
pub fn copy_of(alloc: Global, tree: &Tree) -> Result<Tree, Refusal> {
    let mut written = nothing(alloc);
    write_tree(&mut written, tree)?;
    tree_of(alloc, &mut written)
}

/// Appends the tree, in the words in which a script writes it.
pub fn put_tree(alloc: Global, reply: &mut Reply, view: &View, tree: &Tree) -> Result<(), Refusal> {
    let mut written = nothing(alloc);
    write_tree(&mut written, tree)?;
    put_nodes(reply, view, &written);
    Ok(())
}

fn read_nodes(
    alloc: Global,
    view: &View,
    words: &mut Words<'_>,
    written: &mut Written,
) -> Result<(), Refusal> {
    for _ in 0..u32::MAX {
        match words.next() {
            Some(word) => read_node(alloc, view, word, words, written)?,
            None => break,
        }
    }
    Ok(())
}

fn read_node(
    alloc: Global,
    view: &View,
    word: &str,
    words: &mut Words<'_>,
    written: &mut Written,
) -> Result<(), Refusal> {
    match word {
        "rest" => written.push(Node::Rest),
        "found" => written.push(Node::Found),
        "end" => written.push(Node::End),
        "split" => written.push(Node::Split(placement(alloc, view, words)?)),
        "branch" => written.push_branch(item(words)?),
        _ => written.push(Node::Arm(numbered(alloc, view, word)?)),
    }
}

impl Written {
    fn push(&mut self, node: Node) -> Result<(), Refusal> {
        self.nodes.push(node)?;
        Ok(())
    }

    fn push_branch(&mut self, item: Item) -> Result<(), Refusal> {
        self.items.push(item)?;
        self.push(Node::Branch)
    }
}

#[cycle(write_tree)]
fn write_tree(written: &mut Written, tree: &Tree) -> Result<(), Refusal> {
    match tree {
        Tree::Rest => written.push(Node::Rest),
        Tree::Found => written.push(Node::Found),
        Tree::Branch { item, arms } => {
            written.push_branch(*item)?;
            write_arms(written, arms.as_slice())
        }
        Tree::Split {
            placement,
            taken,
            left,
        } => {
            written.push(Node::Split(*placement))?;
            write_tree(written, taken)?;
            write_tree(written, left)
        }
    }
}

#[cycle(write_tree)]
fn write_arms(written: &mut Written, arms: &[Arm]) -> Result<(), Refusal> {
    for arm in arms {
        written.push(Node::Arm(arm.placement))?;
        write_tree(written, &arm.tree)?;
    }
    written.push(Node::End)
}

fn put_nodes(reply: &mut Reply, view: &View, written: &Written) {
    let mut branches = 0;
    for node in &written.nodes {
        match node {
            Node::Rest => reply.text(" rest"),
            Node::Found => reply.text(" found"),
            Node::End => reply.text(" end"),
            Node::Split(placement) => {
                reply.text(" split ");
                reply.numbered(view, *placement);
            }
            Node::Branch => {
                put_branch(reply, written.items.get(branches));
                branches = branches.saturating_add(1);
            }
            Node::Arm(placement) => {
                reply.text(" ");
                reply.numbered(view, *placement);
            }
        }
    }
}

fn put_branch(reply: &mut Reply, item: Option<&Item>) {
    reply.text(" branch ");
    if let Some(item) = item {
        reply.item(item);
    }
}

// Builds from the last node to the first one, so the trees of a node are there when it is built.
fn tree_of(alloc: Global, written: &mut Written) -> Result<Tree, Refusal> {
    let mut built = Built {
        trees: Vec::new(alloc),
        arms: Vec::new(alloc),
    };
    build_all(alloc, &mut built, written)?;
    built.only_tree()
}

fn build_all(alloc: Global, built: &mut Built, written: &mut Written) -> Result<(), Refusal> {
    for _ in 0..u32::MAX {
        match written.nodes.pop() {
            Some(node) => built.build(alloc, node, &mut written.items)?,
            None => break,
        }
    }
    Ok(())
}

impl Built {
    fn build(&mut self, alloc: Global, node: Node, items: &mut Vec<Item>) -> Result<(), Refusal> {
        match node {
            Node::Rest => self.push(Tree::Rest),
            Node::Found => self.push(Tree::Found),
            Node::End => self.begin_arms(alloc),
            Node::Split(placement) => self.build_split(alloc, placement),
            Node::Branch => self.build_branch(items.pop().ok_or(Refusal::BadCommand)?),
            Node::Arm(placement) => self.build_arm(placement),
        }
    }

    fn push(&mut self, tree: Tree) -> Result<(), Refusal> {
        self.trees.push(tree)?;
        Ok(())
    }

    fn pop(&mut self) -> Result<Tree, Refusal> {
        self.trees.pop().ok_or(Refusal::BadCommand)
    }

    fn begin_arms(&mut self, alloc: Global) -> Result<(), Refusal> {
        self.arms.push(Vec::new(alloc))?;
        Ok(())
    }

    fn build_split(&mut self, alloc: Global, placement: u32) -> Result<(), Refusal> {
        let taken = self.boxed(alloc)?;
        let left = self.boxed(alloc)?;
        self.push(Tree::Split {
            placement,
            taken,
            left,
        })
    }

    fn boxed(&mut self, alloc: Global) -> Result<Box<Tree>, Refusal> {
        let tree = self.pop()?;
        let boxed = Box::new(alloc, tree)?;
        Ok(boxed)
    }

    fn build_arm(&mut self, placement: u32) -> Result<(), Refusal> {
        let tree = self.pop()?;
        let arms = self.arms.last_mut().ok_or(Refusal::BadCommand)?;
        arms.push(Arm { placement, tree })?;
        Ok(())
    }

    fn build_branch(&mut self, item: Item) -> Result<(), Refusal> {
        let mut arms = self.arms.pop().ok_or(Refusal::BadCommand)?;
        arms.reverse();
        self.push(Tree::Branch { item, arms })
    }

    fn only_tree(&mut self) -> Result<Tree, Refusal> {
        if self.trees.len() != 1 || !self.arms.is_empty() {
            return Err(Refusal::BadCommand);
        }
        self.pop()
    }
}
