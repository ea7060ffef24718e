//! Growing a tree for a task: depth first on the item with the fewest options beyond those that it still needs (Knuth, The
//! Art of Computer Programming, volume 4B, section 7.2.2.1), until nothing is left, or the depth or the budget of nodes is
//! used up. If no item is due, or if the item's options are too many for the budget, the tree gets a Split on an open
//! placement.
//!
//! A budget that ends in the middle of a Branch would leave many small tasks. So a Branch holds back one node for each arm
//! after the first, as long as the budget lasts. If the budget ends with several options not walked yet, the arms so far
//! become a chain of Splits. The chain ends in one Rest, for the tilings that have none of the placements of these arms. A
//! Branch holds nothing back and doesn't become a chain if it has too many options for the remaining depth, or if it used the
//! last node of the budget. A small subtree that has a Rest is replaced by a single Rest.
//!
//! Most placements leave some item with too few options. The frame sees this of most of them before it takes them, and such an
//! arm is a Branch without arms on that item.
//!
//! A caller that wants only the leaves does without the tree: the same nodes are visited and counted, but no memory is taken for
//! them. The contracts then speak of a plan, which is the tree that would have been returned.
ghost use Rattle.std.specs.Prelude.{◌≡◌, ◌&&◌, ◌++◌, [], ◌∷◌, ℕ, true, false, ◌+◌, ◌≤◌, ◌<◌, IfOk, IfErr, OnOk, drop, length};
ghost use Rattle.poly_tiling.specs.Lists.{distinct, mem};
ghost use Rattle.poly_report.specs.Trees.{Arms as ArmsOf, Branches, NoArms, Plan, Rests, Splits};
ghost use Rattle.poly_report.specs.Shapes.{plan_of, arms_list};
ghost use Rattle.poly_report.specs.Sizes.{is_rest};
ghost use Rattle.poly_frame.specs.Walk.{is_due, is_open, is_option, with_step};
ghost use Rattle.poly_search.specs.Chains.{chain};
ghost use Rattle.poly_search.specs.Grows.{Grows, snoc, stand_of};
ghost use Rattle.poly_search.specs.Walked.{Walked};
ghost use Rattle.poly_frame.specs.declared.frame.TheConstants.{STEPS};
ghost use Rattle.poly_atom.specs.declared.atom.Atom.TheVariants.{Has};

use poly_grid::Refusal;
use poly_report::{Arm, Frame, Gathered, Tree};
use poly_tiling::Item;
use std::alloc::Global;

/// A tree as it grows: how many nodes may still be made, and the leaves so far.
#[derive(Drop)]
pub struct Growth {
    /// How many nodes of any kind may still be made.
    pub nodes: u32,
    /// How many nodes that aren't Rest may still be made.
    pub inner: u32,
    /// How many nodes that aren't Rest the whole tree may have.
    pub whole: u32,
    /// The leaves of what has grown, in the order of the tree.
    pub gathered: Gathered,
    /// Lists of options that have been walked. The next Branch reuses one of them instead of making its own list.
    pub spare: Vec<Vec<u32>>,
    /// Whether the tree is kept. If not, no Branch gets its arms, and one of its trees stands in the place of each Split.
    pub keep: bool,
}

// The options of the item, written into a spare list if there is one. An item without options uses up no spare list. The
// frame stays as it was.
fn list_options(
    alloc: Global,
    frame: &mut Frame<'_>,
    item: Item,
    spare: &mut Vec<Vec<u32>>,
) -> Result<Vec<u32>, Refusal>
    ensures same { OnOk result (frame.new ≡ frame.old) }
    ensures once { IfOk result (λ options. distinct options.items ≡ true) }
    ensures members { IfOk result (λ options. (p : ℕ) → mem options.items p ≡ (mem frame.old.scene.live p && is_option frame.old item p)) }
    ensures why { IfErr result (λ e. e ≡ Refusal.Memory) }
{
    let found = frame.options(item);
    if found.is_empty() {
        return Ok(Vec::new(alloc));
    }
    let mut options = spare.pop().unwrap_or(Vec::new(alloc));
    options.clear();
    options.extend_from_slice(found)?;
    Ok(options)
}

// A Branch without arms, for an item that is due and has no options. Most nodes that a search visits are such dead ends, so
// this takes no memory and walks no list.
fn dead_end(alloc: Global, growth: &mut Growth, item: Item) -> Tree
    requires nodes { 1 ≤ growth.old.nodes }
    requires inner { 1 ≤ growth.old.inner }
    ensures tree { plan_of result ≡ Branches item NoArms }
    ensures nodes { growth.new.nodes + 1 ≡ growth.old.nodes }
    ensures inner { growth.new.inner + 1 ≡ growth.old.inner }
    ensures gathered { growth.new.gathered ≡ growth.old.gathered }
    ensures keep { growth.new.keep ≡ growth.old.keep }
{
    growth.nodes -= 1;
    growth.inner -= 1;
    Tree::Branch {
        item,
        arms: Vec::new(alloc),
    }
}

// A Rest, whose path is gathered.
fn rest(frame: &Frame<'_>, growth: &mut Growth) -> Result<Tree, Refusal>
    requires { 1 ≤ growth.old.nodes }
    ensures grows { IfOk result (λ t. (plan_of t ≡ Rests) × ((d : ℕ) → 1 ≤ d → Grows frame.now d (stand_of growth.old) (stand_of growth.new) Rests)) }
    ensures nodes { OnOk result (growth.new.nodes + 1 ≡ growth.old.nodes) }
    ensures keep { OnOk result (growth.new.keep ≡ growth.old.keep) }
    ensures why { IfErr result (λ e. e ≡ Refusal.Memory) }
{
    growth.nodes -= 1;
    growth.gathered.push_rest(frame)?;
    Ok(Tree::Rest)
}

/// Grows a tree for the frame's atoms, no deeper than `depth`, and leaves at least `kept` of the nodes unused. If `root` is
/// set, the tree isn't Rest, provided that the depth and the budget allow a Split. If the tree isn't kept, what is returned only
/// stands for it. If the call isn't refused, the frame stays as it was. The only refusal is `Memory`.
#[cycle(grow)]
pub fn grow(
    alloc: Global,
    frame: &mut Frame<'_>,
    growth: &mut Growth,
    kept: u32,
    depth: u32,
    root: bool,
) -> Result<Tree, Refusal>
    requires room { kept < growth.old.nodes }
    requires low { 1 ≤ depth }
    requires steps { length frame.old.atoms + growth.old.nodes ≤ frame.old.given + STEPS + kept }
    requires begun { frame.old.given ≤ length frame.old.atoms }
    requires once { distinct frame.old.scene.live ≡ true }
    ensures same { OnOk result (frame.new ≡ frame.old) }
    ensures grows { IfOk result (λ t. (p : Plan) × (growth.old.keep ≡ true → plan_of t ≡ p) × Grows frame.old depth (stand_of growth.old) (stand_of growth.new) p × (root ≡ true → kept + 3 ≤ growth.old.nodes → 1 ≤ growth.old.inner → 2 ≤ depth → is_rest p ≡ false)) }
    ensures kept { OnOk result (kept ≤ growth.new.nodes) }
    ensures keep { OnOk result (growth.new.keep ≡ growth.old.keep) }
    ensures why { IfErr result (λ e. e ≡ Refusal.Memory) }
{
    if growth.inner == 0 {
        return rest(frame, growth);
    }
    let open = match frame.first_open() {
        None => {
            growth.nodes -= 1;
            growth.inner -= 1;
            growth.gathered.push_found(alloc, frame)?;
            return Ok(Tree::Found);
        }
        Some(p) => p,
    };
    if depth < 2 {
        return rest(frame, growth);
    }
    let Some(item) = frame.next_due() else {
        return split(alloc, frame, growth, kept, depth, open);
    };
    let options = list_options(alloc, frame, item, &mut growth.spare)?;
    let many = options.len();
    if many == 0 {
        return Ok(dead_end(alloc, growth, item));
    }
    if many >= (growth.nodes - kept) as usize {
        return split(alloc, frame, growth, kept, depth, open);
    }
    if !root && growth.inner < 2 {
        return rest(frame, growth);
    }
    let tree = branch(alloc, frame, growth, kept, depth, &item, &options);
    // If there is no memory to keep the list, a later Branch makes its own.
    let _ = growth.spare.push(options);
    tree
}

// Grows a tree below the root. If the tree has a Rest and used fewer nodes than an eighth of the whole budget, rounded down,
// a single Rest replaces the tree. Only nodes that aren't Rest are counted here.
#[cycle(grow)]
fn child(
    alloc: Global,
    frame: &mut Frame<'_>,
    growth: &mut Growth,
    kept: u32,
    depth: u32,
) -> Result<Tree, Refusal>
    requires room { kept < growth.old.nodes }
    requires low { 1 ≤ depth }
    requires steps { length frame.old.atoms + growth.old.nodes ≤ frame.old.given + STEPS + kept }
    requires begun { frame.old.given ≤ length frame.old.atoms }
    requires once { distinct frame.old.scene.live ≡ true }
    ensures same { OnOk result (frame.new ≡ frame.old) }
    ensures grows { IfOk result (λ t. (p : Plan) × (growth.old.keep ≡ true → plan_of t ≡ p) × Grows frame.old depth (stand_of growth.old) (stand_of growth.new) p) }
    ensures kept { OnOk result (kept ≤ growth.new.nodes) }
    ensures keep { OnOk result (growth.new.keep ≡ growth.old.keep) }
    ensures why { IfErr result (λ e. e ≡ Refusal.Memory) }
{
    let nodes = growth.nodes;
    let inner = growth.inner;
    let tilings = growth.gathered.tilings.len();
    let rests = growth.gathered.paths.len();
    let tree = grow(alloc, frame, growth, kept, depth, false)?;
    if rests < growth.gathered.paths.len() && inner - growth.inner < growth.whole / 8 {
        drop(tree);
        growth.nodes = nodes;
        growth.gathered.tilings.truncate(tilings);
        growth.gathered.paths.truncate(rests);
        return rest(frame, growth);
    }
    Ok(tree)
}

// Adds the arm of the placement, if the tree is kept. The arm's tree is what `child` grows once the placement is taken, or a
// dead end if the frame sees an item that would have too few placements left.
#[cycle(grow)]
fn arm(
    alloc: Global,
    frame: &mut Frame<'_>,
    growth: &mut Growth,
    kept: u32,
    depth: u32,
    placement: u32,
    arms: &mut Vec<Arm>,
) -> Result<(), Refusal>
    requires room { kept < growth.old.nodes }
    requires low { 1 ≤ depth }
    requires steps { length frame.old.atoms + growth.old.nodes + 1 ≤ frame.old.given + STEPS + kept }
    requires begun { frame.old.given ≤ length frame.old.atoms }
    requires once { distinct frame.old.scene.live ≡ true }
    ensures same { OnOk result (frame.new ≡ frame.old) }
    ensures grows { OnOk result ((p : Plan) × (growth.old.keep ≡ true → arms_list arms.new.items ≡ snoc (arms_list arms.old.items) placement p) × Grows (with_step frame.old (Has placement)) depth (stand_of growth.old) (stand_of growth.new) p) }
    ensures kept { OnOk result (kept ≤ growth.new.nodes) }
    ensures keep { OnOk result (growth.new.keep ≡ growth.old.keep) }
    ensures why { IfErr result (λ e. e ≡ Refusal.Memory) }
{
    if growth.inner == 0 || depth < 2 {
        frame.pick(placement);
    } else if let Some(item) = frame.pick_unless_starved(placement) {
        return dead_arm(alloc, growth, placement, item, arms);
    }
    let tree = child(alloc, frame, growth, kept, depth)?;
    frame.back();
    push_arm(arms, growth.keep, placement, tree)
}

// Adds a dead end as the arm of the placement, if the tree is kept. Most arms are dead ends, so nothing is made if it isn't.
fn dead_arm(
    alloc: Global,
    growth: &mut Growth,
    placement: u32,
    item: Item,
    arms: &mut Vec<Arm>,
) -> Result<(), Refusal>
    requires nodes { 1 ≤ growth.old.nodes }
    requires inner { 1 ≤ growth.old.inner }
    ensures arms { OnOk result (growth.old.keep ≡ true → arms_list arms.new.items ≡ snoc (arms_list arms.old.items) placement (Branches item NoArms)) }
    ensures nodes { growth.new.nodes + 1 ≡ growth.old.nodes }
    ensures inner { growth.new.inner + 1 ≡ growth.old.inner }
    ensures gathered { growth.new.gathered ≡ growth.old.gathered }
    ensures keep { growth.new.keep ≡ growth.old.keep }
    ensures why { IfErr result (λ e. e ≡ Refusal.Memory) }
{
    if growth.keep {
        let tree = dead_end(alloc, growth, item);
        return push_arm(arms, true, placement, tree);
    }
    growth.nodes -= 1;
    growth.inner -= 1;
    Ok(())
}

// How many options were walked, and how many nodes are held back for a chain over their arms.
#[derive(Drop)]
struct Extent {
    walked: usize,
    held: u32,
}

// Walks the options one after another, and adds an atom that leaves out each walked option before it walks the next one. May
// stop with at least two options not walked, if the budget ends and a chain can be made. Adds the arms, if the tree is kept.
#[cycle(grow)]
fn walk_arms(
    alloc: Global,
    frame: &mut Frame<'_>,
    growth: &mut Growth,
    kept: u32,
    depth: u32,
    item: &Item,
    options: &[u32],
    arms: &mut Vec<Arm>,
) -> Result<Extent, Refusal>
    requires room { kept + length options.now ≤ growth.old.nodes }
    requires low { 2 ≤ depth }
    requires steps { length frame.old.atoms + growth.old.nodes + 1 ≤ frame.old.given + STEPS + kept }
    requires begun { frame.old.given ≤ length frame.old.atoms }
    requires once { distinct frame.old.scene.live ≡ true }
    requires each_once { distinct options.now ≡ true }
    requires members { (p : ℕ) → mem options.now p ≡ (mem frame.old.scene.live p && is_option frame.old item.now p) }
    requires none { arms.old.items ≡ [] }
    ensures same { OnOk result (frame.new ≡ frame.old) }
    ensures walked { IfOk result (λ e. (made : ArmsOf) × (growth.old.keep ≡ true → arms_list arms.new.items ≡ made) × Walked frame.old depth kept options.now (stand_of growth.old) (stand_of growth.new) e.held e.walked made) }
    ensures keep { OnOk result (growth.new.keep ≡ growth.old.keep) }
    ensures why { IfErr result (λ e. e ≡ Refusal.Memory) }
{
    let start = frame.level();
    let chained = growth.inner > 0 && options.len() < (depth / 2) as usize;
    let mut held: u32 = 0;
    for j in 0..options.len() {
        if chained && j > 0 {
            if growth.inner > 1 {
                growth.inner -= 1;
                held += 1;
            } else if options.len() - j > 1
                && j <= held as usize + 1
                && j <= (growth.nodes - kept) as usize
            {
                growth.gathered.push_rest(frame)?;
                frame.backtrack_to(start);
                return Ok(Extent { walked: j, held });
            }
        }
        let placement = options[j];
        let after = (options.len() - j - 1) as u32;
        let deeper = if chained {
            depth - 1 - j as u32
        } else {
            depth - 1
        };
        arm(alloc, frame, growth, kept + after, deeper, placement, arms)?;
        if after > 0 {
            frame.leave(placement);
        }
    }
    frame.backtrack_to(start);
    Ok(Extent {
        walked: options.len(),
        held,
    })
}

// Adds an arm, if the tree is kept.
fn push_arm(arms: &mut Vec<Arm>, keep: bool, placement: u32, tree: Tree) -> Result<(), Refusal>
    ensures arms { OnOk result (keep ≡ true → arms_list arms.new.items ≡ snoc (arms_list arms.old.items) placement (plan_of tree)) }
    ensures why { IfErr result (λ e. e ≡ Refusal.Memory) }
{
    if !keep {
        drop(tree);
        return Ok(());
    }
    arms.push(Arm { placement, tree })?;
    Ok(())
}

// Grows a Branch on an item that is due, with an arm for each option; or, if the walk stops early, a chain over the arms that
// were walked.
#[cycle(grow)]
fn branch(
    alloc: Global,
    frame: &mut Frame<'_>,
    growth: &mut Growth,
    kept: u32,
    depth: u32,
    item: &Item,
    options: &[u32],
) -> Result<Tree, Refusal>
    requires room { kept + length options.now < growth.old.nodes }
    requires inner { 1 ≤ growth.old.inner }
    requires low { 2 ≤ depth }
    requires steps { length frame.old.atoms + growth.old.nodes ≤ frame.old.given + STEPS + kept }
    requires begun { frame.old.given ≤ length frame.old.atoms }
    requires once { distinct frame.old.scene.live ≡ true }
    requires due { is_due frame.old item.now ≡ true }
    requires each_once { distinct options.now ≡ true }
    requires members { (p : ℕ) → mem options.now p ≡ (mem frame.old.scene.live p && is_option frame.old item.now p) }
    ensures same { OnOk result (frame.new ≡ frame.old) }
    ensures grows { IfOk result (λ t. (p : Plan) × (growth.old.keep ≡ true → plan_of t ≡ p) × Grows frame.old depth (stand_of growth.old) (stand_of growth.new) p × (is_rest p ≡ false)) }
    ensures kept { OnOk result (kept ≤ growth.new.nodes) }
    ensures keep { OnOk result (growth.new.keep ≡ growth.old.keep) }
    ensures why { IfErr result (λ e. e ≡ Refusal.Memory) }
{
    growth.nodes -= 1;
    growth.inner -= 1;
    let room = if growth.keep { options.len() } else { 0 };
    let mut arms = Vec::with_capacity(alloc, room)?;
    let extent = walk_arms(alloc, frame, growth, kept, depth, item, options, &mut arms)?;
    let Extent { walked, held } = extent;
    if walked < options.len() {
        growth.nodes -= walked as u32;
        return link(alloc, arms);
    }
    growth.inner += held;
    Ok(Tree::Branch { item: *item, arms })
}

// The chain of Splits over the arms, with Rest at its end.
fn link(alloc: Global, arms: Vec<Arm>) -> Result<Tree, Refusal>
    ensures tree { IfOk result (λ t. plan_of t ≡ chain (arms_list arms.items) Rests) }
    ensures why { IfErr result (λ e. e ≡ Refusal.Memory) }
{
    let mut arms = arms;
    let mut tree = Tree::Rest;
    while let Some(arm) = arms.pop() {
        let Arm {
            placement,
            tree: taken,
        } = arm;
        tree = over(alloc, placement, taken, tree)?;
    }
    Ok(tree)
}

// Grows a Split on an open placement, or a Rest if the budget is less than three nodes.
#[cycle(grow)]
fn split(
    alloc: Global,
    frame: &mut Frame<'_>,
    growth: &mut Growth,
    kept: u32,
    depth: u32,
    placement: u32,
) -> Result<Tree, Refusal>
    requires room { kept < growth.old.nodes }
    requires inner { 1 ≤ growth.old.inner }
    requires low { 2 ≤ depth }
    requires steps { length frame.old.atoms + growth.old.nodes ≤ frame.old.given + STEPS + kept }
    requires begun { frame.old.given ≤ length frame.old.atoms }
    requires once { distinct frame.old.scene.live ≡ true }
    requires place { mem frame.old.scene.live placement ≡ true }
    requires open { is_open frame.old placement ≡ true }
    ensures same { OnOk result (frame.new ≡ frame.old) }
    ensures grows { IfOk result (λ t. (p : Plan) × (growth.old.keep ≡ true → plan_of t ≡ p) × Grows frame.old depth (stand_of growth.old) (stand_of growth.new) p × (kept + 3 ≤ growth.old.nodes → is_rest p ≡ false)) }
    ensures kept { OnOk result (kept ≤ growth.new.nodes) }
    ensures keep { OnOk result (growth.new.keep ≡ growth.old.keep) }
    ensures why { IfErr result (λ e. e ≡ Refusal.Memory) }
{
    if growth.nodes - kept < 3 {
        return rest(frame, growth);
    }
    growth.nodes -= 1;
    growth.inner -= 1;
    frame.pick(placement);
    let taken = child(alloc, frame, growth, kept + 1, depth - 1)?;
    frame.back();
    frame.leave(placement);
    let left = match child(alloc, frame, growth, kept, depth - 1) {
        Ok(left) => left,
        Err(e) => {
            drop(taken);
            return Err(e);
        }
    };
    frame.back();
    over_both(alloc, growth.keep, placement, taken, left)
}

// The Split over both trees, if the tree is kept. If not, one of them stands for it.
fn over_both(
    alloc: Global,
    keep: bool,
    placement: u32,
    taken: Tree,
    left: Tree,
) -> Result<Tree, Refusal>
    ensures tree { IfOk result (λ t. keep ≡ true → plan_of t ≡ Splits placement (plan_of taken) (plan_of left)) }
    ensures why { IfErr result (λ e. e ≡ Refusal.Memory) }
{
    if !keep {
        drop(taken);
        return Ok(left);
    }
    over(alloc, placement, taken, left)
}

// The Split over both trees.
fn over(alloc: Global, placement: u32, taken: Tree, left: Tree) -> Result<Tree, Refusal>
    ensures tree { IfOk result (λ t. plan_of t ≡ Splits placement (plan_of taken) (plan_of left)) }
    ensures why { IfErr result (λ e. e ≡ Refusal.Memory) }
{
    let taken = Box::new(alloc, taken)?;
    let left = Box::new(alloc, left)?;
    Ok(Tree::Split {
        placement,
        taken,
        left,
    })
}
