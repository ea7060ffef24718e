//! Laws of the definitions, each the contract of a function that does nothing.
ghost use Rattle.std.specs.Prelude.{◌≡◌};
ghost use Rattle.poly_frame.specs.Laws.{StepsComeBack};
ghost use Rattle.poly_report.specs.Laws.{OpenPathsAddNothingHopeless, TreeTilingsBelong, TreesKeepHolding, TreesShareOut};

use crate::size::{DEPTH, NODES};

/// A tree that fits has at most 4,096 nodes and a depth of at most 512.
pub fn limits_of_trees()
    ensures nodes { NODES ≡ 4096 }
    ensures depth { DEPTH ≡ 512 }
{}

/// If a tree holds, each tiling of its family is either listed by the tree exactly once or in the family of exactly one
/// rest, never both. A tiling of the design outside the family is neither listed nor in the family of a rest.
pub fn trees_share_out()
    ensures { TreesShareOut }
{}

/// The tilings of a tree are members of its family.
pub fn tree_tilings_belong()
    ensures { TreeTilingsBelong }
{}

/// A tree that holds for some atoms holds, after a change of the design, for these atoms followed by the guards of the change.
pub fn trees_keep_holding()
    ensures { TreesKeepHolding }
{}

/// If a tree takes and leaves only open placements of the design, each of its rests is hopeless exactly if the atoms are. So
/// if the atoms aren't hopeless, no rest needs a check before it becomes a task.
pub fn open_paths_add_nothing_hopeless()
    ensures { OpenPathsAddNothingHopeless }
{}
