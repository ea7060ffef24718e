//! The leaves of a tree while a walk over a frame gathers them.
//!
//! All rests of a tree begin with the atoms that the tree is for. On a wide board these are thousands, and a tree has thousands
//! of rests. So a walk keeps only the path of each rest: the atoms that follow those, which are the steps of the frame.
ghost use Rattle.std.specs.Prelude.{IfErr, IfOk, OnErr, OnOk, [], drop, length, map, ◌++◌, ◌∷◌, ◌≡◌, ◌≤◌};
ghost use Rattle.poly_report.specs.Leaves.{tilings};
ghost use Rattle.poly_report.specs.Trees.{Finds};

use crate::leaf::{Leaves, Rests};
use poly_atom::Atom;
use poly_frame::Frame;
use poly_grid::Refusal;
use poly_lists::AtomLists;
use poly_tiling::Tiling;
use std::alloc::Global;

/// The leaves that were gathered so far.
#[derive(Drop)]
pub struct Gathered {
    /// The tilings of the Found nodes, in the order of the tree.
    pub tilings: Vec<Tiling>,
    /// The path of each Rest, in the order of the tree.
    pub paths: AtomLists,
}

impl Gathered {
    /// No leaves.
    pub fn new(alloc: Global) -> Gathered
        ensures tilings { result.tilings.items ≡ [] }
        ensures paths { result.paths ≡ [] }
    {
        Gathered {
            tilings: Vec::new(alloc),
            paths: AtomLists::new(alloc),
        }
    }

    /// Adds what a Found at the frame's atoms gives: the base, if it is a tiling that meets the atoms. The only refusal is
    /// `Memory`, and it leaves the leaves as they were.
    pub fn push_found(&mut self, alloc: Global, frame: &Frame<'_>) -> Result<(), Refusal>
        ensures tilings { OnOk result (self.new.tilings.items ≡ self.old.tilings.items ++ tilings frame.now.scene frame.now.atoms Finds) }
        ensures paths { OnOk result (self.new.paths ≡ self.old.paths) }
        ensures err_tilings { OnErr result (self.new.tilings.items ≡ self.old.tilings.items) }
        ensures err_paths { OnErr result (self.new.paths ≡ self.old.paths) }
        ensures why { IfErr result (λ e. e ≡ Refusal.Memory) }
    {
        if let Some(base) = frame.found() {
            let numbers = Vec::from_slice(alloc, base)?;
            self.tilings.push(Tiling::new(numbers))?;
        }
        Ok(())
    }

    /// Adds a rest with the frame's atoms. The only refusal is `Memory`, and it leaves the leaves as they were.
    pub fn push_rest(&mut self, frame: &Frame<'_>) -> Result<(), Refusal>
        ensures tilings { OnOk result (self.new.tilings.items ≡ self.old.tilings.items) }
        ensures paths { OnOk result (self.new.paths ≡ self.old.paths ++ drop frame.now.given frame.now.atoms ∷ []) }
        ensures err_tilings { OnErr result (self.new.tilings.items ≡ self.old.tilings.items) }
        ensures err_paths { OnErr result (self.new.paths ≡ self.old.paths) }
        ensures why { IfErr result (λ e. e ≡ Refusal.Memory) }
    {
        self.paths.push(frame.path())?;
        Ok(())
    }

    /// Adds a rest with the frame's atoms and one more atom, without a step on the frame. The only refusal is `Memory`, and it
    /// leaves the leaves as they were.
    pub(crate) fn push_rest_with(&mut self, frame: &Frame<'_>, atom: Atom) -> Result<(), Refusal>
        requires begun { frame.now.given ≤ length frame.now.atoms }
        ensures tilings { OnOk result (self.new.tilings.items ≡ self.old.tilings.items) }
        ensures paths { OnOk result (self.new.paths ≡ self.old.paths ++ drop frame.now.given (frame.now.atoms ++ atom ∷ []) ∷ []) }
        ensures err_tilings { OnErr result (self.new.tilings.items ≡ self.old.tilings.items) }
        ensures err_paths { OnErr result (self.new.paths ≡ self.old.paths) }
        ensures why { IfErr result (λ e. e ≡ Refusal.Memory) }
    {
        self.paths.push_with(frame.path(), atom)?;
        Ok(())
    }

    /// The leaves, if the paths follow these atoms. The only refusal is `Memory`.
    pub fn into_leaves(self, alloc: Global, given: &[Atom]) -> Result<Leaves, Refusal>
        ensures tilings { IfOk result (λ l. l.tilings.items ≡ self.tilings.items) }
        ensures rests { IfOk result (λ l. l.rests ≡ map (λ p. given.now ++ p) self.paths) }
        ensures why { IfErr result (λ e. e ≡ Refusal.Memory) }
    {
        let Gathered { tilings, paths } = self;
        let stem = Vec::from_slice(alloc, given)?;
        Ok(Leaves {
            tilings,
            rests: Rests::new(stem, paths),
        })
    }
}
