//! The table: a design by numbers that outlast its changes.
ghost use Rattle.std.specs.Prelude.{◌≡◌, ◌⊎◌, ◌^◌, ◌≤◌, [], Err, IfOk, IfErr, length};
ghost use Rattle.std.specs.Arc.{arc_value};
ghost use Rattle.poly_design.specs.Changes.{changed};
ghost use Rattle.poly_design.specs.Layout.{Layout};
ghost use Rattle.poly_design.specs.Limits.{IsDesign};
ghost use Rattle.poly_tiling.specs.Names.{Grown, WellNamed};
ghost use Rattle.poly_place.specs.Delta.{GivesInOrder, IsPlanFor};
ghost use Rattle.poly_place.specs.Index.{AreNumbersWith};
ghost use Rattle.poly_place.specs.Right.{IsRight};
ghost use Rattle.poly_place.specs.Spent.{IsSpent};

use crate::index::Index;
use crate::interner::Interner;
use crate::numbered::Numbered;
use crate::parts::Parts;
use crate::plan::Plan;
use crate::plan_change::{plan_change, view_of};
use poly_design::{Change, Design};
use poly_grid::Refusal;
use poly_tiling::{Item, View};
use std::alloc::Global;
use std::marker::Model;

/// A design by numbers. A number that was given out names its placement forever, even after the placement has gone.
#[derive(Drop)]
pub struct Table {
    /// The allocator.
    alloc: Global,
    /// The placement of each number that was given out.
    names: Interner,
    /// The design now, by numbers.
    numbered: Numbered,
    /// The numbers of the design's placements, item by item.
    index: Index,
}

impl Model for Table {
    ghost use Rattle.poly_tiling.specs.Puzzle.{View};
    ghost use Rattle.poly_place.specs.Index.{IsIndexed};
    ghost use Rattle.poly_place.specs.Numbered.{numbered_view};

    ghost Value = { View };

    ghost view = { λ t. numbered_view t.names t.numbered };

    ghost invariant = { λ t. IsIndexed (numbered_view t.names t.numbered) t.index.rows.items };
}

impl Table {
    /// The table of the design. Numbers go to the placements first, in placement order, then to pins that aren't placements.
    ///
    /// The only refusal is `Memory`.
    pub fn of(alloc: Global, design: &Design) -> Result<Table, Refusal>
        ensures right { IfOk result (λ t. IsRight t design.now) }
        ensures order { IfOk result (λ t. GivesInOrder design.now [] t.placements) }
        ensures why { IfErr result (λ e. e ≡ Refusal.Memory) }
    {
        let mut names = Interner::new(alloc);
        let parts = Parts::of(alloc, design)?;
        match Numbered::of(&mut names, parts) {
            Ok(numbered) => {
                let index = Index::of(alloc, &names, &numbered)?;
                Ok(Table {
                    alloc,
                    names,
                    numbered,
                    index,
                })
            }
            Err(refusal) => Err(refusal),
        }
    }

    /// The design as the numbers show it now. The only refusal is `Memory`.
    pub fn view(&self) -> Result<View, Refusal>
        ensures ok { IfOk result (λ v. v ≡ self.now) }
        ensures why { IfErr result (λ e. e ≡ Refusal.Memory) }
    {
        view_of(self.alloc, &self.names, &self.numbered)
    }

    /// The numbers of the design's placements that have the item, each once; none if the item isn't in the design.
    pub fn numbers(&self, item: &Item) -> &[u32]
        ensures { AreNumbersWith self.now item.now result.now }
    {
        self.index.numbers(item)
    }

    /// The plan of a change of the design that the table is right for.
    ///
    /// Fails only with `Memory`, or with `Spent` if the placements that have numbers, and the placements and pins of the
    /// design after the change, are together more than there are numbers. The call leaves the table right for the
    /// design before the change, even if the call is refused. Numbers that the call assigned stay in use, whether or not the
    /// plan is applied. Refused or not, it gives numbers only to placements of the design after the change, in their order, and
    /// then to those of its pins that are no placements.
    pub fn plan(&mut self, design: &Design, change: &Change) -> Result<Plan, Refusal>
        requires standing { IsRight self.old design.now }
        requires limits { IsDesign (changed design.now change.now) }
        ensures ok { IfOk result (λ p. IsPlanFor self.old design.now (changed design.now change.now) (arc_value p.view) p.delta) }
        ensures last { IfOk result (λ p. (arc_value p.view).placements ≡ self.new.placements) }
        ensures stays { Grown self.old self.new }
        ensures order { GivesInOrder (changed design.now change.now) self.old.placements self.new.placements }
        ensures right { IsRight self.new design.now }
        ensures spent { result ≡ Err Refusal.Spent → IsSpent self.old.placements (changed design.now change.now) }
        ensures why { IfErr result (λ e. (e ≡ Refusal.Spent) ⊎ (e ≡ Refusal.Memory)) }
    {
        match after(design, change) {
            Ok(after) => self.plan_by(design, change, &after),
            Err(refusal) => Err(refusal),
        }
    }

    /// Does what `plan` does, and fails as `plan` does, for a caller that has already made `after`, the design after the
    /// change. Copies no design.
    pub fn plan_by(
        &mut self,
        design: &Design,
        change: &Change,
        after: &Design,
    ) -> Result<Plan, Refusal>
        requires standing { IsRight self.old design.now }
        requires after { after.now ≡ changed design.now change.now }
        ensures ok { IfOk result (λ p. IsPlanFor self.old design.now after.now (arc_value p.view) p.delta) }
        ensures last { IfOk result (λ p. (arc_value p.view).placements ≡ self.new.placements) }
        ensures few { IfOk result (λ p. length (arc_value p.view).placements ≤ 2 ^ 32) }
        ensures stays { Grown self.old self.new }
        ensures order { GivesInOrder after.now self.old.placements self.new.placements }
        ensures right { IsRight self.new design.now }
        ensures spent { result ≡ Err Refusal.Spent → IsSpent self.old.placements after.now }
        ensures why { IfErr result (λ e. (e ≡ Refusal.Spent) ⊎ (e ≡ Refusal.Memory)) }
    {
        plan_change(
            self.alloc,
            &mut self.names,
            &self.numbered,
            &self.index,
            design,
            change,
            after,
        )
    }

    /// Takes back each number that the view doesn't have. The view must show the same design, by the table's first numbers. Never
    /// allocates.
    pub fn take_back(&mut self, view: &View)
        requires well { WellNamed view.now }
        requires first { Grown view.now self.old }
        ensures { self.new ≡ view.now }
    {
        self.names.forget_from(view.number_count());
    }

    /// Applies the plan. The table must not have assigned a number since it made the plan. Never allocates.
    pub fn make(&mut self, plan: Plan)
        requires { (arc_value plan.view).placements ≡ self.old.placements }
        ensures now { self.new ≡ arc_value plan.view }
        ensures right { (d : Layout) → IsRight (arc_value plan.view) d → IsRight self.new d }
    {
        self.numbered = plan.numbered;
        self.index = plan.index;
    }
}

// The design after the change.
fn after(design: &Design, change: &Change) -> Result<Design, Refusal>
    requires { IsDesign (changed design.now change.now) }
    ensures ok { IfOk result (λ d. d ≡ changed design.now change.now) }
    ensures why { IfErr result (λ e. e ≡ Refusal.Memory) }
{
    let mut copy = design.copy()?;
    copy.make(change)?;
    Ok(copy)
}
