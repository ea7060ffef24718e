//! How a plan is made.
ghost use Rattle.std.specs.Prelude.{◌≡◌, ◌⊎◌, ◌^◌, ◌≤◌, Err, IfOk, IfErr, length, nat_lt, true};
ghost use Rattle.std.specs.List.{list_all};
ghost use Rattle.std.specs.Arc.{arc_value};
ghost use Rattle.poly_design.specs.Changes.{changed};
ghost use Rattle.poly_design.specs.Layout.{Layout};
ghost use Rattle.poly_tiling.specs.Names.{WellNamed};
ghost use Rattle.poly_tiling.specs.Shows.{Shows};
ghost use Rattle.poly_place.specs.Delta.{GivesInOrder, IsDelta, IsPlanFor};
ghost use Rattle.poly_place.specs.Index.{IsIndex};
ghost use Rattle.poly_place.specs.Interned.{GoesOn};
ghost use Rattle.poly_place.specs.Numbered.{numbered_view};
ghost use Rattle.poly_place.specs.Spent.{IsSpent};

use crate::delta::{differences, marks_of};
use crate::index::Index;
use crate::interner::Interner;
use crate::numbered::Numbered;
use crate::plan::Plan;
use crate::update::updated;
use poly_design::{Change, Design};
use poly_grid::Refusal;
use poly_tiling::{LiveNumbers, View};
use std::alloc::Global;
use std::sync::Arc;

/// The plan of a change of the design that `numbered` shows; `after` is the design after the change.
///
/// Fails only with `Memory`, or with `Spent` if the placements that have numbers, and the placements and pins of the design
/// after the change, are together more than there are numbers.
pub(crate) fn plan_change(
    alloc: Global,
    names: &mut Interner,
    numbered: &Numbered,
    index: &Index,
    design: &Design,
    change: &Change,
    after: &Design,
) -> Result<Plan, Refusal>
    requires well { WellNamed (numbered_view names.old numbered.now) }
    requires indexed { IsIndex (numbered_view names.old numbered.now) index.now.rows.items }
    requires shows { Shows (numbered_view names.old numbered.now) design.now }
    requires after { after.now ≡ changed design.now change.now }
    ensures grows { GoesOn names.old names.new }
    ensures order { GivesInOrder after.now names.old names.new }
    ensures ok { IfOk result (λ p. IsPlanFor (numbered_view names.old numbered.now) design.now after.now (arc_value p.view) p.delta) }
    ensures given { IfOk result (λ p. (arc_value p.view).placements ≡ names.new) }
    ensures few { IfOk result (λ p. length (arc_value p.view).placements ≤ 2 ^ 32) }
    ensures spent { result ≡ Err Refusal.Spent → IsSpent names.old after.now }
    ensures why { IfErr result (λ e. (e ≡ Refusal.Spent) ⊎ (e ≡ Refusal.Memory)) }
{
    let marks = index.marks(alloc, names, change)?;
    let update = updated(alloc, names, numbered, &marks, change, after)?;
    let next = index.changed_by(alloc, names, &marks, &update)?;
    let plan = plan_between(alloc, names, numbered, update.numbered, next)?;
    Ok(plan)
}

fn plan_between(
    alloc: Global,
    names: &Interner,
    numbered: &Numbered,
    next: Numbered,
    index: Index,
) -> Result<Plan, Refusal>
    requires standing { WellNamed (numbered_view names.now numbered.now) }
    requires next { WellNamed (numbered_view names.now next) }
    requires indexed { IsIndex (numbered_view names.now next) index.rows.items }
    ensures view { IfOk result (λ p. arc_value p.view ≡ numbered_view names.now next) }
    ensures few { IfOk result (λ p. length (arc_value p.view).placements ≤ 2 ^ 32) }
    ensures delta { (before after : Layout) → Shows (numbered_view names.now numbered.now) before → Shows (numbered_view names.now next) after → IfOk result (λ p. IsDelta (numbered_view names.now next) before after p.delta) }
    ensures why { IfErr result (λ e. e ≡ Refusal.Memory) }
{
    let delta = differences(alloc, names.len(), numbered, &next)?;
    let view = view_of(alloc, names, &next)?;
    let shared = Arc::new(alloc, view)?;
    Ok(Plan {
        delta,
        view: shared,
        numbered: next,
        index,
    })
}

/// The view of a numbered design. The only refusal is `Memory`.
pub(crate) fn view_of(alloc: Global, names: &Interner, numbered: &Numbered) -> Result<View, Refusal>
    requires { WellNamed (numbered_view names.now numbered.now) }
    ensures ok { IfOk result (λ v. v ≡ numbered_view names.now numbered.now) }
    ensures why { IfErr result (λ e. e ≡ Refusal.Memory) }
{
    let placements = names.shared()?;
    let live = marked(alloc, names.len(), &numbered.live)?;
    let bounds = Vec::from_slice(alloc, &numbered.bounds)?;
    let pins = Vec::from_slice(alloc, &numbered.pins)?;
    Ok(View::sharing(placements, live, bounds, pins))
}

// The numbers with a mark for each number below the count. All of them must be below the count.
fn marked(alloc: Global, count: usize, numbers: &[u32]) -> Result<LiveNumbers, Refusal>
    requires { list_all (λ n. nat_lt n count) numbers.now ≡ true }
    ensures ok { IfOk result (λ l. l ≡ numbers.now) }
    ensures why { IfErr result (λ e. e ≡ Refusal.Memory) }
{
    let marks = marks_of(alloc, count, numbers)?;
    let copy = Vec::from_slice(alloc, numbers)?;
    Ok(LiveNumbers::marked(copy, marks))
}
