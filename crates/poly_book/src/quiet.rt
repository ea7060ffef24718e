//! A Quiet: all tilings of a design, listed when nothing is pending.
ghost use Rattle.std.specs.Prelude.{◌≡◌, ◌<◌, ◌⊎◌, [], IfErr, IfOk, length, map};
ghost use Rattle.std.specs.Arc.{arc_value};
ghost use Rattle.poly_design.specs.Limits.{IsDesign};
ghost use Rattle.poly_tiling.specs.Lister.{HasEachOnce};
ghost use Rattle.poly_tiling.specs.Listings.{IsListOfTilings};
ghost use Rattle.poly_tiling.specs.Names.{WellNamed};
ghost use Rattle.poly_tiling.specs.Shows.{Shows};
ghost use Rattle.poly_tiling.specs.TilingOrder.{placed};
ghost use Rattle.poly_book.specs.AllTilings.{HasAll, IsQuietOf};

use crate::book::Book;
use poly_design::Design;
use poly_grid::Refusal;
use poly_tiling::{Tiling, View, tilings_in_order};
use std::alloc::Global;
use std::marker::Model;
use std::sync::Arc;

/// All tilings of a design, by the numbers of a view, in the order of tilings, each once; and the edition at which nothing
/// was pending.
#[derive(Drop)]
pub struct Quiet {
    /// The design whose tilings these are.
    design: Design,
    /// The edition at which nothing was pending.
    edition: u64,
    /// The view whose numbers the tilings have.
    view: Arc<View>,
    /// The tilings, in the order of tilings.
    tilings: Vec<Tiling>,
}

impl Model for Quiet {
    ghost use Rattle.std.specs.Arc.{arc_value};
    ghost use Rattle.poly_book.specs.AllTilings.{AllTilings, HasAll};

    ghost Value = { AllTilings };

    ghost view = { λ q. record { design = q.design; edition = q.edition; view = arc_value q.view; tilings = q.tilings.items } };

    ghost invariant = { λ q. HasAll (record { design = q.design; edition = q.edition; view = arc_value q.view; tilings = q.tilings.items }) };
}

impl Quiet {
    /// The design whose tilings these are.
    pub fn design(&self) -> &Design
        ensures value { result.now ≡ self.now.design }
        ensures all { HasAll self.now }
    {
        &self.design
    }

    /// The edition at which nothing was pending.
    pub fn edition(&self) -> u64
        ensures { result ≡ self.now.edition }
    {
        self.edition
    }

    /// The view whose numbers the tilings have.
    pub fn view(&self) -> &Arc<View>
        ensures value { arc_value result.now ≡ self.now.view }
        ensures shows { Shows self.now.view self.now.design }
    {
        &self.view
    }

    /// The tilings, in the order of tilings.
    pub fn tilings(&self) -> &[Tiling]
        ensures value { result.now ≡ self.now.tilings }
        ensures each { HasEachOnce self.now.view self.now.tilings }
        ensures all { IsListOfTilings self.now.design (map (placed self.now.view) self.now.tilings) }
    {
        &self.tilings
    }
}

impl Book {
    /// All tilings of the design. Refused with `Busy` if tasks are pending, and otherwise only with `Memory`.
    pub fn quiet(&self) -> Result<Quiet, Refusal>
        ensures ok { IfOk result (λ q. IsQuietOf self.now q) }
        ensures why { IfErr result (λ e. ((e ≡ Refusal.Busy (length self.now.pending)) × (0 < length self.now.pending)) ⊎ ((e ≡ Refusal.Memory) × (self.now.pending ≡ []))) }
    {
        let pending = self.parts.tasks.len() as u64;
        if pending > 0 {
            return Err(Refusal::Busy { pending });
        }
        let edition = self.parts.steps.len() as u64;
        let listed = self.parts.listed.all();
        match all_tilings(
            self.parts.alloc,
            &self.parts.design,
            edition,
            self.parts.scene.shared(),
            listed,
        ) {
            Ok(all) => Ok(all),
            Err(refusal) => Err(refusal),
        }
    }
}

/// Copies of tilings.
pub(crate) fn copies(alloc: Global, tilings: &[Tiling]) -> Result<Vec<Tiling>, Refusal>
    ensures ok { IfOk result (λ v. v.items ≡ tilings.now) }
    ensures why { IfErr result (λ e. e ≡ Refusal.Memory) }
{
    let mut all = Vec::with_capacity(alloc, tilings.len())?;
    for tiling in tilings {
        all.push(tiling.copy()?)?;
    }
    Ok(all)
}

// The listed tilings as a Quiet, put in order. They must be all tilings of the design, each once.
fn all_tilings(
    alloc: Global,
    design: &Design,
    edition: u64,
    view: &Arc<View>,
    listed: &[Tiling],
) -> Result<Quiet, Refusal>
    requires is_design { IsDesign design.now }
    requires well { WellNamed (arc_value view.now) }
    requires shows { Shows (arc_value view.now) design.now }
    requires each { HasEachOnce (arc_value view.now) listed.now }
    ensures design { IfOk result (λ q. q.design ≡ design.now) }
    ensures edition { IfOk result (λ q. q.edition ≡ edition) }
    ensures view { IfOk result (λ q. q.view ≡ arc_value view.now) }
    ensures why { IfErr result (λ e. e ≡ Refusal.Memory) }
{
    let tilings = tilings_in_order(alloc, view, listed)?;
    let copy = design.copy()?;
    let shared = Arc::try_clone(view)?;
    Ok(Quiet {
        design: copy,
        edition,
        view: shared,
        tilings,
    })
}
