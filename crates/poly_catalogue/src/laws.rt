//! A law of plans, stated by the contract of a function that does nothing.
ghost use Rattle.poly_catalogue.specs.Laws.{PlansLead};

/// A plan is made from a table. The differences of the plan lead from the table's view to the plan's view: they name all that
/// may stop a tiling of the first view from being one of the second.
pub fn plans_lead()
    ensures { PlansLead }
{}
