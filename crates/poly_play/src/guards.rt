//! The guards and the stairs of a change that is not made.
ghost use Rattle.std.specs.Prelude.{IfOk, ◌≡◌};
ghost use Rattle.poly_design.specs.Changes.{HasBefore, changed};
ghost use Rattle.poly_design.specs.Limits.{IsDesign};
ghost use Rattle.poly_place.specs.Between.{IsChangeOf};
ghost use Rattle.poly_place.specs.Right.{IsRight};
ghost use Rattle.poly_tiling.specs.Names.{Names};

use crate::changes::edit_of;
use crate::reply::Reply;
use poly_atom::{Atom, both_guards, guards, staircase};
use poly_design::{Change, Design};
use poly_grid::Refusal;
use poly_place::{Delta, Table};
use poly_tiling::View;
use std::alloc::Global;

/// `guards EDIT` says the guards of the change, its stairs, and the guards of its inverse.
pub fn say_guards(
    alloc: Global,
    design: &Design,
    reply: &mut Reply,
    line: &str,
) -> Result<(), Refusal> {
    let change = change_by(alloc, design, line)?;
    let mut table = Table::of(alloc, design)?;
    say_led(alloc, design, &mut table, reply, &change)
}

fn say_led(
    alloc: Global,
    design: &Design,
    table: &mut Table,
    reply: &mut Reply,
    change: &Change,
) -> Result<(), Refusal>
    requires standing { IsRight table.old design.now }
    requires limits { IsDesign (changed design.now change.now) }
{
    let before = table.view()?;
    say_planned(alloc, design, table, reply, change, &before)
}

fn say_planned(
    alloc: Global,
    design: &Design,
    table: &mut Table,
    reply: &mut Reply,
    change: &Change,
    before: &View,
) -> Result<(), Refusal>
    requires standing { IsRight table.old design.now }
    requires limits { IsDesign (changed design.now change.now) }
    requires before { before.now ≡ table.old }
{
    // The contract of this call guarantees that the design is within its limits.
    let _cells = design.cells();
    match table.plan(design, change) {
        Ok(plan) => say_change(alloc, reply, before, &plan.view, &plan.delta),
        Err(refusal) => Err(refusal),
    }
}

// The change that the edit of the line makes of the design.
fn change_by(alloc: Global, design: &Design, line: &str) -> Result<Change, Refusal>
    ensures stands { IfOk result (λ change. HasBefore design.now change) }
    ensures limits { IfOk result (λ change. IsDesign (changed design.now change)) }
{
    let edit = edit_of(alloc, design.grid(), line)?;
    design.check(&edit)
}

fn say_change(
    alloc: Global,
    reply: &mut Reply,
    before: &View,
    after: &View,
    delta: &Delta,
) -> Result<(), Refusal>
    requires { IsChangeOf before.now after.now delta.now }
{
    say_forth(alloc, reply, before, after)?;
    let both = both_guards(alloc, before, after, delta)?;
    say_atoms(reply, after, "back", both.back.as_slice());
    Ok(())
}

fn say_forth(alloc: Global, reply: &mut Reply, before: &View, after: &View) -> Result<(), Refusal>
    requires { Names before.now after.now }
{
    let forth = guards(alloc, before, after)?;
    say_atoms(reply, after, "guards", forth.as_slice());
    for stair in &staircase(alloc, forth.as_slice())? {
        say_atoms(reply, after, "stair", stair.as_slice());
    }
    Ok(())
}

fn say_atoms(reply: &mut Reply, view: &View, text: &str, atoms: &[Atom]) {
    reply.text(text);
    reply.atoms(view, atoms);
    reply.end();
}
