//! A catalogue that loses a tiling and gets it back.
//!
//! With ample memory this is a worked example of a catalogue. tests/refused_calls.sh runs the test again with each allocation
//! refused in turn: then a `list_all` of all tilings or an `exchange` that runs out of memory must leave the list as it was,
//! and succeed when it is made again.
ghost use Rattle.std.specs.Prelude.{◌≡◌, ◌++◌, [], IfOk, OnErr, OnOk, filter, nat_eq, not, true};
ghost use Rattle.std.specs.Cmp.Lexicographic.{pointwise};
ghost use Rattle.std.specs.List.{list_all, list_any};
ghost use Rattle.poly_design.specs.Changes.{changed};
ghost use Rattle.poly_design.specs.Limits.{IsDesign};
ghost use Rattle.poly_tiling.specs.Puzzle.{is_tiling};
ghost use Rattle.poly_place.specs.Right.{IsRight};
ghost use Rattle.poly_catalogue.specs.Listed.{AreOfEither, AreOnce};

use crate::designs::{DOMINOES, change_of, design_of};
use poly_catalogue::Catalogue;
use poly_design::{Change, Design};
use poly_grid::Refusal;
use poly_place::{Delta, Table};
use poly_search::search_all;
use poly_tiling::{Tiling, View};
use std::alloc::{AllocError, Global};
use std::test::Fail;

// How many tilings went away, how many stayed, how many there are at the end, and whether each refused call left the list
// as it was.
#[derive(Clone, Copy)]
struct Outcome {
    left: usize,
    stayed: usize,
    at_last: usize,
    kept: bool,
}

// All tilings of the view, each once, in no particular order.
fn found(alloc: Global, view: &View) -> Result<Vec<Tiling>, Refusal>
    ensures tilings { IfOk result (λ list. list_all (is_tiling view.now) list.items ≡ true) }
    ensures once { IfOk result (λ list. AreOnce list.items) }
{
    let list = search_all(alloc, view, &[])?;
    Ok(list)
}

// Makes the change. Keeps the listed tilings that are still tilings, and returns the others.
fn lead(
    design: &mut Design,
    table: &mut Table,
    catalogue: &mut Catalogue,
    change: &Change,
) -> Result<Vec<Tiling>, Refusal>
    requires right { IsRight table.old design.old }
    requires limits { IsDesign (changed design.old change.now) }
    requires listed { list_all (is_tiling table.old) catalogue.old ≡ true }
    ensures right { OnOk result (IsRight table.new design.new) }
    ensures listed { OnOk result (list_all (is_tiling table.new) catalogue.new ≡ true) }
    ensures once { IfOk result (λ gone. AreOnce (catalogue.new ++ gone.items)) }
{
    let plan = match table.plan(design, change) {
        Ok(plan) => plan,
        Err(refusal) => return Err(refusal),
    };
    design.make(change)?;
    let _listed = catalogue.all();
    let gone = catalogue.leaving(&plan.view, &plan.delta)?;
    catalogue.keep_only(&plan.view, &plan.delta);
    table.make(plan);
    Ok(gone)
}

// Whether the list has a tiling of these numbers.
fn is_listed(listed: &[Tiling], numbers: &[u32]) -> bool
    ensures { result ≡ list_any (λ U. pointwise nat_eq U numbers.now) listed.now }
{
    listed.iter().any(|tiling| tiling.numbers() == numbers)
}

// The tilings of the view that are not listed yet.
fn fresh(alloc: Global, view: &View, listed: &[Tiling]) -> Result<Vec<Tiling>, Refusal>
    requires { AreOnce listed.now }
    ensures tilings { IfOk result (λ list. list_all (is_tiling view.now) list.items ≡ true) }
    ensures once { IfOk result (λ list. AreOnce (listed.now ++ list.items)) }
{
    let tilings = found(alloc, view)?;
    let list = not_listed(alloc, tilings, listed)?;
    Ok(list)
}

fn not_listed(
    alloc: Global,
    tilings: Vec<Tiling>,
    listed: &[Tiling],
) -> Result<Vec<Tiling>, AllocError>
    ensures { IfOk result (λ list. list.items ≡ filter (λ T. not (list_any (λ U. pointwise nat_eq U T) listed.now)) tilings.items) }
{
    tilings
        .into_iter()
        .filter(|tiling| !is_listed(listed, tiling.numbers()))
        .collect(alloc)
}

// Copies of the tilings, in their order.
fn copies(alloc: Global, tilings: &[Tiling]) -> Result<Vec<Tiling>, Refusal> {
    let mut list = Vec::new(alloc);
    for tiling in tilings {
        list.push(tiling.copy()?)?;
    }
    Ok(list)
}

fn are_same(some: &[Tiling], others: &[Tiling]) -> bool {
    if some.len() != others.len() {
        return false;
    }
    for i in 0..some.len() {
        if some[i].numbers() != others[i].numbers() {
            return false;
        }
    }
    true
}

// Lists all tilings of the view. If it is refused, nothing is listed.
fn list(alloc: Global, catalogue: &mut Catalogue, view: &View) -> Result<(), Refusal>
    requires { catalogue.old ≡ [] }
    ensures ok { OnOk result (list_all (is_tiling view.now) catalogue.new ≡ true) }
    ensures err { OnErr result (catalogue.new ≡ []) }
{
    let tilings = found(alloc, view)?;
    catalogue.list_all(view, tilings)
}

// Lists all tilings of the table's view, with a second try if the first is refused. Returns false only if the refusal left a
// tiling listed.
fn list_twice(alloc: Global, catalogue: &mut Catalogue, table: &Table) -> Result<bool, Refusal>
    requires { catalogue.old ≡ [] }
    ensures { OnOk result (list_all (is_tiling table.now) catalogue.new ≡ true) }
{
    let view = table.view()?;
    if list(alloc, catalogue, &view).is_ok() {
        return Ok(true);
    }
    let kept = catalogue.is_empty();
    match list(alloc, catalogue, &view) {
        Ok(()) => Ok(kept),
        Err(refusal) => Err(refusal),
    }
}

// Exchanges what is listed for the tilings of the view: lists those that aren't listed yet. If it is refused, the list stays as
// it was.
fn exchange(
    alloc: Global,
    catalogue: &mut Catalogue,
    view: &View,
    delta: &Delta,
) -> Result<(), Refusal>
    requires { AreOfEither view.now delta.now catalogue.old }
    ensures { OnErr result (catalogue.new ≡ catalogue.old) }
{
    let more = fresh(alloc, view, catalogue.all())?;
    catalogue.exchange(view, delta, more)
}

// `exchange`, with a second try if the first is refused. Returns false only if the refusal changed the list.
fn exchange_twice(
    alloc: Global,
    catalogue: &mut Catalogue,
    view: &View,
    delta: &Delta,
) -> Result<bool, Refusal>
    requires { AreOfEither view.now delta.now catalogue.old }
{
    let before = copies(alloc, catalogue.all())?;
    if exchange(alloc, catalogue, view, delta).is_ok() {
        return Ok(true);
    }
    let kept = are_same(&before, catalogue.all());
    match exchange(alloc, catalogue, view, delta) {
        Ok(()) => Ok(kept),
        Err(refusal) => Err(refusal),
    }
}

// Lists the tilings that come back if the placement is allowed again. Returns what `exchange_twice` returns.
fn give_back(
    alloc: Global,
    design: &Design,
    table: &mut Table,
    catalogue: &mut Catalogue,
) -> Result<bool, Refusal>
    requires right { IsRight table.old design.now }
    requires listed { list_all (is_tiling table.old) catalogue.old ≡ true }
{
    let change = change_of(alloc, design, b"allow A 0,0 1,0")?;
    match table.plan(design, &change) {
        Ok(plan) => exchange_twice(alloc, catalogue, &plan.view, &plan.delta),
        Err(refusal) => Err(refusal),
    }
}

// Forbids the placement. Returns how many tilings went away.
fn take_away(
    alloc: Global,
    design: &mut Design,
    table: &mut Table,
    catalogue: &mut Catalogue,
) -> Result<usize, Refusal>
    requires right { IsRight table.old design.old }
    requires listed { list_all (is_tiling table.old) catalogue.old ≡ true }
    ensures right { OnOk result (IsRight table.new design.new) }
    ensures listed { OnOk result (list_all (is_tiling table.new) catalogue.new ≡ true) }
{
    let change = change_of(alloc, design, b"forbid A 0,0 1,0")?;
    match lead(design, table, catalogue, &change) {
        Ok(gone) => Ok(gone.len()),
        Err(refusal) => Err(refusal),
    }
}

// Lists all tilings, takes one away and gives it back.
fn lose_and_give_back(
    alloc: Global,
    design: &mut Design,
    table: &mut Table,
    catalogue: &mut Catalogue,
) -> Result<Outcome, Refusal>
    requires right { IsRight table.old design.old }
    requires none { catalogue.old ≡ [] }
{
    let listed = list_twice(alloc, catalogue, table)?;
    let left = take_away(alloc, design, table, catalogue)?;
    let stayed = catalogue.len();
    let given = give_back(alloc, design, table, catalogue)?;
    Ok(Outcome {
        left,
        stayed,
        at_last: catalogue.len(),
        kept: listed && given,
    })
}

fn there_and_back(alloc: Global) -> Result<Outcome, Refusal> {
    let mut design = design_of(alloc, DOMINOES, &[])?;
    let mut table = Table::of(alloc, &design)?;
    let mut catalogue = Catalogue::new(alloc);
    lose_and_give_back(alloc, &mut design, &mut table, &mut catalogue)
}

#[test]
fn a_tiling_lost_and_back(rt: HostRuntime) -> Result<(), Fail> {
    let outcome = match there_and_back(rt.alloc()) {
        Ok(outcome) => outcome,
        Err(_) => there_and_back(rt.alloc())?,
    };
    assert!(rt; (outcome.left, outcome.stayed, outcome.at_last) == (1, 3, 4));
    assert!(rt; outcome.kept);
    Ok(())
}
