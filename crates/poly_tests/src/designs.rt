//! The test kit: designs and their changes, from the lines that a session reads.
//!
//! A test gives a design by its puzzle line and a change by its command line, for example:
//!
//! - `design(&rt, DOMINOES)` is the design of a puzzle line;
//! - `edited(&rt, DOMINOES, &[b"pin A 0,0 0,1"])` is that design after edits;
//! - `change_of(alloc, &design, b"drop A")` is the change that a command asks for.
//!
//! `design` and `edited` end the test if a line is refused or memory runs out, so their callers handle no errors.
ghost use Rattle.std.specs.Prelude.{IfOk};
ghost use Rattle.poly_design.specs.Changes.{HasBefore, changed};
ghost use Rattle.poly_design.specs.Limits.{IsDesign};

use poly_design::{Change, Design, Edit};
use poly_grid::{Grid, Refusal};
use poly_text::{Command, asked, puzzle_of};
use std::alloc::{AllocGlobal, Global};
use std::process::Abort;

/// A square of four cells and two dominoes, A and B: 4 tilings.
pub(crate) const DOMINOES: &[u8] =
    b"{\"format\":1,\"grid\":\"square\",\"board\":[\"##\",\"##\"],\"pieces\":[{\"name\":\"A\",\"cells\":[[0,0],[1,0]]},{\"name\":\"B\",\"cells\":[[0,0],[1,0]]}]}";

/// The design of the puzzle line.
pub(crate) fn design(rt: &(impl AllocGlobal + Abort), line: &[u8]) -> Design {
    puzzle_of(rt.alloc(), line).expect(rt, "a puzzle line")
}

/// The design of the puzzle line after the edits that the command lines ask for.
pub(crate) fn edited(rt: &(impl AllocGlobal + Abort), line: &[u8], edits: &[&[u8]]) -> Design {
    design_of(rt.alloc(), line, edits).expect(rt, "a puzzle line and edits")
}

/// The edit that the command line asks for on the grid. A line that asks for no edit is a `BadCommand`.
pub(crate) fn edit_by(alloc: Global, grid: Grid, line: &[u8]) -> Result<Edit, Refusal> {
    let command = asked(alloc, grid, line)?;
    match &command {
        Some(Command::Edit(edit)) => Ok(*edit),
        _ => Err(Refusal::BadCommand),
    }
}

/// The change that the command line asks for on the design, or the refusal. A line that asks for no edit is a `BadCommand`.
pub(crate) fn change_of(alloc: Global, design: &Design, line: &[u8]) -> Result<Change, Refusal>
    ensures stands { IfOk result (λ change. HasBefore design.now change) }
    ensures limits { IfOk result (λ change. IsDesign (changed design.now change)) }
{
    let edit = edit_by(alloc, design.grid(), line)?;
    match design.check(&edit) {
        Ok(change) => Ok(change),
        Err(refusal) => Err(refusal),
    }
}

/// The design of the puzzle line after the edits that the command lines ask for, or the first refusal.
pub(crate) fn design_of(alloc: Global, puzzle: &[u8], lines: &[&[u8]]) -> Result<Design, Refusal> {
    let mut design = puzzle_of(alloc, puzzle)?;
    for line in lines {
        let change = change_of(alloc, &design, line)?;
        design.make(&change)?;
    }
    Ok(design)
}
