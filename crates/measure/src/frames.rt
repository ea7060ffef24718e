//! What a view's matrix costs, and frames for tasks.
ghost use Rattle.poly_frame.specs.Matrices.{IsWhole};

use poly_design::Design;
use poly_frame::{Frame, Matrix};
use poly_grid::Refusal;
use poly_report::Rests;
use poly_search::explore_over;
use poly_tiling::View;
use std::alloc::Global;
use std::io;
use std::time::Instant;

// The most nodes of a report's tree that aren't Rest.
const NODES: u32 = 256;

// How many times a frame is made for each rest of a report.
const ROUNDS: u32 = 100;

/// Measures the matrix of the design's view, a frame at the root, and a frame for each rest of one report.
pub fn measure(rt: &HostRuntime, design: &Design) -> io::Result<()> {
    match View::plain(rt.alloc(), design) {
        Ok(view) => measure_matrix(rt, &view),
        Err(refusal) => println!(rt; "a view was refused: {}", refusal.name()),
    }
}

fn measure_matrix(rt: &HostRuntime, view: &View) -> io::Result<()> {
    let begin = Instant::now(rt)?;
    let matrix = Matrix::new(rt.alloc(), view);
    let taken = begin.elapsed(rt)?.as_micros();
    match matrix {
        Ok(matrix) => {
            println!(rt; "a matrix: {taken} us")?;
            measure_frame_over(rt, view, &matrix)?;
            measure_rests(rt, view, &matrix)
        }
        Err(refusal) => println!(rt; "a matrix was refused: {}", refusal.name()),
    }
}

// Measures a frame without atoms.
fn measure_frame_over(rt: &HostRuntime, view: &View, matrix: &Matrix) -> io::Result<()>
    requires { IsWhole view.now matrix.now }
{
    let begin = Instant::now(rt)?;
    let frame = Frame::over(rt.alloc(), view, matrix, &[]);
    let taken = begin.elapsed(rt)?.as_micros();
    match frame {
        Ok(_) => println!(rt; "a frame at the root: {taken} us"),
        Err(refusal) => println!(rt; "a frame was refused: {}", refusal.name()),
    }
}

// Measures frames for the rests of a report.
fn measure_rests(rt: &HostRuntime, view: &View, matrix: &Matrix) -> io::Result<()>
    requires { IsWhole view.now matrix.now }
{
    match &explore_over(rt.alloc(), view, matrix, &[], NODES) {
        Ok(explored) => measure_frames(rt, view, matrix, &explored.leaves.rests),
        Err(refusal) => println!(rt; "a report was refused: {}", refusal.name()),
    }
}

// Measures a frame for each of the tasks. All frames are made several times, because the first ones wait for fresh memory. A
// worker rarely waits for that, since it makes frames all the time.
fn measure_frames(rt: &HostRuntime, view: &View, matrix: &Matrix, tasks: &Rests) -> io::Result<()>
    requires { IsWhole view.now matrix.now }
{
    let begin = Instant::now(rt)?;
    for _ in 0..ROUNDS {
        if let Err(refusal) = make_frames(rt.alloc(), view, matrix, tasks) {
            return println!(rt; "a frame was refused: {}", refusal.name());
        }
    }
    let taken = begin.elapsed(rt)?.as_micros();
    println!(rt;
        "frames for {} tasks, {ROUNDS} times each: {taken} us",
        tasks.len()
    )
}

fn make_frames(alloc: Global, view: &View, matrix: &Matrix, tasks: &Rests) -> Result<(), Refusal>
    requires { IsWhole view.now matrix.now }
{
    let mut atoms = Vec::new(alloc);
    for index in 0..tasks.len() {
        tasks.read(index, &mut atoms)?;
        Frame::over(alloc, view, matrix, &atoms)?;
    }
    Ok(())
}
