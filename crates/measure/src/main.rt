//! Measures what no script of the player reaches (docs/PLAYER.md): frames alone, `list_all` alone, and a look at a desk.
//!
//! The first line of standard input is a puzzle line. The other lines aren't read.
#![tactic(auto)]

mod catalogue;
mod frames;
mod looks;

use poly_design::Design;
use poly_text::puzzle_of;
use std::io::{self, Print};
use std::time::Clock;

fn main(rt: HostRuntime) -> io::Result<()> {
    let mut lines = rt.lines(rt.alloc());
    match lines.next() {
        Some(line) => measure(&rt, &rt, line?.as_str()),
        None => Ok(()),
    }
}

fn measure<R: Clock + Print>(rt: &HostRuntime, desk_rt: &R, line: &str) -> io::Result<()> {
    match puzzle_of(rt.alloc(), line.as_bytes()) {
        Ok(design) => measure_design(rt, desk_rt, &design),
        Err(refusal) => println!(rt; "refused: {}", refusal.name()),
    }
}

fn measure_design<R: Clock + Print>(
    rt: &HostRuntime,
    desk_rt: &R,
    design: &Design,
) -> io::Result<()> {
    frames::measure(rt, design)?;
    looks::measure(desk_rt, rt.alloc(), design)?;
    catalogue::measure(rt, design)
}
