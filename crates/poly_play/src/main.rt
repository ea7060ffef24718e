//! Plays a script of calls of the crates below the session: reads it line by line from standard input, makes the call that
//! each line names, and prints what the call answers. It parses, calls and prints, and computes nothing itself, so a test of
//! these calls can be a text file of lines with their answers.
//!
//! docs/PLAYER.md describes the lines.
//!
//! With the argument `--again`, a line that runs out of memory is played a second time, and only the second answer is printed.
#![tactic(auto)]

mod atoms;
mod changes;
mod events;
mod families;
mod guards;
mod kept;
mod names;
mod play;
mod questions;
mod quiets;
mod reply;
mod reports;
mod slots;
mod tasks;
mod trees;
mod views;
mod words;

use play::Play;
use reply::Reply;
use std::env;
use std::io::{self, Eprint, Print, Write};
use std::time::{Clock, Instant};

fn main(rt: HostRuntime) -> io::Result<()> {
    let again = is_asked_again(&rt)?;
    let lines = read_lines(&rt)?;
    let mut play = Play::new(rt.alloc(), again);
    run_all(&rt, &mut play, lines.as_slice())
}

fn is_asked_again(rt: &HostRuntime) -> io::Result<bool> {
    let words: Vec<String> = env::args(rt)?.collect(rt.alloc())?;
    Ok(words.iter().any(|word| word.as_str() == "--again"))
}

fn read_lines(rt: &HostRuntime) -> io::Result<Vec<String>> {
    let mut lines = Vec::new(rt.alloc());
    for line in rt.lines(rt.alloc()) {
        lines.push(line?)?;
    }
    Ok(lines)
}

fn run_all<R: Clock + Print + Eprint>(rt: &R, play: &mut Play, lines: &[String]) -> io::Result<()> {
    for line in lines {
        run_line(rt, play, line.as_str())?;
    }
    Ok(())
}

// Plays the line. If it begins with the word `time`, also prints on standard error how long the call took.
fn run_line<R: Clock + Print + Eprint>(rt: &R, play: &mut Play, line: &str) -> io::Result<()> {
    match line.strip_prefix("time ") {
        Some(rest) => run_timed(rt, play, rest)?,
        None => play.run(line),
    }
    print_reply(rt, &mut play.reply)
}

fn run_timed<R: Clock + Print + Eprint>(rt: &R, play: &mut Play, line: &str) -> io::Result<()> {
    let begin = Instant::now(rt)?;
    play.run(line);
    let taken = begin.elapsed(rt)?.as_micros();
    eprintln!(rt; "{line}: {taken} us")
}

fn print_reply<R: Print>(rt: &R, reply: &mut Reply) -> io::Result<()> {
    let mut out = io::writer(rt);
    out.write_all(reply.as_bytes())?;
    out.flush()?;
    reply.clear();
    Ok(())
}
