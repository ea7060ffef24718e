//! The program: arguments, standard input and output, and the exit status. `poly_cli::session` gives its answers.
#![tactic(auto)]

ghost use Rattle.std.specs.Prelude.{◌≤◌, IfOk, IfSome};

use poly_cli::{
    End, Engine, Explained, Fault, Limited, Options, Solo, Team, Watched, explain, read_arguments,
    session,
};
use poly_grid::Refusal;
use poly_text::refusal_line;
use std::alloc::AllocError;
use std::io;
use std::io::Write;
use std::process::ExitCode;

/// The puzzle line was refused.
const REFUSED: u8 = 1;

/// The arguments were refused.
const BAD_ARGUMENTS: u8 = 2;

/// A read or a write failed.
const FAULT: u8 = 3;

fn main(rt: HostRuntime) -> ExitCode {
    let options = match options(&rt) {
        Ok(options) => options,
        Err(status) => return ExitCode::from(status),
    };
    let status = match options.workers {
        None => match Solo::new(rt.alloc(), options.turns) {
            Ok(solo) => status_of(&rt, &options, solo),
            Err(_) => refused_for_memory(&rt, &options),
        },
        // A team keeps a reference to `rt`, since it starts its threads with it.
        Some(workers) => match Team::new(&rt, rt.alloc(), usize::from(workers), options.turns) {
            Ok(team) => status_of(&rt, &options, team),
            Err(_) => refused_for_memory(&rt, &options),
        },
    };
    ExitCode::from(status)
}

// What the arguments say; or the exit status, if they ask for help or the version, or are refused.
fn options(rt: &HostRuntime) -> Result<Options, u8>
    ensures turns { IfOk result (λ o. (1 ≤ o.turns) × (o.turns ≤ 1000000000)) }
    ensures workers { IfOk result (λ o. IfSome o.workers (λ n. (1 ≤ n) × (n ≤ 16))) }
{
    let Ok(words) = words(rt) else {
        let _ = eprintln!(rt; "polybench: the arguments can't be read");
        return Err(BAD_ARGUMENTS);
    };
    let Ok(texts) = texts_of(rt, &words) else {
        let _ = eprintln!(rt; "polybench: the arguments can't be read");
        return Err(BAD_ARGUMENTS);
    };
    match read_arguments(rt.alloc(), texts.as_slice()) {
        Ok(options) => Ok(options),
        Err(error) => {
            let printed = error.print(rt);
            if printed.is_err() && error.exit_code() == 0 {
                // Help or the version could not be written.
                return Err(write_fault(rt));
            }
            Err(error.exit_code() as u8)
        }
    }
}

fn words(rt: &HostRuntime) -> io::Result<Vec<String>> {
    let words = std::env::args(rt)?.collect(rt.alloc())?;
    Ok(words)
}

fn texts_of<'a>(rt: &HostRuntime, words: &'a [String]) -> Result<Vec<&'a str>, AllocError> {
    let mut texts = Vec::new(rt.alloc());
    for word in words {
        texts.push(word.as_str())?;
    }
    Ok(texts)
}

// Runs a session on the engine, and returns the exit status.
fn status_of<E: Limited + Drop>(rt: &HostRuntime, options: &Options, engine: E) -> u8
    requires ready { E.ready engine }
    requires few { options.now.turns ≤ 1000000000 }
{
    let mut engine = engine;
    if !options.verbose {
        return status_with(rt, &mut io::writer(rt), &mut engine);
    }
    let mut writer = Explained::new(io::writer(rt), rt.stderr());
    let mut watched = Watched::new(engine, options.turns, rt, rt.stderr());
    status_with(rt, &mut writer, &mut watched)
}

fn status_with<W: Write, E: Engine>(rt: &HostRuntime, writer: &mut W, engine: &mut E) -> u8
    requires { E.ready engine.old }
{
    match session(rt.alloc(), &mut rt.reader(), writer, engine) {
        Ok(End::Done) => 0,
        Ok(End::Refused) => REFUSED,
        Err(Fault::Read) => {
            let _ = eprintln!(rt; "polybench: read fault");
            FAULT
        }
        Err(Fault::Write) => write_fault(rt),
    }
}

// If there is no memory for an engine, the puzzle line is refused before it is read.
fn refused_for_memory(rt: &HostRuntime, options: &Options) -> u8 {
    if print!(rt; "{}", refusal_line(Refusal::Memory)).is_err() {
        return write_fault(rt);
    }
    if options.verbose {
        explain(&mut rt.stderr(), Refusal::Memory);
    }
    REFUSED
}

fn write_fault(rt: &HostRuntime) -> u8 {
    let _ = eprintln!(rt; "polybench: write fault");
    FAULT
}
