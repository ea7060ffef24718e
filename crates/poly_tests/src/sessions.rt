//! Whole sessions, alone and with a team, over a reader that gives a limited number of bytes at a time and a writer that takes
//! one at a time. The other answers of sessions are in the transcripts that the test command plays.

ghost use Rattle.std.specs.Prelude.{◌≤◌};

use poly_cli::{End, Engine, Explained, Fault, Solo, Team, Watched, session};
use poly_grid::Refusal;
use std::alloc::{AllocGlobal, Global};
use std::cell::Cell;
use std::io;
use std::io::{ErrorKind, Read, Write};
use std::process::Abort;
use std::sync::Wait;
use std::thread::Threads;
use std::time::{Clock, Duration};

// Gives its bytes, at most `most` at a time, and then fails or ends.
#[derive(Drop)]
struct Pieces<'a> {
    left: &'a [u8],
    most: usize,
    fault: Option<ErrorKind>,
}

impl Read for Pieces<'_> {
    fn read(&mut self, buf: &mut [u8]) -> io::Result<usize> {
        let count = self.left.len().min(buf.len()).min(self.most);
        if count == 0 {
            return match self.fault {
                Some(kind) => Err(io::Error::from(kind)),
                None => Ok(0),
            };
        }
        let (now, later) = self.left.split_at(count);
        buf[..count].copy_from_slice(now);
        self.left = later;
        Ok(count)
    }
}

// Takes up to `room` bytes, one at a time, and then fails. Counts how often it is flushed.
#[derive(Drop)]
struct Small {
    taken: Vec<u8>,
    room: usize,
    flushes: u64,
}

impl Write for Small {
    fn write(&mut self, buf: &[u8]) -> io::Result<usize> {
        if self.taken.len() >= self.room || buf.is_empty() {
            return Err(io::Error::from(ErrorKind::BrokenPipe));
        }
        self.taken.push(buf[0])?;
        Ok(1)
    }

    fn flush(&mut self) -> io::Result<()> {
        self.flushes = self.flushes.wrapping_add(1);
        Ok(())
    }
}

// Its time is 0.6 seconds later at each look.
#[derive(Drop)]
struct Steps(Cell<u64>);

impl Clock for Steps {
    fn monotonic(&self) -> io::Result<Duration> {
        let millis = self.0.get().wrapping_add(600);
        self.0.set(millis);
        Ok(Duration::from_millis(millis))
    }

    fn since_1970(&self) -> io::Result<Duration> {
        self.monotonic()
    }
}

// A session's input, how many bytes are read at a time, the fault of the reader after the input (`None` if the input just
// ends), and how many bytes the writer takes.
#[derive(Clone, Copy)]
struct Devices<'a> {
    input: &'a [u8],
    piece: usize,
    fault: Option<ErrorKind>,
    room: usize,
}

#[derive(Drop)]
struct Outcome {
    end: Result<End, Fault>,
    taken: Vec<u8>,
    flushes: u64,
}

// Runs a session on a book that is settled alone.
fn run(alloc: Global, devices: Devices<'_>) -> Result<Outcome, Refusal> {
    let mut engine = Solo::new(alloc, 1000)?;
    Ok(run_on(alloc, devices, &mut engine))
}

fn run_on<E: Engine>(alloc: Global, devices: Devices<'_>, engine: &mut E) -> Outcome
    requires { E.ready engine.old }
{
    let mut reader = reader_of(devices);
    let mut writer = writer_of(alloc, devices);
    let end = session(alloc, &mut reader, &mut writer, engine);
    Outcome {
        end,
        taken: writer.taken,
        flushes: writer.flushes,
    }
}

fn reader_of<'a>(devices: Devices<'a>) -> Pieces<'a> {
    Pieces {
        left: devices.input,
        most: devices.piece,
        fault: devices.fault,
    }
}

fn writer_of(alloc: Global, devices: Devices<'_>) -> Small {
    Small {
        taken: Vec::new(alloc),
        room: devices.room,
        flushes: 0,
    }
}

// Asserts how a session ends and what it writes, and returns how often it flushes.
fn expect_end(
    rt: &(impl AllocGlobal + Abort),
    devices: Devices<'_>,
    end: Result<End, Fault>,
    want: &[u8],
) -> u64 {
    let run = run(rt.alloc(), devices).expect(rt, "memory");
    assert!(rt; run.end == end);
    assert_eq!(rt; run.taken.as_slice(), want);
    run.flushes
}

const DOMINOES: &[u8] =
    b"{\"format\":1,\"grid\":\"square\",\"board\":[\"##\",\"##\"],\"pieces\":[{\"name\":\"A\",\"cells\":[[0,0],[1,0]]},{\"name\":\"B\",\"cells\":[[0,0],[1,0]]}]}\r\npin A 0,0 0,1\nlist\n\nundo\ncount\nredo\nundo\nundo";

const ANSWERS: &[u8] =
    b"ok 0\nok 1\ntiling A=0,0/0,1 B=1,0/1,1\ntilings 1\nok 2\ntilings 4\nok 3\nok 4\nno 16 NothingToUndo\n";

const WHOLE: Devices = Devices {
    input: DOMINOES,
    piece: 10_000,
    fault: None,
    room: 1_000,
};

#[test]
fn pieces_of_any_length(rt: HostRuntime) {
    for piece in [1, 7, 10_000] {
        let flushes = expect_end(&rt, Devices { piece, ..WHOLE }, Ok(End::Done), ANSWERS);
        assert!(rt; flushes == 8);
    }
}

#[test]
fn devices_fail(rt: HostRuntime) {
    let fault = Some(ErrorKind::Interrupted);
    let heard = Devices { fault, ..WHOLE };
    let (want, _) = ANSWERS.split_at(ANSWERS.len() - 20);
    expect_end(&rt, heard, Err(Fault::Read), want);
    let full = Devices { room: 20, ..WHOLE };
    let (want, _) = ANSWERS.split_at(20);
    expect_end(&rt, full, Err(Fault::Write), want);
}

// Asserts that a session with a team of `workers` writes the same answers as a session on a book that is settled alone.
fn expect_team<R: Threads + Wait + Sync + AllocGlobal + Abort>(rt: &R, workers: usize)
    requires some { 1 ≤ workers }
    requires few { workers ≤ 16 }
{
    let mut team = Team::new(rt, rt.alloc(), workers, 1000).expect(rt, "memory");
    let run = run_on(rt.alloc(), WHOLE, &mut team);
    assert!(rt; run.end == Ok(End::Done));
    assert_eq!(rt; run.taken.as_slice(), ANSWERS);
}

#[test]
fn teams_of_every_size(rt: HostRuntime) {
    expect_team(&rt, 1);
    expect_team(&rt, 2);
    expect_team(&rt, 4);
    expect_team(&rt, 16);
}

#[test]
fn verbose_sessions_write_the_same(rt: HostRuntime) {
    let alloc = rt.alloc();
    let clock = Steps(Cell::new(0));
    let solo = Solo::new(alloc, 1000).expect(&rt, "memory");
    let mut engine = Watched::new(solo, 1000, &clock, writer_of(alloc, WHOLE));
    let mut writer = Explained::new(writer_of(alloc, WHOLE), writer_of(alloc, WHOLE));
    let end = session(alloc, &mut reader_of(WHOLE), &mut writer, &mut engine);
    assert!(rt; end == Ok(End::Done));
    assert_eq!(rt; writer.replies.taken.as_slice(), ANSWERS);
    assert_eq!(rt; writer.errors.taken.as_slice(), NOTHING_TO_UNDO);
    assert_eq!(rt; engine.errors.taken.as_slice(), TWO_SEARCHES);
}

const TWO_SEARCHES: &[u8] = b"polybench: took 1.2 s\npolybench: took 1.2 s\n";

const NOTHING_TO_UNDO: &[u8] =
    b"polybench: No change is left to undo. The last 256 changes can be undone.\n";
