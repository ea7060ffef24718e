//! Cuts the bytes of any reader into lines, in memory that is allocated once.
//!
//! A reader may give any number of bytes at a time, and a line may be far longer than the memory for it. So each byte passes
//! through a chunk once, and only the first bytes of a line are kept: at most one more than a line may have, which is enough
//! to tell that the line is too long.
ghost use Rattle.std.specs.Prelude.{◌↔◌, ◌^◌, IsTrue, option_map, ◌≡◌, ◌+◌, ◌<◌, ◌≤◌, ◌++◌, ◌∷◌, [], ℕ, List, take, drop, length, IfOk, IfErr, IfSome, OnOk, MatchOption, MatchResult, vec_len, vec_capacity};
ghost use Rattle.std.specs.Io.KnownBytes.{Consumes, IsAtEnd};
ghost use Rattle.poly_cli.specs.Cutting.{ended, unended, without_return};
ghost use Rattle.poly_cli.specs.Buffered.{ahead, IsReady, kept, EndsLine, EndsNone, Cuts, Reads, NextLine};

use poly_grid::Refusal;
use std::alloc::Global;
use std::io::Read;

/// The most bytes of a line before its line feed. A longer line is refused with `LineTooLong`.
pub const LINE_LIMIT: usize = 65_536;

/// The most bytes of an input. A further byte is a read fault.
pub const INPUT_LIMIT: u64 = 1 << 30;

const CHUNK: usize = 8192;

/// The bytes that were read and not yet cut, the line that was cut last, and how many bytes may still be read.
#[derive(Drop)]
pub struct Lines {
    /// The most bytes of a line before its line feed.
    limit: usize,
    /// How many bytes may still be read.
    left: u64,
    /// Where a read puts its bytes.
    chunk: Vec<u8>,
    /// Where the bytes of the chunk that are not yet cut begin.
    at: usize,
    /// Where these bytes end.
    end: usize,
    /// The first bytes of the line that was cut last or has begun, at most `limit + 1` of them.
    line: Vec<u8>,
}

/// The result of reading the next line.
#[derive(Debug, Drop, Clone, Copy, PartialEq, Eq)]
pub enum Event {
    /// A line with its line feed.
    Line,
    /// The end of the input. If bytes came after the last line feed, they are the last line.
    End,
    /// The reader failed, or gave a byte over the limit of the input.
    Fault,
}

impl Lines {
    /// Returns a buffer for lines of up to `limit` bytes, from an input of up to `input` bytes. Allocates all memory that
    /// it ever needs. Requires that `limit` is below `usize::MAX`. Fails only with `Memory`.
    pub fn new(alloc: Global, limit: usize, input: u64) -> Result<Lines, Refusal>
        requires { limit + 1 < 2 ^ 64 }
        ensures ready { IfOk result IsReady }
        ensures limits { IfOk result (λ l. (l.limit ≡ limit) × (l.left ≡ input)) }
        ensures fresh { IfOk result (λ l. ahead l ≡ []) }
        ensures why { IfErr result (λ e. e ≡ Refusal.Memory) }
    {
        Ok(Lines {
            limit,
            left: input,
            chunk: Vec::from_elem(alloc, 0u8, CHUNK)?,
            at: 0,
            end: 0,
            line: Vec::with_capacity(alloc, limit + 1)?,
        })
    }

    /// Reads the next line and keeps its first bytes. An interrupted read is a fault like any other.
    pub fn next_line<R: Read>(&mut self, reader: &mut R) -> Event
        requires ready { IsReady self.old }
        ensures ready { IsReady self.new }
        ensures limit { self.new.limit ≡ self.old.limit }
        ensures next { NextLine result self.old self.new (R.remaining reader.old) (R.remaining reader.new) }
    {
        self.line.clear();
        loop {
            if self.cut() {
                return Event::Line;
            }
            match self.refill(reader) {
                Event::Line => {}
                Event::End => return Event::End,
                Event::Fault => return Event::Fault,
            }
        }
    }

    /// The line that was cut last, without a carriage return at its end, or `None` if it is too long.
    pub fn ended(&self) -> Option<&[u8]>
        ensures { (bytes : List ℕ) → self.now.line.items ≡ kept self.now.limit bytes → option_map (λ l. l.now) result ≡ ended self.now.limit bytes }
    {
        if self.line.len() > self.limit {
            return None;
        }
        Some(without_return(self.line.as_slice()))
    }

    /// The last line, which ended with the input, or `None` if it is too long.
    pub fn unended(&self) -> Option<&[u8]>
        ensures { (bytes : List ℕ) → self.now.line.items ≡ kept self.now.limit bytes → option_map (λ l. l.now) result ≡ unended self.now.limit bytes }
    {
        if self.line.len() > self.limit {
            return None;
        }
        Some(self.line.as_slice())
    }

    /// Whether the line has no byte.
    pub fn is_empty(&self) -> bool
        ensures { IsTrue result ↔ (self.now.line.items ≡ []) }
    {
        self.line.is_empty()
    }

    // Cuts the bytes up to the next line feed, or all bytes that were read if there is none. Returns whether there is one.
    fn cut(&mut self) -> bool
        requires ready { IsReady self.old }
        ensures ready { IsReady self.new }
        ensures left { (self.new.left ≡ self.old.left) × (self.new.limit ≡ self.old.limit) }
        ensures cut { (begun : List ℕ) → self.old.line.items ≡ kept self.old.limit begun → (piece : List ℕ) × (ahead self.old ≡ piece ++ ahead self.new)
            × Cuts self.old.limit result begun piece self.new.line.items (ahead self.new) }
    {
        match gather(self.limit, &mut self.line, &self.chunk[self.at..self.end]) {
            Some(taken) => {
                self.at += taken;
                true
            }
            None => {
                self.at = self.end;
                false
            }
        }
    }

    // Reads more bytes, after all earlier ones are cut. Returns `Line` if some came.
    fn refill<R: Read>(&mut self, reader: &mut R) -> Event
        requires ready { IsReady self.old }
        ensures ready { IsReady self.new }
        ensures line { (self.new.line ≡ self.old.line) × (self.new.limit ≡ self.old.limit) }
        ensures less { result ≡ Event.Line → self.new.left < self.old.left }
        ensures read { Reads result self.old.left self.new.left (R.remaining reader.old) (R.remaining reader.new) (ahead self.new) }
    {
        self.at = 0;
        self.end = 0;
        // Near the limit the chunk shrinks, so that no read takes both bytes within the limit and a byte past it.
        if self.left == 0 {
            self.chunk.truncate(1);
        } else if self.left < self.chunk.len() as u64 {
            self.chunk.truncate(self.left as usize);
        }
        match reader.read(self.chunk.as_mut_slice()) {
            Ok(0) => Event::End,
            Ok(n) if n as u64 <= self.left => {
                self.left -= n as u64;
                self.end = n;
                Event::Line
            }
            _ => Event::Fault,
        }
    }
}

// Takes bytes into the line up to the first line feed, and returns how many it took, the line feed included. If there is no
// line feed, takes all bytes and returns `None`.
fn gather(limit: usize, line: &mut Vec<u8>, bytes: &[u8]) -> Option<usize>
    requires room { limit + 1 ≤ vec_capacity line.old }
    ensures room { vec_capacity line.new ≡ vec_capacity line.old }
    ensures within { IfSome result (λ n. n ≤ length bytes.now) }
    ensures gathered { (begun : List ℕ) → line.old.items ≡ kept limit begun → MatchOption result
        (EndsNone limit begun bytes.now line.new.items)
        (λ n. EndsLine limit begun (take n bytes.now) line.new.items) }
{
    for i in 0..bytes.len() {
        let byte = bytes[i];
        if byte == b'\n' {
            return Some(i + 1);
        }
        keep(limit, line, byte);
    }
    None
}

// Keeps one more byte of the line, if at most `limit` bytes are kept so far.
fn keep(limit: usize, line: &mut Vec<u8>, byte: u8)
    requires room { limit + 1 ≤ vec_capacity line.old }
    ensures room { vec_capacity line.new ≡ vec_capacity line.old }
    ensures line { (b : List ℕ) → line.old.items ≡ kept limit b → line.new.items ≡ kept limit (b ++ byte ∷ []) }
{
    if line.len() <= limit {
        line.push_reserved(byte);
    }
}

fn without_return(bytes: &[u8]) -> &[u8]
    ensures { result.now ≡ without_return bytes.now }
{
    if bytes.is_empty() || bytes[bytes.len() - 1] != b'\r' {
        return bytes;
    }
    &bytes[..bytes.len() - 1]
}
