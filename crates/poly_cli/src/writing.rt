//! Writes whole replies.
ghost use Rattle.std.specs.Io.KnownBytes.{Appends};
ghost use Rattle.poly_cli.specs.Runs.{Writes};

use std::io::Write;

/// Why a session failed.
#[derive(Debug, Drop, Clone, Copy, PartialEq, Eq)]
pub enum Fault {
    /// The reader failed, or the input has too many bytes or too many lines.
    Read,
    /// The writer failed.
    Write,
}

/// Writes all bytes. Fails only with `Write`; the writer then took only a beginning of the bytes, which may be empty.
pub fn write_bytes<W: Write>(writer: &mut W, bytes: &[u8]) -> Result<(), Fault>
    ensures { Writes result (W.contents writer.old) (W.contents writer.new) bytes.now }
{
    let mut at = 0;
    while at < bytes.len() {
        match writer.write(&bytes[at..]) {
            Ok(0) => return Err(Fault::Write),
            Ok(n) => at += n,
            Err(_) => return Err(Fault::Write),
        }
    }
    Ok(())
}

/// Writes all bytes and flushes. Fails only with `Write`; the writer then took a beginning of the bytes, which may be empty or
/// all of them.
pub fn write_whole<W: Write>(writer: &mut W, bytes: &[u8]) -> Result<(), Fault>
    ensures { Writes result (W.contents writer.old) (W.contents writer.new) bytes.now }
{
    write_bytes(writer, bytes)?;
    match writer.flush() {
        Ok(()) => Ok(()),
        Err(_) => Err(Fault::Write),
    }
}
