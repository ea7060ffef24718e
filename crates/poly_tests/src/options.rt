//! The words of a command line: what options they give, or which error.

use clap::error::ErrorKind;
use poly_cli::read_arguments;
use std::alloc::Global;

// The turns and workers, or the kind of the error and its exit code.
fn read(alloc: Global, words: &[&str]) -> Result<(u64, Option<u8>), (ErrorKind, i32)> {
    match read_arguments(alloc, words) {
        Ok(options) => Ok((options.turns, options.workers)),
        Err(error) => Err((error.kind(), error.exit_code())),
    }
}

const READ: [(&[&str], Result<(u64, Option<u8>), (ErrorKind, i32)>); 13] = [
    (&["polybench"], Ok((1_000_000, None))),
    (&["polybench", "--turns", "1"], Ok((1, None))),
    (
        &["polybench", "--turns=1000000000"],
        Ok((1_000_000_000, None)),
    ),
    (
        &["polybench", "--turns", "0"],
        Err((ErrorKind::ValueValidation, 2)),
    ),
    (
        &["polybench", "--turns", "1000000001"],
        Err((ErrorKind::ValueValidation, 2)),
    ),
    (&["polybench", "--turns"], Err((ErrorKind::InvalidValue, 2))),
    (&["polybench", "--workers", "16"], Ok((1_000_000, Some(16)))),
    (
        &["polybench", "--workers", "0"],
        Err((ErrorKind::ValueValidation, 2)),
    ),
    (
        &["polybench", "--workers", "17"],
        Err((ErrorKind::ValueValidation, 2)),
    ),
    (
        &["polybench", "--worker", "2"],
        Err((ErrorKind::UnknownArgument, 2)),
    ),
    (&["polybench", "--help"], Err((ErrorKind::DisplayHelp, 0))),
    (
        &["polybench", "--version"],
        Err((ErrorKind::DisplayVersion, 0)),
    ),
    (
        &["polybench", "puzzle.json"],
        Err((ErrorKind::UnknownArgument, 2)),
    ),
];

#[test]
fn turns_workers_help_and_version_are_the_options(rt: HostRuntime) {
    for &(words, want) in &READ {
        assert!(rt; read(rt.alloc(), words) == want, "{words:?}");
    }
}
