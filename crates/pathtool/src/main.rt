//! Answers questions about paths, one per line, from standard input to standard output.
//!
//! Functions do not allocate unless they take an allocator or say so. A function that appends to
//! `answer` allocates when that buffer grows, and fails if the allocation fails. After a failed
//! allocation the contents of `answer` are unspecified. Where a command does what a method of
//! `std::path::Path` does, its answer is the result of that method on Unix. Indices and lengths
//! count bytes.
#![tactic(auto)]

mod commands;
mod comparisons;
mod edits;
mod fields;
mod io_traits;
mod lists;
mod names;
mod paths;
mod retry;
mod run;
mod std_io;
mod tables;
mod texts;
mod walks;
mod watched;

use retry::RetryInterrupted;
use run::{RunError, run};
use std::io::BufWriter;
use std::process::ExitCode;
use std_io::StdIo;
use watched::Watched;

// Answers the lines of standard input on standard output.
fn answer(rt: &HostRuntime) -> Result<(), RunError> {
    let Ok(output) = BufWriter::new(rt.alloc(), std::io::writer(rt)) else {
        return Err(RunError::Memory);
    };
    let mut reader = Watched::new(RetryInterrupted::new(StdIo::new(rt.reader())));
    let mut writer = Watched::new(RetryInterrupted::new(StdIo::new(output)));
    run(rt.alloc(), &mut reader, &mut writer)
}

fn main(rt: HostRuntime) -> ExitCode {
    match answer(&rt) {
        Ok(()) => ExitCode::SUCCESS,
        Err(error) => {
            let _ = eprintln!(rt; "{error}");
            ExitCode::FAILURE
        }
    }
}
