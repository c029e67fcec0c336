//! Prints answers about paths, which are arguments or lines of standard input.
//!
//! Everything except what is here and in the library of Rattle is in `upath_commands`, whose
//! function `run_arguments` has the contract.
#![tactic(auto)]

mod texts;

use byte_streams::{RetryInterrupted, StdIo, Watched};
use std::alloc::AllocError;
use std::env::{Env, FillError};
use std::process::ExitCode;
use texts::{COMMANDS, GENERAL, VERSION};
use upath_commands::{Replies, RunError, Texts, argument_paths, run_arguments};

// Returns the argument with this index, or `None` after the last one.
fn argument_at(rt: &HostRuntime, index: usize) -> Result<Option<Vec<u8>>, AllocError> {
    let mut bytes = Vec::new(rt.alloc());
    for doublings in 0..32u32 {
        bytes.resize(256usize << doublings, 0)?;
        match rt.arg(index, bytes.as_mut_slice()) {
            Ok(len) => {
                bytes.truncate(len);
                return Ok(Some(bytes));
            }
            Err(FillError::NotPresent) => return Ok(None),
            Err(FillError::TooLong) => {}
        }
    }
    Err(AllocError)
}

// Returns the arguments after the program's name.
fn arguments_of(rt: &HostRuntime) -> Result<Vec<Vec<u8>>, AllocError> {
    let mut arguments = Vec::new(rt.alloc());
    for index in 1..usize::MAX {
        match argument_at(rt, index)? {
            Some(argument) => arguments.push(argument)?,
            None => break,
        }
    }
    Ok(arguments)
}

// Does what the arguments ask for. Returns the exit status.
fn answer(rt: &HostRuntime, arguments: &[Vec<u8>]) -> Result<u8, RunError> {
    let Ok(paths) = argument_paths(rt.alloc(), arguments) else {
        return Err(RunError::Arguments);
    };
    let texts = Texts {
        general: GENERAL,
        version: VERSION,
        commands: &COMMANDS,
    };
    let mut reader = Watched::new(RetryInterrupted::new(StdIo::new(rt.reader())));
    let output = RetryInterrupted::new(StdIo::new(std::io::writer(rt)));
    let errors = RetryInterrupted::new(StdIo::new(rt.stderr()));
    let mut replies = Replies::new(rt.alloc(), output, errors);
    run_arguments(
        rt.alloc(),
        paths.as_slice(),
        texts,
        &mut reader,
        &mut replies,
    )
}

// Does what the arguments ask for, unless they can't be kept.
fn answer_arguments(rt: &HostRuntime) -> Result<u8, RunError> {
    let Ok(arguments) = arguments_of(rt) else {
        return Err(RunError::Arguments);
    };
    answer(rt, arguments.as_slice())
}

fn main(rt: HostRuntime) -> ExitCode {
    match answer_arguments(&rt) {
        Ok(status) => ExitCode::from(status),
        Err(RunError::Arguments) => {
            let _ = eprintln!(rt; "upath: out of memory");
            ExitCode::from(3)
        }
        Err(_) => ExitCode::from(3),
    }
}
