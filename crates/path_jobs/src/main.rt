//! Jobs to be timed. They do what users of paths wait for, on synthetic inputs.
//!
//! `path_jobs JOB SEED COUNT` runs one of the jobs `manifest`, `table`, `requests`, `rules`,
//! `long`, `server`, `pairs` and `tree` on `COUNT` inputs, which are generated from the seed, and
//! prints a digest of all results. `path_jobs all SEED COUNT` runs every job. The same arguments
//! print the same output.
#![tactic(auto)]

mod digest;
mod lines;
mod long;
mod manifest;
mod now;
mod pairs;
mod random;
mod requests;
mod rules;
mod table;
mod tree;

use std::alloc::{AllocError, Global};
use std::process::ExitCode;
use std::{env, io};

// The names of the jobs of bench/workloads.txt.
static JOBS: [&str; 5] = ["manifest", "table", "requests", "rules", "long"];

// Returns the digest of a job's results, or `None` for an unknown job.
fn digest_of(alloc: Global, job: &str, seed: u64, count: u64) -> Result<Option<u64>, AllocError> {
    let digest = match job {
        "manifest" => manifest::run(alloc, seed, count)?,
        "table" => table::run(alloc, seed, count)?,
        "requests" => requests::run(alloc, seed, count)?,
        "rules" => rules::run(alloc, seed, count)?,
        "long" => long::run(alloc, seed, count)?,
        "pairs" => pairs::run(alloc, seed, count)?,
        _ => return now::digest_of(alloc, job, seed, count),
    };
    Ok(Some(digest))
}

// Runs a job and prints its digest. Returns false if there is no such job.
fn run(rt: &HostRuntime, job: &str, seed: u64, count: u64) -> io::Result<bool> {
    let Some(digest) = digest_of(rt.alloc(), job, seed, count)? else {
        return Ok(false);
    };
    println!(rt; "{job} {digest:016x}")?;
    Ok(true)
}

// Runs every job. Returns true if all jobs of `JOBS` exist.
fn run_all(rt: &HostRuntime, seed: u64, count: u64) -> io::Result<bool> {
    for job in JOBS.iter() {
        if !run(rt, job, seed, count)? {
            return Ok(false);
        }
    }
    // The jobs of bench/later.txt. The baseline can't run each.
    let _is_job = run(rt, "server", seed, count)?;
    let _is_job = run(rt, "pairs", seed, count)?;
    let _is_job = run(rt, "tree", seed, count)?;
    Ok(true)
}

// Runs the job that the program's arguments name, or every job for `all`. Returns false if the
// arguments are wrong.
fn answer(rt: &HostRuntime) -> io::Result<bool> {
    let mut words = env::args(rt)?;
    let _program = words.next();
    let (Some(job), Some(seed), Some(count)) = (words.next(), words.next(), words.next()) else {
        return Ok(false);
    };
    let (Ok(seed), Ok(count)) = (seed.parse::<u64>(), count.parse::<u64>()) else {
        return Ok(false);
    };
    if job.as_str() == "all" {
        run_all(rt, seed, count)
    } else {
        run(rt, job.as_str(), seed, count)
    }
}

fn main(rt: HostRuntime) -> ExitCode {
    match answer(&rt) {
        Ok(true) => ExitCode::SUCCESS,
        Ok(false) => {
            let _ = eprintln!(rt; "usage: path_jobs JOB SEED COUNT");
            ExitCode::FAILURE
        }
        Err(error) => {
            let _ = eprintln!(rt; "{error}");
            ExitCode::FAILURE
        }
    }
}
