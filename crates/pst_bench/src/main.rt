//! Makes large stores from a number, asks of them what a user waits for, through `run` of pst_run, which does in one call what the
//! program does in two, and prints a digest of all that is answered:
//!
//! ```text
//! pst_bench JOB SEED COUNT
//! ```
//!
//! bench/workloads.txt has the jobs, and docs/PERF.md what they show.
#![tactic(auto)]

mod awkward;
mod bodies;
mod chance;
mod digest;
mod folders;
mod heap;
mod image;
mod jobs;
mod laid;
mod lists;
mod mail;
mod message;
mod pages;
mod parts;
mod phrases;
mod properties;
mod table;
mod texts;

use jobs::{Answer, Job, answers};
use std::alloc::AllocError;
use std::env;
use std::io::Write;
use std::process::ExitCode;

// What the words ask for: a job, a seed, and how large the stores are.
fn asked(words: &[String]) -> Option<(Job, u64, u32)> {
    let [job, seed, count] = words else {
        return None;
    };
    let seed: u32 = seed.as_str().parse().ok()?;
    let count: u32 = count.as_str().parse().ok()?;
    Some((Job::named(job.as_str())?, u64::from(seed), count))
}

fn show(rt: &HostRuntime, answer: &Answer) {
    let Answer {
        what,
        status,
        length,
        digest,
    } = answer;
    let _ = writeln!(
        rt.stdout(),
        "{what}: status {status}, {length} bytes, digest {digest:016x}"
    );
}

fn work(rt: &HostRuntime) -> Result<bool, AllocError> {
    let Ok(args) = env::args(rt) else {
        return Ok(false);
    };
    let words: Vec<String> = args.skip(1).collect(rt.alloc())?;
    let Some((job, seed, count)) = asked(&words) else {
        return Ok(false);
    };
    for answer in &answers(rt.alloc(), job, seed, count)? {
        show(rt, answer);
    }
    Ok(true)
}

fn main(rt: HostRuntime) -> ExitCode {
    match work(&rt) {
        Ok(true) => ExitCode::from(0),
        Ok(false) => {
            let _ = writeln!(rt.stderr(), "usage: pst_bench JOB SEED COUNT");
            ExitCode::from(2)
        }
        Err(_) => {
            let _ = writeln!(rt.stderr(), "out of memory");
            ExitCode::from(4)
        }
    }
}
