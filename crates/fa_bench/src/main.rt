//! The jobs that a user of `fa_audit` waits for, on captures that are made up: `fa_bench [make] JOB SEED SIZE`.
//!
//! A job makes a capture, has an order proposed for it, and has that judged, as the commands `propose` and `check` do, and prints
//! a digest of both answers. With the word `make` before it, it makes the capture alone, and prints a digest of that: so the time
//! of the making can be taken off. SEED is the number of which the capture is made, and SIZE says how large it is. JOB is one of the
//! names in `jobs`.
#![tactic(auto)]

mod awkward;
mod build;
mod data;
mod flat;
mod handles;
mod interrupted;
mod jobs;
mod new_names;
mod open_file;
mod pool;
mod random;
mod recording;
mod reused;
mod stress;
mod threads;
mod unaligned;
mod volume;
mod walk;
mod work;

use crate::work::Work;
use anyhow::{Context, Result};
use std::env;
use std::env::Env;

fn main(rt: HostRuntime) -> Result<()> {
    run(&rt)
}

/// Runs the job that the words name.
fn run<R: AllocGlobal + Env + Print>(rt: &R) -> Result<()> {
    let mut words = env::args(rt)?;
    let _program = words.next();
    let first = words.next().context("no job")?;
    let (work, job) = if first.as_str() == "make" {
        (Work::Make, words.next().context("no job")?)
    } else {
        (Work::Judge, first)
    };
    let seed = words.next().context("no seed")?;
    let seed = seed.as_str().parse::<u64>()?;
    let size = words.next().context("no size")?;
    let size = size.as_str().parse::<u64>()?;
    jobs::run(rt, work, job.as_str(), seed, size)
}
