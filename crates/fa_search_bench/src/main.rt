//! A job whose requests overlap, so that an order has to be searched: `fa_search_bench [make] overlaps SEED ROUNDS`.
//!
//! It makes a capture whose proposal is not legal, and judges that by a search of all orders, as the command `judge` does. With the word
//! `make` before it, it makes the capture alone, so that the time of the making can be taken off. SEED is the number of which the capture is
//! made, and ROUNDS says how long it is.
#![tactic(auto)]

mod overlaps;

use anyhow::{Context, Result, bail};
use fa_audit::{Budget, judge_capture, judgement_text};
use std::env;
use std::env::Env;

/// How far the job goes.
#[derive(Clone, Copy)]
enum Work {
    /// The capture is made, and no more.
    Make,
    /// It is judged.
    Judge,
}

fn main(rt: HostRuntime) -> Result<()> {
    run(&rt)
}

/// Runs the job that the words name.
fn run<R: AllocGlobal + Env + Print>(rt: &R) -> Result<()> {
    let mut words = env::args(rt)?;
    let _program = words.next();
    let first = words.next().context("no job")?;
    let (work, job) = if first.as_str() == "make" {
        (Work::Make, words.next().context("no job")?)
    } else {
        (Work::Judge, first)
    };
    if job.as_str() != "overlaps" {
        bail!("no such job");
    }
    let seed = words.next().context("no seed")?;
    let seed = seed.as_str().parse::<u64>()?;
    let rounds = words.next().context("no number of rounds")?;
    let rounds = rounds.as_str().parse::<u64>()?;
    let capture = overlaps::capture(rt.alloc(), seed, rounds)?;
    take(rt, work, capture.as_slice())
}

/// Takes the capture as far as the job goes.
fn take<R: AllocGlobal + Print>(rt: &R, work: Work, capture: &[u8]) -> Result<()> {
    match work {
        Work::Make => tell_made(rt, capture),
        Work::Judge => judge(rt, capture),
    }
}

/// Tells that the capture was made: its length, which takes no time.
fn tell_made<R: AllocGlobal + Print>(rt: &R, capture: &[u8]) -> Result<()> {
    let bytes = capture.len();
    println!(rt; "overlaps: {bytes} bytes, made")?;
    Ok(())
}

/// Judges the capture by a search of all its orders, on an empty root.
fn judge<R: AllocGlobal + Print>(rt: &R, capture: &[u8]) -> Result<()> {
    let alloc = rt.alloc();
    let Ok(judgement) = judge_capture(alloc, capture, None, Budget::default()) else {
        bail!("no judgement");
    };
    let line = judgement_text(alloc, &judgement)?;
    let bytes = capture.len();
    println!(rt; "overlaps: {bytes} bytes, judged, {line}")?;
    Ok(())
}
