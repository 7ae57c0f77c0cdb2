//! The jobs by their names, and the captures of each. Most are made by a module of that name; `wrong` ends as `not shown` and is of
//! the module `data`, and `fault` ends as that and is of `stress`. `all` is each of them.

use crate::work::{Work, take};
use crate::{
    awkward, build, data, flat, handles, interrupted, new_names, reused, stress, threads,
    unaligned, walk,
};
use anyhow::{Result, bail};

/// Runs the job of this name.
pub fn run<R: AllocGlobal + Print>(
    rt: &R,
    work: Work,
    name: &str,
    seed: u64,
    size: u64,
) -> Result<()> {
    match name {
        "stress" => stress_job(rt, work, seed, size),
        "build" => build_job(rt, work, seed, size),
        "data" => data_job(rt, work, seed, size),
        "walk" => walk_job(rt, work, seed, size),
        "threads" => threads_job(rt, work, seed, size),
        "awkward" => awkward_job(rt, work, seed, size),
        "wrong" => wrong_job(rt, work, seed, size),
        "fault" => fault_job(rt, work, seed, size),
        "unaligned" => unaligned_job(rt, work, seed, size),
        "handles" => handles_job(rt, work, seed, size),
        "interrupted" => interrupted_job(rt, work, seed, size),
        "reused" => reused_job(rt, work, seed, size),
        "names" => names_job(rt, work, seed, size),
        "flat" => flat_job(rt, work, seed, size),
        "all" => all_jobs(rt, work, seed, size),
        _ => bail!("no such job"),
    }
}

fn all_jobs<R: AllocGlobal + Print>(rt: &R, work: Work, seed: u64, size: u64) -> Result<()> {
    stress_job(rt, work, seed, size)?;
    build_job(rt, work, seed, size)?;
    data_job(rt, work, seed, size)?;
    walk_job(rt, work, seed, size)?;
    threads_job(rt, work, seed, size)?;
    awkward_job(rt, work, seed, size)?;
    wrong_job(rt, work, seed, size)?;
    fault_job(rt, work, seed, size)?;
    unaligned_job(rt, work, seed, size)?;
    handles_job(rt, work, seed, size)?;
    interrupted_job(rt, work, seed, size)?;
    reused_job(rt, work, seed, size)?;
    names_job(rt, work, seed, size)?;
    flat_job(rt, work, seed, size)
}

fn stress_job<R: AllocGlobal + Print>(rt: &R, work: Work, seed: u64, size: u64) -> Result<()> {
    let volume = stress::volume(rt.alloc(), seed, size);
    take(rt, work, "stress", volume, None)
}

fn build_job<R: AllocGlobal + Print>(rt: &R, work: Work, seed: u64, size: u64) -> Result<()> {
    let volume = build::volume(rt.alloc(), seed, size)?;
    take(rt, work, "build", volume, None)
}

/// Some captures, since one of the most bytes that a capture may have is judged in a moment.
fn data_job<R: AllocGlobal + Print>(rt: &R, work: Work, seed: u64, size: u64) -> Result<()> {
    for part in 0..6 {
        let seed = seed.wrapping_mul(6).wrapping_add(part);
        let volume = data::volume(rt.alloc(), seed, size)?;
        take(rt, work, "data", volume, None)?;
    }
    Ok(())
}

fn walk_job<R: AllocGlobal + Print>(rt: &R, work: Work, seed: u64, size: u64) -> Result<()> {
    let (text, volume) = walk::volume(rt.alloc(), seed, size)?;
    take(rt, work, "walk", volume, Some(text.as_slice()))
}

fn threads_job<R: AllocGlobal + Print>(rt: &R, work: Work, seed: u64, size: u64) -> Result<()> {
    let volume = threads::volume(rt.alloc(), seed, size);
    take(rt, work, "threads", volume, None)
}

/// The size is that of the deep tree; the others are so much larger or smaller that each takes its share of the time.
fn awkward_job<R: AllocGlobal + Print>(rt: &R, work: Work, seed: u64, size: u64) -> Result<()> {
    let alloc = rt.alloc();
    take(rt, work, "deep", awkward::deep(alloc, seed, size), None)?;
    let removal = awkward::removal(alloc, seed, size.saturating_mul(20));
    take(rt, work, "removal", removal, None)?;
    let listing = awkward::listing(alloc, seed, size.saturating_mul(60));
    take(rt, work, "listing", listing, None)?;
    let growth = awkward::growth(alloc, seed, size / 4);
    take(rt, work, "growth", growth, None)?;
    let links = awkward::links(alloc, seed, size.saturating_mul(5));
    take(rt, work, "links", links, None)
}

/// A capture that ends as `not shown`.
fn wrong_job<R: AllocGlobal + Print>(rt: &R, work: Work, seed: u64, size: u64) -> Result<()> {
    let volume = data::wrong_byte(rt.alloc(), seed, size)?;
    take(rt, work, "wrong", volume, None)
}

/// A capture that ends as `fault`.
fn fault_job<R: AllocGlobal + Print>(rt: &R, work: Work, seed: u64, size: u64) -> Result<()> {
    let volume = stress::answered_twice(rt.alloc(), seed, size);
    take(rt, work, "fault", volume, None)
}

fn unaligned_job<R: AllocGlobal + Print>(rt: &R, work: Work, seed: u64, size: u64) -> Result<()> {
    let volume = unaligned::volume(rt.alloc(), seed, size)?;
    take(rt, work, "unaligned", volume, None)
}

fn handles_job<R: AllocGlobal + Print>(rt: &R, work: Work, seed: u64, size: u64) -> Result<()> {
    let volume = handles::volume(rt.alloc(), seed, size);
    take(rt, work, "handles", volume, None)
}

fn interrupted_job<R: AllocGlobal + Print>(rt: &R, work: Work, seed: u64, size: u64) -> Result<()> {
    let volume = interrupted::volume(rt.alloc(), seed, size);
    take(rt, work, "interrupted", volume, None)
}

fn reused_job<R: AllocGlobal + Print>(rt: &R, work: Work, seed: u64, size: u64) -> Result<()> {
    let volume = reused::volume(rt.alloc(), seed, size);
    take(rt, work, "reused", volume, None)
}

fn names_job<R: AllocGlobal + Print>(rt: &R, work: Work, seed: u64, size: u64) -> Result<()> {
    let volume = new_names::volume(rt.alloc(), seed, size);
    take(rt, work, "names", volume, None)
}

fn flat_job<R: AllocGlobal + Print>(rt: &R, work: Work, seed: u64, size: u64) -> Result<()> {
    let (text, volume) = flat::volume(rt.alloc(), seed, size)?;
    take(rt, work, "flat", volume, Some(text.as_slice()))
}
