//! What is done with the capture of a job.

use crate::volume::Volume;
use anyhow::{Result, bail};
use fa_audit::{MAX_TEXT_INPUT_BYTES, StartError, audit, proposal, verdict_text};

/// How far a job goes.
#[derive(Clone, Copy)]
pub enum Work {
    /// The capture is made, and no more.
    Make,
    /// An order is proposed for it, and judged.
    Judge,
}

/// Takes a capture of a job as far as the job goes.
pub fn take<R: AllocGlobal + Print>(
    rt: &R,
    work: Work,
    name: &str,
    volume: Volume,
    tree: Option<&[u8]>,
) -> Result<()> {
    let capture = volume.recording.capture()?;
    match work {
        Work::Make => tell_made(rt, name, capture, tree.unwrap_or(b"")),
        Work::Judge => judge(rt, name, capture, tree),
    }
}

/// Tells that a capture was made: its length, and a digest of its last bytes and of the last ones of the tree text, which takes
/// next to no time.
fn tell_made<R: AllocGlobal + Print>(
    rt: &R,
    name: &str,
    capture: &[u8],
    text: &[u8],
) -> Result<()> {
    let bytes = capture.len();
    let sum = digest(last_bytes(capture)) ^ digest(last_bytes(text));
    println!(rt; "{name}: {bytes} bytes, made {sum:016x}")?;
    Ok(())
}

/// Has an order proposed for a capture, and has it judged: a digest of both answers. Where the capture has a fault, which is why
/// none is proposed, an empty text stands for the order.
fn judge<R: AllocGlobal + Print>(
    rt: &R,
    name: &str,
    capture: &[u8],
    tree: Option<&[u8]>,
) -> Result<()> {
    let alloc = rt.alloc();
    if let Some(text) = tree {
        if text.len() > MAX_TEXT_INPUT_BYTES {
            bail!("the tree text is too long");
        }
    }
    let order = match proposal(alloc, capture, tree) {
        Ok(order) => order,
        Err(StartError::Fault { .. }) => Vec::new(alloc),
        Err(_) => bail!("no order"),
    };
    if order.len() > MAX_TEXT_INPUT_BYTES {
        bail!("the order text is too long");
    }
    let Ok(verdict) = audit(alloc, capture, tree, order.as_slice()) else {
        bail!("no verdict");
    };
    let line = verdict_text(alloc, &verdict)?;
    let bytes = capture.len();
    let digest = digest(order.as_slice());
    println!(rt; "{name}: {bytes} bytes, order {digest:016x}, {line}")?;
    Ok(())
}

/// The last 4,096 bytes, or all where there are fewer.
fn last_bytes(bytes: &[u8]) -> &[u8] {
    let from = bytes.len().saturating_sub(4096);
    bytes.get(from..).unwrap_or(b"")
}

/// A number that tells bytes apart (Fowler, Noll and Vo's hash, FNV-1a).
fn digest(bytes: &[u8]) -> u64 {
    let mut sum = 0xcbf2_9ce4_8422_2325u64;
    for byte in bytes {
        sum = (sum ^ u64::from(*byte)).wrapping_mul(0x0000_0100_0000_01b3);
    }
    sum
}
