//! A stream from an input, judged as it comes.

ghost use Rattle.std.specs.Prelude.{◌≡◌, ◌<◌, ◌≤◌, ◌⊎◌, ℕ, List, Option, true, false, IfOk, IfSome, IsNone, IsErrOf};
ghost use Rattle.fa_watch.specs.Watched.{IsWatched};
ghost use Rattle.fa_watch.specs.parts.Watching.{IsSoFar};

use crate::stream::Stream;
use bumpalo::Bump;
use fa_capture::{Input, MAX_READ_LIMIT, PIECE, Pull, SPARE_PULLS, Seed};
use fa_session::{Parked, Session};
use std::alloc::{AllocError, Global};
use thiserror::Error;

/// What was seen of a stream.
#[derive(Clone, Copy, Debug, PartialEq, Eq)]
pub enum Seen {
    /// It came to its end, and all its messages keep the protocol.
    Good { messages: u32 },
    /// Its first fault: the number of the first message that does not keep the protocol, or of the framing fault, and the code of the
    /// first check that it fails, one of [`fa_capture::codes`].
    Fault { at: u32, code: u16 },
}

/// Why nothing was seen.
#[derive(Clone, Copy, Debug, PartialEq, Eq, Hash, Error)]
pub enum WatchError {
    /// The input failed, or was interrupted so often that [`MAX_PULLS`] came to no end.
    #[error("read")]
    Read,
    /// Memory was refused.
    #[error("memory")]
    Memory,
}

impl From<AllocError> for WatchError {
    ghost use Rattle.std.specs.Prelude.{◌≡◌};
    ghost use Rattle.fa_watch.specs.declared.watching.WatchError.TheVariants.{Memory};

    ghost from_gives = { λ _ e. e ≡ Memory };

    fn from(_: AllocError) -> WatchError {
        WatchError::Memory
    }
}

/// How many pulls are made at most. A capture without a framing fault has fewer bytes, so they come to an end unless some are
/// interrupted.
pub const MAX_PULLS: usize = MAX_READ_LIMIT + SPARE_PULLS;

/// How many bytes are read at least before the outstanding requests are copied, so that all others can go.
const GENERATION: usize = 1_048_576;

/// Reads a capture as it comes and tells its first fault, or that there is none once it came to its end. It has read at most [`PIECE`]
/// bytes behind those that have the fault; that it makes no further pull before it tells it is tested.
///
/// The capture is in either [`Format`](fa_capture::Format); its checks, their order and its limits are those of
/// [`read_capture`](fa_capture::read_capture), [`Session::accept`] and [`Ledger::accept`](fa_ledger::Ledger::accept), and so is what is
/// told. Tables are hashed with the seed. No mark of the input is set at the call. An interrupted pull is made again.
///
/// Which bytes were read is said where the input tells its bytes, as one over memory does. Files and pipes do not: of a call on them it
/// is said alone that what is told is true of some bytes.
///
/// # Errors
///
/// - [`WatchError::Read`] where a pull failed, or where [`MAX_PULLS`] came to no end; some of them were interrupted.
/// - [`WatchError::Memory`] where memory was refused.
///
/// # Cost
///
/// Each pull asks for [`PIECE`] bytes. For each piece the time of [`Incoming::take`](fa_capture::Incoming::take), and expected that of
/// [`Session::accept`] and [`Standing::accept`](fa_ledger::Standing::accept) for each message; behind a megabyte, or as many bytes as the
/// outstanding requests have, these are copied once. Memory for the most nodes, keys and openings that were alive at once, twice for the
/// outstanding requests, for the record that is begun, and for a megabyte and a piece of the stream, or as much of it as the outstanding
/// requests have bytes where these are more.
pub fn watch<R: Input>(alloc: Global, seed: Seed, input: &mut R) -> Result<Seen, WatchError>
    requires unfailed { R.has_failed input.old ≡ false }
    requires uninterrupted { R.was_interrupted input.old ≡ false }
    ensures seen { IfOk result (IsWatched (R.remaining input.old) (R.remaining input.new)) }
    ensures read { IsErrOf result WatchError.Read → (R.has_failed input.new ≡ true) ⊎ (R.was_interrupted input.new ≡ true) }
    ensures failed { R.has_failed input.new ≡ true → IsErrOf result WatchError.Read }
{
    let mut stream = Stream::new(alloc, seed);
    let mut parked = Parked::new(alloc);
    let mut pulls = 0;
    while pulls < MAX_PULLS {
        let arena = Bump::new(alloc);
        let mut session = parked.resume(alloc, seed)?;
        let room = parked.bytes().max(GENERATION);
        let seen = read_on(input, &mut stream, &mut session, &arena, &mut pulls, room)?;
        if let Some(seen) = seen {
            return Ok(seen);
        }
        let next = session.park(alloc)?;
        drop(session);
        parked = next;
    }
    Err(WatchError::Read)
}

/// Reads on for so many bytes: what is seen, if it was seen by then. The session borrows what it keeps from the arena.
fn read_on<'a, R: Input>(
    input: &mut R,
    stream: &mut Stream,
    session: &mut Session<'a>,
    arena: &'a Bump,
    pulls: &mut usize,
    room: usize,
) -> Result<Option<Seen>, WatchError>
    requires so_far { (first : Option (List ℕ)) × IsSoFar first (R.remaining input.old) stream.old session.old (R.has_failed input.old) (R.was_interrupted input.old) pulls.old }
    requires more { pulls.old < MAX_PULLS }
    requires room { 0 < room }
    ensures on { IfOk result (λ seen. IsNone seen → (first : Option (List ℕ)) →
        IsSoFar first (R.remaining input.old) stream.old session.old (R.has_failed input.old) (R.was_interrupted input.old) pulls.old →
        IsSoFar first (R.remaining input.new) stream.new session.new (R.has_failed input.new) (R.was_interrupted input.new) pulls.new) }
    ensures seen { IfOk result (λ seen. IfSome seen (λ s. (first : Option (List ℕ)) →
        IsSoFar first (R.remaining input.old) stream.old session.old (R.has_failed input.old) (R.was_interrupted input.old) pulls.old →
        IsWatched first (R.remaining input.new) s)) }
    ensures pulled { IfOk result (λ seen. IsNone seen → pulls.old < pulls.new) }
    ensures within { pulls.new ≤ MAX_PULLS }
    ensures read { IsErrOf result WatchError.Read → R.has_failed input.new ≡ true }
    ensures failed { R.has_failed input.new ≡ true → IsErrOf result WatchError.Read }
{
    let mut piece = [0; PIECE];
    let mut taken: usize = 0;
    while taken < room && *pulls < MAX_PULLS {
        *pulls += 1;
        match input.pull(&mut piece) {
            Pull::Got(0) => return Ok(Some(stream.end())),
            Pull::Got(count) => {
                let seen = stream.take(&piece[..count], session, arena)?;
                if seen.is_some() {
                    return Ok(seen);
                }
                taken = taken.saturating_add(count);
            }
            Pull::Interrupted => {}
            Pull::Failed => return Err(WatchError::Read),
        }
    }
    Ok(None)
}
