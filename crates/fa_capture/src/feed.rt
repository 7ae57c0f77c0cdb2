//! A capture that comes in pieces.

ghost use Rattle.std.specs.Prelude.{◌≡◌, ◌+◌, ◌<◌, ◌≤◌, ◌++◌, ℕ, List, [], All, length, Some, None, Err, OnOk, OnErr, IsErrOf, IfOk, IfSome, IsNone, IsTrue, IsFalse, ◌||◌};
ghost use Rattle.fa_capture.specs.Captures.{IsCaptureOf};
ghost use Rattle.fa_capture.specs.Reading.{HasMagic};
ghost use Rattle.fa_capture.specs.Pieces.{IsDecided, IsOpen, IsToldOf};
ghost use Rattle.fa_capture.specs.Streams.{is_failed, is_interrupted, PullsPiece};
ghost use Rattle.std.specs.Io.KnownBytes.{Consumes};
ghost use Rattle.fa_capture.specs.parts.Walks.{IsReadTo, IsReadOn, IsMagicBegun};
ghost use Rattle.fa_capture.specs.declared.fault.CaptureFault.{CaptureFault};
ghost use Rattle.fa_capture.specs.declared.input.TheConstants.{MAX_READ_LIMIT, PIECE};

use crate::capture::Capture;
use crate::codes;
use crate::fault::CaptureFault;
use crate::format::Format;
use crate::input::{Input, PIECE, Pull};
use crate::reading::NO_MAGIC_FAULT;
use crate::walk::{Stop, Walk};
use std::alloc::{AllocError, Global};
use std::marker::Model;
use thiserror::Error;

/// The room for the bytes grows by one of so many parts of them at a time, so that little of it stays empty.
const PARTS: usize = 32;

/// How many bytes a pull asks for at least.
const LEAST_PIECE: usize = 4096;

/// Why a piece is answered by an error.
#[derive(Clone, Copy, Debug, PartialEq, Eq, Hash, Error)]
pub enum FeedError {
    /// The capture has this framing fault, whatever bytes follow.
    #[error("framing fault")]
    Fault(CaptureFault),
    /// Memory was refused.
    #[error("out of memory")]
    Memory,
}

impl From<AllocError> for FeedError {
    ghost use Rattle.std.specs.Prelude.{◌≡◌};
    ghost use Rattle.fa_capture.specs.declared.feed.FeedError.TheVariants.{Memory};

    ghost from_gives = { λ _ e. e ≡ Memory };

    fn from(_: AllocError) -> FeedError {
        FeedError::Memory
    }
}

/// A capture that comes in pieces, of any size each, and is kept as it comes.
///
/// It is in either [`Format`]; what is told of it is what [`read_capture`](crate::read_capture) tells of the pieces that were taken,
/// joined. A framing fault is told at the piece that decides it: no byte behind it mends it, or brings another one in its place.
#[derive(Drop)]
pub struct Feed {
    /// The pieces, joined.
    bytes: Vec<u8>,
    /// Where the walk over their records stopped; none where no magic is in front.
    stop: Option<Stop>,
    /// The fault that was told.
    told: Option<CaptureFault>,
    /// How many bytes the last pull gave that was neither interrupted nor failed; 0 before the first.
    gave: usize,
}

impl Model for Feed {
    ghost use Rattle.fa_capture.specs.Pieces.{PlainFeed};
    ghost use Rattle.fa_capture.specs.parts.Fed.{IsFed};

    ghost Value = { PlainFeed };

    ghost view = { λ f. record { bytes = f.bytes.items; told = f.told } };

    ghost invariant = { IsFed };
}

impl Feed {
    /// A capture of which nothing has come. It takes memory from `alloc` later.
    ///
    /// Takes no memory, in constant time.
    pub fn new(alloc: Global) -> Self
        ensures { result ≡ record { bytes = []; told = None } }
    {
        Feed {
            bytes: Vec::new(alloc),
            stop: None,
            told: None,
            gave: 0,
        }
    }

    /// Takes the next piece.
    ///
    /// # Errors
    ///
    /// - [`FeedError::Fault`] where the bytes with this piece have a framing fault whatever follows. This piece is taken all the same,
    ///   so that [`finish`](Feed::finish) gives the packets before the fault. A record or a magic that is cut off is no such fault, as
    ///   what follows may complete it, or make another fault of it: [`Stored::capture`] tells it. The fault is told again at each piece
    ///   behind this one, and none of those is taken.
    /// - [`FeedError::Memory`] where memory was refused, for the piece or for the room beside it. The piece was not taken, and may be fed
    ///   again.
    ///
    /// A capture that no fault was told of has fewer than [`MAX_READ_LIMIT`](crate::MAX_READ_LIMIT) + 65,536 bytes.
    ///
    /// # Cost
    ///
    /// Time linear in the piece. Memory for all bytes, and a thirty-second part more. Where the allocator makes room only at another
    /// place, the bytes are moved there, and take twice their memory meanwhile: over all pieces some thirty-three times.
    pub fn feed(&mut self, piece: &[u8]) -> Result<(), FeedError>
        // A fault that was told is told again, and nothing is taken.
        ensures again { (fault : CaptureFault) → self.old.told ≡ Some fault → result ≡ Err (FeedError.Fault fault) }
        ensures kept { (fault : CaptureFault) → self.old.told ≡ Some fault → self.new ≡ self.old }

        // Otherwise the piece is taken, and a fault is told where it is decided.
        ensures taken { OnOk result (self.new ≡ record { bytes = self.old.bytes ++ piece.now; told = None }) }
        ensures open { OnOk result (IsOpen self.new.bytes) }
        ensures short { OnOk result (length self.new.bytes < MAX_READ_LIMIT + 65536) }
        ensures fault { (fault : CaptureFault) → self.old.told ≡ None → result ≡ Err (FeedError.Fault fault) →
            self.new ≡ record { bytes = self.old.bytes ++ piece.now; told = Some fault } }
        ensures decided { (fault : CaptureFault) → self.old.told ≡ None → result ≡ Err (FeedError.Fault fault) →
            IsDecided self.new.bytes fault }

        // Or it was not taken.
        ensures memory { IsErrOf result FeedError.Memory → self.new ≡ self.old }
    {
        if let Some(fault) = self.told {
            return Err(FeedError::Fault(fault));
        }
        take_in(&mut self.bytes, piece)?;
        self.stop = read_on(&self.bytes, self.stop);
        self.told = decided_fault(&self.bytes, self.stop);
        match self.told {
            Some(fault) => Err(FeedError::Fault(fault)),
            None => Ok(()),
        }
    }

    /// Takes the bytes that one pull of an input gives as the next piece: at most [`PIECE`], which the input puts where they are kept.
    ///
    /// `Got(0)` comes only at the input's end. An interrupted pull and one that fails are told, and leave the feed as it was. Once a
    /// fault was told nothing is pulled.
    ///
    /// # Errors
    ///
    /// - [`FeedError::Fault`] as at [`feed`](Feed::feed) of these bytes, which are taken; and again at each call behind that.
    /// - [`FeedError::Memory`] where memory was refused. Nothing was pulled, and the call may be made again.
    ///
    /// The bytes that were taken are fewer than [`MAX_READ_LIMIT`](crate::MAX_READ_LIMIT) + 65,536 where no fault was told.
    ///
    /// # Cost
    ///
    /// That of the pull, which asks for twice as many bytes as the last one gave, but for 4,096 at least and [`PIECE`] at most. These are
    /// filled with zeros first, so time is linear in them. Memory as at [`feed`](Feed::feed) of as many, also at the end, where none come.
    pub fn pull_from<R: Input>(&mut self, input: &mut R) -> Result<Pull, FeedError>
        // A fault that was told is told again, and nothing is pulled.
        ensures again { (fault : CaptureFault) → self.old.told ≡ Some fault → result ≡ Err (FeedError.Fault fault) }
        ensures kept { (fault : CaptureFault) → self.old.told ≡ Some fault → (self.new ≡ self.old) × (input.new ≡ input.old) }

        // Otherwise what was pulled is taken, and a fault is told where it is decided.
        ensures taken { IfOk result (λ pull. (piece : List ℕ) × PullsPiece (R.remaining input.old) (R.remaining input.new) pull piece
            × (self.new ≡ record { bytes = self.old.bytes ++ piece; told = None })) }
        ensures open { OnOk result (IsOpen self.new.bytes) }
        ensures short { OnOk result (length self.new.bytes < MAX_READ_LIMIT + 65536) }
        ensures within { length self.new.bytes ≤ length self.old.bytes + PIECE }
        ensures fault { (fault : CaptureFault) → self.old.told ≡ None → result ≡ Err (FeedError.Fault fault) →
            (piece : List ℕ) × Consumes (R.remaining input.old) (R.remaining input.new) piece
            × (self.new ≡ record { bytes = self.old.bytes ++ piece; told = Some fault }) }
        ensures decided { (fault : CaptureFault) → self.old.told ≡ None → result ≡ Err (FeedError.Fault fault) →
            IsDecided self.new.bytes fault }

        // Or nothing was pulled.
        ensures memory { IsErrOf result FeedError.Memory → (self.new ≡ self.old) × (input.new ≡ input.old) }

        // The marks of the input are those of the pull.
        ensures failed { IfOk result (λ pull. R.has_failed input.new ≡ R.has_failed input.old || is_failed pull) }
        ensures interrupted { IfOk result (λ pull. R.was_interrupted input.new ≡ R.was_interrupted input.old || is_interrupted pull) }
        ensures unmarked { OnErr result ((R.has_failed input.new ≡ R.has_failed input.old) × (R.was_interrupted input.new ≡ R.was_interrupted input.old)) }
    {
        if let Some(fault) = self.told {
            return Err(FeedError::Fault(fault));
        }
        let pull = pull_in(&mut self.bytes, input, next_ask(self.gave))?;
        let Pull::Got(count) = pull else {
            return Ok(pull);
        };
        self.gave = count;
        self.stop = read_on(&self.bytes, self.stop);
        self.told = decided_fault(&self.bytes, self.stop);
        if let Some(fault) = self.told {
            return Err(FeedError::Fault(fault));
        }
        Ok(pull)
    }

    /// The pieces that were taken, joined.
    ///
    /// Takes no memory, in constant time.
    pub fn finish(self) -> Stored
        ensures bytes { result ≡ self.bytes }
        ensures told { IsToldOf result self.told }
    {
        Stored {
            bytes: self.bytes,
            stop: self.stop,
        }
    }
}

/// A capture that came in pieces. Made by [`Feed::finish`].
#[derive(Drop)]
pub struct Stored {
    bytes: Vec<u8>,
    stop: Option<Stop>,
}

impl Model for Stored {
    ghost use Rattle.std.specs.Prelude.{ℕ, List};
    ghost use Rattle.fa_capture.specs.parts.Fed.{IsStored};

    ghost Value = { List ℕ };

    ghost view = { λ s. s.bytes.items };

    ghost invariant = { IsStored };
}

impl Stored {
    /// The capture of the pieces that were taken, up to and with the one at which a fault was told, if one was: as
    /// [`read_capture`](crate::read_capture) tells it of these bytes.
    ///
    /// Takes no memory, in constant time: messages are slices of the bytes.
    pub fn capture(&self) -> Capture<'_>
        ensures { IsCaptureOf self.now result }
    {
        let Some(stop) = &self.stop else {
            return Capture::without_magic();
        };
        Capture::up_to(&self.bytes, stop)
    }
}

/// Takes a piece behind the bytes.
fn take_in(bytes: &mut Vec<u8>, piece: &[u8]) -> Result<(), AllocError>
    ensures taken { OnOk result (bytes.new.items ≡ bytes.old.items ++ piece.now) }
    ensures unchanged { OnErr result (bytes.new.items ≡ bytes.old.items) }
{
    make_room(bytes, piece.len())?;
    bytes.extend_from_slice(piece)
}

/// How many bytes a pull asks for, where the one before gave so many: twice as many, but at least [`LEAST_PIECE`] and at most [`PIECE`].
fn next_ask(gave: usize) -> usize
    ensures some { 0 < result }
    ensures most { result ≤ PIECE }
{
    gave.saturating_mul(2).max(LEAST_PIECE).min(PIECE)
}

/// Takes what one pull of an input gives behind the bytes, at most so many.
fn pull_in<R: Input>(bytes: &mut Vec<u8>, input: &mut R, most: usize) -> Result<Pull, AllocError>
    requires some { 0 < most }
    requires most { most ≤ PIECE }
    ensures taken { IfOk result (λ pull. (piece : List ℕ) × PullsPiece (R.remaining input.old) (R.remaining input.new) pull piece
        × (bytes.new.items ≡ bytes.old.items ++ piece)) }
    ensures within { OnOk result (length bytes.new.items ≤ length bytes.old.items + most) }
    ensures bytes { OnOk result (All (λ byte. byte < 256) bytes.new.items) }
    ensures unchanged { OnErr result ((bytes.new.items ≡ bytes.old.items) × (input.new ≡ input.old)) }
    ensures failed { IfOk result (λ pull. R.has_failed input.new ≡ R.has_failed input.old || is_failed pull) }
    ensures interrupted { IfOk result (λ pull. R.was_interrupted input.new ≡ R.was_interrupted input.old || is_interrupted pull) }
{
    make_room(bytes, most)?;
    let len = bytes.len();
    bytes.resize(len + most, 0)?;
    let pull = input.pull(&mut bytes[len..]);
    bytes.truncate(len + pull.count());
    Ok(pull)
}

/// Makes room for so many bytes behind those that are there, and for a thirty-second part of those more: little of it stays empty, and
/// what is asked for in small parts is made room for once for many of them.
fn make_room(bytes: &mut Vec<u8>, count: usize) -> Result<(), AllocError>
    ensures { bytes.new.items ≡ bytes.old.items }
{
    if bytes.capacity() - bytes.len() < count {
        bytes.reserve_exact(count.saturating_add(bytes.len() / PARTS))?;
    }
    Ok(())
}

/// Where the walk over these bytes stops; `before` is where it stopped before the last of them came.
fn read_on(bytes: &[u8], before: Option<Stop>) -> Option<Stop>
    requires { IsReadOn bytes.now before }
    ensures { IsReadTo bytes.now result }
{
    let walk = match before {
        Some(stop) => Walk::from_stop(bytes, stop),
        None => Walk::new(bytes)?,
    };
    Some(walk.into_stop(bytes))
}

/// The framing fault that these bytes have whatever follows; `stop` is where the walk over them stopped.
fn decided_fault(bytes: &[u8], stop: Option<Stop>) -> Option<CaptureFault>
    requires { IsReadTo bytes.now stop }
    ensures fault { IfSome result (IsDecided bytes.now) }
    ensures none { IsNone result → IsOpen bytes.now }
    ensures short { IsNone result → length bytes.now < MAX_READ_LIMIT + 65536 }
{
    let Some(stop) = stop else {
        return if begins_magic(bytes) {
            None
        } else {
            Some(NO_MAGIC_FAULT)
        };
    };
    let fault = stop.fault()?;
    if fault.code == codes::CUT_OFF {
        return None;
    }
    Some(fault)
}

/// Whether a magic begins with these bytes.
pub(crate) fn begins_magic(bytes: &[u8]) -> bool
    ensures begun { IsTrue result → IsMagicBegun bytes.now }
    ensures other { IsFalse result → (rest : List ℕ) → HasMagic (bytes.now ++ rest) → HasMagic bytes.now }
{
    Format::Plain.magic().starts_with(bytes) || Format::Timed.magic().starts_with(bytes)
}
