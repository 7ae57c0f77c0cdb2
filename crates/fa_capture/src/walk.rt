//! A walk over the records of a capture, which are judged as it comes to them.

ghost use Rattle.std.specs.Prelude.{◌≡◌, ◌+◌, ◌^◌, ◌<◌, ◌≤◌, ◌++◌, ◌∷◌, ℕ, List, [], length, IfOk, IfErr, IfSome, IsNone, OnErr, Some, None};
ghost use Rattle.std.specs.Int.{w32, w64, to_le_bytes};
ghost use Rattle.fa_capture.specs.Checks.{FirstFailure};
ghost use Rattle.fa_capture.specs.Message.{Recorded, recorded};
ghost use Rattle.fa_capture.specs.Framing.{magic, time_spelling, IsTime};
ghost use Rattle.fa_capture.specs.Reading.{HasMagic, IsRecording, IsRecord, header_size, record_checks};
ghost use Rattle.fa_capture.specs.Walks.{HaveRead};
ghost use Rattle.fa_capture.specs.parts.Walks.{HasRead, ReadsOn, IsWithinLimits, walk_behind, IsAt, IsStop, walk_at, stop_fault, fault_at, fault_behind};
ghost use Rattle.fa_capture.specs.declared.limits.TheConstants.{MAX_CAPTURE_BYTES, MAX_MESSAGES};

use crate::codes;
use crate::fault::CaptureFault;
use crate::format::Format;
use crate::limits::{MAX_CAPTURE_BYTES, MAX_MESSAGE_BYTES, MAX_MESSAGES};
use crate::packet::{Direction, Packet};
use std::marker::Model;

/// How many bytes of a record without a time stand before its message: its direction in one, and its length in four. Of any record so
/// many count for the limit on a capture.
const COUNTED_HEADER: usize = 5;

/// How far a walk over the records of a capture has come.
#[derive(Clone, Copy, Debug)]
pub(crate) struct Progress {
    pub format: Format,
    /// How many records were read.
    pub count: usize,
    /// How many bytes count for the limit on a capture: the magic, and these records, without their times.
    counted: usize,
}

impl Progress {
    /// The fault of a capture whose next record fails the check of this code, if one fails.
    pub fn fault(&self, code: Option<u16>) -> Option<CaptureFault>
        requires { self.now.count ≤ MAX_MESSAGES }
        ensures { result ≡ fault_at self.now.count code }
    {
        let code = code?;
        Some(CaptureFault {
            whole: self.count as u32,
            code,
        })
    }
}

/// Where a walk over the records of a capture stopped: at the end of the bytes, or at a record that fails a check.
#[derive(Clone, Copy, Debug)]
pub(crate) struct Stop {
    pub so_far: Progress,
    /// How many bytes the magic and the records that were read are.
    pub read: usize,
    /// The code of the check that the record behind them fails, if there is one.
    code: Option<u16>,
}

impl Stop {
    /// The framing fault of the bytes that were walked over.
    pub fn fault(&self) -> Option<CaptureFault>
        requires { self.now.so_far.count ≤ MAX_MESSAGES }
        ensures { result ≡ stop_fault self.now }
    {
        self.so_far.fault(self.code)
    }
}

/// A walk over the records of a capture, each of which is judged as the walk comes to it.
///
/// It tells what [`read_capture`](crate::read_capture) tells of bytes that begin with a magic, in one pass: the packets one after the
/// other, and behind them the framing fault, if there is one.
#[derive(Drop)]
pub struct Walk<'a> {
    so_far: Progress,
    /// What stands behind the records that were read.
    left: &'a [u8],
}

impl<'a> Model for Walk<'a> {
    ghost use Rattle.fa_capture.specs.Walks.{PlainWalk};
    ghost use Rattle.fa_capture.specs.parts.Walks.{IsWithinLimits};

    ghost Value = { PlainWalk };

    ghost use Rattle.fa_capture.specs.parts.Walks.{walk_behind};

    ghost view = { λ w. walk_behind w.so_far w.left.now };

    ghost invariant = { λ w. IsWithinLimits w.so_far };
}

impl<'a> Walk<'a> {
    /// The packets of a capture, none of them read; `None` where the first 8 bytes are the magic of no [`Format`], or there are fewer:
    /// the fault of such bytes is [`NO_MAGIC`](crate::codes::NO_MAGIC) at 0.
    ///
    /// Takes no memory, in constant time.
    pub fn new(bytes: &'a [u8]) -> Option<Self>
        ensures found { IfSome result (HaveRead bytes.now []) }
        ensures none { IsNone result → HasMagic bytes.now → ⊥ }
    {
        let (format, left) = split_magic(bytes)?;
        let so_far = Progress {
            format,
            count: 0,
            counted: format.magic().len(),
        };
        Some(Walk { so_far, left })
    }

    /// The next packet, whose bytes are a slice of the capture; `None` where no bytes are left.
    ///
    /// # Errors
    ///
    /// The code of the framing fault that the capture has behind the packets that were read, as [`read_capture`] tells it, which
    /// stands at their number. The walk is then as it was, and the next call tells it again.
    ///
    /// # Cost
    ///
    /// Takes no memory, in constant time.
    ///
    /// [`read_capture`]: crate::read_capture
    #[inline(always)]
    pub fn next(&mut self) -> Result<Option<Packet<'a>>, u16>
        ensures packet { IfOk result (λ next. IfSome next (λ p. (bytes : List ℕ) (rs : List Recorded) →
            HaveRead bytes rs self.old → HaveRead bytes (rs ++ recorded p ∷ []) self.new)) }
        ensures record { IfOk result (λ next. IfSome next (λ p. (self.new.format ≡ self.old.format) ×
            IsRecord self.old.format self.old.count self.old.counted self.old.left (recorded p) self.new.left)) }
        ensures shorter { IfOk result (λ next. IfSome next (λ p. length self.new.left < length self.old.left)) }
        ensures end { IfOk result (λ next. IsNone next → (bytes : List ℕ) (rs : List Recorded) →
            HaveRead bytes rs self.old → IsRecording bytes rs None) }
        ensures still { IfOk result (λ next. IsNone next → self.new ≡ self.old) }
        ensures unchanged { OnErr result (self.new ≡ self.old) }
        ensures fault { IfErr result (λ code. (bytes : List ℕ) (rs : List Recorded) →
            HaveRead bytes rs self.old → IsRecording bytes rs (Some (record { whole = length rs; code = code }))) }
    {
        if self.left.is_empty() {
            return Ok(None);
        }
        let (packet, left) = read_record(&self.so_far, self.left)?;
        self.so_far.count += 1;
        self.so_far.counted += COUNTED_HEADER + packet.bytes.len();
        self.left = left;
        Ok(Some(packet))
    }

    /// How many bytes of the capture stand behind the packets that were read.
    pub(crate) fn left(&self) -> usize
        ensures { result ≡ length self.now.left }
    {
        self.left.len()
    }

    /// A walk over these bytes that goes on where one over the first of them stopped.
    pub(crate) fn from_stop(bytes: &'a [u8], stop: Stop) -> Self
        requires { IsAt bytes.now stop }
        ensures { result ≡ walk_at bytes.now stop }
    {
        Walk {
            so_far: stop.so_far,
            left: &bytes[stop.read..],
        }
    }

    /// A walk over the bytes that stand behind the records which another one read.
    pub(crate) fn behind(so_far: Progress, left: &'a [u8]) -> Self
        requires { IsWithinLimits so_far }
        ensures { result ≡ walk_behind so_far left.now }
    {
        Walk { so_far, left }
    }

    /// How far it has come.
    pub(crate) fn so_far(&self) -> Progress
        ensures is { self.now ≡ walk_behind result self.now.left }
        ensures within { IsWithinLimits result }
    {
        self.so_far
    }

    /// Where this walk over these bytes stops.
    pub(crate) fn into_stop(mut self, bytes: &[u8]) -> Stop
        requires { HasRead bytes.now self }
        ensures { ∥ IsStop bytes.now result ∥₁ }
    {
        let code = self.first_failure();
        Stop {
            so_far: self.so_far,
            read: bytes.len() - self.left.len(),
            code,
        }
    }

    /// Reads on to the end, or to the first record that fails a check: the records that were read, and the code of that check.
    pub(crate) fn read_on(&mut self) -> (&'a [u8], Option<u16>)
        ensures read { (on : ReadsOn self.old self.new) × (result.0.now ≡ on.over) }
        ensures fault { (bytes : List ℕ) (rs : List Recorded) → HaveRead bytes rs self.new → IsRecording bytes rs (fault_behind rs result.1) }
    {
        let left = self.left;
        let code = self.first_failure();
        (&left[..left.len() - self.left.len()], code)
    }

    /// Reads on to the end, or to the first record that fails a check, and answers the code of that check.
    fn first_failure(&mut self) -> Option<u16>
        ensures read { ReadsOn self.old self.new }
        ensures fault { (bytes : List ℕ) (rs : List Recorded) → HaveRead bytes rs self.new → IsRecording bytes rs (fault_behind rs result) }
    {
        loop {
            match self.next() {
                Ok(Some(_)) => {}
                Ok(None) => return None,
                Err(code) => return Some(code),
            }
        }
    }
}

/// The format of a capture, and what stands behind its magic; none where the bytes begin with no magic.
fn split_magic(bytes: &[u8]) -> Option<(Format, &[u8])>
    ensures found { IfSome result (λ r. bytes.now ≡ magic r.0 ++ r.1.now) }
    ensures none { IsNone result → HasMagic bytes.now → ⊥ }
{
    if let Some(left) = bytes.strip_prefix(Format::Plain.magic()) {
        return Some((Format::Plain, left));
    }
    let left = bytes.strip_prefix(Format::Timed.magic())?;
    Some((Format::Timed, left))
}

/// The number in the first eight bytes, low byte first, and what stands behind them; none where there are fewer.
#[inline(always)]
fn split_u64(bytes: &[u8]) -> Option<(u64, &[u8])>
    ensures found { IfSome result (λ r. bytes.now ≡ to_le_bytes w64 r.0 ++ r.1.now) }
    ensures none { IsNone result → length bytes.now < 8 }
{
    let (number, behind) = bytes.split_first_chunk::<8>()?;
    Some((u64::from_le_bytes(*number), behind))
}

/// The number in the first four bytes, low byte first, and what stands behind them; none where there are fewer.
#[inline(always)]
fn split_u32(bytes: &[u8]) -> Option<(u32, &[u8])>
    ensures found { IfSome result (λ r. bytes.now ≡ to_le_bytes w32 r.0 ++ r.1.now) }
    ensures none { IsNone result → length bytes.now < 4 }
{
    let (number, behind) = bytes.split_first_chunk::<4>()?;
    Some((u32::from_le_bytes(*number), behind))
}

/// The time and the length that a record states behind its direction, and what stands behind them; none where fewer bytes are left.
#[inline(always)]
pub(crate) fn read_header(format: Format, behind: &[u8]) -> Option<(u64, u32, &[u8])>
    ensures found { IfSome result (λ r. behind.now ≡ time_spelling format r.0 ++ (to_le_bytes w32 r.1 ++ r.2.now)) }
    ensures time { IfSome result (λ r. IsTime format r.0) }
    ensures length { IfSome result (λ r. r.1 < 2 ^ 32) }
    ensures none { IsNone result → length behind.now + 1 < header_size format }
{
    match format {
        Format::Plain => {
            let (length, body) = split_u32(behind)?;
            Some((0, length, body))
        }
        Format::Timed => {
            let (time, behind) = split_u64(behind)?;
            let (length, body) = split_u32(behind)?;
            Some((time, length, body))
        }
    }
}

/// The record at the front of the bytes that are left, and what stands behind it.
///
/// The error is the code of the first check that the record fails, behind those that were read.
#[inline(always)]
fn read_record<'a>(so_far: &Progress, left: &'a [u8]) -> Result<(Packet<'a>, &'a [u8]), u16>
    requires some { 0 < length left.now }
    requires within { so_far.now.counted ≤ MAX_CAPTURE_BYTES }
    ensures whole { IfOk result (λ r. IsRecord so_far.now.format so_far.now.count so_far.now.counted left.now (recorded r.0) r.1.now) }
    ensures fault { IfErr result (FirstFailure (record_checks so_far.now.format so_far.now.count so_far.now.counted left.now)) }
{
    if so_far.count >= MAX_MESSAGES {
        return Err(codes::CAPTURE_TOO_LARGE);
    }
    let Some(direction) = Direction::from_byte(left[0]) else {
        return Err(codes::DIRECTION);
    };
    let Some((time, length, body)) = read_header(so_far.format, &left[1..]) else {
        return Err(codes::CUT_OFF);
    };
    let length = length as usize;
    if length > MAX_MESSAGE_BYTES {
        return Err(codes::MESSAGE_TOO_LONG);
    }
    if so_far.counted + COUNTED_HEADER + length > MAX_CAPTURE_BYTES {
        return Err(codes::CAPTURE_TOO_LARGE);
    }
    if body.len() < length {
        return Err(codes::CUT_OFF);
    }
    let (bytes, after) = body.split_at(length);
    let packet = Packet {
        direction,
        time,
        bytes,
    };
    Ok((packet, after))
}
