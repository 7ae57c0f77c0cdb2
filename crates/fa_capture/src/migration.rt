//! From a capture in either format to one with times.

ghost use Rattle.std.specs.Prelude.{◌≡◌, ◌≤◌, ◌||◌, length, is_err, IfOk, IfErr, OnOk};
ghost use Rattle.std.specs.Io.KnownBytes.{Appends, append_known};
ghost use Rattle.fa_capture.specs.declared.format.Format.TheVariants.{Timed};
ghost use Rattle.fa_capture.specs.Captures.{records_of};
ghost use Rattle.fa_capture.specs.Message.{recorded};
ghost use Rattle.fa_capture.specs.declared.limits.TheConstants.{MAX_MESSAGE_BYTES};
ghost use Rattle.fa_capture.specs.Framing.{record_spelling, capture_spelling};
ghost use Rattle.fa_capture.specs.Reading.{IsMigrated, IsMigrateError};

use crate::capture::Capture;
use crate::device::Device;
use crate::fault::CaptureFault;
use crate::format::Format;
use crate::output::{Broken, Output};
use crate::packet::Packet;
use crate::reading::read_capture;
use arrayvec::ArrayVec;
use std::alloc::{AllocError, Global};
use thiserror::Error;

/// How many bytes of a record its time takes.
const TIME_BYTES: usize = 8;

/// How many bytes are gathered at most before they are put.
const GATHERED_BYTES: usize = 65_536;

/// Why a capture is not migrated.
#[derive(Clone, Copy, Debug, PartialEq, Eq, Hash, Error)]
pub enum MigrateError {
    /// The capture has this framing fault.
    #[error("framing fault")]
    Fault(CaptureFault),
    /// Memory was refused.
    #[error("out of memory")]
    Memory,
}

impl From<AllocError> for MigrateError {
    ghost use Rattle.std.specs.Prelude.{◌≡◌};
    ghost use Rattle.fa_capture.specs.declared.migration.MigrateError.TheVariants.{Memory};

    ghost from_gives = { λ _ e. e ≡ Memory };

    fn from(_: AllocError) -> MigrateError {
        MigrateError::Memory
    }
}

/// Writes a capture anew in the format that has times, `FUSECAP2`.
///
/// Directions and messages are those of the capture, one by one; the times are those that it has, and 0 where it is in `FUSECAP1`,
/// which has none. So a capture in `FUSECAP2` comes out as it is. No message is judged: the capture that is written has the verdict
/// of the one that was read. Both formats are this profile's.
///
/// # Errors
///
/// - [`MigrateError::Fault`] where the capture has a framing fault, which is that of [`read_capture`].
/// - [`MigrateError::Memory`] where it has none, and memory was refused.
///
/// # Cost
///
/// Time linear in the bytes. Memory for the capture that is written, at once for all of it, which takes 8 bytes a message more than one
/// in `FUSECAP1`.
pub fn migrate(alloc: Global, bytes: &[u8]) -> Result<Vec<u8>, MigrateError>
    ensures migrated { IfOk result (λ written. IsMigrated bytes.now written.items) }
    ensures refused { IfErr result (IsMigrateError bytes.now) }
{
    let capture = read_capture(bytes);
    if let Some(fault) = capture.fault {
        return Err(MigrateError::Fault(fault));
    }
    let mut size = bytes.len();
    if bytes.starts_with(Format::Plain.magic()) {
        size += TIME_BYTES * capture.messages as usize;
    }
    let mut written = Device::new(Vec::with_capacity(alloc, size)?);
    match put_migrated(&capture, &mut written) {
        Ok(()) => Ok(written.into_inner()),
        Err(Broken) => Err(MigrateError::Memory),
    }
}

/// Writes a capture anew in the format that has times, `FUSECAP2`, as [`migrate`] does, piece by piece.
///
/// Directions, times and messages are those of its records; a time is 0 where the capture has none. No message is judged. A fault of the
/// capture is not told, and the records before it are what goes out: look at [`Capture::fault`] first.
///
/// # Errors
///
/// [`Broken`] where the output did not take all of the bytes. Nothing is said of what went out.
///
/// # Cost
///
/// Time linear in the bytes. No memory but 64 KiB on the stack, in which small parts are gathered: at most two puts go out for each
/// 65,536 bytes, and one at the end.
pub fn put_migrated<W: Output>(capture: &Capture<'_>, out: &mut W) -> Result<(), Broken>
    ensures written { OnOk result (Appends (W.written out.old) (W.written out.new) (capture_spelling Timed (records_of capture.now))) }
    ensures broken { W.is_broken out.new ≡ W.is_broken out.old || is_err result }
{
    let mut gathered = ArrayVec::new();
    put_behind(Format::Timed.magic(), &mut gathered, out)?;
    for packet in capture.packets() {
        put_record(&packet, &mut gathered, out)?;
    }
    out.put(&gathered)
}

/// Puts the record of a packet, with its time, behind what is gathered.
fn put_record<W: Output>(
    packet: &Packet<'_>,
    gathered: &mut ArrayVec<u8, GATHERED_BYTES>,
    out: &mut W,
) -> Result<(), Broken>
    requires { length packet.now.bytes.now ≤ MAX_MESSAGE_BYTES }
    ensures record { OnOk result (Appends (append_known (W.written out.old) gathered.old.items)
        (append_known (W.written out.new) gathered.new.items) (record_spelling Timed (recorded packet.now))) }
    ensures broken { W.is_broken out.new ≡ W.is_broken out.old || is_err result }
{
    let length = packet.bytes.len() as u32;
    put_behind(&[packet.direction.to_byte()], gathered, out)?;
    put_behind(&packet.time.to_le_bytes(), gathered, out)?;
    put_behind(&length.to_le_bytes(), gathered, out)?;
    put_behind(packet.bytes, gathered, out)
}

/// Puts bytes behind what is gathered for an output. Where there is no room for them, what is gathered goes out first, and they are put by
/// themselves where there is none even then.
fn put_behind<W: Output>(
    bytes: &[u8],
    gathered: &mut ArrayVec<u8, GATHERED_BYTES>,
    out: &mut W,
) -> Result<(), Broken>
    ensures bytes { OnOk result (Appends (append_known (W.written out.old) gathered.old.items)
        (append_known (W.written out.new) gathered.new.items) bytes.now) }
    ensures broken { W.is_broken out.new ≡ W.is_broken out.old || is_err result }
{
    if gathered.remaining_capacity() < bytes.len() {
        out.put(gathered)?;
        gathered.clear();
    }
    if gathered.try_extend_from_slice(bytes).is_err() {
        out.put(bytes)?;
    }
    Ok(())
}
