//! A capture that is read as it comes, and is not kept.

ghost use Rattle.std.specs.Prelude.{◌≡◌, ◌≢◌, ◌≤◌, ◌⊎◌, ◌++◌, ℕ, List, [], None, Some, IfOk, IfSome, IsNone, OnOk, drop, vec_len};
ghost use Rattle.fa_capture.specs.declared.codes.TheConstants.{NO_MAGIC, CUT_OFF};
ghost use Rattle.fa_capture.specs.declared.limits.TheConstants.{MAX_MESSAGES};
ghost use Rattle.fa_capture.specs.Captures.{records_left};
ghost use Rattle.fa_capture.specs.Incoming.{HasCome};
ghost use Rattle.fa_capture.specs.Message.{Recorded};
ghost use Rattle.fa_capture.specs.Pieces.{IsDecided, IsOpen};
ghost use Rattle.fa_capture.specs.Reading.{HasMagic, IsRecording};
ghost use Rattle.fa_capture.specs.parts.Arrivals.{AreWholeRecords};
ghost use Rattle.fa_capture.specs.Walks.{HaveRead, HaveReadIfAny};
ghost use Rattle.fa_capture.specs.parts.Walks.{IsMagicBegun, IsWithinLimitsIfAny, fault_at, walk_if_any};

use crate::codes;
use crate::fault::CaptureFault;
use crate::feed::begins_magic;
use crate::format::Format;
use crate::packets::Packets;
use crate::reading::NO_MAGIC_FAULT;
use crate::walk::{Progress, Walk};
use bumpalo::Bump;
use std::alloc::{AllocError, Global};
use std::marker::Model;

/// A capture that is read as it comes, and of which no more is kept than the record that its last bytes begin.
///
/// It is in either [`Format`]; the packets that it gives out, one after the other, and the fault behind them are those that
/// [`read_capture`](crate::read_capture) tells of all the pieces, joined.
#[derive(Drop)]
pub struct Incoming {
    /// The bytes behind the records that were given out; all of them while they are no magic.
    kept: Vec<u8>,
    /// How far the walk over the records has come; none while there is no magic.
    so_far: Option<Progress>,
    /// The code of the check that what is kept fails, if anything is.
    code: Option<u16>,
}

impl Model for Incoming {
    ghost use Rattle.fa_capture.specs.Incoming.{PlainIncoming};
    ghost use Rattle.fa_capture.specs.parts.Arrivals.{incoming_shown, IsIncoming};

    ghost Value = { PlainIncoming };

    ghost view = { incoming_shown };

    ghost invariant = { IsIncoming };
}

/// What came with a piece.
#[derive(Clone, Copy, Debug)]
pub struct Arrived<'a> {
    /// The packets that are whole with it, behind those that were given out before.
    pub packets: Packets<'a>,
    /// The framing fault of the capture behind these, whatever follows, if it has one.
    pub fault: Option<CaptureFault>,
}

impl Incoming {
    /// A capture of which nothing has come. It takes memory from `alloc` later.
    ///
    /// Takes no memory, in constant time.
    pub fn new(alloc: Global) -> Self
        ensures { HasCome [] [] result }
    {
        Incoming {
            kept: Vec::new(alloc),
            so_far: None,
            code: None,
        }
    }

    /// Takes the next piece: the packets that are whole with it, whose bytes stand in `arena`, and the framing fault behind them if
    /// they have one whatever follows. A record or a magic that is cut off is no such fault, as what follows may complete it.
    ///
    /// After a fault, and after an error, it is of no use any more.
    ///
    /// # Errors
    ///
    /// [`AllocError`] where memory was refused: for the piece, for its records in `arena`, or for what stands behind them.
    ///
    /// # Cost
    ///
    /// Over all pieces, time linear in their bytes and their number: a record that comes in several pieces is not copied anew with
    /// each. Memory in `arena` for the records that the piece completes, and for itself for the record that is begun, of at most
    /// [`MAX_MESSAGE_BYTES`](crate::limits::MAX_MESSAGE_BYTES), and the piece, which grows by doubling.
    pub fn take<'a>(&mut self, piece: &[u8], arena: &'a Bump) -> Result<Arrived<'a>, AllocError>
        ensures come { IfOk result (λ arrived. (bytes : List ℕ) (rs : List Recorded) → HasCome bytes rs self.old →
            HasCome (bytes ++ piece.now) (rs ++ records_left arrived.packets) self.new) }
        ensures decided { IfOk result (λ arrived. (bytes : List ℕ) (rs : List Recorded) → HasCome bytes rs self.old →
            IfSome arrived.fault (IsDecided (bytes ++ piece.now))) }
        ensures open { IfOk result (λ arrived. (bytes : List ℕ) (rs : List Recorded) → HasCome bytes rs self.old →
            IsNone arrived.fault → IsOpen (bytes ++ piece.now)) }
    {
        self.kept.extend_from_slice(piece)?;
        let Some(walk) = walk_over(&self.kept, self.so_far) else {
            return Ok(Arrived {
                packets: Packets::of(Format::Plain, &[]),
                fault: magic_fault(&self.kept),
            });
        };
        let whole = whole_records(walk, arena)?;
        let read = self.kept.len() - whole.left;
        give_up(&mut self.kept, read)?;
        self.so_far = Some(whole.so_far);
        self.code = whole.code;
        Ok(Arrived {
            packets: whole.packets,
            fault: decided_fault(&whole.so_far, whole.code),
        })
    }

    /// The framing fault of the capture where nothing follows: no magic, or the record that is begun and cut off.
    ///
    /// Takes no memory, in constant time.
    pub fn end(&self) -> Option<CaptureFault>
        ensures { (bytes : List ℕ) (rs : List Recorded) → HasCome bytes rs self.now → IsRecording bytes rs result }
    {
        match self.so_far {
            Some(so_far) => so_far.fault(self.code),
            None => Some(NO_MAGIC_FAULT),
        }
    }
}

/// The whole records that a walk had before it, in an arena, and where it stopped behind them.
#[derive(Clone, Copy, Debug)]
struct WholeRecords<'a> {
    packets: Packets<'a>,
    so_far: Progress,
    /// The code of the check that the record behind them fails, if there is one.
    code: Option<u16>,
    /// How many bytes stand behind them.
    left: usize,
}

/// Keeps what stands behind so many bytes, which is copied unless they are none.
fn give_up(kept: &mut Vec<u8>, read: usize) -> Result<(), AllocError>
    requires { read ≤ vec_len kept.old }
    ensures { OnOk result (kept.new.items ≡ drop read kept.old.items) }
{
    if read > 0 {
        *kept = kept.split_off(read)?;
    }
    Ok(())
}

/// The walk over these bytes, which stand behind the records that another one read; over all of them where there was none. None where
/// they begin with no magic.
fn walk_over(kept: &[u8], so_far: Option<Progress>) -> Option<Walk<'_>>
    requires { IsWithinLimitsIfAny so_far }
    ensures some { IfSome result (λ walk. (bytes : List ℕ) (rs : List Recorded) → HaveReadIfAny bytes rs kept.now (walk_if_any so_far kept.now) → HaveRead bytes rs walk) }
    ensures left { IfSome result (λ walk. (front : List ℕ) × (kept.now ≡ front ++ walk.left)) }
    ensures none { IsNone result → (so_far ≡ None) × (HasMagic kept.now → ⊥) }
{
    match so_far {
        Some(so_far) => Some(Walk::behind(so_far, kept)),
        None => Walk::new(kept),
    }
}

/// The whole records that a walk has before it, copied into the arena.
fn whole_records<'a>(mut walk: Walk<'_>, arena: &'a Bump) -> Result<WholeRecords<'a>, AllocError>
    ensures { IfOk result (AreWholeRecords walk.entry) }
{
    let (records, code) = walk.read_on();
    let packets = Packets::of(walk.so_far().format, arena.try_alloc_slice_copy(records)?);
    Ok(WholeRecords {
        packets,
        so_far: walk.so_far(),
        code,
        left: walk.left(),
    })
}

/// The fault that a capture has whatever follows, where the record behind those that were read fails the check of this code.
fn decided_fault(so_far: &Progress, code: Option<u16>) -> Option<CaptureFault>
    requires { so_far.now.count ≤ MAX_MESSAGES }
    ensures decided { IfSome result (λ fault. (fault_at so_far.now.count code ≡ Some fault) × (fault.code ≢ CUT_OFF)) }
    ensures open { IsNone result → (code ≡ None) ⊎ (code ≡ Some CUT_OFF) }
{
    if code == Some(codes::CUT_OFF) {
        return None;
    }
    so_far.fault(code)
}

/// The fault that bytes without a magic have whatever follows: none where one may begin with them.
fn magic_fault(bytes: &[u8]) -> Option<CaptureFault>
    ensures decided { IfSome result (λ fault. (fault ≡ record { whole = 0; code = NO_MAGIC }) × ((rest : List ℕ) → HasMagic (bytes.now ++ rest) → HasMagic bytes.now)) }
    ensures open { IsNone result → IsMagicBegun bytes.now }
{
    if begins_magic(bytes) {
        return None;
    }
    Some(NO_MAGIC_FAULT)
}
