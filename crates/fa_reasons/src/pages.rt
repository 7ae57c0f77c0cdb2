//! What pictures and reports are made of, and how they are written.

ghost use Rattle.std.specs.Prelude.{◌≡◌, ◌↔◌, false, true, IfOk, IsErrOf};
ghost use Rattle.fa_audit.specs.Showing.{IsPrintingWritten};
ghost use Rattle.fa_audit.specs.Status.{status_number};

use fa_audit::{RunFault, Status};
use fa_capture::Output;
use fa_check::Verdict;
use fa_picture::{Fault, View};
use fa_show::Text;

/// What a report says of its source, and which messages it has.
#[derive(Clone, Copy)]
pub struct ReportView<'t> {
    /// What was judged, as the names of files.
    pub source: &'t str,
    /// Which messages its table has.
    pub messages: View,
}

/// What is at fault by a verdict.
pub(crate) fn fault_of(verdict: Verdict) -> Fault {
    match verdict {
        Verdict::Legal { .. } => Fault::Nothing,
        Verdict::Fault { at, code } => Fault::Message { at, code },
        Verdict::NotShown { entry, at, code } => Fault::Entry { entry, at, code },
    }
}

/// Writes lines as they are.
pub(crate) fn write_lines(text: &mut Text, lines: &[u8]) {
    for byte in lines {
        match *byte {
            b'\n' => text.end_line(),
            byte => text.character(byte),
        }
    }
}

/// Writes a text: the number of the status.
pub(crate) fn tell_text<W: Output>(text: &Text, status: Status, out: &mut W) -> Result<u8, RunFault>
    requires unbroken { W.is_broken out.old ≡ false }
    ensures told { IfOk result (IsPrintingWritten (status_number status) (W.written out.old) (W.written out.new)) }
    ensures memory { IsErrOf result RunFault.Memory → ⊥ }
    ensures read { IsErrOf result RunFault.Read → ⊥ }
    ensures write { IsErrOf result RunFault.Write ↔ (W.is_broken out.new ≡ true) }
{
    out.put(text.as_bytes())?;
    Ok(status.number())
}
