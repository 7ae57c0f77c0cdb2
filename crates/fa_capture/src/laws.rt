//! What follows from the definitions alone.

ghost use Rattle.std.specs.Prelude.{◌≡◌};
ghost use Rattle.fa_capture.specs.Reading.{OneRecording, OneReading, ReadingIsThere, TimesAreNotJudged, TimesAreKept, MigratedHoldsTheSame};
ghost use Rattle.fa_capture.specs.declared.limits.TheConstants.{MAX_MESSAGES, MAX_MESSAGE_BYTES, MAX_CAPTURE_BYTES};
ghost use Rattle.fa_capture.specs.declared.input.TheConstants.{MAX_READ_LIMIT};

/// Two readings of the same bytes have the same packets, with their times, and the same fault.
pub fn one_recording()
    ensures { OneRecording }
{}

/// So without times they have the same messages and the same fault.
pub fn one_reading()
    ensures { OneReading }
{}

/// Bytes have a reading.
pub fn reading_is_there()
    ensures { ReadingIsThere }
{}

/// No time is judged: captures whose first records differ in times alone, before the same bytes, hold the same messages and the same
/// fault.
pub fn times_are_not_judged()
    ensures { TimesAreNotJudged }
{}

/// A capture with times is migrated to itself.
pub fn times_are_kept()
    ensures { TimesAreKept }
{}

/// A capture that was migrated holds the same messages, with their times, and no fault.
pub fn migrated_holds_the_same()
    ensures { MigratedHoldsTheSame }
{}

/// The limits of this profile, as numbers.
pub fn limits()
    ensures messages { MAX_MESSAGES ≡ 16777216 }
    ensures message_bytes { MAX_MESSAGE_BYTES ≡ 2097152 }
    ensures capture_bytes { MAX_CAPTURE_BYTES ≡ 268435456 }
    ensures read_limit { MAX_READ_LIMIT ≡ 402653184 }
{}
