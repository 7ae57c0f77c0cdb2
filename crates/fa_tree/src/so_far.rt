//! What a call's listing goes on from: the names that were listed so far.

ghost use Rattle.std.specs.Prelude.{◌≡◌, ◌<◌, length, take, slice_get, Some, None, IfOk, OnOk, IfSome, IfNone};
ghost use Rattle.fa_bodies.specs.Listing.{entries_left};
ghost use Rattle.fa_ledger.specs.Calls.{PlainCall, call_shown};
ghost use Rattle.fa_ledger.specs.SoFar.{entries_answered, listing_so_far};
ghost use Rattle.fa_tree.specs.parts.TallyParts.{going_on_from, Grows, Notes};

use crate::tally::Tally;
use fa_bodies::Entries;
use fa_ledger::{Call, Calls, List, Operation, Outcome};
use std::alloc::AllocError;

/// Notes the first so many entries.
fn note_entries<'a>(
    tally: &mut Tally<'a>,
    entries: Entries<'a>,
    count: u32,
) -> Result<(), AllocError>
    ensures noted { OnOk result (Notes tally.old tally.new (take count (entries_left entries.entry))) }
{
    for dirent in entries.take(count as usize) {
        tally.note(dirent.name)?;
    }
    Ok(())
}

/// Notes all entries, and answers how many these are. An error says that memory was refused; part of them may be noted then.
///
/// Expected time in the bytes of the entries, but for what growing costs.
pub(crate) fn note_all<'a>(tally: &mut Tally<'a>, entries: Entries<'a>) -> Result<usize, AllocError>
    ensures count { IfOk result (λ count. count ≡ length (entries_left entries.entry)) }
    ensures noted { OnOk result (Notes tally.old tally.new (entries_left entries.entry)) }
    ensures grows { OnOk result (Grows tally.old tally.new) }
{
    let mut count = 0;
    for dirent in entries {
        tally.note(dirent.name)?;
        count += 1;
    }
    Ok(count)
}

/// Notes the first so many entries of what the answer to a call lists. Expected time in the bytes of their names.
pub(crate) fn note_answered<'a>(
    tally: &mut Tally<'a>,
    call: &Call<'a>,
    count: u32,
) -> Result<(), AllocError>
    ensures noted { OnOk result (Notes tally.old tally.new (take count (entries_answered (call_shown call.now).operation))) }
{
    let operation = call.operation();
    match &operation {
        Operation::List(
            List {
                outcome: Outcome::Succeeds(entries),
                ..
            },
        ) => note_entries(tally, *entries, count),
        _ => Ok(()),
    }
}

/// The place of the call that a call goes on from, if it goes on from one, and how many entries of that one's answer count.
pub(crate) fn before(calls: &Calls<'_>, call: &Call<'_>) -> Option<(usize, u32)>
    ensures found { IfSome result (λ before. (earlier : PlainCall) × (slice_get calls.now.list before.0 ≡ Some earlier) × (going_on_from calls.now.list (call_shown call.now) ≡ Some (earlier, before.1))) }
    ensures none { IfNone result (going_on_from calls.now.list (call_shown call.now) ≡ None) }
{
    let (asked, count) = call.listing?.before?;
    Some((calls.find(asked)?, count))
}

/// Notes what was listed so far for the call at this place: what the calls that it goes on from list, from the last back. An
/// error says that memory was refused; part of it may be noted then.
///
/// Expected time in the calls that it goes on from and the names that they list, and for each such call logarithmic in the calls.
pub(crate) fn note_so_far<'a>(
    tally: &mut Tally<'a>,
    calls: &'a Calls<'a>,
    k: usize,
) -> Result<(), AllocError>
    requires { k < length calls.now.list }
    ensures noted { OnOk result (Notes tally.old tally.new (listing_so_far calls.now.list k)) }
{
    let mut place = k;
    // A call goes on from an earlier one, so there are at most as many as stand before it.
    for _round in 0..k {
        match before(calls, &calls.list.call(place)) {
            None => break,
            Some((earlier, count)) => {
                note_answered(tally, &calls.list.call(earlier), count)?;
                place = earlier;
            }
        }
    }
    Ok(())
}
