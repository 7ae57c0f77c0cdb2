//! What holds of the grammar of messages. Each function does nothing: its contract is the law.

ghost use Rattle.std.specs.Prelude.{◌≡◌};
ghost use Rattle.fa_bodies.specs.declared.bodies.TheConstants.{MAX_FILE_BYTES};
ghost use Rattle.fa_bodies.specs.declared.names.TheConstants.{MAX_NAME};
ghost use Rattle.fa_bodies.specs.declared.requests.TheConstants.{ROOT_ID};
ghost use Rattle.fa_bodies.specs.Numbers.{OpcodesAreNumbered, ErrorsAreNumbered};
ghost use Rattle.fa_bodies.specs.Laws.{RequestIsOne, RequestPassesChecks, OperationHasBody, ReplyHeadIsOne, ReplyHeadPassesChecks, ReplyIsOne};
ghost use Rattle.fa_bodies.specs.Laws.{ItemsAreOne, BytesHoldItems, EntriesAreOne, BytesHoldEntries, CountedItems, WholeEntries};

/// Bytes are at most one request.
pub fn request_is_one()
    ensures { RequestIsOne }
{}

/// Bytes are a request exactly where each check of a request holds.
pub fn request_passes_checks()
    ensures { RequestPassesChecks }
{}

/// An opcode is that of an operation that is read exactly where some bytes are a body of it.
pub fn operation_has_body()
    ensures { OperationHasBody }
{}

/// Bytes begin with at most one head of a reply.
pub fn reply_head_is_one()
    ensures { ReplyHeadIsOne }
{}

/// Bytes begin with the head of a reply exactly where each check of it holds.
pub fn reply_head_passes_checks()
    ensures { ReplyHeadPassesChecks }
{}

/// Bytes are at most one reply to a request.
pub fn reply_is_one()
    ensures { ReplyIsOne }
{}

/// Bytes hold at most one list of items of BATCH_FORGET.
pub fn items_are_one()
    ensures { ItemsAreOne }
{}

/// All bytes hold a list of items of BATCH_FORGET, which may be empty.
pub fn bytes_hold_items()
    ensures { BytesHoldItems }
{}

/// Bytes hold at most one list of directory entries.
pub fn entries_are_one()
    ensures { EntriesAreOne }
{}

/// All bytes hold a list of directory entries, which may be empty.
pub fn bytes_hold_entries()
    ensures { BytesHoldEntries }
{}

/// Bytes with room for so many items of BATCH_FORGET hold so many, and nothing stands behind them.
pub fn counted_items()
    ensures { CountedItems }
{}

/// Bytes that are whole directory entries hold these.
pub fn whole_entries()
    ensures { WholeEntries }
{}

/// Each opcode has its number in `enum fuse_opcode` of `fuse.h`, and each error its number in `errno.h`, negated.
pub fn numbers()
    ensures opcodes { OpcodesAreNumbered }
    ensures errors { ErrorsAreNumbered }
{}

/// The limits of this profile for names and files, and the node id of the root, as numbers.
pub fn limits()
    ensures name { MAX_NAME ≡ 1024 }
    ensures file { MAX_FILE_BYTES ≡ 1099511627776 }
    ensures root { ROOT_ID ≡ 1 }
{}
