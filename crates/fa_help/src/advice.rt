//! Where each code is told, and what to look at then.

ghost use Rattle.std.specs.Prelude.{◌↔◌, IfSome, IsSome};
ghost use Rattle.fa_capture.specs.Codes.{text_of};
ghost use Rattle.fa_help.specs.Printing.{IsPrinting};

use fa_capture::codes;

/// Of what a code is told, where, and what to look at then, if it is a code: lines of a label, padded to eight, a blank and a text,
/// each with its line feed. Where it is told of several kinds of things, they stand one behind the other.
pub(crate) fn lines_of(code: u16) -> Option<&'static str>
    ensures codes { IsSome result ↔ IsSome (text_of code) }
    ensures printing { IfSome result (λ lines. IsPrinting lines.now) }
{
    let lines = match code {
        codes::NO_MAGIC => {
            "told of  the bytes of a capture\n\
             fails    where the bytes begin with neither `FUSECAP1` nor `FUSECAP2`\n\
             look at  Is this the capture, and not its tree text or its log? A recorder of your own writes FUSECAP1 first.\n"
        }
        codes::CUT_OFF => {
            "told of  the bytes of a capture\n\
             fails    where fewer than 5 bytes are left, or 13 in `FUSECAP2`\n\
             fails    where the record ends behind the last byte\n\
             look at  The recorder was ended in the midst of a record. What stands before it is whole: `fa_audit front` keeps it.\n"
        }
        codes::DIRECTION => {
            "told of  the bytes of a capture\n\
             fails    where the direction is neither 0 nor 1\n\
             look at  The record before states another length than it has, or a second capture stands behind the first. Write one record at a time, under a lock, and a file for each mount.\n"
        }
        codes::MESSAGE_TOO_LONG => {
            "told of  the bytes of a capture\n\
             fails    where the length is above 2,097,152\n\
             look at  The length was written big-endian, or is not that of the message.\n"
        }
        codes::CAPTURE_TOO_LARGE => {
            "told of  the bytes of a capture\n\
             fails    where 16,777,216 messages stand before this place\n\
             fails    where the record ends beyond byte 268,435,456, where no time is counted\n\
             look at  Record a shorter session.\n\
             look at  Or have the messages before this one judged: `fa_audit front` keeps them.\n"
        }
        codes::HEADER_TOO_SHORT => {
            "told of  a request\n\
             fails    where the message has fewer than 40 bytes\n\
             look at  A part of the request was recorded, or a reply with the direction of a request. Record all that read(2) returned.\n\
             told of  a message of the server\n\
             fails    where the message has fewer than 16 bytes\n\
             look at  The server wrote a part of a message, which the kernel refuses with EINVAL, or a part was recorded. Write header and body in one call.\n"
        }
        codes::LENGTH_FIELD => {
            "told of  a request\n\
             fails    where len is not the length of the message\n\
             look at  The record has not the length that read(2) returned: the size of the buffer was recorded, or a part of the request.\n\
             told of  a message of the server\n\
             fails    where len is not the length of the message\n\
             look at  len of struct fuse_out_header has to count header and body: look where it is set. Or the parts of a writev(2) were recorded one by one.\n"
        }
        codes::OPERATION => {
            "told of  a request\n\
             fails    where the opcode is 0, 7, 19, 41 or above 47\n\
             look at  The kernel is newer than 7.31, or asks for what is not judged here. `fuse-record` answers such operations with ENOSYS in the server's place; a recorder of your own has to.\n"
        }
        codes::REQUEST_BODY => {
            "told of  a request\n\
             fails    where the body is not one that the operation has\n\
             look at  The buffer was used again before it was recorded: record a request before the server works in it.\n\
             look at  Names `.` and `..` are looked up for NFS exports and open_by_handle_at(2): do not export the mount.\n"
        }
        codes::PROFILE_LIMIT => {
            "told of  a request\n\
             fails    where a WRITE or a SETATTR goes past the file limit, 1,099,511,627,776 bytes\n\
             look at  No fault of the server: a program wrote beyond what is judged here. Keep the files of the session smaller.\n"
        }
        codes::ERROR_VALUE => {
            "told of  a message of the server\n\
             fails    where unique is not 0, and the error is above 0 or below -999\n\
             look at  The server answers the error with the wrong sign, or a number of its own: struct fuse_out_header wants -ENOENT and the like.\n"
        }
        codes::REPLY_BODY => {
            "told of  a message of the server\n\
             fails    where an error other than 0 has a body, or a success has one that the operation does not have\n\
             look at  The server answers with the struct of another operation or protocol version, sends an error with a body, or more bytes than were asked for: look where it builds this answer.\n\
             look at  An entry is struct fuse_dirent, the name and padding to 8 bytes, with struct fuse_entry_out in front for READDIRPLUS: look at namelen and the padding; what does not fit whole waits for the next answer.\n"
        }
        codes::NOTIFICATION => {
            "told of  a message of the server\n\
             fails    where unique is 0, and the code is none of 1, 2, 3, 4 and 6\n\
             look at  unique of the answer was left 0: take it from the request. RETRIEVE asks the kernel for an answer and is not judged here.\n"
        }
        codes::FIRST_NOT_INIT => {
            "told of  a request\n\
             fails    where it is message 0 and no INIT\n\
             look at  The recording began after INIT was read: start the server under the recorder.\n\
             told of  a message of the server\n\
             fails    where it is message 0\n\
             look at  An answer was recorded before its request: record a request before it is handled.\n\
             look at  The recording began after INIT was read: start the server under the recorder.\n"
        }
        codes::SECOND_INIT => {
            "told of  a request\n\
             fails    where it is an INIT, but not message 0\n\
             look at  Two mounts were recorded into one file, or the server was started again.\n"
        }
        codes::BEFORE_INIT_ANSWERED => {
            "told of  a request\n\
             fails    where it is no INIT, and INIT was not answered before it\n\
             look at  The answer of INIT was recorded too late, or not at all: record an answer before it is written.\n"
        }
        codes::INIT_REFUSED => {
            "told of  a message of the server\n\
             fails    where it answers INIT with an error\n\
             look at  The server does not speak what the kernel offers, or failed as it began: see what it says then.\n"
        }
        codes::VERSION => {
            "told of  a message of the server\n\
             fails    where it answers INIT, and a major is not 7, or the lesser of the two minors is not 31\n\
             look at  The server answers the minor of a newer or older fuse.h. `fuse-record` shows the server a kernel of 7.31.\n\
             look at  The kernel is older than 7.31.\n"
        }
        codes::NEGOTIATED_FLAGS => {
            "told of  a message of the server\n\
             fails    where it answers INIT, and WRITEBACK_CACHE or POSIX_ACL is set in both INIT messages\n\
             look at  The server copies the flags of the kernel, or asks for what is not judged here. `fuse-record` clears WRITEBACK_CACHE and POSIX_ACL.\n"
        }
        codes::UNIQUE_IN_USE => {
            "told of  a request\n\
             fails    where its unique is that of a request that waits for its answer, unless both are INTERRUPT\n\
             look at  The same request was recorded twice (two recorders, or a retried read), or its answer was not recorded.\n\
             look at  The answer of the request that waits was not recorded, or was recorded too late: record an answer before it is written. Or two mounts were recorded into one file.\n"
        }
        codes::NO_REQUEST_WAITS => {
            "told of  a message of the server\n\
             fails    where unique is not 0, and no request with it waits for an answer\n\
             look at  The server answers one request twice: look for an error that is sent after a success, and for two threads that finish one request.\n\
             look at  FORGET and BATCH_FORGET have no answer: look where the server replies to all that it has handled (in libfuse: fuse_reply_none).\n\
             look at  unique was not taken from the request, or its request is missing from the capture.\n"
        }
        codes::LEFT_OUT_SUCCEEDED => {
            "told of  a message of the server\n\
             fails    where it answers IOCTL, FALLOCATE, COPY_FILE_RANGE or a RENAME2 with flags that are not judged with success\n\
             look at  No fault of the server. Record with `fuse-record --refuse` and the name of the operation: programs then take another way.\n"
        }
        codes::OPEN_WITHOUT_HANDLE => {
            "told of  a message of the server\n\
             fails    where it answers OPEN or OPENDIR with ENOSYS, -38\n\
             look at  No fault of the server, but the kernel then sends no opens that could be judged: answer it with a handle while recording.\n"
        }
        codes::UNIQUE_ZERO => {
            "told of  a request\n\
             fails    where unique is 0\n\
             look at  Linux gives no request this unique: the bytes were changed before they were recorded.\n"
        }
        codes::FORGOTTEN_NODE => {
            "told of  a request\n\
             fails    where it names a node, in the header, as the new directory of RENAME or RENAME2 or as the file of LINK, that is not the root and whose lookup count is 0\n\
             look at  Linux names a node only after an answer gave it: an answer is missing from the capture (a thread or a process that was not recorded), or two mounts stand in one file. A server that has forgotten the node too counts lookups otherwise than the kernel.\n\
             look at  Or this request was recorded too late: a FORGET or BATCH_FORGET that the kernel sent later stands before it. Record each request right after read(2).\n\
             look at  An answer was recorded too late: record an answer before it is written.\n"
        }
        codes::FORGOTTEN_TOO_OFTEN => {
            "told of  a request\n\
             fails    where a FORGET, or an item of a BATCH_FORGET after those before it, takes more lookups than the node has\n\
             look at  An answer that gave the node is missing from the capture. Each success of LOOKUP, CREATE, MKNOD, MKDIR, SYMLINK and LINK and each entry of READDIRPLUS but `.`, `..` and those with node 0 counts one: does the server count so?\n"
        }
        codes::NODE_ID_NOT_ALLOWED => {
            "told of  a message of the server\n\
             fails    where it gives node 1, or node 0 in another answer than that of LOOKUP or an entry of READDIRPLUS (the entries `.` and `..` give nothing)\n\
             look at  nodeid of struct fuse_entry_out was left 0 in the answer of a creation or a LINK; or a name was answered with the id of the root.\n"
        }
        codes::CLOSED_HANDLE => {
            "told of  a request\n\
             fails    where it uses a file handle that is not open, under the node of its opening and of its kind, a file or a directory\n\
             look at  An answer of OPEN, OPENDIR or CREATE that opened it may be missing from the capture.\n\
             look at  Or the server gave one handle for another: look where it gives handles out and closes them.\n\
             look at  Or this request was recorded too late: a RELEASE, RELEASEDIR or FORGET that the kernel sent later stands before it. Record each request right after read(2).\n\
             look at  An answer was recorded too late: record an answer before it is written.\n"
        }
        codes::NOT_AN_ORDER_TEXT => {
            "told of  a line of an order text\n\
             fails    where it is the first that does not fit the format\n\
             look at  A carriage return, a blank or an empty line, a number with a sign or a zero in front or above 4,294,967,295, another first line than `fuse-order 1`, or something behind `end`, which needs its line feed. `fa_audit propose` writes texts that fit.\n"
        }
        codes::NOT_A_TREE_TEXT => {
            "told of  a line of a tree text\n\
             fails    where it is the first that does not fit the format\n\
             look at  A path before its directory or twice, a blank in a name that is not spelled %20, permission bits that are not three octal digits, a carriage return, or no line `end`. `fuse-tree` writes texts that fit.\n"
        }
        codes::NO_TREE_REQUEST => {
            "told of  an entry of an order\n\
             fails    where its message is no request that acts on the tree\n\
             look at  Messages are counted from 0, replies too. Only requests that act on the tree stand in an order.\n"
        }
        codes::PLACED_TWICE => {
            "told of  an entry of an order\n\
             fails    where an entry before it has the same message\n\
             look at  A line stands in the order twice: take one out.\n"
        }
        codes::EARLIER_NOT_PLACED => {
            "told of  an entry of an order\n\
             fails    where a tree request that was answered before this one was sent is in no entry before it\n\
             look at  Where one request was answered before the next was sent, the order has to keep that. Note the order under the server's lock, at the place where the request takes effect, or have `fa_audit propose` guess one.\n"
        }
        codes::ANSWERED_LEFT_OUT => {
            "told of  an order, after its last entry\n\
             fails    where an answered request that acts on the tree is in no entry\n\
             look at  it would fit as the next entry: Each answered request that acts on the tree stands in an order, one that was answered with an error too.\n\
             look at  it would not fit: The code that it has there says more: `fa_audit check` tells it of the order with this request as its next line. `fa_audit judge` says whether another order explains the reply.\n"
        }
        codes::CHOICE_NOT_ALLOWED => {
            "told of  an entry of an order\n\
             fails    where it gives a count to an answered request or to one that is no WRITE; or it names an unanswered WRITE without a count or with one above its size, or an unanswered request that only reads\n\
             look at  Only an unanswered WRITE has a count, at most its size; an unanswered request that only reads stands in no order.\n"
        }
        codes::UNKNOWN_HERE => {
            "told of  an entry of an order\n\
             fails    where its request names a node or a file handle that no entry before it gave\n\
             look at  Nothing: no order is told this code. What a request names was given by an earlier answer, and an entry before the request of that answer has code 72.\n"
        }
        codes::SUCCESS_NOT_ALLOWED => {
            "told of  an entry of an order, or the request of a reply that no order explains\n\
             fails    where the tree does not allow the success, as of a CREATE in a directory without a name, or the answer has not the form of one, as attributes for a WRITE\n\
             look at  a name is not there any more: The server finds a name that is gone: a cache that UNLINK, RMDIR or RENAME do not clear, or a check and a change that no lock holds together.\n\
             look at  a name was never there: The server finds a name that no request made: it looks in another directory, or a name is there before its request takes effect.\n\
             look at  a name that was never there is taken away: The server answers a success where nothing is there to remove or rename: the error of its own call is dropped, or it looks in another directory.\n\
             look at  a name is there, and node 0 says that it is not: Each place where the server answers LOOKUP with node 0: a cached \"not there\" that is not cleared where the name is made.\n\
             look at  a name is there already: The server did not see a name that is there: two requests may both have checked before either made it. Check and change under one lock.\n\
             look at  a name is there, and a flag forbids it: Does the server look at the flag? RENAME_NOREPLACE, and O_EXCL of a CREATE, want EEXIST where the name is there: check and change under one lock.\n\
             look at  a directory is not empty: The server removes or replaces a directory without looking into it, or what it looks at is older than the last name that came into it.\n\
             look at  a file or directory has no name any more: The server goes on to use a directory or file after its last name went: check that under the lock of the removal.\n\
             look at  a directory would come into itself: The server lets a directory move below itself: walk up from the new directory, and refuse with EINVAL.\n\
             look at  all else: The server does not check the type, or has another file for the node: look at what it keeps by node id, and what happens to that when the id is given again.\n\
             look at  from the start: Whether the tree text says what the server began with (without --tree that is an empty root with mode 755), or files were changed otherwise than through the mount.\n"
        }
        codes::ERROR_WITHOUT_CAUSE => {
            "told of  an entry of an order, or the request of a reply that no order explains\n\
             fails    where the error is ENOENT, EEXIST, ENOTDIR, EISDIR or ENOTEMPTY, and the tree gives no cause for it\n\
             look at  ENOENT: Each place where the server answers the operation with ENOENT: another failure that is told as ENOENT, a cached \"not there\" that is not cleared where the name is made, a table that is changed in two steps without a lock.\n\
             look at  ENOENT of a name that no request changed: Each place where the server answers the operation with ENOENT: another failure that is told as ENOENT, or a look into another directory.\n\
             look at  ENOENT to a request without a name: A path that the server keeps for the node from before a RENAME, of it or of a directory above it; or another failure that is told as ENOENT.\n\
             look at  ENOENT to a request that makes a name: A path that the server keeps for the directory from before a RENAME or a removal; a symbolic link that has the name and is followed; or another failure that is told as ENOENT.\n\
             look at  EEXIST: What the server asks before EEXIST: a name that went, or is not made yet, is in one of its tables.\n\
             look at  ENOTDIR: From where the server takes the type of the node or name: an id that was given again, the root taken for a file, a type bit lost.\n\
             look at  EISDIR: From where the server takes the type of the node or name: an id that was given again, a type bit lost.\n\
             look at  an empty directory is said not to be: What the server counts as names of the directory: removed files that it keeps under hidden names (libfuse without hard_remove), what others write below, a count that UNLINK does not lower.\n\
             look at  a directory that never had a name in it is said not to be empty: What the server counts as names of the directory: `.` and `..`, its `nlink`, or the names of another directory.\n\
             look at  a name that is not there is said not to be empty: What the server asks before ENOTEMPTY or EEXIST: a name that went, or is not made yet, is in one of its tables. RMDIR of it gives ENOENT; a RENAME may take it.\n\
             look at  a new name that is there is refused: A RENAME without RENAME_NOREPLACE takes the name of a file, and a directory that of an empty directory: the server refuses any new name that is there.\n\
             look at  what is no directory is said not to be empty: The server counts names before it looks at the type: look from where it takes that.\n\
             look at  from the start: Whether the tree text says what the server began with (without --tree that is an empty root with mode 755), or files were changed otherwise than through the mount.\n"
        }
        codes::ATTRIBUTES => {
            "told of  an entry of an order, or the request of a reply that no order explains\n\
             fails    where the type, the permission bits, the size or the number of links that the answer tells are not those of the file\n\
             look at  type: What fills `mode`: the type bits belong to it; or the node stands for another file in the server.\n\
             look at  links: What fills `nlink` in the answers of LINK, LOOKUP, GETATTR and CREATE alike: a constant 1, or attributes from before the request.\n\
             look at  links that were taken away: A count that UNLINK or RENAME does not lower, of the file or as it is kept for its other names.\n\
             look at  size: What fills `size`: attributes kept from before a WRITE, SETATTR or open with O_TRUNC, or taken before this request took effect.\n\
             look at  attributes that no request changed: What fills the attributes: they are of another file, or made up.\n\
             look at  attributes from before the request: The request was not done, as a SETATTR of which a bit of `valid` is not looked at; or the attributes were taken before it.\n\
             look at  size, after an OPEN that does not cut: The server cuts a file at OPEN with O_TRUNC, though INIT did not agree on ATOMIC_O_TRUNC: then the kernel sends a SETATTR that cuts, and OPEN is to leave the bytes.\n\
             look at  size or links of a new file: What fills `size` and `nlink`: a new file has no bytes and one name; those told may be of a file that is gone, or were never set.\n\
             look at  permission bits of a new file: The mode of the request less its umask: run the server with umask 0, on a folder without default access control lists, and look what fills `mode`.\n\
             look at  permission bits that the mode of a new file lacks: What fills `mode`: a constant, a chmod of the server's own, or the mode of another file. A umask and access control lists only take bits away.\n\
             look at  permission bits that a file was made with: The mode of the request that made the file, less its umask: run the server with umask 0, on a folder without default access control lists, and look what filled `mode` in the answer that made it.\n\
             look at  permission bits of a file that is there: What fills `mode`: only a SETATTR with FATTR_MODE changes the bits of a file that is there; a CREATE that opens one leaves them, whatever mode it has.\n\
             look at  from the start: Whether the tree text says what the server began with (without --tree that is an empty root with mode 755), or files were changed otherwise than through the mount.\n"
        }
        codes::NODE_ID_OF_ANOTHER => {
            "told of  an entry of an order, or the request of a reply that no order explains\n\
             fails    where the node that the answer gives stands for another file already\n\
             look at  The server made one node id for two files: an id taken from an inode number that was used again while the kernel still knew it, or from a hash; or LINK and RENAME moved a name and not its id. Give an id again only after the last FORGET.\n\
             look at  a file that has a node of its own: The server answered with the node id of another file: look how it goes from the name to the file, and from where it fills `nodeid`.\n\
             look at  from the start: Whether the tree text says what the server began with (without --tree that is an empty root with mode 755), or files were changed otherwise than through the mount.\n"
        }
        codes::BYTES_READ => {
            "told of  an entry of an order, or the request of a reply that no order explains\n\
             fails    where the bytes of a READ, or the target of a READLINK, are not those of the file\n\
             look at  READLINK: What the server keeps of targets, and whether the node stands for another file there.\n\
             look at  READ, too short: Few bytes: only the end of the file, or FOPEN_DIRECT_IO, allows that. Does the server go on reading after a short pread(2), and is its size the newest?\n\
             look at  READ, too short after an OPEN that does not cut: The server cuts a file at OPEN with O_TRUNC, though INIT did not agree on ATOMIC_O_TRUNC: then the kernel sends a SETATTR that cuts, and OPEN is to leave the bytes.\n\
             look at  READ, too long: Bytes behind the end of the file: does the server send a whole buffer or page, or count bytes that no WRITE has written?\n\
             look at  READ, too long after a truncation: Bytes behind the end of the file: the server's size is older than the last truncation, or it sends a whole buffer or page.\n\
             look at  READ, other bytes: A copy of the bytes that a WRITE or truncation did not change: what is kept by handle or by page, and a WRITE done in two steps without a lock.\n\
             look at  READ, other bytes where zeros are: What lies between an old end of the file and a new one is zeros: a truncation that only lowers the size leaves the old bytes behind it, and so does a block or buffer that is not cleared.\n\
             look at  READ, other bytes that no request set: From which file and which offset the server reads: nothing has changed the first byte that differs.\n\
             look at  from the start: Whether the tree text says what the server began with (without --tree that is an empty root with mode 755), or files were changed otherwise than through the mount.\n"
        }
        codes::LISTING => {
            "told of  an entry of an order, or the request of a reply that no order explains\n\
             fails    where an answer of READDIR or READDIRPLUS breaks the rule of listings: each name that stayed in the directory since the opening is listed once, and none that was at no time in it since then\n\
             look at  a name is missing: The loop that fills the answer: what it passes over, where it goes on (the off of an entry is the place behind it), and what a name that comes or goes does to the places of the others.\n\
             look at  a name stands in two answers: Where the answer goes on: it has to begin at the offset of its request, and the off of an entry, the place behind it, has to stay, whatever comes or goes; an index into a list that shifts does not.\n\
             look at  a name stands twice in an answer: The loop that fills the answer: a name that stands in two of the server's tables, or an entry that did not fit and is added once more.\n\
             look at  a name that went before the opening: What the server lists from: a name that was renamed or removed before the opening is in it.\n\
             look at  a name that was never there: From where the server takes its names: this one is of another directory, is not made yet, or has other bytes or another namelen.\n\
             look at  the type of an entry: What fills `type` of struct fuse_dirent: 0 says nothing, all else is the type bits of the mode divided by 4,096.\n\
             look at  a node of a name that is gone: The node is from before the name went, as of a list that is kept since the opening: look the name up where the answer is filled, under the lock of removals, or give the entry without a node.\n\
             look at  from the start: Whether the tree text says what the server began with (without --tree that is an empty root with mode 755), or files were changed otherwise than through the mount.\n"
        }
        _ => return None,
    };
    Some(lines)
}
