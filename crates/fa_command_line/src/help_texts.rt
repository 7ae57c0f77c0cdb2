//! What the help of each command says behind its options: its lines and statuses.

/// Of the program.
pub const PROGRAM: &str = "\
Exit status:
  0  legal, or good, or an order, a capture, messages, a picture or a help was written
  1  the capture has a fault
  2  the order is not shown to explain the capture
  3  the tree text or the order text is not in its format
  4  the command line is invalid
  5  a file was not read, the output not taken, or memory refused
  6  no order explains the capture
  7  the search gave up

`fa_audit help COMMAND` tells the lines and statuses of a command, and `fa_audit help CODE` what a code means.";

/// Of `check`.
pub const CHECK: &str = "\
What it prints, and its exit status:
  legal: M messages, P placed, L left out       0  the order explains each recorded reply; L unanswered requests that act on the tree are not in it
  fault: message N: code C: TEXT                1  message N, counted from 0, is the first that breaks the protocol
  not shown: entry E: message N: code C: TEXT   2  entry E of the order, counted from 0, is the first at fault
  tree: line L: code 61: not a tree text        3  line L of the tree text is the first that does not fit its format
  order: line L: code 60: not an order text     3  line L of the order text is the first that does not fit its format
  nothing, and what is wrong on standard error  4  the command line is invalid
  nothing, and why on standard error            5  a file was not read, the output not taken, or memory refused

`fa_audit help C` tells what code C means. A FILE may be a pipe; - is standard input.";

/// Of `propose`.
pub const PROPOSE: &str = "\
What it prints, and its exit status:
  the text of an order                          0  the capture keeps the protocol; have the order judged by `fa_audit check`
  fault: message N: code C: TEXT                1  message N, counted from 0, is the first that breaks the protocol
  tree: line L: code 61: not a tree text        3  line L of the tree text is the first that does not fit its format
  nothing, and what is wrong on standard error  4  the command line is invalid
  nothing, and why on standard error            5  a file was not read, the output not taken, or memory refused

`fa_audit help C` tells what code C means. A FILE may be a pipe; - is standard input.";

/// Of `search`.
pub const SEARCH: &str = "\
What it prints, and its exit status:
  the text of an order                          0  it explains each recorded reply
  fault: message N: code C: TEXT                1  message N, counted from 0, is the first that breaks the protocol
  tree: line L: code 61: not a tree text        3  line L of the tree text is the first that does not fit its format
  no order: message N: code C: TEXT             6  no order explains the reply at message N and all replies before it
  the first M messages alone have no order      6  on a second line, where that was found
  gave up: message N                            7  nothing is known from message N on: allow more steps
  nothing, and what is wrong on standard error  4  the command line is invalid
  nothing, and why on standard error            5  a file was not read, the output not taken, or memory refused

`fa_audit help C` tells what code C means. A FILE may be a pipe; - is standard input.";

/// Of `judge`.
pub const JUDGE: &str = "\
What it prints, and its exit status:
  legal: M messages, P placed, L left out       0  some order explains each recorded reply; L unanswered requests that act on the tree are not in it
  fault: message N: code C: TEXT                1  message N, counted from 0, is the first that breaks the protocol
  tree: line L: code 61: not a tree text        3  line L of the tree text is the first that does not fit its format
  no order: message N: code C: TEXT             6  no order explains the reply at message N and all replies before it
  the first M messages alone have no order      6  on a second line, where that was found
  gave up: message N                            7  nothing is known from message N on: allow more steps
  nothing, and what is wrong on standard error  4  the command line is invalid
  nothing, and why on standard error            5  a file was not read, the output not taken, or memory refused

With --explain further lines say why. With --order-out the order that is found is kept, as `fa_audit search` prints it, in a new file, which is made where the capture is legal: one that is there already is refused first, with the status 5, and where the new one cannot be written the lines stand with that status. `fa_audit help C` tells what code C means. The other FILEs may be pipes; - is standard input.";

/// Of `cut`.
pub const CUT: &str = "\
What it prints, and its exit status:
  the text of an order                          0  what is left of the order for the messages before message N
  fault: message N: code C: TEXT                1  message N, counted from 0, is the first that breaks the protocol
  order: line L: code 60: not an order text     3  line L of the order text is the first that does not fit its format
  nothing, and what is wrong on standard error  4  the command line is invalid
  nothing, and why on standard error            5  a file was not read, the output not taken, or memory refused

`fa_audit help C` tells what code C means. A FILE may be a pipe; - is standard input.";

/// Of `front`.
pub const FRONT: &str = "\
What it prints, and its exit status:
  a capture                                     0  the messages before message N, or all whole records where there are fewer
  fault: message 0: code 1: TEXT                1  the file does not begin as a capture
  nothing, and what is wrong on standard error  4  the command line is invalid
  nothing, and why on standard error            5  a file was not read, the output not taken, or memory refused

`fa_audit help C` tells what code C means. A FILE may be a pipe; - is standard input.";

/// Of `migrate`.
pub const MIGRATE: &str = "\
What it prints, and its exit status:
  a capture                                     0  the same messages, in the format that has times
  fault: message N: code C: TEXT                1  the bytes stop being a capture after N messages
  nothing, and what is wrong on standard error  4  the command line is invalid
  nothing, and why on standard error            5  a file was not read, the output not taken, or memory refused

`fa_audit help C` tells what code C means. A FILE may be a pipe; - is standard input.";

/// Of `watch`.
pub const WATCH: &str = "\
What it prints, and its exit status:
  good: M messages                              0  the stream came to its end, and each message keeps the protocol
  fault: message N: code C: TEXT                1  message N, counted from 0, is the first that breaks the protocol
  nothing, and what is wrong on standard error  4  the command line is invalid
  nothing, and why on standard error            5  a file was not read, the output not taken, or memory refused

`fa_audit help C` tells what code C means. A FILE may be a pipe; - is standard input.";

/// Of `show`.
pub const SHOW: &str = "\
What it prints, and its exit status:
  a line for each message that is chosen, or a table  0  also of messages that are refused, with their codes
  nothing, and what is wrong on standard error        4  the command line is invalid
  nothing, and why on standard error                  5  a file was not read, the output not taken, or memory refused

An answer is shown where its request is. What is printed is printing ASCII; a FILE may be a pipe; - is standard input.";

/// Of `explain`.
pub const EXPLAIN: &str = "\
What it prints, and its exit status: the line of `check`, and after it why
  legal: M messages, P placed, L left out            0  and which requests were never answered
  fault: message N: code C: TEXT                     1  what message N conflicts with
  not shown: entry E: message N: code C: TEXT        2  what the tree holds there, and who made it so
  tree: line L: .. or order: line L: ..              3  the bytes of line L
  nothing, and what is wrong on standard error       4  the command line is invalid
  nothing, and why on standard error                 5  a file was not read, the output not taken, or memory refused

Without --order the order is the one that is proposed. What is printed is printing ASCII; a FILE may be a pipe; - is standard input.";

/// Of `picture`.
pub const PICTURE: &str = "\
What it prints, and its exit status:
  a picture, as SVG                             0  of any capture: a picture is no verdict
  tree: line L: .. or order: line L: ..         3  the text is not in its format: the lines of `explain`
  nothing, and what is wrong on standard error  4  the command line is invalid
  nothing, and why on standard error            5  a file was not read, the output not taken, or memory refused

Each message has a column, by its number; sixteen columns are a row of the picture. A bar goes from a request to its answer; the
legend below says what the looks of bars mean. Requests whose bars share a column were under way at once: either may have taken
effect first. With --order, dark marks with the numbers of its entries say when each request may have taken effect, and the entry
at fault is red. Without --messages there are 48 messages. A FILE may be a pipe; - is standard input.";

/// Of `report`.
pub const REPORT: &str = "\
What it prints, and its exit status: an HTML page that stands by itself, with the verdict
  legal: M messages, P placed, L left out            0  the order explains each recorded reply; without --order, some order does
  fault: message N: code C: TEXT                     1  message N, counted from 0, is the first that breaks the protocol
  not shown: entry E: message N: code C: TEXT        2  with --order: entry E of it is the first at fault
  tree: line L: .. or order: line L: ..              3  the text is not in its format: no page, but the lines of `explain`
  no order: message N: code C: TEXT                  6  without --order: no order explains the reply at message N and all replies before it
  the first M messages alone have no order           6  on a further line, `shortest`, where that was found
  gave up: message N                                 7  without --order: nothing is known from message N on: allow more steps
  nothing, and what is wrong on standard error       4  the command line is invalid
  nothing, and why on standard error                 5  a file was not read, the output not taken, or memory refused

Without --messages the page lists 160 messages. A FILE may be a pipe; - is standard input.";

/// Of `help`.
pub const HELP: &str = "\
What it prints, and its exit status:
  the paragraph of a code, or a help            0
  nothing, and what is wrong on standard error  4  the command line is invalid
  nothing, and why on standard error            5  a file was not read, the output not taken, or memory refused

A paragraph says of what the code is told, where, and what to look at in the server, in lines of a label and a text.";
