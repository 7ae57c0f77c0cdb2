//! The names of commands and of their options.

/// The command that judges an order.
pub(crate) const CHECK: &str = "check";
/// The command that guesses one.
pub(crate) const PROPOSE: &str = "propose";
/// The command that searches one.
pub(crate) const SEARCH: &str = "search";
/// The command that judges a capture by such a search.
pub(crate) const JUDGE: &str = "judge";
/// The command that cuts an order.
pub(crate) const CUT: &str = "cut";
/// The command that cuts a capture.
pub(crate) const FRONT: &str = "front";
/// The command that migrates a capture.
pub(crate) const MIGRATE: &str = "migrate";
/// The command that watches a stream.
pub(crate) const WATCH: &str = "watch";
/// The command that shows messages.
pub(crate) const SHOW: &str = "show";
/// The command that says why, and the option by which `judge` does.
pub(crate) const EXPLAIN: &str = "explain";
/// The command that draws a capture.
pub(crate) const PICTURE: &str = "picture";
/// The command that writes a page on one.
pub(crate) const REPORT: &str = "report";
/// The command that tells what a code means.
pub(crate) const HELP: &str = "help";
/// The option that names the capture.
pub(crate) const CAPTURE: &str = "capture";
/// The option that names the tree text.
pub(crate) const TREE: &str = "tree";
/// The option that names the order text.
pub(crate) const ORDER: &str = "order";
/// The option that gives the message at which is cut.
pub(crate) const AT: &str = "at";
/// The option that gives how many steps a search may spend.
pub(crate) const STEPS: &str = "steps";
/// The option by which a search says how far it has come.
pub(crate) const PROGRESS: &str = "progress";
/// The option that gives the first message that is shown.
pub(crate) const FROM: &str = "from";
/// The option that gives the last one.
pub(crate) const TO: &str = "to";
/// The option that gives a node.
pub(crate) const NODE: &str = "node";
/// The option that gives a name.
pub(crate) const NAME: &str = "name";
/// The option that gives an operation.
pub(crate) const OPERATION: &str = "operation";
/// The option that leaves out what was answered.
pub(crate) const UNANSWERED: &str = "unanswered";
/// The option by which nothing is shortened.
pub(crate) const WHOLE: &str = "whole";
/// The option that names the file for the order that is found.
pub(crate) const ORDER_OUT: &str = "order-out";
/// The option by which operations are counted.
pub(crate) const SUMMARY: &str = "summary";
/// The option that gives the message around which is drawn.
pub(crate) const AROUND: &str = "around";
/// The option that gives how many messages are drawn or listed.
pub(crate) const MESSAGES: &str = "messages";
/// The word of which help is asked.
pub(crate) const TOPIC: &str = "topic";
