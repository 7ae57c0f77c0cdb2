//! The audit of recorded /dev/fuse traffic.
//!
//! [`audit`] judges a capture and an order of its requests from the tree that the server began with, [`audit_capture`] a capture that
//! was read, as one that came in pieces, and [`verdict_text`] is the line that tells it. [`judge_capture`] searches all orders for one
//! that explains a capture, so that none has to be handed in, and [`search_order`] is the text of the one that is found. [`run`],
//! [`run_propose`], [`run_search`], [`run_judge`], [`run_judge_and_keep`], [`run_cut`], [`run_front`], [`run_migrate`], [`run_watch`] and
//! [`run_show`] go from inputs to an output: they are the commands `check`, `propose`, `search`, `judge` without and with `--order-out`,
//! `cut`, `front`, `migrate`, `watch` and `show` of the program `fa_audit`. What says why, `fa_reasons`, stands on the parts that they are
//! made of: [`start`], [`entries_of`], [`proposed`], [`decided`], [`judged_lines_and_status`], [`found_order_text`], [`keep_order`],
//! [`line_and_status`] and [`input_bytes`].
//!
//! Runs hash their tables with a seed that they are given, and calls on a [`Capture`](fa_capture::Capture) with that of the capture. Calls on
//! bytes hash them with the default one.
#![tactic(auto)]

mod cutting;
mod deciding;
mod found;
mod fronts;
mod judge;
pub mod laws;
mod line;
mod migrating;
mod proposing;
mod protocol;
mod running;
mod searching;
mod shortest;
mod showing;
mod status;
mod verdict;
mod watching;

pub use cutting::{cut_order, run_cut};
pub use deciding::{
    decided, found_order_text, judge_capture, judged_line_and_status, judged_lines_and_status,
    judgement_of, keep_order, run_judge, run_judge_and_keep,
};
pub use found::{Decision, Judgement, Searched};
pub use fronts::run_front;
pub use judge::{ROOT_BITS, audit, audit_capture, entries_of, start};
pub use line::{judgement_text, order_fault_text, shortest_text, tree_fault_text, verdict_text};
pub use migrating::run_migrate;
pub use proposing::{proposal, proposed, run_propose};
pub use running::{
    MAX_CAPTURE_INPUT_BYTES, MAX_TEXT_INPUT_BYTES, RunFault, input_bytes, line_and_status, run,
};
pub use searching::{run_search, search_order};
pub use showing::run_show;
pub use status::Status;
pub use verdict::{AuditError, CutError, StartError};
pub use watching::run_watch;

/// How much a search may take.
pub use fa_search::{Budget, Listener, Nobody, SoFar};

/// Which messages are shown, and how.
pub use fa_show::Choice;
