//! Why the audit answers as it does: as lines, as a picture and as a page.
//!
//! [`explain`] judges a capture and an order as [`audit`](fa_audit::audit) does, and [`explain_judgement`] searches all orders as
//! [`judge_capture`](fa_audit::judge_capture) does; each gives the reasons with its answer. [`run_explain`], [`run_explained_judge`],
//! [`run_explained_judge_and_keep`], [`run_picture`] and [`run_report`] go from inputs to an output: they are the commands `explain`,
//! `judge --explain` without and with `--order-out`, `picture` and `report` of the program `fa_audit`, and [`run_order_page`] is the last
//! two with an order.
#![tactic(auto)]

mod explaining;
mod explaining_judgement;
mod order_pages;
mod pages;
mod picturing;
mod reporting;

pub use explaining::{Explanation, explain, run_explain};
pub use explaining_judgement::{
    ExplainedJudgement, explain_judgement, run_explained_judge, run_explained_judge_and_keep,
};
pub use order_pages::{OrderPage, run_order_page};
pub use pages::ReportView;
pub use picturing::run_picture;
pub use reporting::run_report;

/// Which messages are drawn, and how many are, and how many the table of a report has, where nothing else is asked for.
pub use fa_picture::{DEFAULT_MESSAGES, DEFAULT_ROWS, View};
