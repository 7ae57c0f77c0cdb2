//! The command line of the program: its commands and options, and what words call.
//!
//! [`command_line`] is it as `clap` parses it, with the help of each command. [`Call::new`] takes from what such a parse found
//! which command is called, with its files and numbers, and each of its clauses says so in the words' own terms.
#![tactic(auto)]

mod call;
mod command;
mod help_texts;
mod names;
mod number;

pub use call::{
    Call, CheckPaths, CutPaths, ExplainPaths, FrontPaths, JudgePaths, MigratePaths, PagePaths,
    ProposePaths, ReportPaths, SearchPaths, ShowPaths, Topic, WatchPaths,
};
pub use command::{PROGRAM, command_line};
