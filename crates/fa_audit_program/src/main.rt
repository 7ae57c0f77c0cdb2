//! The audit of recorded /dev/fuse traffic, as a program.
//!
//! `fa_audit check --capture FILE [--tree FILE] --order FILE` tells in one line on standard output whether the order explains the
//! capture. `fa_audit propose --capture FILE [--tree FILE]` writes the text of an order that may explain it to standard output, or
//! the line of the fault where the capture has one or the tree text is not in its grammar. `fa_audit search --capture FILE [--tree FILE]
//! [--steps N] [--progress]` searches all orders and writes the text of one that explains the capture, or the line that there is none
//! or that it gave up. `fa_audit judge --capture FILE [--tree FILE] [--steps N] [--progress] [--order-out FILE]` tells the verdict of such
//! a search alone, and with `--order-out` keeps the order in a new file.
//! `fa_audit cut --capture FILE --order FILE --at N` writes what is left of the order for the messages before message N, and `fa_audit
//! front --capture FILE --at N` the capture of these messages. `fa_audit migrate --capture FILE` writes a capture anew in the format
//! that has times. `fa_audit watch --capture FILE` reads a capture while it is written and tells its first fault as soon as that was
//! read, or at the end that there is none. `fa_audit show --capture FILE` prints the messages that its options choose, a line each.
//! `fa_audit explain --capture FILE [--tree FILE] [--order FILE]` tells the verdict on an order, or on the one that is proposed, and
//! behind it why, and `judge --explain` does so behind its lines. `fa_audit picture --capture FILE [--order FILE [--tree FILE]]` draws the
//! requests of a capture, and `fa_audit report --capture FILE [--tree FILE] [--order FILE]` writes a page with the verdict, its reasons, a
//! picture and messages. `fa_audit help CODE` tells what a code means and what to look at then.
//! A FILE that is `-` is standard input.
//!
//! Each ends with the status 0 where the verdict is legal, what was asked for is written, or a stream had no fault, 1 at a fault of
//! the capture, 2 where the order is not shown to explain the capture, 3 where the tree text or the order text is not in its grammar,
//! 4 where the command line is no call, 5 where reading, writing or memory failed, 6 where no order explains the capture, and 7 where a
//! search gave up. What stands behind a status 4 or 5 is told on standard error.
#![tactic(auto)]

ghost use Rattle.std.specs.Prelude.{◌≡◌, IfSome};

mod failure;
mod files;

use crate::failure::{Cause, Failure, Printing};
use crate::files::{
    Sink, Source, new_file, open_capture, open_text, open_text_if_any, random_seed,
};
use fa_audit::{
    Budget, Listener, RunFault, SoFar, Status, run, run_cut, run_front, run_judge,
    run_judge_and_keep, run_migrate, run_propose, run_search, run_show, run_watch,
};
use fa_command_line::{
    Call, CheckPaths, CutPaths, ExplainPaths, FrontPaths, JudgePaths, MigratePaths, PROGRAM,
    PagePaths, ProposePaths, ReportPaths, SearchPaths, ShowPaths, Topic, WatchPaths, command_line,
};
use fa_help::Paragraph;
use fa_reasons::{
    DEFAULT_MESSAGES, DEFAULT_ROWS, OrderPage, ReportView, View, run_explain, run_explained_judge,
    run_explained_judge_and_keep, run_order_page, run_picture, run_report,
};
use std::alloc::{AllocError, Global};
use std::env::Env;
use std::fmt::Display;
use std::io::ErrorKind;
use std::process::ExitCode;
use std::rt::Files;
use std::{env, io};

fn main(rt: HostRuntime) -> ExitCode {
    ExitCode::from(status(&rt))
}

/// Runs the call that the process's words are, and says on standard error what keeps it from an answer: its status.
fn status<R: AllocGlobal + Env + Files + Print + Eprint>(rt: &R) -> u8 {
    match words(rt) {
        Ok(words) => match call(rt, &words) {
            Ok(status) => status,
            Err(failure) => told(rt, &failure),
        },
        Err(failure) => told(rt, &failure),
    }
}

/// Says on standard error what keeps the program from an answer: its status.
fn told<R: Eprint>(rt: &R, failure: &Failure<'_>) -> u8 {
    // What standard error does not take is lost.
    let _ = eprint!(rt; "{failure}");
    failure.status().number()
}

/// Runs the call that these words are: its status.
fn call<'a, R: AllocGlobal + Files + Print + Eprint>(
    rt: &R,
    words: &'a [String],
) -> Result<u8, Failure<'a>> {
    let matches = match command_line(rt.alloc())?.try_get_matches_from(words) {
        Ok(matches) => matches,
        Err(error) => return answered(rt, error),
    };
    match Call::new(&matches).ok_or(Failure::NoCall)? {
        Call::Check(paths) => check(rt, &paths),
        Call::Propose(paths) => propose(rt, &paths),
        Call::Search(paths) => search(rt, &paths),
        Call::Judge(paths) => judge(rt, &paths),
        Call::Cut(paths) => cut(rt, &paths),
        Call::Front(paths) => front(rt, &paths),
        Call::Migrate(paths) => migrate(rt, &paths),
        Call::Watch(paths) => watch(rt, &paths),
        Call::Show(paths) => show(rt, &paths),
        Call::Explain(paths) => explain(rt, &paths),
        Call::Picture(paths) => picture(rt, &paths),
        Call::Report(paths) => report(rt, &paths),
        Call::Help(topic) => help(rt, &topic),
    }
}

/// The answer to words that are no call: the help or the version, where they ask for it, with its status.
fn answered<'a, R: Print>(rt: &R, error: clap::Error) -> Result<u8, Failure<'a>> {
    if error.use_stderr() {
        return Err(error.into());
    }
    print(rt, &error)
}

/// Writes a text to standard output: the status.
fn print<'a, R: Print>(rt: &R, text: &impl Display) -> Result<u8, Failure<'a>> {
    match print!(rt; "{text}") {
        Ok(()) => Ok(Status::Legal.number()),
        Err(error) => Err(Failure::Run(RunFault::Write, files::unwritten(&error))),
    }
}

/// Runs a call of `help`: its status.
fn help<'a, R: AllocGlobal + Print>(rt: &R, topic: &Topic<'a>) -> Result<u8, Failure<'a>> {
    let Some(word) = topic.word else {
        return parser_help(rt, &[PROGRAM, "--help"]);
    };
    match word.parse() {
        Ok(code) => {
            let paragraph = Paragraph::of(code).ok_or(Failure::NoCode(code))?;
            print(rt, &paragraph)
        }
        Err(_) => parser_help(rt, &[PROGRAM, word, "--help"]),
    }
}

/// The help for which these words ask: the status.
fn parser_help<'a, R: AllocGlobal + Print>(rt: &R, words: &[&str]) -> Result<u8, Failure<'a>> {
    match command_line(rt.alloc())?.try_get_matches_from(words) {
        Ok(_) => Err(Failure::NoCall),
        Err(error) => answered(rt, error),
    }
}

/// How a call ends: with the status of its run, or its fault and what one of its files or of its outputs knows of the cause.
fn ended<'a>(
    ran: Result<u8, RunFault>,
    unread: Cause<'a>,
    unwritten: Cause<'a>,
) -> Result<u8, Failure<'a>> {
    match ran {
        Ok(status) => Ok(status),
        Err(RunFault::Read) => Err(Failure::Run(RunFault::Read, unread)),
        Err(RunFault::Write) => Err(Failure::Run(RunFault::Write, unwritten)),
        Err(RunFault::Memory) => Err(Failure::Run(RunFault::Memory, Cause::Unknown)),
    }
}

/// Runs a call of `check`: its status.
fn check<'a, R: AllocGlobal + Files + Print>(
    rt: &R,
    paths: &CheckPaths<'a>,
) -> Result<u8, Failure<'a>> {
    let mut capture = open_capture(rt, paths.capture)?;
    let mut tree = open_text_if_any(rt, paths.tree)?;
    let mut order = open_text(rt, paths.order)?;
    let mut out = Sink::new(io::writer(rt));
    let ran = run(
        rt.alloc(),
        random_seed(rt),
        &mut capture,
        tree.as_mut(),
        &mut order,
        &mut out,
    );
    let cause = capture.cause().or(text_cause(&tree)).or(order.cause());
    ended(ran, cause, out.cause())
}

/// What kept a text from being read, where there is one.
fn text_cause<'a, F>(text: &Option<Source<'a, F>>) -> Cause<'a> {
    match text {
        Some(text) => text.cause(),
        None => Cause::Unknown,
    }
}

/// Runs a call of `propose`: its status.
fn propose<'a, R: AllocGlobal + Files + Print>(
    rt: &R,
    paths: &ProposePaths<'a>,
) -> Result<u8, Failure<'a>> {
    let mut capture = open_capture(rt, paths.capture)?;
    let mut tree = open_text_if_any(rt, paths.tree)?;
    let mut out = Sink::new(io::writer(rt));
    let ran = run_propose(
        rt.alloc(),
        random_seed(rt),
        &mut capture,
        tree.as_mut(),
        &mut out,
    );
    let cause = capture.cause().or(text_cause(&tree));
    ended(ran, cause, out.cause())
}

/// Runs a call of `search`: its status.
fn search<'a, R: AllocGlobal + Files + Print + Eprint>(
    rt: &R,
    paths: &SearchPaths<'a>,
) -> Result<u8, Failure<'a>> {
    let mut capture = open_capture(rt, paths.capture)?;
    let mut tree = open_text_if_any(rt, paths.tree)?;
    let mut out = Sink::new(io::writer(rt));
    let ran = run_search(
        rt.alloc(),
        random_seed(rt),
        &mut capture,
        tree.as_mut(),
        budget(paths.steps),
        &mut Progress {
            rt,
            shown: paths.progress,
        },
        &mut out,
    );
    let cause = capture.cause().or(text_cause(&tree));
    ended(ran, cause, out.cause())
}

/// Runs a call of `judge`: its status.
fn judge<'a, R: AllocGlobal + Files + Print + Eprint>(
    rt: &R,
    call: &JudgePaths<'a>,
) -> Result<u8, Failure<'a>> {
    match call.order_out {
        Some(path) => judge_and_keep(rt, call, path),
        None if call.explained => explained_judge(rt, &call.paths),
        None => plain_judge(rt, &call.paths),
    }
}

/// Runs a call of `judge` that is not to say why: its status.
fn plain_judge<'a, R: AllocGlobal + Files + Print + Eprint>(
    rt: &R,
    paths: &SearchPaths<'a>,
) -> Result<u8, Failure<'a>> {
    let mut capture = open_capture(rt, paths.capture)?;
    let mut tree = open_text_if_any(rt, paths.tree)?;
    let mut out = Sink::new(io::writer(rt));
    let ran = run_judge(
        rt.alloc(),
        random_seed(rt),
        &mut capture,
        tree.as_mut(),
        budget(paths.steps),
        &mut Progress {
            rt,
            shown: paths.progress,
        },
        &mut out,
    );
    let cause = capture.cause().or(text_cause(&tree));
    ended(ran, cause, out.cause())
}

/// Runs a call of `judge` that is to say why: its status.
fn explained_judge<'a, R: AllocGlobal + Files + Print + Eprint>(
    rt: &R,
    paths: &SearchPaths<'a>,
) -> Result<u8, Failure<'a>> {
    let mut capture = open_capture(rt, paths.capture)?;
    let mut tree = open_text_if_any(rt, paths.tree)?;
    let mut out = Sink::new(io::writer(rt));
    let ran = run_explained_judge(
        rt.alloc(),
        random_seed(rt),
        &mut capture,
        tree.as_mut(),
        budget(paths.steps),
        &mut Progress {
            rt,
            shown: paths.progress,
        },
        &mut out,
    );
    let cause = capture.cause().or(text_cause(&tree));
    ended(ran, cause, out.cause())
}

/// Runs a call of `judge` that is to keep the order in this file: its status.
fn judge_and_keep<'a, R: AllocGlobal + Files + Print + Eprint>(
    rt: &R,
    call: &JudgePaths<'a>,
    path: &'a str,
) -> Result<u8, Failure<'a>> {
    let mut order_out = new_file(rt, path)?;
    let mut capture = open_capture(rt, call.paths.capture)?;
    let mut tree = open_text_if_any(rt, call.paths.tree)?;
    let mut out = Sink::new(io::writer(rt));
    let mut progress = Progress {
        rt,
        shown: call.paths.progress,
    };
    let ran = if call.explained {
        run_explained_judge_and_keep(
            rt.alloc(),
            random_seed(rt),
            &mut capture,
            tree.as_mut(),
            budget(call.paths.steps),
            &mut progress,
            &mut order_out,
            &mut out,
        )
    } else {
        run_judge_and_keep(
            rt.alloc(),
            random_seed(rt),
            &mut capture,
            tree.as_mut(),
            budget(call.paths.steps),
            &mut progress,
            &mut order_out,
            &mut out,
        )
    };
    let cause = capture.cause().or(text_cause(&tree));
    ended(ran, cause, out.cause().or(order_out.cause()))
}

/// Says on standard error how far a search has come, if that is to be shown.
#[derive(Drop)]
struct Progress<'r, R> {
    rt: &'r R,
    shown: bool,
}

impl<R: Eprint> Listener for Progress<'_, R> {
    fn hear(&mut self, so_far: &SoFar) {
        if self.shown {
            // What standard error does not take is lost.
            let _ = eprintln!(self.rt;
                "{} messages explained, {} trees held, {} steps left",
                so_far.messages, so_far.trees, so_far.steps_left
            );
        }
    }
}

/// How much a search may take: so many steps where that is said, and of the rest as much as ever.
fn budget(steps: Option<u64>) -> Budget
    ensures { IfSome steps (λ number. result.steps ≡ number) }
{
    let usual = Budget::default();
    Budget {
        steps: steps.unwrap_or(usual.steps),
        ..usual
    }
}

/// Runs a call of `cut`: its status.
fn cut<'a, R: AllocGlobal + Files + Print>(
    rt: &R,
    paths: &CutPaths<'a>,
) -> Result<u8, Failure<'a>> {
    let mut capture = open_capture(rt, paths.capture)?;
    let mut order = open_text(rt, paths.order)?;
    let mut out = Sink::new(io::writer(rt));
    let ran = run_cut(
        rt.alloc(),
        random_seed(rt),
        &mut capture,
        &mut order,
        paths.at,
        &mut out,
    );
    let cause = capture.cause().or(order.cause());
    ended(ran, cause, out.cause())
}

/// Runs a call of `front`: its status.
fn front<'a, R: AllocGlobal + Files + Print>(
    rt: &R,
    paths: &FrontPaths<'a>,
) -> Result<u8, Failure<'a>> {
    let mut capture = open_capture(rt, paths.capture)?;
    let mut out = Sink::new(io::writer(rt));
    let ran = run_front(rt.alloc(), &mut capture, paths.at, &mut out);
    ended(ran, capture.cause(), out.cause())
}

/// Runs a call of `migrate`: its status.
fn migrate<'a, R: AllocGlobal + Files + Print>(
    rt: &R,
    paths: &MigratePaths<'a>,
) -> Result<u8, Failure<'a>> {
    let mut capture = open_capture(rt, paths.capture)?;
    let mut out = Sink::new(io::writer(rt));
    let ran = run_migrate(rt.alloc(), &mut capture, &mut out);
    ended(ran, capture.cause(), out.cause())
}

/// Runs a call of `watch`: its status.
fn watch<'a, R: AllocGlobal + Files + Print>(
    rt: &R,
    paths: &WatchPaths<'a>,
) -> Result<u8, Failure<'a>> {
    let mut capture = open_capture(rt, paths.capture)?;
    let mut out = Sink::new(io::writer(rt));
    let ran = run_watch(rt.alloc(), random_seed(rt), &mut capture, &mut out);
    ended(ran, capture.cause(), out.cause())
}

/// Runs a call of `show`: its status.
fn show<'a, R: AllocGlobal + Files + Print>(
    rt: &R,
    paths: &ShowPaths<'a>,
) -> Result<u8, Failure<'a>> {
    let mut capture = open_capture(rt, paths.capture)?;
    let mut out = Sink::new(io::writer(rt));
    let ran = run_show(
        rt.alloc(),
        random_seed(rt),
        &mut capture,
        &paths.choice,
        &mut out,
    );
    ended(ran, capture.cause(), out.cause())
}

/// Runs a call of `explain`: its status.
fn explain<'a, R: AllocGlobal + Files + Print>(
    rt: &R,
    paths: &ExplainPaths<'a>,
) -> Result<u8, Failure<'a>> {
    let mut capture = open_capture(rt, paths.capture)?;
    let mut tree = open_text_if_any(rt, paths.tree)?;
    let mut order = open_text_if_any(rt, paths.order)?;
    let mut out = Sink::new(io::writer(rt));
    let ran = run_explain(
        rt.alloc(),
        random_seed(rt),
        &mut capture,
        tree.as_mut(),
        order.as_mut(),
        &mut out,
    );
    let cause = capture.cause().or(text_cause(&tree)).or(text_cause(&order));
    ended(ran, cause, out.cause())
}

/// Which messages a call asks for: so many where it does not say it.
fn view(paths: &PagePaths<'_>, usual: u32) -> View {
    View {
        around: paths.around,
        messages: paths.messages.unwrap_or(usual),
    }
}

/// Runs a call of `picture`: its status.
fn picture<'a, R: AllocGlobal + Files + Print>(
    rt: &R,
    paths: &PagePaths<'a>,
) -> Result<u8, Failure<'a>> {
    let view = view(paths, DEFAULT_MESSAGES);
    let Some(order) = paths.order else {
        let mut capture = open_capture(rt, paths.capture)?;
        let mut out = Sink::new(io::writer(rt));
        let ran = run_picture(rt.alloc(), random_seed(rt), &mut capture, view, &mut out);
        return ended(ran, capture.cause(), out.cause());
    };
    order_page(rt, paths, order, &OrderPage::Picture(view))
}

/// Runs a call of `picture` or of `report` by this order: its status.
fn order_page<'a, R: AllocGlobal + Files + Print>(
    rt: &R,
    paths: &PagePaths<'a>,
    order: &'a str,
    page: &OrderPage<'_>,
) -> Result<u8, Failure<'a>> {
    let mut capture = open_capture(rt, paths.capture)?;
    let mut tree = open_text_if_any(rt, paths.tree)?;
    let mut order = open_text(rt, order)?;
    let mut out = Sink::new(io::writer(rt));
    let ran = run_order_page(
        rt.alloc(),
        random_seed(rt),
        &mut capture,
        tree.as_mut(),
        &mut order,
        page,
        &mut out,
    );
    let cause = capture.cause().or(text_cause(&tree)).or(order.cause());
    ended(ran, cause, out.cause())
}

/// Runs a call of `report`: its status.
fn report<'a, R: AllocGlobal + Files + Print + Eprint>(
    rt: &R,
    call: &ReportPaths<'a>,
) -> Result<u8, Failure<'a>> {
    let source = source(rt.alloc(), &call.page)?;
    let shown = ReportView {
        source: &source,
        messages: view(&call.page, DEFAULT_ROWS),
    };
    match call.page.order {
        Some(order) => order_page(rt, &call.page, order, &OrderPage::Report(shown)),
        None => judged_report(rt, call, shown),
    }
}

/// What a report is of: the names of its files.
fn source(alloc: Global, paths: &PagePaths<'_>) -> Result<String, AllocError> {
    let mut source = format!(in alloc; "{}", Printing(paths.capture))?;
    if let Some(tree) = paths.tree {
        source = format!(in alloc; "{source} on {}", Printing(tree))?;
    }
    if let Some(order) = paths.order {
        source = format!(in alloc; "{source}, judged with {}", Printing(order))?;
    }
    Ok(source)
}

/// Runs a call of `report` by a search: its status.
fn judged_report<'a, R: AllocGlobal + Files + Print + Eprint>(
    rt: &R,
    call: &ReportPaths<'a>,
    shown: ReportView<'_>,
) -> Result<u8, Failure<'a>> {
    let mut capture = open_capture(rt, call.page.capture)?;
    let mut tree = open_text_if_any(rt, call.page.tree)?;
    let mut out = Sink::new(io::writer(rt));
    let ran = run_report(
        rt.alloc(),
        random_seed(rt),
        &mut capture,
        tree.as_mut(),
        budget(call.steps),
        &mut Progress {
            rt,
            shown: call.progress,
        },
        shown,
        &mut out,
    );
    let cause = capture.cause().or(text_cause(&tree));
    ended(ran, cause, out.cause())
}

/// The words of the command line, with the program's name first.
fn words<R: AllocGlobal + Env>(rt: &R) -> Result<Vec<String>, Failure<'static>> {
    match env::args(rt) {
        Ok(words) => Ok(words.collect(rt.alloc())?),
        Err(error) if error.kind() == ErrorKind::OutOfMemory => {
            Err(Failure::Run(RunFault::Memory, Cause::Unknown))
        }
        Err(_) => Err(Failure::NotUtf8),
    }
}
