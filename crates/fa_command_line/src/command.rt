//! The command line as `clap` takes it.

use crate::help_texts;
use crate::names::{
    AROUND, AT, CAPTURE, CHECK, CUT, EXPLAIN, FROM, FRONT, HELP, JUDGE, MESSAGES, MIGRATE, NAME,
    NODE, OPERATION, ORDER, ORDER_OUT, PICTURE, PROGRESS, PROPOSE, REPORT, SEARCH, SHOW, STEPS,
    SUMMARY, TO, TOPIC, TREE, UNANSWERED, WATCH, WHOLE,
};
use clap::builder::ValueParser;
use clap::{Arg, ArgAction, Command, value_parser};
use fa_capture::limits::MAX_MESSAGES;
use std::alloc::{AllocError, Global};

/// The name of the program, in its own texts.
pub const PROGRAM: &str = "fa_audit";
/// Its version.
const VERSION: &str = "0.1.0";

/// The operations that may be chosen, by their names in `enum fuse_opcode` of `fuse.h` 7.31.
static OPERATIONS: [&str; 44] = [
    "LOOKUP",
    "FORGET",
    "GETATTR",
    "SETATTR",
    "READLINK",
    "SYMLINK",
    "MKNOD",
    "MKDIR",
    "UNLINK",
    "RMDIR",
    "RENAME",
    "LINK",
    "OPEN",
    "READ",
    "WRITE",
    "STATFS",
    "RELEASE",
    "FSYNC",
    "SETXATTR",
    "GETXATTR",
    "LISTXATTR",
    "REMOVEXATTR",
    "FLUSH",
    "INIT",
    "OPENDIR",
    "READDIR",
    "RELEASEDIR",
    "FSYNCDIR",
    "GETLK",
    "SETLK",
    "SETLKW",
    "ACCESS",
    "CREATE",
    "INTERRUPT",
    "BMAP",
    "DESTROY",
    "IOCTL",
    "POLL",
    "BATCH_FORGET",
    "FALLOCATE",
    "READDIRPLUS",
    "RENAME2",
    "LSEEK",
    "COPY_FILE_RANGE",
];

/// The command line: `fa_audit check --capture FILE [--tree FILE] --order FILE`, `fa_audit propose --capture FILE [--tree FILE]`,
/// `fa_audit search --capture FILE [--tree FILE] [--steps N] [--progress]`, `fa_audit judge` with the same options, `--explain` and
/// `--order-out FILE`,
/// `fa_audit cut --capture FILE --order FILE --at N`, `fa_audit front --capture FILE --at N`, `fa_audit migrate --capture FILE`,
/// `fa_audit watch --capture FILE`, `fa_audit show --capture FILE` with options that choose messages,
/// `fa_audit explain --capture FILE [--tree FILE] [--order FILE]`, `fa_audit picture --capture FILE [--order FILE [--tree FILE]]` and
/// `fa_audit report --capture FILE [--tree FILE] [--order FILE]` with options that choose messages, or `fa_audit help [CODE|COMMAND]`.
///
/// # Errors
///
/// [`AllocError`] where memory was refused.
///
/// # Cost
///
/// Time and memory in the number of its commands and options.
pub fn command_line<'a>(alloc: Global) -> Result<Command<'a>, AllocError> {
    Command::new(alloc, PROGRAM)
        .bin_name(PROGRAM)?
        .version(VERSION)
        .about("Audits recorded /dev/fuse traffic")
        .after_help(help_texts::PROGRAM)
        .disable_help_subcommand(true)
        .subcommand_required(true)
        .subcommand(check_command(alloc)?)?
        .subcommand(propose_command(alloc)?)?
        .subcommand(search_command(
            alloc,
            SEARCH,
            "Searches all orders for one that explains a capture, and prints its text or that there is none",
            help_texts::SEARCH,
        )?)?
        .subcommand(judge_command(alloc)?)?
        .subcommand(cut_command(alloc)?)?
        .subcommand(front_command(alloc)?)?
        .subcommand(migrate_command(alloc)?)?
        .subcommand(watch_command(alloc)?)?
        .subcommand(show_command(alloc)?)?
        .subcommand(explain_command(alloc)?)?
        .subcommand(picture_command(alloc)?)?
        .subcommand(report_command(alloc)?)?
        .subcommand(help_command(alloc)?)
}

/// A command of this name, with what its help says before and behind its options.
fn named<'a>(alloc: Global, name: &'a str, about: &'a str, after: &'a str) -> Command<'a> {
    Command::new(alloc, name).about(about).after_help(after)
}

/// The command `check`.
fn check_command<'a>(alloc: Global) -> Result<Command<'a>, AllocError> {
    let order = path_option(alloc, ORDER).help("The order text that is to explain it");
    named(
        alloc,
        CHECK,
        "Tells in one line whether an order explains a capture",
        help_texts::CHECK,
    )
    .arg(capture_option(alloc))?
    .arg(tree_option(alloc))?
    .arg(order)
}

/// The command `propose`.
fn propose_command<'a>(alloc: Global) -> Result<Command<'a>, AllocError> {
    named(
        alloc,
        PROPOSE,
        "Guesses an order that may explain a capture, and prints its text",
        help_texts::PROPOSE,
    )
    .arg(capture_option(alloc))?
    .arg(tree_option(alloc))
}

/// The command `judge`.
fn judge_command<'a>(alloc: Global) -> Result<Command<'a>, AllocError> {
    search_command(
        alloc,
        JUDGE,
        "Tells whether some order explains a capture",
        help_texts::JUDGE,
    )?
    .arg(flag(alloc, EXPLAIN, "Say why, after the lines of the answer"))?
    .arg(
        path_option(alloc, ORDER_OUT).required(false).help(
            "A new file for the order that is found; it is made where the capture is legal",
        ),
    )
}

/// The command of this name, which searches.
fn search_command<'a>(
    alloc: Global,
    name: &'a str,
    about: &'a str,
    after: &'a str,
) -> Result<Command<'a>, AllocError> {
    named(alloc, name, about, after)
        .arg(capture_option(alloc))?
        .arg(tree_option(alloc))?
        .arg(steps_option(alloc))?
        .arg(progress_option(alloc))
}

/// The command `cut`.
fn cut_command<'a>(alloc: Global) -> Result<Command<'a>, AllocError> {
    let order = path_option(alloc, ORDER).help("The order text that is cut");
    named(
        alloc,
        CUT,
        "Prints what is left of an order that is cut at a message",
        help_texts::CUT,
    )
    .arg(capture_option(alloc))?
    .arg(order)?
    .arg(at_option(alloc))
}

/// The command `front`.
fn front_command<'a>(alloc: Global) -> Result<Command<'a>, AllocError> {
    named(
        alloc,
        FRONT,
        "Writes the capture of the messages before a message",
        help_texts::FRONT,
    )
    .arg(capture_option(alloc))?
    .arg(at_option(alloc))
}

/// The command `migrate`.
fn migrate_command<'a>(alloc: Global) -> Result<Command<'a>, AllocError> {
    named(
        alloc,
        MIGRATE,
        "Writes a capture anew in the format that has times",
        help_texts::MIGRATE,
    )
    .arg(capture_option(alloc))
}

/// The command `watch`.
fn watch_command<'a>(alloc: Global) -> Result<Command<'a>, AllocError> {
    named(
        alloc,
        WATCH,
        "Reads a capture while it is written, and tells its first fault or that it has none",
        help_texts::WATCH,
    )
    .arg(capture_option(alloc))
}

/// The command `show`.
fn show_command<'a>(alloc: Global) -> Result<Command<'a>, AllocError> {
    let shown = named(
        alloc,
        SHOW,
        "Shows the messages of a capture, a line each",
        help_texts::SHOW,
    )
    .arg(capture_option(alloc))?;
    show_flags(alloc, show_choices(alloc, shown)?)
}

/// The command `show`, with the options that choose messages.
fn show_choices<'a>(alloc: Global, shown: Command<'a>) -> Result<Command<'a>, AllocError> {
    shown
        .arg(value_option(alloc, FROM, "N", "The first message that is shown").value_parser(
            value_parser!(u32),
        ))?
        .arg(value_option(alloc, TO, "N", "The last message that is shown").value_parser(
            value_parser!(u32),
        ))?
        .arg(value_option(alloc, NODE, "N", "Messages that name this node or give it").value_parser(
            value_parser!(u64),
        ))?
        .arg(value_option(
            alloc,
            NAME,
            "NAME",
            "Messages with this name, as it is printed between quotes",
        ))?
        .arg(value_option(alloc, OPERATION, "OP", "Messages of this operation").value_parser(
            ValueParser::Names(&OPERATIONS),
        ))
}

/// The command `show`, with the options that say how messages are shown.
fn show_flags<'a>(alloc: Global, shown: Command<'a>) -> Result<Command<'a>, AllocError> {
    shown
        .arg(flag(alloc, UNANSWERED, "Requests that were never answered"))?
        .arg(flag(alloc, WHOLE, "Shorten no name and no data"))?
        .arg(flag(
            alloc,
            SUMMARY,
            "A table of the operations in the place of the messages",
        ))
}

/// The command `explain`.
fn explain_command<'a>(alloc: Global) -> Result<Command<'a>, AllocError> {
    named(
        alloc,
        EXPLAIN,
        "Tells the verdict on an order, and why",
        help_texts::EXPLAIN,
    )
    .arg(capture_option(alloc))?
    .arg(tree_option(alloc))?
    .arg(
        path_option(alloc, ORDER)
            .required(false)
            .help("The order text; without it, the order that is proposed"),
    )
}

/// The command `picture`.
fn picture_command<'a>(alloc: Global) -> Result<Command<'a>, AllocError> {
    let order = path_option(alloc, ORDER)
        .required(false)
        .help("The order text; without it, no order is drawn");
    let drawn = named(
        alloc,
        PICTURE,
        "Draws the requests of a capture, as SVG",
        help_texts::PICTURE,
    )
    .arg(capture_option(alloc))?
    .arg(tree_option(alloc).requires_arg(ORDER)?)?
    .arg(order)?;
    view_options(alloc, drawn)
}

/// The command `report`.
fn report_command<'a>(alloc: Global) -> Result<Command<'a>, AllocError> {
    let order = path_option(alloc, ORDER)
        .required(false)
        .conflicts_with(STEPS)?
        .conflicts_with(PROGRESS)?
        .help("The order text; without it, the capture is judged as by `judge`");
    let reported = search_command(
        alloc,
        REPORT,
        "Writes a verdict with its reasons, a picture and the messages around it, as an HTML page",
        help_texts::REPORT,
    )?
    .arg(order)?;
    view_options(alloc, reported)
}

/// A command with the options that say which messages it has.
fn view_options<'a>(alloc: Global, command: Command<'a>) -> Result<Command<'a>, AllocError> {
    command
        .arg(value_option(
            alloc,
            AROUND,
            "N",
            "The message around which messages are drawn or listed; without it, the one at fault, or else the first request that came while another one waited",
        )
        .value_parser(value_parser!(u32)))?
        .arg(value_option(
            alloc,
            MESSAGES,
            "N",
            "How many messages the picture has, or the table of the page, which adds those that the reasons name",
        )
        .value_parser(value_parser!(u32)))
}

/// The command `help`.
fn help_command<'a>(alloc: Global) -> Result<Command<'a>, AllocError> {
    let topic = Arg::new(alloc, TOPIC).value_name("CODE|COMMAND").help(
        "A code of a line of this program, or a command; without it, the program",
    );
    named(
        alloc,
        HELP,
        "Tells what a code means and what to look at then, or prints this help or that of a command",
        help_texts::HELP,
    )
    .arg(topic)
}

/// The option that names the capture.
fn capture_option<'a>(alloc: Global) -> Arg<'a> {
    path_option(alloc, CAPTURE).help("The recorded traffic; from standard input where FILE is -")
}

/// The option that names the tree text.
fn tree_option<'a>(alloc: Global) -> Arg<'a> {
    path_option(alloc, TREE).required(false).help(
        "The tree text that the server began with; without it, an empty root",
    )
}

/// The option that gives the message at which is cut, from 0 to as many as a capture may have.
fn at_option<'a>(alloc: Global) -> Arg<'a> {
    Arg::new(alloc, AT)
        .long(AT)
        .value_name("N")
        .action(ArgAction::Set)
        .required(true)
        .value_parser(value_parser!(u32).range(..=MAX_MESSAGES as i64))
        .help("The number of that message, counted from 0; as many messages are before it")
}

/// The option by which a search says how far it has come.
fn progress_option<'a>(alloc: Global) -> Arg<'a> {
    Arg::new(alloc, PROGRESS)
        .long(PROGRESS)
        .action(ArgAction::SetTrue)
        .help(
            "Say on standard error how far the search has come, after messages, each 100,000 steps or more",
        )
}

/// The option that gives how many steps a search may spend.
fn steps_option<'a>(alloc: Global) -> Arg<'a> {
    Arg::new(alloc, STEPS)
        .long(STEPS)
        .value_name("N")
        .action(ArgAction::Set)
        .value_parser(value_parser!(u64))
        .help("How many steps may be spent where there is a choice; without it, ten million")
}

/// An option with a value that may be left out. The word behind it is its value, whatever that word begins with.
fn value_option<'a>(alloc: Global, name: &'a str, value: &'a str, help: &'a str) -> Arg<'a> {
    Arg::new(alloc, name)
        .long(name)
        .value_name(value)
        .action(ArgAction::Set)
        .allow_hyphen_values(true)
        .help(help)
}

/// An option without a value.
fn flag<'a>(alloc: Global, name: &'a str, help: &'a str) -> Arg<'a> {
    Arg::new(alloc, name)
        .long(name)
        .action(ArgAction::SetTrue)
        .help(help)
}

/// An option that is needed once. The word behind it is its path, whatever that word begins with.
fn path_option<'a>(alloc: Global, name: &'a str) -> Arg<'a> {
    Arg::new(alloc, name)
        .long(name)
        .value_name("FILE")
        .action(ArgAction::Set)
        .required(true)
        .allow_hyphen_values(true)
}
