//! The lines of the rules that answers break.

use crate::causes::{About, Rule, cause};
use crate::wording::{self, error_name};
use fa_bodies::errno::{EEXIST, EISDIR, ENOENT, ENOTDIR, ENOTEMPTY};
use fa_ledger::Outcome;
use fa_refusal::Case;
use fa_show::Text;

/// The rule of attributes.
pub(crate) const ATTRIBUTES: &str =
    "a success tells the file as the request leaves it: type, permission bits, size if it is regular, links unless it is a directory";
/// That of attributes in the entries of a READDIRPLUS.
pub(crate) const ENTRY_TYPES: &str = "the type in the attributes of an entry is that of the file";
/// The rule of nodes.
pub(crate) const NODES: &str = "a node that was given and not forgotten stands for one file";
/// The rule of READLINK.
pub(crate) const TARGETS: &str = "READLINK gives the target";
/// The rule of READ.
pub(crate) const BYTES: &str =
    "READ gives the bytes from the offset on, as many as asked, and fewer only at the end";
/// What is added to it for direct input and output.
pub(crate) const DIRECT: &str = ", or any front of them, as the handle has FOPEN_DIRECT_IO";
/// The rule of listings.
pub(crate) const LISTINGS: &str =
    "each name that stayed in the directory since the opening is listed once, and none that was at no time in it since then";

/// The rule of sizes, for a success of GETATTR and SETATTR.
const SIZES: &str = "a size is set of a regular file alone";

/// What is said of an error that no tree gives a cause for.
const NEVER_ANSWERED: &str = " is never answered ";

/// The errors that a tree determines, in the order in which they are told.
pub(crate) static DETERMINED: [i32; 5] = [ENOENT, EEXIST, ENOTDIR, EISDIR, ENOTEMPTY];

/// Writes the line of a rule.
pub(crate) fn rule_line(text: &mut Text, rule: &str) {
    text.word("rule     ");
    text.word(rule);
    text.end_line();
}

/// Writes what a success of a request needs.
pub(crate) fn success_line(text: &mut Text, case: &Case<'_>) {
    let Some(needs) = Rule::of(case).success else {
        return rule_line(text, SIZES);
    };
    text.word("rule     ");
    operation(text, case);
    text.word(needs);
    text.end_line();
}

/// Writes where an error may be answered to a request: what its cause is about, if it may have one.
pub(crate) fn error_line(text: &mut Text, case: &Case<'_>, error: i32) -> Option<About> {
    text.word("rule     ");
    let about = match cause(case, error) {
        Some((place, about)) => {
            answered(text, case, " may be answered ", error);
            text.word(" only where ");
            text.word(place);
            Some(about)
        }
        None => {
            answered(text, case, NEVER_ANSWERED, error);
            None
        }
    };
    text.end_line();
    about
}

/// Writes the operation of a request, a word, and behind it an error.
fn answered(text: &mut Text, case: &Case<'_>, word: &str, error: i32) {
    operation(text, case);
    text.word(word);
    text.word(error_name(error));
}

/// The error that was answered to a request, if no tree gives a cause for it. Asked where a tree refuses the answer: there it is none that
/// may always be answered.
pub(crate) fn never_answered(case: &Case<'_>) -> Option<i32> {
    match case.operation.ended() {
        Outcome::Fails(error) => match cause(case, error) {
            Some(_) => None,
            None => Some(error),
        },
        _ => None,
    }
}

/// Writes that no order explains an error to a request, since none has a cause for it; and what to look at then.
pub(crate) fn never_lines(text: &mut Text, case: &Case<'_>, error: i32) {
    text.word("order    no order explains it: ");
    answered(text, case, NEVER_ANSWERED, error);
    text.end_line();
    never_look_line(text, case, error);
}

/// Writes what to look at where no tree gives a cause for an error to a request.
pub(crate) fn never_look_line(text: &mut Text, case: &Case<'_>, error: i32) {
    text.word("look at  Where the server answers ");
    answered(text, case, " with ", error);
    text.word(": another error was meant, or the request was taken for another.");
    text.end_line();
}

/// Writes the operation of a request, of a RENAME with its flags.
fn operation(text: &mut Text, case: &Case<'_>) {
    match Rule::of(case).name {
        Some(name) => text.word(name),
        None => wording::operation(text, case),
    }
}
