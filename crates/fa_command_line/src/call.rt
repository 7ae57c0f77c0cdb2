//! What the words call: a command with its files and numbers.

ghost use Rattle.std.specs.Prelude.{codes, IfSome, IsNone};
ghost use Rattle.fa_command_line.specs.CommandLine.{IsCheckOf, IsProposeOf, IsSearchCallOf, IsNoSearchCall, IsJudgeOf, IsCutOf, IsFrontCallOf, IsMigrateCallOf, IsWatchOf, IsShowOf, IsExplainOf, IsPageCallOf, IsReportOf, IsHelpOf, IsCallOf, IsNoCheck, IsNoPropose, IsNoCutCall, IsNoFrontCall, IsNoMigrateCall, IsNoWatch, IsNoShow, IsNoExplain, IsNoPageCall, IsNoReport, IsNoHelp};

use crate::names::{
    AROUND, AT, CAPTURE, CHECK, CUT, EXPLAIN, FROM, FRONT, HELP, JUDGE, MESSAGES, MIGRATE, NAME,
    NODE, OPERATION, ORDER, ORDER_OUT, PICTURE, PROGRESS, PROPOSE, REPORT, SEARCH, SHOW, STEPS,
    SUMMARY, TO, TOPIC, TREE, UNANSWERED, WATCH, WHOLE,
};
use crate::number::{number, number_if_any, wide_number_if_any};
use clap::ArgMatches;
use fa_show::Choice;

/// The files of a call of `check`.
#[derive(Clone, Copy, Debug)]
pub struct CheckPaths<'a> {
    /// That of the capture.
    pub capture: &'a str,
    /// None where the tree begins as an empty root.
    pub tree: Option<&'a str>,
    /// That of the order text.
    pub order: &'a str,
}

impl<'a> CheckPaths<'a> {
    /// The files that a parse of the [`command_line`](crate::command_line) found; there are none
    /// only where the words were no call of `check`.
    pub fn new(matches: &ArgMatches<'a>) -> Option<Self>
        ensures found { IfSome result (IsCheckOf matches.now) }
        ensures none { IsNone result → IsNoCheck matches.now }
    {
        let options = matches.subcommand_matches(CHECK)?;
        Some(CheckPaths {
            capture: options.get_str(CAPTURE)?,
            tree: options.get_str(TREE),
            order: options.get_str(ORDER)?,
        })
    }
}

/// The files of a call of `propose`.
#[derive(Clone, Copy, Debug)]
pub struct ProposePaths<'a> {
    /// That of the capture.
    pub capture: &'a str,
    /// None where the tree begins as an empty root.
    pub tree: Option<&'a str>,
}

impl<'a> ProposePaths<'a> {
    /// The files that a parse of the [`command_line`](crate::command_line) found; there are none
    /// only where the words were no call of `propose`.
    pub fn new(matches: &ArgMatches<'a>) -> Option<Self>
        ensures found { IfSome result (IsProposeOf matches.now) }
        ensures none { IsNone result → IsNoPropose matches.now }
    {
        let options = matches.subcommand_matches(PROPOSE)?;
        let capture = options.get_str(CAPTURE)?;
        let tree = options.get_str(TREE);
        Some(ProposePaths { capture, tree })
    }
}

/// The files of a call of `search` or of `judge`, and how many steps it may spend.
#[derive(Clone, Copy, Debug)]
pub struct SearchPaths<'a> {
    /// That of the capture.
    pub capture: &'a str,
    /// None where the tree begins as an empty root.
    pub tree: Option<&'a str>,
    /// None where the words do not say it.
    pub steps: Option<u64>,
    /// Whether standard error is to say how far the search has come.
    pub progress: bool,
}

impl<'a> SearchPaths<'a> {
    /// What a parse of the [`command_line`](crate::command_line) found for this one of both commands; there is nothing
    /// only where the words were no call of it.
    pub fn new(matches: &ArgMatches<'a>, name: &str) -> Option<Self>
        ensures found { IfSome result (IsSearchCallOf name.now matches.now) }
        ensures none { IsNone result → IsNoSearchCall name.now matches.now }
    {
        let options = matches.subcommand_matches(name)?;
        let path = options.get_str(CAPTURE)?;
        let tree = options.get_str(TREE);
        let steps = wide_number_if_any(options.get_str(STEPS))?;
        let progress = options.get_flag(PROGRESS);
        Some(SearchPaths {
            capture: path,
            tree,
            steps,
            progress,
        })
    }
}

/// A call of `judge`: its files and steps, whether it is to say why, and where the order is to be kept, if it is.
#[derive(Clone, Copy, Debug)]
pub struct JudgePaths<'a> {
    /// The files and the steps.
    pub paths: SearchPaths<'a>,
    /// Whether the reasons are to be told too.
    pub explained: bool,
    /// The file for the order that is found; none where it is not to be kept.
    pub order_out: Option<&'a str>,
}

impl<'a> JudgePaths<'a> {
    /// What a parse of the [`command_line`](crate::command_line) found; there is nothing only where the words were no call of `judge`.
    pub fn new(matches: &ArgMatches<'a>) -> Option<Self>
        ensures found { IfSome result (IsJudgeOf matches.now) }
        ensures none { IsNone result → IsNoSearchCall (codes "judge") matches.now }
    {
        let paths = SearchPaths::new(matches, JUDGE)?;
        let options = matches.subcommand_matches(JUDGE)?;
        let explained = options.get_flag(EXPLAIN);
        let order_out = options.get_str(ORDER_OUT);
        Some(JudgePaths {
            paths,
            explained,
            order_out,
        })
    }
}

/// The files of a call of `cut`, and where the order is cut.
#[derive(Clone, Copy, Debug)]
pub struct CutPaths<'a> {
    /// That of the capture.
    pub capture: &'a str,
    /// That of the order text.
    pub order: &'a str,
    /// The message before which it is cut.
    pub at: u32,
}

impl<'a> CutPaths<'a> {
    /// What a parse of the [`command_line`](crate::command_line) found; there is nothing only where the words were no call of `cut`.
    pub fn new(matches: &ArgMatches<'a>) -> Option<Self>
        ensures found { IfSome result (IsCutOf matches.now) }
        ensures none { IsNone result → IsNoCutCall matches.now }
    {
        let options = matches.subcommand_matches(CUT)?;
        Some(CutPaths {
            capture: options.get_str(CAPTURE)?,
            order: options.get_str(ORDER)?,
            at: number(options.get_str(AT)?)?,
        })
    }
}

/// The file of a call of `front`, and where the capture is cut.
#[derive(Clone, Copy, Debug)]
pub struct FrontPaths<'a> {
    /// That of the capture.
    pub capture: &'a str,
    /// The message before which it is cut.
    pub at: u32,
}

impl<'a> FrontPaths<'a> {
    /// What a parse of the [`command_line`](crate::command_line) found; there is nothing only where the words were no call of `front`.
    pub fn new(matches: &ArgMatches<'a>) -> Option<Self>
        ensures found { IfSome result (IsFrontCallOf matches.now) }
        ensures none { IsNone result → IsNoFrontCall matches.now }
    {
        let options = matches.subcommand_matches(FRONT)?;
        Some(FrontPaths {
            capture: options.get_str(CAPTURE)?,
            at: number(options.get_str(AT)?)?,
        })
    }
}

/// The file of a call of `migrate`.
#[derive(Clone, Copy, Debug)]
pub struct MigratePaths<'a> {
    /// That of the capture.
    pub capture: &'a str,
}

impl<'a> MigratePaths<'a> {
    /// What a parse of the [`command_line`](crate::command_line) found; there is nothing only where the words were no call of `migrate`.
    pub fn new(matches: &ArgMatches<'a>) -> Option<Self>
        ensures found { IfSome result (IsMigrateCallOf matches.now) }
        ensures none { IsNone result → IsNoMigrateCall matches.now }
    {
        let options = matches.subcommand_matches(MIGRATE)?;
        Some(MigratePaths {
            capture: options.get_str(CAPTURE)?,
        })
    }
}

/// The file of a call of `watch`.
#[derive(Clone, Copy, Debug)]
pub struct WatchPaths<'a> {
    /// That of the capture.
    pub capture: &'a str,
}

impl<'a> WatchPaths<'a> {
    /// What a parse of the [`command_line`](crate::command_line) found; there is nothing only where the words were no call of `watch`.
    pub fn new(matches: &ArgMatches<'a>) -> Option<Self>
        ensures found { IfSome result (IsWatchOf matches.now) }
        ensures none { IsNone result → IsNoWatch matches.now }
    {
        let options = matches.subcommand_matches(WATCH)?;
        Some(WatchPaths {
            capture: options.get_str(CAPTURE)?,
        })
    }
}

/// The file of a call of `show`, and which of its messages are shown, and how.
#[derive(Clone, Copy, Debug)]
pub struct ShowPaths<'a> {
    /// That of the capture.
    pub capture: &'a str,
    pub choice: Choice<'a>,
}

impl<'a> ShowPaths<'a> {
    /// What a parse of the [`command_line`](crate::command_line) found; there is nothing only where the words were no call of `show`.
    pub fn new(matches: &ArgMatches<'a>) -> Option<Self>
        ensures found { IfSome result (IsShowOf matches.now) }
        ensures none { IsNone result → IsNoShow matches.now }
    {
        let options = matches.subcommand_matches(SHOW)?;
        let path = options.get_str(CAPTURE)?;
        let from = number_if_any(options.get_str(FROM))?;
        let to = number_if_any(options.get_str(TO))?;
        let node = wide_number_if_any(options.get_str(NODE))?;
        let name = options.get_str(NAME);
        let operation = options.get_str(OPERATION);
        let choice = Choice {
            from,
            to,
            node,
            name,
            operation,
            unanswered: options.get_flag(UNANSWERED),
            whole: options.get_flag(WHOLE),
            summary: options.get_flag(SUMMARY),
        };
        Some(ShowPaths {
            capture: path,
            choice,
        })
    }
}

/// The files of a call of `explain`.
#[derive(Clone, Copy, Debug)]
pub struct ExplainPaths<'a> {
    /// That of the capture.
    pub capture: &'a str,
    /// None where the tree begins as an empty root.
    pub tree: Option<&'a str>,
    /// None where the order is the one that is proposed.
    pub order: Option<&'a str>,
}

impl<'a> ExplainPaths<'a> {
    /// What a parse of the [`command_line`](crate::command_line) found; there is nothing only where the words were no call of `explain`.
    pub fn new(matches: &ArgMatches<'a>) -> Option<Self>
        ensures found { IfSome result (IsExplainOf matches.now) }
        ensures none { IsNone result → IsNoExplain matches.now }
    {
        let options = matches.subcommand_matches(EXPLAIN)?;
        let path = options.get_str(CAPTURE)?;
        let tree = options.get_str(TREE);
        let order = options.get_str(ORDER);
        Some(ExplainPaths {
            capture: path,
            tree,
            order,
        })
    }
}

/// The files of a call of `picture` or of `report`, and which messages it has.
#[derive(Clone, Copy, Debug)]
pub struct PagePaths<'a> {
    /// That of the capture.
    pub capture: &'a str,
    /// None where the tree begins as an empty root.
    pub tree: Option<&'a str>,
    /// None where there is no order to judge.
    pub order: Option<&'a str>,
    /// The message around which they are; none where the words do not say it.
    pub around: Option<u32>,
    /// How many they are at most; none where the words do not say it.
    pub messages: Option<u32>,
}

impl<'a> PagePaths<'a> {
    /// What a parse of the [`command_line`](crate::command_line) found for this one of both commands; there is nothing
    /// only where the words were no call of it.
    pub fn new(matches: &ArgMatches<'a>, name: &str) -> Option<Self>
        ensures found { IfSome result (IsPageCallOf name.now matches.now) }
        ensures none { IsNone result → IsNoPageCall name.now matches.now }
    {
        let options = matches.subcommand_matches(name)?;
        let path = options.get_str(CAPTURE)?;
        let tree = options.get_str(TREE);
        let order = options.get_str(ORDER);
        let around = number_if_any(options.get_str(AROUND))?;
        let messages = number_if_any(options.get_str(MESSAGES))?;
        Some(PagePaths {
            capture: path,
            tree,
            order,
            around,
            messages,
        })
    }
}

/// A call of `report`, and how many steps a search may spend where there is no order to judge.
#[derive(Clone, Copy, Debug)]
pub struct ReportPaths<'a> {
    /// The files and the messages.
    pub page: PagePaths<'a>,
    /// None where the words do not say it.
    pub steps: Option<u64>,
    /// Whether standard error is to say how far the search has come.
    pub progress: bool,
}

impl<'a> ReportPaths<'a> {
    /// What a parse of the [`command_line`](crate::command_line) found; there is nothing only where the words were no call of `report`.
    pub fn new(matches: &ArgMatches<'a>) -> Option<Self>
        ensures found { IfSome result (IsReportOf matches.now) }
        ensures none { IsNone result → IsNoReport matches.now }
    {
        let page = PagePaths::new(matches, REPORT)?;
        let options = matches.subcommand_matches(REPORT)?;
        let steps = wide_number_if_any(options.get_str(STEPS))?;
        let progress = options.get_flag(PROGRESS);
        Some(ReportPaths {
            page,
            steps,
            progress,
        })
    }
}

/// The word of a call of `help`.
#[derive(Clone, Copy, Debug)]
pub struct Topic<'a> {
    /// None where help is asked of the program.
    pub word: Option<&'a str>,
}

impl<'a> Topic<'a> {
    /// What a parse of the [`command_line`](crate::command_line) found; there is nothing only where the words were no call of `help`.
    pub fn new(matches: &ArgMatches<'a>) -> Option<Self>
        ensures found { IfSome result (IsHelpOf matches.now) }
        ensures none { IsNone result → IsNoHelp matches.now }
    {
        let options = matches.subcommand_matches(HELP)?;
        let word = options.get_str(TOPIC);
        Some(Topic { word })
    }
}

/// A call of the program, with its files.
#[derive(Clone, Copy, Debug)]
pub enum Call<'a> {
    /// An order is judged.
    Check(CheckPaths<'a>),
    /// One is guessed.
    Propose(ProposePaths<'a>),
    /// One is searched.
    Search(SearchPaths<'a>),
    /// A capture is judged by such a search.
    Judge(JudgePaths<'a>),
    /// An order is cut at a message.
    Cut(CutPaths<'a>),
    /// A capture is cut at a message.
    Front(FrontPaths<'a>),
    /// A capture is written anew with times.
    Migrate(MigratePaths<'a>),
    /// A capture is judged while it is written.
    Watch(WatchPaths<'a>),
    /// Messages are shown.
    Show(ShowPaths<'a>),
    /// A verdict is explained.
    Explain(ExplainPaths<'a>),
    /// A capture is drawn.
    Picture(PagePaths<'a>),
    /// A page is written on one.
    Report(ReportPaths<'a>),
    /// Help is asked of a code, a command or the program.
    Help(Topic<'a>),
}

impl<'a> Call<'a> {
    /// The call that a parse of the [`command_line`](crate::command_line) found; there is none only where the words were no call.
    pub fn new(matches: &ArgMatches<'a>) -> Option<Self>
        ensures found { IfSome result (IsCallOf matches.now) }
        ensures none { IsNone result →
            IsNoCheck matches.now × IsNoPropose matches.now × IsNoSearchCall (codes "search") matches.now
            × IsNoSearchCall (codes "judge") matches.now × IsNoCutCall matches.now × IsNoFrontCall matches.now × IsNoMigrateCall matches.now × IsNoWatch matches.now × IsNoShow matches.now × IsNoExplain matches.now
            × IsNoPageCall (codes "picture") matches.now × IsNoReport matches.now × IsNoHelp matches.now }
    {
        if let Some(paths) = CheckPaths::new(matches) {
            return Some(Call::Check(paths));
        }
        if let Some(paths) = ProposePaths::new(matches) {
            return Some(Call::Propose(paths));
        }
        if let Some(paths) = SearchPaths::new(matches, SEARCH) {
            return Some(Call::Search(paths));
        }
        if let Some(paths) = JudgePaths::new(matches) {
            return Some(Call::Judge(paths));
        }
        if let Some(paths) = CutPaths::new(matches) {
            return Some(Call::Cut(paths));
        }
        if let Some(paths) = FrontPaths::new(matches) {
            return Some(Call::Front(paths));
        }
        if let Some(paths) = MigratePaths::new(matches) {
            return Some(Call::Migrate(paths));
        }
        if let Some(paths) = WatchPaths::new(matches) {
            return Some(Call::Watch(paths));
        }
        if let Some(paths) = ShowPaths::new(matches) {
            return Some(Call::Show(paths));
        }
        if let Some(paths) = ExplainPaths::new(matches) {
            return Some(Call::Explain(paths));
        }
        if let Some(paths) = PagePaths::new(matches, PICTURE) {
            return Some(Call::Picture(paths));
        }
        if let Some(paths) = ReportPaths::new(matches) {
            return Some(Call::Report(paths));
        }
        Some(Call::Help(Topic::new(matches)?))
    }
}
