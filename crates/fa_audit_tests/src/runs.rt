//! Runs over memory: what is read and written.

ghost use Rattle.std.specs.Prelude.{◌≡◌, false, IfSome};
ghost use Rattle.fa_capture.specs.Device.{device_failed, device_interrupted};

use crate::answers::{NO_ORDER, NO_TREE, NONE, ROOT, SECOND, not_found};
use fa_audit::{
    Budget, Nobody, RunFault, run, run_cut, run_front, run_judge, run_judge_and_keep, run_migrate,
    run_propose, run_search, run_watch,
};
use fa_capture::{Device, Output, Seed};
use fa_reasons::{
    OrderPage, ReportView, View, run_explain, run_explained_judge, run_explained_judge_and_keep,
    run_order_page, run_report,
};
use std::alloc::Global;

/// A call of the program.
#[derive(Clone, Copy)]
enum Call {
    Check,
    Propose,
    Search,
    Judge,
    /// The order that is kept is written behind the lines.
    JudgeAndKeep,
    Cut(u32),
    Front(u32),
    Watch,
    Explain,
    ExplainProposal,
    ExplainedJudge,
    /// The order that is kept is written behind the lines.
    ExplainedJudgeAndKeep,
    OrderPicture,
    Report,
}

/// A call, a tree text, if one is handed in, an order text, the status, and what is written, all of a LOOKUP that finds nothing.
type Row = (
    Call,
    Option<&'static [u8]>,
    &'static [u8],
    u8,
    &'static [u8],
);

static ROWS: [Row; 24] = [
    (
        Call::Check,
        None,
        SECOND,
        0,
        b"legal: 4 messages, 1 placed, 0 left out\n",
    ),
    (
        Call::Check,
        Some(ROOT),
        NONE,
        2,
        b"not shown: entry 0: message 2: code 73: answered request left out\n",
    ),
    (
        Call::Check,
        Some(NO_TREE),
        NO_ORDER,
        3,
        b"tree: line 3: code 61: not a tree text\n",
    ),
    (
        Call::Check,
        None,
        NO_ORDER,
        3,
        b"order: line 3: code 60: not an order text\n",
    ),
    (Call::Propose, Some(ROOT), NONE, 0, SECOND),
    (Call::Propose, None, NONE, 0, SECOND),
    (Call::Search, Some(ROOT), NONE, 0, SECOND),
    (
        Call::Judge,
        None,
        NONE,
        0,
        b"legal: 4 messages, 1 placed, 0 left out\n",
    ),
    (
        Call::Judge,
        Some(NO_TREE),
        NONE,
        3,
        b"tree: line 3: code 61: not a tree text\n",
    ),
    (Call::JudgeAndKeep, None, NONE, 0, LEGAL_AND_ORDER),
    (
        Call::JudgeAndKeep,
        Some(NO_TREE),
        NONE,
        3,
        b"tree: line 3: code 61: not a tree text\n",
    ),
    (Call::Cut(3), None, SECOND, 0, NONE),
    (Call::Cut(4), None, SECOND, 0, SECOND),
    (Call::Front(0), None, NONE, 0, b"FUSECAP1"),
    (Call::Watch, None, NONE, 0, b"good: 4 messages\n"),
    (Call::Explain, Some(ROOT), NONE, 2, LEFT_OUT),
    (Call::Explain, None, NO_ORDER, 3, AFTER_THE_END),
    (
        Call::ExplainProposal,
        None,
        NO_ORDER,
        0,
        b"legal: 4 messages, 1 placed, 0 left out\n",
    ),
    (
        Call::ExplainedJudge,
        Some(ROOT),
        NONE,
        0,
        b"legal: 4 messages, 1 placed, 0 left out\n",
    ),
    (Call::ExplainedJudge, Some(NO_TREE), NONE, 3, SLASH),
    (
        Call::ExplainedJudgeAndKeep,
        Some(ROOT),
        NONE,
        0,
        LEGAL_AND_ORDER,
    ),
    (Call::ExplainedJudgeAndKeep, Some(NO_TREE), NONE, 3, SLASH),
    (Call::OrderPicture, None, NO_ORDER, 3, AFTER_THE_END),
    (Call::Report, Some(NO_TREE), NONE, 3, SLASH),
];

/// The line that the capture is legal, and behind it the text of its order, which is kept.
const LEGAL_AND_ORDER: &[u8] = b"\
legal: 4 messages, 1 placed, 0 left out
fuse-order 1
2
end
";

/// Why the order of no entry explains nothing.
const LEFT_OUT: &[u8] = b"\
not shown: entry 0: message 2: code 73: answered request left out
request  2 > unique 4 LOOKUP node 1 \"a\"
answer   3 < unique 4 ENOENT
next     as entry 0 it fits: the order only leaves it out
look at  Each answered request that acts on the tree stands in an order, one that was answered with an error too.
";

/// Why the order text that ends without `end` is none.
const AFTER_THE_END: &[u8] = b"\
order: line 3: code 60: not an order text
line     \"\", where the text ends
because  the text ends without the line `end`
look at  A carriage return, a blank or an empty line, a number with a sign or a zero in front or above 4,294,967,295, another first line than `fuse-order 1`, or something behind `end`, which needs its line feed. `fa_audit propose` writes texts that fit.
";

/// Why the tree text that has a slash in a name is none.
const SLASH: &[u8] = b"\
tree: line 3: code 61: not a tree text
line     \"f 644 x/y -\"
because  no line before it begins with d and has the path \"x\"
look at  A path before its directory or twice, a blank in a name that is not spelled %20, permission bits that are not three octal digits, a carriage return, or no line `end`. `fuse-tree` writes texts that fit.
";

/// A text that may be handed in, as an input.
fn input_of(text: Option<&[u8]>) -> Option<Device<&[u8]>>
    ensures unfailed { IfSome result (λ device. device_failed device ≡ false) }
    ensures uninterrupted { IfSome result (λ device. device_interrupted device ≡ false) }
{
    match text {
        Some(text) => Some(Device::new(text)),
        None => None,
    }
}

/// Makes a call over memory.
fn made<'x, W: Output>(
    alloc: Global,
    call: Call,
    texts: (&'x [u8], Option<&'x [u8]>, &'x [u8]),
    out: &mut W,
) -> Result<u8, RunFault>
    requires unbroken { W.is_broken out.old ≡ false }
{
    let (capture, tree, order) = texts;
    let mut capture = Device::new(capture);
    let mut tree = input_of(tree);
    let mut order = Device::new(order);
    let seed = Seed::new(1);
    match call {
        Call::Check => run(alloc, seed, &mut capture, tree.as_mut(), &mut order, out),
        Call::Propose => run_propose(alloc, seed, &mut capture, tree.as_mut(), out),
        Call::Search => {
            let budget = Budget::default();
            run_search(
                alloc,
                seed,
                &mut capture,
                tree.as_mut(),
                budget,
                &mut Nobody,
                out,
            )
        }
        Call::Judge => {
            let budget = Budget::default();
            run_judge(
                alloc,
                seed,
                &mut capture,
                tree.as_mut(),
                budget,
                &mut Nobody,
                out,
            )
        }
        Call::JudgeAndKeep => {
            let budget = Budget::default();
            let mut kept = Vec::new(alloc);
            let answer = run_judge_and_keep(
                alloc,
                seed,
                &mut capture,
                tree.as_mut(),
                budget,
                &mut Nobody,
                &mut Device::new(&mut kept),
                out,
            )?;
            out.put(&kept)?;
            Ok(answer)
        }
        Call::Cut(at) => run_cut(alloc, seed, &mut capture, &mut order, at, out),
        Call::Front(at) => run_front(alloc, &mut capture, at, out),
        Call::Watch => run_watch(alloc, seed, &mut capture, out),
        Call::Explain => {
            let mut order = Some(order);
            run_explain(
                alloc,
                seed,
                &mut capture,
                tree.as_mut(),
                order.as_mut(),
                out,
            )
        }
        Call::ExplainProposal => run_explain(alloc, seed, &mut capture, tree.as_mut(), None, out),
        Call::ExplainedJudge => {
            let budget = Budget::default();
            run_explained_judge(
                alloc,
                seed,
                &mut capture,
                tree.as_mut(),
                budget,
                &mut Nobody,
                out,
            )
        }
        Call::ExplainedJudgeAndKeep => {
            let budget = Budget::default();
            let mut kept = Vec::new(alloc);
            let answer = run_explained_judge_and_keep(
                alloc,
                seed,
                &mut capture,
                tree.as_mut(),
                budget,
                &mut Nobody,
                &mut Device::new(&mut kept),
                out,
            )?;
            out.put(&kept)?;
            Ok(answer)
        }
        Call::OrderPicture => {
            let page = OrderPage::Picture(View::new());
            run_order_page(
                alloc,
                seed,
                &mut capture,
                tree.as_mut(),
                &mut order,
                &page,
                out,
            )
        }
        Call::Report => {
            let budget = Budget::default();
            let shown = ReportView {
                source: "a.cap",
                messages: View::new(),
            };
            run_report(
                alloc,
                seed,
                &mut capture,
                tree.as_mut(),
                budget,
                &mut Nobody,
                shown,
                out,
            )
        }
    }
}

/// Whether a row holds. None where memory was refused.
fn holds(alloc: Global, capture: &[u8], row: &Row) -> Option<bool> {
    let (call, tree, order, status, expected) = row;
    let mut written = Vec::new(alloc);
    let mut out = Device::new(&mut written);
    let answer = made(alloc, *call, (capture, *tree, order), &mut out);
    match answer {
        Ok(answer) => Some(answer == *status && written.as_slice() == *expected),
        Err(_) => None,
    }
}

/// A capture, the status of its migration, and what that writes.
static MIGRATED: [(&[u8], u8, &[u8]); 3] = [
    (
        b"FUSECAP1\x01\x01\x00\x00\x00a",
        0,
        b"FUSECAP2\x01\x00\x00\x00\x00\x00\x00\x00\x00\x01\x00\x00\x00a",
    ),
    (b"FUSECAP2", 0, b"FUSECAP2"),
    (
        b"FUSECAP1\x02",
        1,
        b"fault: message 0: code 3: direction byte\n",
    ),
];

/// What is written where a capture is migrated, with the status. None where memory was refused.
fn migration(alloc: Global, capture: &[u8]) -> Option<(u8, Vec<u8>)> {
    let mut written = Vec::new(alloc);
    let status = run_migrate(
        alloc,
        &mut Device::new(capture),
        &mut Device::new(&mut written),
    );
    Some((status.ok()?, written))
}

#[test]
fn migrations_over_memory(rt: HostRuntime) {
    for (capture, status, text) in &MIGRATED {
        let (answer, written) = migration(rt.alloc(), capture).expect(&rt, "memory");
        assert!(rt;
            answer == *status && written.as_slice() == *text,
            "{capture:?}"
        );
    }
}

#[test]
fn calls_over_memory(rt: HostRuntime) {
    let alloc = rt.alloc();
    let capture = not_found(alloc).capture().expect(&rt, "memory");
    let wrong = ROWS
        .iter()
        .position(|row| holds(alloc, &capture, row) != Some(true));
    assert_eq!(rt; wrong, None);
}

/// An ordinary run has ample memory: `bench/refused` refuses each allocation in turn, which shows what is written without it:
/// nothing else.
#[test]
fn want_of_memory_tells_nothing_else(rt: HostRuntime) {
    let alloc = rt.alloc();
    if let Ok(capture) = not_found(alloc).capture() {
        assert!(rt;
            ROWS.iter()
                .all(|row| holds(alloc, &capture, row) != Some(false))
        );
    }
}

#[test]
fn output_without_room_is_a_write_fault(rt: HostRuntime) {
    let alloc = rt.alloc();
    let capture = not_found(alloc).capture().expect(&rt, "memory");
    let mut room = [0; 8];
    let mut out = Device::new(&mut room[..]);
    let answer = made(alloc, Call::Check, (&capture, None, SECOND), &mut out);
    assert_eq!(rt; answer, Err(RunFault::Write));
}
