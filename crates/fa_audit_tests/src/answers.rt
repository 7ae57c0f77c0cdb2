//! Answers on bytes, and the lines that tell them.

ghost use Rattle.std.specs.Prelude.{◌<◌};

use fa_audit::{
    AuditError, Budget, CutError, Judgement, Searched, StartError, audit, audit_capture, cut_order,
    judge_capture, judgement_text, order_fault_text, proposal, search_order, tree_fault_text,
    verdict_text,
};
use fa_bodies::ROOT_ID;
use fa_bodies::errno::ENOENT;
use fa_capture::Feed;
use fa_check::Verdict;
use fa_sample::Sample;
use std::alloc::Global;

/// An order text of the message 2 alone, and one of no entry.
pub const SECOND: &[u8] = b"fuse-order 1\n2\nend\n";

pub const NONE: &[u8] = b"fuse-order 1\nend\n";

/// A tree text of an empty root.
pub const ROOT: &[u8] = b"fuse-tree 1\nroot 755\nend\n";

/// A text whose third line is neither an entry nor the end of an order, and one whose third line has a slash in a name that has no
/// directory.
pub const NO_ORDER: &[u8] = b"fuse-order 1\n2\n";

pub const NO_TREE: &[u8] = b"fuse-tree 1\nroot 755\nf 644 x/y -\nend\n";

/// INIT, its answer, and a LOOKUP that finds nothing.
pub fn not_found(alloc: Global) -> Sample {
    Sample::new(alloc)
        .init(2)
        .init_answer(2)
        .lookup(4, ROOT_ID, b"a")
        .error(4, ENOENT)
}

const LEGAL: Verdict = Verdict::Legal {
    messages: 4,
    placed: 1,
    left: 0,
};

const NOT_SHOWN: Verdict = Verdict::NotShown {
    entry: 0,
    at: 2,
    code: 73,
};

const FAULT: Verdict = Verdict::Fault { at: 0, code: 1 };

#[test]
fn audit_answers(rt: HostRuntime) {
    let alloc = rt.alloc();
    let capture = not_found(alloc).capture().expect(&rt, "memory");
    assert_eq!(rt; audit(alloc, &capture, None, SECOND), Ok(LEGAL));
    assert_eq!(rt; audit(alloc, &capture, Some(ROOT), NONE), Ok(NOT_SHOWN));
    assert_eq!(rt; audit(alloc, b"FUSE", None, NONE), Ok(FAULT));
    assert_eq!(rt;
        audit(alloc, &capture, Some(NO_TREE), NO_ORDER),
        Err(AuditError::TreeText { line: 3 })
    );
    assert_eq!(rt;
        audit(alloc, &capture, None, NO_ORDER),
        Err(AuditError::OrderText { line: 3 })
    );
}

/// What is told of a capture that comes in pieces of this size, with the order of the message 2. None where memory was refused.
fn told_of_pieces(alloc: Global, bytes: &[u8], size: usize) -> Option<Result<Verdict, AuditError>>
    requires { 0 < size }
{
    let mut feed = Feed::new(alloc);
    let mut is_fed = true;
    for piece in bytes.chunks(size) {
        is_fed = is_fed && feed.feed(piece).is_ok();
    }
    let stored = feed.finish();
    let told = audit_capture(alloc, &stored.capture(), None, SECOND);
    drop(stored);
    if is_fed { Some(told) } else { None }
}

#[test]
fn a_capture_in_pieces_of_each_size(rt: HostRuntime) {
    let alloc = rt.alloc();
    let capture = not_found(alloc).capture().expect(&rt, "memory");
    assert_eq!(rt; capture.len(), 222);
    for size in 1..=222 {
        assert_eq!(rt;
            told_of_pieces(alloc, &capture, size),
            Some(Ok(LEGAL)),
            "pieces of {size}"
        );
    }
}

/// The greatest length of what is left of a capture, and the verdict on it.
type Cut = (usize, Verdict);

/// INIT, its answer, a LOOKUP and its answer, cut to its first bytes, with the order of the message 2.
static CUT: [Cut; 10] = [
    (7, FAULT),
    (8, NO_TREE_REQUEST),
    (68, Verdict::Fault { at: 0, code: 2 }),
    (69, NO_TREE_REQUEST),
    (153, Verdict::Fault { at: 1, code: 2 }),
    (154, NO_TREE_REQUEST),
    (200, Verdict::Fault { at: 2, code: 2 }),
    (201, NOT_ALLOWED),
    (221, Verdict::Fault { at: 3, code: 2 }),
    (222, LEGAL),
];

const NO_TREE_REQUEST: Verdict = Verdict::NotShown {
    entry: 0,
    at: 2,
    code: 70,
};

const NOT_ALLOWED: Verdict = Verdict::NotShown {
    entry: 0,
    at: 2,
    code: 74,
};

#[test]
fn a_capture_cut_to_each_length(rt: HostRuntime) {
    let alloc = rt.alloc();
    let capture = not_found(alloc).capture().expect(&rt, "memory");
    for length in 0..=222 {
        let left = capture.get(..length).expect(&rt, "so many bytes");
        let expected = CUT.iter().find(|(most, _)| length <= *most);
        let told = audit(alloc, left, None, SECOND);
        assert!(rt;
            expected.is_some_and(|(_, verdict)| told == Ok(*verdict)),
            "the first {length} bytes"
        );
    }
}

#[test]
fn texts_of_answers(rt: HostRuntime) {
    let alloc = rt.alloc();
    let line = verdict_text(alloc, &LEGAL).expect(&rt, "memory");
    assert_eq!(rt; line.as_str(), "legal: 4 messages, 1 placed, 0 left out");
    let line = tree_fault_text(alloc, 3).expect(&rt, "memory");
    assert_eq!(rt; line.as_str(), "tree: line 3: code 61: not a tree text");
    let line = order_fault_text(alloc, 3).expect(&rt, "memory");
    assert_eq!(rt; line.as_str(), "order: line 3: code 60: not an order text");
}

#[test]
fn orders_that_are_proposed_or_cut(rt: HostRuntime) {
    let alloc = rt.alloc();
    let capture = not_found(alloc).capture().expect(&rt, "memory");
    let order = proposal(alloc, &capture, Some(ROOT)).expect(&rt, "an order");
    assert_eq!(rt; order.as_slice(), SECOND);
    let left = cut_order(alloc, &capture, SECOND, 3).expect(&rt, "an order");
    assert_eq!(rt; left.as_slice(), NONE);
    assert!(rt;
        matches!(
            proposal(alloc, b"FUSE", None),
            Err(StartError::Fault { at: 0, code: 1 })
        )
    );
    assert!(rt;
        matches!(
            cut_order(alloc, &capture, NO_ORDER, 3),
            Err(CutError::OrderText { line: 3 })
        )
    );
}

/// Whether this is the text of the order that was found.
fn is_order(searched: &Result<Searched, StartError>, text: &[u8]) -> bool {
    match searched {
        Ok(Searched::Order(order)) => order.as_slice() == text,
        _ => false,
    }
}

#[test]
fn what_is_judged_by_a_search(rt: HostRuntime) {
    let alloc = rt.alloc();
    let capture = not_found(alloc).capture().expect(&rt, "memory");
    let legal = Judgement::Legal {
        messages: 4,
        placed: 1,
        left: 0,
    };
    let judgement = judge_capture(alloc, &capture, None, Budget::default());
    assert_eq!(rt; judgement, Ok(legal));
    let searched = search_order(alloc, &capture, Some(ROOT), Budget::default());
    assert!(rt; is_order(&searched, SECOND));
    for (judgement, text) in [
        (legal, "legal: 4 messages, 1 placed, 0 left out"),
        (
            Judgement::NoOrder {
                at: 9,
                code: 85,
                shortest: Some(10),
            },
            "no order: message 9: code 85: bytes read",
        ),
        (Judgement::GaveUp { at: 7 }, "gave up: message 7"),
    ] {
        let line = judgement_text(alloc, &judgement).expect(&rt, "memory");
        assert_eq!(rt; line.as_str(), text);
    }
}
