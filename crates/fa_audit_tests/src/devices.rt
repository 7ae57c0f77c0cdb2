//! Runs whose inputs come a byte at a time and fail, and whose output breaks.

ghost use Rattle.std.specs.Prelude.{◌≡◌, false};
ghost use Rattle.fa_capture.specs.Device.{device_failed, device_interrupted};

use crate::answers::{ROOT, SECOND, not_found};
use fa_audit::{RunFault, run};
use fa_capture::{Device, Seed};
use fa_tests::devices::BreakingWriter;
use std::alloc::Global;
use std::io;
use std::io::{ErrorKind, Read};

/// A reader that gives a byte a call, and fails at a call.
#[derive(Drop)]
struct FailingReader<'a> {
    left: &'a [u8],
    calls: usize,
    fails_at: usize,
}

impl Read for FailingReader<'_> {
    fn read(&mut self, into: &mut [u8]) -> io::Result<usize> {
        self.calls = self.calls.saturating_add(1);
        if self.calls == self.fails_at {
            return Err(io::Error::from(ErrorKind::Other));
        }
        match (self.left, into) {
            ([first, rest @ ..], [place, ..]) => {
                *place = *first;
                self.left = rest;
                Ok(1)
            }
            _ => Ok(0),
        }
    }
}

/// These bytes, a byte at a time, with a fault at a call; at 0 there is none.
fn failing<'a>(left: &'a [u8], fails_at: usize) -> Device<FailingReader<'a>>
    ensures failed { device_failed result ≡ false }
    ensures interrupted { device_interrupted result ≡ false }
{
    Device::new(FailingReader {
        left,
        calls: 0,
        fails_at,
    })
}

/// The status of an audit of a capture, a tree and an order, and how many bytes it writes, where their readings fail at these calls.
fn audited<'x>(
    alloc: Global,
    texts: (&'x [u8], &'x [u8], &'x [u8]),
    fails_at: (usize, usize, usize),
) -> (Result<u8, RunFault>, usize) {
    let (capture, tree, order) = texts;
    let mut capture = failing(capture, fails_at.0);
    let mut tree = failing(tree, fails_at.1);
    let mut order = failing(order, fails_at.2);
    let mut written = Vec::new(alloc);
    let status = run(
        alloc,
        Seed::default(),
        &mut capture,
        Some(&mut tree),
        &mut order,
        &mut Device::new(&mut written),
    );
    (status, written.len())
}

/// The calls that a reading makes: one for each byte, and one for the end.
const OF_CAPTURE: usize = 223;

const OF_TREE: usize = 26;

const OF_ORDER: usize = 20;

#[test]
fn inputs_that_fail_at_each_call(rt: HostRuntime) {
    let alloc = rt.alloc();
    let capture = not_found(alloc).capture().expect(&rt, "memory");
    let texts = (capture.as_slice(), ROOT, SECOND);
    let failed = (Err(RunFault::Read), 0);
    let legal = (Ok(0), b"legal: 4 messages, 1 placed, 0 left out\n".len());
    for call in 1..=OF_CAPTURE {
        assert_eq!(rt;
            audited(alloc, texts, (call, 0, 0)),
            failed,
            "at call {call}"
        );
    }
    for call in 1..=OF_TREE {
        assert_eq!(rt;
            audited(alloc, texts, (0, call, 0)),
            failed,
            "at call {call}"
        );
    }
    for call in 1..=OF_ORDER {
        assert_eq!(rt;
            audited(alloc, texts, (0, 0, call)),
            failed,
            "at call {call}"
        );
    }
    let behind = (OF_CAPTURE + 1, OF_TREE + 1, OF_ORDER + 1);
    assert_eq!(rt; audited(alloc, texts, behind), legal);
}

#[test]
fn an_output_that_breaks_at_each_call(rt: HostRuntime) {
    let alloc = rt.alloc();
    let capture = not_found(alloc).capture().expect(&rt, "memory");
    // The line has 40 bytes, which take ten calls of four, and the flush is the eleventh.
    for breaks_at in 1..=12 {
        let mut out = Device::new(BreakingWriter {
            calls: 0,
            breaks_at,
        });
        let expected = if breaks_at < 12 {
            Err(RunFault::Write)
        } else {
            Ok(0)
        };
        let status = run(
            alloc,
            Seed::default(),
            &mut Device::new(capture.as_slice()),
            Some(&mut Device::new(ROOT)),
            &mut Device::new(SECOND),
            &mut out,
        );
        assert_eq!(rt; status, expected, "at call {breaks_at}");
    }
}
