//! Inputs and outputs: devices over readers and writers that fail, and how often they are called.

ghost use Rattle.std.specs.Prelude.{◌≡◌, false};
ghost use Rattle.fa_capture.specs.Device.{device_failed, device_interrupted};

use crate::devices::{BreakingWriter, SlowReader};
use fa_capture::{
    Broken, CaptureFault, Device, Feed, FeedError, Input, MAX_READ_LIMIT, Output, Pull, ReadError,
    codes, read_all,
};

static TEXT: &[u8; 47] = b"a byte at a time, and interrupted now and then.";

/// The text by a slow reader.
fn slow_text<'a>(calls: &'a mut usize, fails_at: usize) -> Device<SlowReader<'a>>
    ensures failed { device_failed result ≡ false }
    ensures interrupted { device_interrupted result ≡ false }
{
    Device::new(SlowReader {
        left: TEXT,
        calls,
        fails_at,
    })
}

/// An input of so many interruptions and then so many pieces of a size, with the answer `last` from then on, which
/// counts its pulls.
#[derive(Drop)]
struct PlannedInput {
    interruptions: usize,
    pieces: usize,
    size: usize,
    last: Pull,
    pulls: usize,
    failed: bool,
    interrupted: bool,
}

impl PlannedInput {
    /// The answer to the next pull.
    fn planned(&self) -> Pull {
        if self.pulls <= self.interruptions {
            Pull::Interrupted
        } else if self.pulls <= self.interruptions.saturating_add(self.pieces) {
            Pull::Got(self.size)
        } else {
            self.last
        }
    }
}

impl Input for PlannedInput {
    ghost has_failed = { λ n. n.failed };

    ghost was_interrupted = { λ n. n.interrupted };

    fn pull(&mut self, into: &mut [u8]) -> Pull {
        self.pulls = self.pulls.saturating_add(1);
        match self.planned() {
            Pull::Got(count) => Pull::Got(count.min(into.len())),
            Pull::Interrupted => {
                self.interrupted = true;
                Pull::Interrupted
            }
            Pull::Failed => {
                self.failed = true;
                Pull::Failed
            }
        }
    }

    fn failed(&self) -> bool {
        self.failed
    }

    fn interrupted(&self) -> bool {
        self.interrupted
    }
}

#[test]
fn a_slow_reader_that_fails_at_each_call(rt: HostRuntime) {
    // 47 bytes and the end take 48 calls that are not interrupted, and 23 that are. At 0 and at 72 none fails.
    for fails_at in 0..=72 {
        let mut calls = 0;
        let mut reader = slow_text(&mut calls, fails_at);
        let result = read_all(rt.alloc(), &mut reader, TEXT.len());
        let is_right = match result {
            Ok(bytes) => matches!(fails_at, 0 | 72) && bytes.as_slice() == TEXT.as_slice(),
            Err(error) => matches!(fails_at, 1..=71) && error == ReadError::Failed,
        };
        assert!(rt; is_right, "at call {fails_at}");
        assert_eq!(rt; reader.failed(), matches!(fails_at, 1..=71));
    }
}

/// Interruptions, pieces, the size of each and what comes then; the limit, the length that is read, and the pulls.
type Plan = (
    usize,
    usize,
    usize,
    Pull,
    usize,
    Result<usize, ReadError>,
    usize,
);

const END: Pull = Pull::Got(0);

static PLANS: [Plan; 15] = [
    (usize::MAX, 0, 0, END, 16, Err(ReadError::Turns), 65_552),
    (65_536, 0, 0, END, 0, Err(ReadError::Turns), 65_536),
    (65_535, 0, 0, END, 0, Ok(0), 65_536),
    (0, 0, 0, END, 16, Ok(0), 1),
    (0, 0, 0, END, 0, Ok(0), 1),
    (2, 0, 0, Pull::Failed, 16, Err(ReadError::Failed), 3),
    // The limit from both sides.
    (0, 2, 8, END, 16, Ok(16), 3),
    (0, 16, 1, END, 16, Ok(16), 17),
    (0, 17, 1, END, 16, Err(ReadError::TooLong), 17),
    (0, 0, 0, Pull::Got(7), 16, Err(ReadError::TooLong), 3),
    (0, 0, 0, Pull::Got(16), 16, Err(ReadError::TooLong), 2),
    (0, 0, 0, Pull::Got(17), 16, Err(ReadError::TooLong), 1),
    (0, 0, 0, Pull::Got(1), 0, Err(ReadError::TooLong), 1),
    // A pull asks for 65,536 bytes.
    (0, 2, 100_000, END, 131_072, Ok(131_072), 3),
    (1, 3, 50_000, END, 150_000, Ok(150_000), 5),
];

#[test]
fn how_many_pulls_are_made(rt: HostRuntime) {
    for (number, plan) in PLANS.iter().enumerate() {
        let (interruptions, pieces, size, last, limit, expected, pulls) = *plan;
        let mut input = PlannedInput {
            interruptions,
            pieces,
            size,
            last,
            pulls: 0,
            failed: false,
            interrupted: false,
        };
        assert!(rt; limit <= MAX_READ_LIMIT);
        let length = read_all(rt.alloc(), &mut input, limit).map(|bytes| bytes.len());
        assert!(rt; length == expected, "plan {number}");
        assert_eq!(rt; input.pulls, pulls, "plan {number}");
    }
}

/// What a pull tells a feed, whose bytes are zeros and so no capture. Behind the fault nothing is pulled.
#[test]
fn what_pulls_of_a_feed_tell(rt: HostRuntime) {
    let fault = Err(FeedError::Fault(CaptureFault {
        whole: 0,
        code: codes::NO_MAGIC,
    }));
    let interrupted = Ok(Pull::Interrupted);
    let failed = Ok(Pull::Failed);
    for (interruptions, pieces, last, told, pulls) in [
        (
            2,
            0,
            Pull::Failed,
            [interrupted, interrupted, failed, failed],
            4,
        ),
        (1, 1, END, [interrupted, fault, fault, fault], 2),
        (0, 0, END, [Ok(END), Ok(END), Ok(END), Ok(END)], 4),
    ] {
        let mut input = PlannedInput {
            interruptions,
            pieces,
            size: 1,
            last,
            pulls: 0,
            failed: false,
            interrupted: false,
        };
        let mut feed = Feed::new(rt.alloc());
        for expected in told {
            assert!(rt; feed.pull_from(&mut input) == expected);
        }
        drop(feed);
        assert_eq!(rt; input.pulls, pulls);
    }
}

/// A pull is one call of the reader, and its marks stay set.
#[test]
fn the_marks_of_a_reader(rt: HostRuntime) {
    let mut calls = 0;
    let mut reader = slow_text(&mut calls, 2);
    let mut into = [0; 8];
    assert!(rt; !reader.failed() && !reader.interrupted());
    for (pull, failed, interrupted) in [
        (Pull::Got(1), false, false),
        (Pull::Failed, true, false),
        (Pull::Interrupted, true, true),
        (Pull::Got(1), true, true),
        (Pull::Got(1), true, true),
    ] {
        assert!(rt; reader.pull(&mut into) == pull);
        assert!(rt; reader.failed() == failed && reader.interrupted() == interrupted);
    }
    drop(reader);
    assert_eq!(rt; calls, 5);
}

#[test]
fn a_writer_that_breaks_at_each_call(rt: HostRuntime) {
    // 47 bytes take 12 calls of four bytes, and the flush is the 13th.
    for breaks_at in 1..=14 {
        let mut writer = Device::new(BreakingWriter {
            calls: 0,
            breaks_at,
        });
        let expected = if breaks_at < 14 { Err(Broken) } else { Ok(()) };
        assert!(rt; writer.put(TEXT) == expected, "at call {breaks_at}");
        assert_eq!(rt; writer.broken(), breaks_at < 14);
        // The mark stays.
        assert_eq!(rt; writer.put(b"more").is_ok(), breaks_at < 14);
        assert!(rt; writer.broken());
    }
    let mut taken = Vec::new(rt.alloc());
    let mut writer = Device::new(&mut taken);
    assert!(rt; writer.put(b"one ").is_ok() && writer.put(b"two").is_ok());
    assert!(rt; !writer.broken());
    drop(writer);
    assert_eq!(rt; taken.as_slice(), b"one two".as_slice());
}
