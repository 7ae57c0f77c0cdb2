//! How the program ends.

ghost use Rattle.std.specs.Prelude.{◌≡◌};
ghost use Rattle.fa_audit.specs.Status.{status_number};

/// How a call of the program ends.
#[derive(Clone, Copy, Debug, PartialEq, Eq, Hash)]
pub enum Status {
    /// The verdict is legal, what was asked for is written, or a stream came to its end without a fault.
    Legal = 0,
    /// The capture has a fault.
    Fault = 1,
    /// The order is not shown to explain the capture.
    NotShown = 2,
    /// The tree text or the order text is not in its grammar.
    Text = 3,
    /// The command line is no call.
    CommandLine = 4,
    /// Reading, writing or memory failed.
    Failed = 5,
    /// No order explains the capture.
    NoOrder = 6,
    /// The search gave up before it had an answer.
    GaveUp = 7,
}

impl Status {
    /// The exit status of the process.
    ///
    /// Takes no memory, in constant time.
    pub fn number(self) -> u8
        ensures { result ≡ status_number self }
    {
        self as u8
    }
}
