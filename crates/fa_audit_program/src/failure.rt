//! What keeps the program from an answer.

ghost use Rattle.std.specs.Prelude.{◌≡◌};
ghost use Rattle.fa_audit_program.specs.Failure.{failure_status};

use clap::error::ErrorKind;
use fa_audit::{RunFault, Status};
use std::alloc::AllocError;
use std::{fmt, io};
use thiserror::Error;

/// Why the program has no answer. The text of each ends its lines.
#[derive(Debug, Drop, Error)]
pub enum Failure<'a> {
    /// The command line is invalid.
    #[error("{0}")]
    CommandLine(clap::Error),
    /// A word of the command line is not UTF-8.
    #[error("error: a word of the command line is not UTF-8\n")]
    NotUtf8,
    /// The command line is no call with its files and numbers.
    #[error("error: the command line is no call, or its number is none\n")]
    NoCall,
    /// A number of which help is asked is no code.
    #[error("error: {0} is no code\n")]
    NoCode(u16),
    /// The run had a fault.
    #[error("audit failed: {0}\n{1}")]
    Run(RunFault, Cause<'a>),
}

/// What is known of the cause of a fault of a run: a line, or nothing.
#[derive(Clone, Copy, Debug)]
pub enum Cause<'a> {
    Unknown,
    /// A file could not be opened, read, made or written, with the system's error number.
    File { path: &'a str, error: i32 },
    /// A file has more bytes than its limit.
    TooLong { path: &'a str, limit: usize },
    /// Standard output did not take all, with the system's error number.
    Output { error: i32 },
}

impl<'a> Cause<'a> {
    /// This one, or where nothing is known the other.
    pub fn or(self, other: Cause<'a>) -> Cause<'a> {
        match self {
            Cause::Unknown => other,
            known => known,
        }
    }
}

impl fmt::Display for Cause<'_> {
    fn fmt<W: fmt::Write>(&self, f: &mut fmt::Formatter<W>) -> fmt::Result {
        match self {
            Cause::Unknown => Ok(()),
            Cause::File { path, error } => {
                writeln!(
                    f,
                    "{}: {}",
                    Printing(path),
                    io::Error::from_raw_os_error(*error)
                )
            }
            Cause::TooLong { path, limit } => {
                writeln!(f, "{}: more than {limit} bytes", Printing(path))
            }
            Cause::Output { error } => {
                writeln!(
                    f,
                    "standard output: {}",
                    io::Error::from_raw_os_error(*error)
                )
            }
        }
    }
}

/// A path in printing ASCII: a byte that is no such character, and a backslash, are `\x` and two digits.
#[derive(Clone, Copy)]
pub struct Printing<'a>(pub &'a str);

impl fmt::Display for Printing<'_> {
    fn fmt<W: fmt::Write>(&self, f: &mut fmt::Formatter<W>) -> fmt::Result {
        for byte in self.0.bytes() {
            if (b' '..=b'~').contains(&byte) && byte != b'\\' {
                write!(f, "{}", byte as char)?;
            } else {
                write!(f, "\\x{byte:02x}")?;
            }
        }
        Ok(())
    }
}

impl Failure<'_> {
    /// How the program ends: by the command line, or by a run that failed.
    pub fn status(&self) -> Status
        ensures { result ≡ failure_status self.now }
    {
        match self {
            Failure::CommandLine(_) | Failure::NotUtf8 | Failure::NoCall | Failure::NoCode(_) =>
                Status::CommandLine,
            Failure::Run(_, _) => Status::Failed,
        }
    }
}

impl From<AllocError> for Failure<'_> {
    fn from(_: AllocError) -> Self {
        Failure::Run(RunFault::Memory, Cause::Unknown)
    }
}

impl From<clap::Error> for Failure<'_> {
    fn from(error: clap::Error) -> Self {
        match error.kind() {
            ErrorKind::OutOfMemory => Failure::Run(RunFault::Memory, Cause::Unknown),
            _ => Failure::CommandLine(error),
        }
    }
}
