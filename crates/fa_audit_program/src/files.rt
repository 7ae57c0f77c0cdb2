//! Files as inputs, and standard output and a new file as outputs, which remember what the system said.

ghost use Rattle.std.specs.Prelude.{◌≡◌, false, true, IfOk, IfSome};
ghost use Rattle.std.specs.Io.KnownBytes.{Appends};
ghost use Rattle.fa_capture.specs.Streams.{is_failed, is_interrupted, IsWithin, Pulls};

use crate::failure::{Cause, Failure};
use fa_audit::{MAX_CAPTURE_INPUT_BYTES, MAX_TEXT_INPUT_BYTES, RunFault};
use fa_capture::{Broken, Input, Output, Pull, Seed};
use std::fs::{self, File, OpenOptions};
use std::io::{self, Error, ErrorKind, Read, Write};
use std::rt::Files;

/// The path that stands for standard input in a call.
const STANDARD_INPUT: &str = "-";

/// The file that is standard input.
const STANDARD_INPUT_FILE: &str = "/dev/stdin";

/// The error number of a file that is there already (`EEXIST` of `errno.h`).
const ALREADY_THERE: i32 = 17;

/// The file of which each read gives random bytes.
const RANDOM_FILE: &str = "/dev/urandom";

/// A file as an input, which remembers what the system said where it could not be read.
#[derive(Drop)]
pub struct Source<'a, F> {
    path: &'a str,
    file: F,
    /// How many bytes it may have.
    limit: usize,
    /// How many of them were read.
    read: usize,
    failed: bool,
    interrupted: bool,
    /// The error number of the read that failed.
    error: Option<i32>,
}

impl<'a, F> Source<'a, F> {
    /// An input with no mark set.
    fn new(path: &'a str, file: F, limit: usize) -> Self
        ensures unfailed { result.failed ≡ false }
        ensures uninterrupted { result.interrupted ≡ false }
    {
        Source {
            path,
            file,
            limit,
            read: 0,
            failed: false,
            interrupted: false,
            error: None,
        }
    }

    /// What kept it from being read to its end, if it was the system or its length.
    pub fn cause(&self) -> Cause<'a> {
        match self.error {
            Some(error) => Cause::File {
                path: self.path,
                error,
            },
            None if self.read > self.limit => Cause::TooLong {
                path: self.path,
                limit: self.limit,
            },
            None => Cause::Unknown,
        }
    }
}

impl<F: Read> Input for Source<'_, F> {
    ghost remaining = { λ s. F.remaining s.file };

    ghost has_failed = { λ s. s.failed };

    ghost was_interrupted = { λ s. s.interrupted };

    fn pull(&mut self, into: &mut [u8]) -> Pull {
        match self.file.read(into) {
            Ok(count) => {
                self.read = self.read.saturating_add(count);
                Pull::Got(count)
            }
            Err(error) if error.kind() == ErrorKind::Interrupted => {
                self.interrupted = true;
                Pull::Interrupted
            }
            Err(error) => {
                self.failed = true;
                self.error = error.raw_os_error();
                Pull::Failed
            }
        }
    }

    fn failed(&self) -> bool {
        self.failed
    }

    fn interrupted(&self) -> bool {
        self.interrupted
    }
}

/// A seed that nobody else knows; the default one, the same in each run, where the system has no random bytes.
pub fn random_seed<R: Files>(rt: &R) -> Seed {
    random_number(rt).map(Seed::new).unwrap_or_default()
}

/// A random number, where the system has one.
fn random_number<R: Files>(rt: &R) -> Option<u64> {
    let mut bytes = [0; 8];
    let mut file = File::open(rt, RANDOM_FILE).ok()?;
    file.read_exact(&mut bytes).ok()?;
    Some(u64::from_le_bytes(bytes))
}

/// The file of a capture as an input.
pub fn open_capture<'a, R: Files>(rt: &R, path: &'a str) -> Result<Source<'a, R::File>, Failure<'a>>
    ensures unfailed { IfOk result (λ source. source.failed ≡ false) }
    ensures uninterrupted { IfOk result (λ source. source.interrupted ≡ false) }
{
    open(rt, path, MAX_CAPTURE_INPUT_BYTES)
}

/// The file of a text as an input.
pub fn open_text<'a, R: Files>(rt: &R, path: &'a str) -> Result<Source<'a, R::File>, Failure<'a>>
    ensures unfailed { IfOk result (λ source. source.failed ≡ false) }
    ensures uninterrupted { IfOk result (λ source. source.interrupted ≡ false) }
{
    open(rt, path, MAX_TEXT_INPUT_BYTES)
}

/// The file of a text as an input, where one is named.
pub fn open_text_if_any<'a, R: Files>(
    rt: &R,
    path: Option<&'a str>,
) -> Result<Option<Source<'a, R::File>>, Failure<'a>>
    ensures unfailed { IfOk result (λ input. IfSome input (λ source. source.failed ≡ false)) }
    ensures uninterrupted { IfOk result (λ input. IfSome input (λ source. source.interrupted ≡ false)) }
{
    match path {
        Some(path) => Ok(Some(open_text(rt, path)?)),
        None => Ok(None),
    }
}

/// A file as an input of at most so many bytes. One that cannot be opened cannot be read.
fn open<'a, R: Files>(
    rt: &R,
    path: &'a str,
    limit: usize,
) -> Result<Source<'a, R::File>, Failure<'a>>
    ensures unfailed { IfOk result (λ source. source.failed ≡ false) }
    ensures uninterrupted { IfOk result (λ source. source.interrupted ≡ false) }
{
    let file = if path == STANDARD_INPUT {
        STANDARD_INPUT_FILE
    } else {
        path
    };
    match File::open(rt, file) {
        Ok(file) => Ok(Source::new(path, file, limit)),
        Err(error) => Err(unopened(path, &error)),
    }
}

/// Why a file is not opened.
fn unopened<'a>(path: &'a str, error: &Error) -> Failure<'a> {
    match error.raw_os_error() {
        _ if error.kind() == ErrorKind::OutOfMemory => Failure::Run(
            RunFault::Memory,
            Cause::Unknown,
        ),
        Some(error) => Failure::Run(RunFault::Read, Cause::File { path, error }),
        None => Failure::Run(RunFault::Read, Cause::Unknown),
    }
}

/// Why standard output did not take a text.
pub fn unwritten<'a>(error: &Error) -> Cause<'a> {
    output_cause(error.raw_os_error())
}

/// The cause of a write that failed with this error number, if there is one.
fn output_cause<'a>(error: Option<i32>) -> Cause<'a> {
    match error {
        Some(error) => Cause::Output { error },
        None => Cause::Unknown,
    }
}

/// Standard output as an output, which remembers what the system said where it took not all.
#[derive(Drop)]
pub struct Sink<W> {
    writer: W,
    broken: bool,
    /// The error number of the write that failed.
    error: Option<i32>,
}

impl<W> Sink<W> {
    /// An output with no mark set.
    pub fn new(writer: W) -> Self
        ensures writer { result.writer ≡ writer }
        ensures unbroken { result.broken ≡ false }
    {
        Sink {
            writer,
            broken: false,
            error: None,
        }
    }

    /// What kept it from taking all, if the system said it.
    pub fn cause<'a>(&self) -> Cause<'a> {
        output_cause(self.error)
    }

    /// Sets the mark for this error.
    fn fail(&mut self, error: &Error) -> Broken
        ensures broken { self.new.broken ≡ true }
        ensures same { self.new.writer ≡ self.old.writer }
    {
        self.broken = true;
        self.error = error.raw_os_error();
        Broken
    }
}

impl<W: Write> Output for Sink<W> {
    ghost written = { λ s. W.contents s.writer };

    ghost is_broken = { λ s. s.broken };

    fn put(&mut self, bytes: &[u8]) -> Result<(), Broken> {
        if let Err(error) = self.writer.write_all(bytes) {
            return Err(self.fail(&error));
        }
        if let Err(error) = self.writer.flush() {
            return Err(self.fail(&error));
        }
        Ok(())
    }

    fn broken(&self) -> bool {
        self.broken
    }
}

/// A file as an output, which is made at the first put, and must not be there before. It remembers what the system said.
#[derive(Drop)]
pub struct NewFile<'r, 'a, R> {
    rt: &'r R,
    path: &'a str,
    made: bool,
    broken: bool,
    /// The error number with which it could not be made or written.
    error: Option<i32>,
}

/// A file that is yet to be made, as an output with no mark set. One that is there already is refused at once.
pub fn new_file<'r, 'a, R: Files>(
    rt: &'r R,
    path: &'a str,
) -> Result<NewFile<'r, 'a, R>, Failure<'a>>
    ensures unbroken { IfOk result (λ file. file.broken ≡ false) }
{
    if let Ok(true) = fs::exists(rt, path) {
        let cause = Cause::File {
            path,
            error: ALREADY_THERE,
        };
        return Err(Failure::Run(RunFault::Write, cause));
    }
    Ok(NewFile {
        rt,
        path,
        made: false,
        broken: false,
        error: None,
    })
}

impl<'a, R> NewFile<'_, 'a, R> {
    /// What kept it from being made or from taking all, if the system said it.
    pub fn cause(&self) -> Cause<'a> {
        match self.error {
            Some(error) => Cause::File {
                path: self.path,
                error,
            },
            None => Cause::Unknown,
        }
    }
}

impl<R: Files> NewFile<'_, '_, R> {
    /// Puts the bytes at the end of the file, which is made if it was not.
    fn append(&mut self, bytes: &[u8]) -> io::Result<()>
        ensures same { self.new.broken ≡ self.old.broken }
    {
        let mut file = OpenOptions::new()
            .append(true)
            .create_new(!self.made)
            .open(self.rt, self.path)?;
        self.made = true;
        file.write_all(bytes)
    }
}

impl<R: Files> Output for NewFile<'_, '_, R> {
    ghost is_broken = { λ s. s.broken };

    fn put(&mut self, bytes: &[u8]) -> Result<(), Broken> {
        if let Err(error) = self.append(bytes) {
            self.broken = true;
            self.error = error.raw_os_error();
            return Err(Broken);
        }
        Ok(())
    }

    fn broken(&self) -> bool {
        self.broken
    }
}
