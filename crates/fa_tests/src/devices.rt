//! Readers and writers that fail at a call.

use std::io;
use std::io::{ErrorKind, Read, Write};

/// A reader that gives a byte a call and counts its calls. Each third call is interrupted, and the `fails_at`th fails.
#[derive(Drop)]
pub struct SlowReader<'a> {
    pub left: &'a [u8],
    pub calls: &'a mut usize,
    pub fails_at: usize,
}

impl Read for SlowReader<'_> {
    fn read(&mut self, into: &mut [u8]) -> io::Result<usize> {
        *self.calls = self.calls.saturating_add(1);
        if *self.calls == self.fails_at {
            return Err(io::Error::from(ErrorKind::Other));
        }
        if *self.calls % 3 == 0 {
            return Err(io::Error::from(ErrorKind::Interrupted));
        }
        match (self.left, into) {
            ([first, rest @ ..], [place, ..]) => {
                *place = *first;
                self.left = rest;
                Ok(1)
            }
            _ => Ok(0),
        }
    }
}

/// A writer that takes four bytes a call, and breaks at the `breaks_at`th; a flush is a call too.
#[derive(Drop)]
pub struct BreakingWriter {
    pub calls: usize,
    pub breaks_at: usize,
}

impl BreakingWriter {
    fn call(&mut self) -> io::Result<()> {
        self.calls = self.calls.saturating_add(1);
        if self.calls == self.breaks_at {
            return Err(io::Error::from(ErrorKind::BrokenPipe));
        }
        Ok(())
    }
}

impl Write for BreakingWriter {
    fn write(&mut self, bytes: &[u8]) -> io::Result<usize> {
        self.call()?;
        Ok(bytes.len().min(4))
    }

    fn flush(&mut self) -> io::Result<()> {
        self.call()
    }
}
