//! Bytes of which files are made.

use crate::random::{Random, mixed};
use std::alloc::{AllocError, Global};

/// How many bytes there are.
const BYTES: usize = 1 << 20;

/// Bytes that look random.
#[derive(Drop)]
pub struct Pool {
    bytes: Vec<u8>,
}

impl Pool {
    pub fn new(alloc: Global, random: &mut Random) -> Result<Self, AllocError> {
        let mut bytes = Vec::new(alloc);
        for _ in 0..BYTES / 8 {
            bytes.extend_from_slice(&random.number().to_le_bytes())?;
        }
        Ok(Pool { bytes })
    }

    /// The bytes of a file from one place up to another, of a file of at most half as many bytes as there are.
    pub fn content(&self, file: u64, from: u64, to: u64) -> &[u8] {
        let start = mixed(file) % (BYTES as u64 / 2);
        self.range(start.saturating_add(from), start.saturating_add(to))
    }

    /// The bytes from one place up to another, if there are so many.
    pub fn range(&self, from: u64, to: u64) -> &[u8] {
        self.bytes.get(from as usize..to as usize).unwrap_or(b"")
    }
}
