//! A file that is open, and its bytes.

use crate::volume::Volume;
use std::alloc::AllocError;

/// A file that is open, and its bytes.
#[derive(Drop)]
pub struct OpenFile {
    pub node: u64,
    handle: u64,
    bytes: Vec<u8>,
}

impl OpenFile {
    /// CREATE of a file in the root
    pub fn create(volume: &mut Volume) -> Self {
        let (node, handle) = volume.create(0);
        OpenFile {
            node,
            handle,
            bytes: Vec::new(volume.alloc),
        }
    }

    /// How many bytes it has.
    pub fn size(&self) -> u64 {
        self.bytes.len() as u64
    }

    /// WRITE at a place
    pub fn write(&mut self, volume: &mut Volume, offset: u64, payload: &[u8]) {
        volume.write(self.node, self.handle, offset, payload);
        let written = self.put_at(offset as usize, payload);
        volume.recording.note_refusal(written);
    }

    /// Writes bytes at a place, with zeros before it where there are fewer.
    fn put_at(&mut self, start: usize, payload: &[u8]) -> Result<(), AllocError> {
        let Some(end) = start.checked_add(payload.len()) else {
            return Ok(());
        };
        if self.bytes.len() < end {
            self.bytes.resize(end, 0)?;
        }
        self.bytes[start..end].copy_from_slice(payload);
        Ok(())
    }

    /// READ of so many bytes, of which those come that are there
    pub fn read(&self, volume: &mut Volume, offset: u64, asked: u32) {
        let bytes = self.range(offset, asked);
        volume.read(self.node, self.handle, offset, asked, bytes);
    }

    /// The same, but that the last byte is another one
    pub fn read_wrong(&self, volume: &mut Volume, offset: u64, asked: u32) {
        let mut bytes = Vec::new(volume.alloc);
        let copied = bytes.extend_from_slice(self.range(offset, asked));
        volume.recording.note_refusal(copied);
        if let Some(last) = bytes.last_mut() {
            *last ^= 1;
        }
        volume.read(self.node, self.handle, offset, asked, bytes.as_slice());
    }

    /// The bytes from a place on, so many if they are there.
    fn range(&self, offset: u64, asked: u32) -> &[u8] {
        let end = self.size().min(offset.saturating_add(u64::from(asked)));
        self.bytes.get(offset as usize..end as usize).unwrap_or(b"")
    }

    /// SETATTR of the size, by which it is cut or filled with zeros
    pub fn set_size(&mut self, volume: &mut Volume, size: u64) {
        volume.truncate(self.node, size);
        let resized = self.bytes.resize(size as usize, 0);
        volume.recording.note_refusal(resized);
    }
}
