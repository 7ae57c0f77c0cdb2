//! A capture that is made, message by message.

use fa_bodies::opcodes;
use std::alloc::{AllocError, Global};

/// Errors of replies (errno.h).
pub const ENOENT: i32 = -2;

pub const EINTR: i32 = -4;

pub const EAGAIN: i32 = -11;

pub const EEXIST: i32 = -17;

pub const EINVAL: i32 = -22;

pub const ENOTEMPTY: i32 = -39;

pub const ENODATA: i32 = -61;

/// What `struct fuse_attr` says of a file, and the node of an entry.
#[derive(Clone, Copy, Debug)]
pub struct Attributes {
    pub mode: u32,
    pub size: u64,
    pub links: u32,
}

/// The bytes of a capture, of which each request has a unique of its own.
#[derive(Drop)]
pub struct Recording {
    bytes: Vec<u8>,
    unique: u64,
    /// Whether memory was refused: what was written since is lost, and the capture is given up at its end.
    lacks_memory: bool,
}

impl Recording {
    /// INIT of version 7.31, and its answer.
    pub fn new(alloc: Global) -> Self {
        let mut recording = Recording::empty(alloc);
        recording.put(b"FUSECAP1");
        let unique = recording.request(opcodes::INIT, 0, 16);
        recording.u32(7);
        recording.u32(31);
        recording.zeros(8);
        recording.success(unique, 64);
        recording.u32(7);
        recording.u32(31);
        recording.zeros(56);
        recording
    }

    /// No bytes.
    fn empty(alloc: Global) -> Self {
        Recording {
            bytes: Vec::new(alloc),
            unique: 0,
            lacks_memory: false,
        }
    }

    /// The bytes of the capture.
    ///
    /// # Errors
    ///
    /// [`AllocError`] where memory was refused to it or to what it is made of.
    pub fn capture(&self) -> Result<&[u8], AllocError> {
        if self.lacks_memory {
            return Err(AllocError);
        }
        Ok(self.bytes.as_slice())
    }

    /// Notes that memory was refused to what the capture is made of, if it was.
    pub fn note_refusal<E: Drop>(&mut self, done: Result<(), E>) {
        self.lacks_memory |= done.is_err();
    }

    /// The head of a request with a body of so many bytes: its unique.
    fn request(&mut self, opcode: u32, node: u64, body: usize) -> u64 {
        self.unique = self.unique.wrapping_add(2);
        self.request_head(opcode, self.unique, node, body);
        self.unique
    }

    /// The head of a request with this unique and a body of so many bytes.
    fn request_head(&mut self, opcode: u32, unique: u64, node: u64, body: usize) {
        self.record(0, body.saturating_add(40));
        self.u32(opcode);
        self.u64(unique);
        self.u64(node);
        self.zeros(16);
    }

    /// The head of a success with a body of so many bytes.
    fn success(&mut self, unique: u64, body: usize) {
        self.record(1, body.saturating_add(16));
        self.u32(0);
        self.u64(unique);
    }

    /// The head of a record, and the length in the message.
    fn record(&mut self, direction: u8, len: usize) {
        let len = u32::try_from(len).unwrap_or(u32::MAX);
        self.put(&[direction]);
        self.u32(len);
        self.u32(len);
    }

    fn u32(&mut self, number: u32) {
        self.put(&number.to_le_bytes());
    }

    fn u64(&mut self, number: u64) {
        self.put(&number.to_le_bytes());
    }

    fn zeros(&mut self, count: usize) {
        if !self.lacks_memory {
            let len = self.bytes.len().saturating_add(count);
            self.lacks_memory = self.bytes.resize(len, 0).is_err();
        }
    }

    fn put(&mut self, bytes: &[u8]) {
        if !self.lacks_memory {
            self.lacks_memory = self.bytes.extend_from_slice(bytes).is_err();
        }
    }

    /// A name or a target, and the zero byte behind it.
    fn name(&mut self, name: &[u8]) {
        self.put(name);
        self.zeros(1);
    }

    /// `struct fuse_entry_out`
    fn put_entry(&mut self, node: u64, attributes: Attributes) {
        self.u64(node);
        self.zeros(32);
        self.put_attributes(node, attributes);
    }

    /// `struct fuse_attr`
    fn put_attributes(&mut self, node: u64, attributes: Attributes) {
        self.u64(node);
        self.u64(attributes.size);
        self.zeros(44);
        self.u32(attributes.mode);
        self.u32(attributes.links);
        self.zeros(20);
    }

    // ---- requests: the unique of each

    /// A request of which no body is read, and which names this node.
    pub fn bare(&mut self, opcode: u32, node: u64) -> u64 {
        self.request(opcode, node, 0)
    }

    /// LOOKUP, UNLINK or RMDIR
    pub fn named(&mut self, opcode: u32, directory: u64, name: &[u8]) -> u64 {
        let unique = self.request(opcode, directory, name.len().saturating_add(1));
        self.name(name);
        unique
    }

    pub fn getattr(&mut self, node: u64) -> u64 {
        let unique = self.request(opcodes::GETATTR, node, 16);
        self.zeros(16);
        unique
    }

    /// SETATTR of the size
    pub fn truncate(&mut self, node: u64, size: u64) -> u64 {
        let unique = self.request(opcodes::SETATTR, node, 88);
        self.u32(1 << 3);
        self.zeros(12);
        self.u64(size);
        self.zeros(64);
        unique
    }

    pub fn symlink(&mut self, directory: u64, name: &[u8], target: &[u8]) -> u64 {
        let body = name.len().saturating_add(target.len()).saturating_add(2);
        let unique = self.request(opcodes::SYMLINK, directory, body);
        self.name(name);
        self.name(target);
        unique
    }

    pub fn mknod(&mut self, directory: u64, name: &[u8], mode: u32) -> u64 {
        let unique = self.request(opcodes::MKNOD, directory, name.len().saturating_add(17));
        self.u32(mode);
        self.zeros(12);
        self.name(name);
        unique
    }

    pub fn mkdir(&mut self, directory: u64, name: &[u8], mode: u32) -> u64 {
        let unique = self.request(opcodes::MKDIR, directory, name.len().saturating_add(9));
        self.u32(mode);
        self.zeros(4);
        self.name(name);
        unique
    }

    /// CREATE with O_RDWR and O_CREAT
    pub fn create(&mut self, directory: u64, name: &[u8], mode: u32) -> u64 {
        let unique = self.request(opcodes::CREATE, directory, name.len().saturating_add(17));
        self.u32(0x42);
        self.u32(mode);
        self.zeros(8);
        self.name(name);
        unique
    }

    pub fn rename(
        &mut self,
        directory: u64,
        name: &[u8],
        new_directory: u64,
        new_name: &[u8],
    ) -> u64 {
        let body = name.len().saturating_add(new_name.len()).saturating_add(10);
        let unique = self.request(opcodes::RENAME, directory, body);
        self.u64(new_directory);
        self.name(name);
        self.name(new_name);
        unique
    }

    pub fn rename2(
        &mut self,
        directory: u64,
        name: &[u8],
        new_directory: u64,
        new_name: &[u8],
        flags: u32,
    ) -> u64 {
        let body = name.len().saturating_add(new_name.len()).saturating_add(18);
        let unique = self.request(opcodes::RENAME2, directory, body);
        self.u64(new_directory);
        self.u32(flags);
        self.zeros(4);
        self.name(name);
        self.name(new_name);
        unique
    }

    pub fn link(&mut self, node: u64, directory: u64, name: &[u8]) -> u64 {
        let unique = self.request(opcodes::LINK, directory, name.len().saturating_add(9));
        self.u64(node);
        self.name(name);
        unique
    }

    /// OPEN or OPENDIR
    pub fn open(&mut self, opcode: u32, node: u64) -> u64 {
        let unique = self.request(opcode, node, 8);
        self.zeros(8);
        unique
    }

    /// READ, READDIR or READDIRPLUS
    pub fn read(&mut self, opcode: u32, node: u64, handle: u64, offset: u64, size: u32) -> u64 {
        let unique = self.request(opcode, node, 40);
        self.u64(handle);
        self.u64(offset);
        self.u32(size);
        self.zeros(20);
        unique
    }

    pub fn write(&mut self, node: u64, handle: u64, offset: u64, payload: &[u8]) -> u64 {
        let unique = self.request(opcodes::WRITE, node, payload.len().saturating_add(40));
        self.u64(handle);
        self.u64(offset);
        self.u32(u32::try_from(payload.len()).unwrap_or(u32::MAX));
        self.zeros(20);
        self.put(payload);
        unique
    }

    /// RELEASE, RELEASEDIR or FLUSH
    pub fn close(&mut self, opcode: u32, node: u64, handle: u64) -> u64 {
        let unique = self.request(opcode, node, 24);
        self.u64(handle);
        self.zeros(16);
        unique
    }

    /// FORGET, which has no answer
    pub fn forget(&mut self, node: u64, lookups: u64) {
        self.request(opcodes::FORGET, node, 8);
        self.u64(lookups);
    }

    /// BATCH_FORGET of nodes, each with so many lookups, which has no answer
    pub fn batch_forget(&mut self, items: &[(u64, u64)]) {
        let body = items.len().saturating_mul(16).saturating_add(8);
        self.request(opcodes::BATCH_FORGET, 0, body);
        self.u32(u32::try_from(items.len()).unwrap_or(u32::MAX));
        self.zeros(4);
        for (node, lookups) in items {
            self.u64(*node);
            self.u64(*lookups);
        }
    }

    /// INTERRUPT of the request with this unique, of which its own is made, as Linux does
    pub fn interrupt(&mut self, unique: u64) -> u64 {
        let own = unique | 1;
        self.request_head(opcodes::INTERRUPT, own, 0, 8);
        self.u64(unique);
        own
    }

    // ---- replies

    pub fn error(&mut self, unique: u64, error: i32) {
        self.record(1, 16);
        self.put(&error.to_le_bytes());
        self.u64(unique);
    }

    /// A success whose body is nothing, or zeros that are not read.
    pub fn done(&mut self, unique: u64, zeros: usize) {
        self.success(unique, zeros);
        self.zeros(zeros);
    }

    pub fn entry(&mut self, unique: u64, node: u64, attributes: Attributes) {
        self.success(unique, 128);
        self.put_entry(node, attributes);
    }

    /// That of GETATTR or SETATTR
    pub fn attributes(&mut self, unique: u64, node: u64, attributes: Attributes) {
        self.success(unique, 104);
        self.zeros(16);
        self.put_attributes(node, attributes);
    }

    /// That of CREATE
    pub fn created(&mut self, unique: u64, node: u64, attributes: Attributes, handle: u64) {
        self.success(unique, 144);
        self.put_entry(node, attributes);
        self.u64(handle);
        self.zeros(8);
    }

    /// That of OPEN or OPENDIR
    pub fn opened(&mut self, unique: u64, handle: u64) {
        self.success(unique, 16);
        self.u64(handle);
        self.zeros(8);
    }

    /// The bytes of a READ, or the target of a READLINK
    pub fn bytes(&mut self, unique: u64, bytes: &[u8]) {
        self.success(unique, bytes.len());
        self.put(bytes);
    }

    /// That of READDIR or READDIRPLUS
    pub fn listed(&mut self, unique: u64, entries: &Entries) {
        self.lacks_memory |= entries.bytes.lacks_memory;
        self.bytes(unique, entries.bytes.bytes.as_slice());
    }

    /// That of WRITE
    pub fn wrote(&mut self, unique: u64, size: usize) {
        self.success(unique, 8);
        self.u32(u32::try_from(size).unwrap_or(u32::MAX));
        self.zeros(4);
    }
}

/// The entries of an answer of READDIR or READDIRPLUS.
#[derive(Drop)]
pub struct Entries {
    bytes: Recording,
    plus: bool,
    room: u32,
}

impl Entries {
    /// None, of at most so many bytes.
    pub fn new(alloc: Global, plus: bool, room: u32) -> Self {
        Entries {
            bytes: Recording::empty(alloc),
            plus,
            room,
        }
    }

    /// Adds an entry, and answers whether there was room for it. Of READDIRPLUS it gives the node, unless that is 0.
    pub fn add(&mut self, name: &[u8], offset: u64, node: u64, attributes: Attributes) -> bool {
        let padding = (8 - name.len() % 8) % 8;
        let head = if self.plus { 152 } else { 24 };
        let len = name.len().saturating_add(padding).saturating_add(head);
        if self.bytes.bytes.len().saturating_add(len) > self.room as usize {
            return false;
        }
        if self.plus {
            self.bytes.put_entry(node, attributes);
        }
        self.bytes.u64(node);
        self.bytes.u64(offset);
        self.bytes
            .u32(u32::try_from(name.len()).unwrap_or(u32::MAX));
        self.bytes.u32(attributes.mode >> 12);
        self.bytes.put(name);
        self.bytes.zeros(padding);
        true
    }

    /// Whether the entries give nodes.
    pub fn gives_nodes(&self) -> bool {
        self.plus
    }

    /// How many bytes they have at most.
    pub fn room(&self) -> u32 {
        self.room
    }
}
