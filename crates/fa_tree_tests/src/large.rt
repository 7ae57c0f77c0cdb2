//! Files as large as a file may be, of which few bytes are there.

use crate::steps::{MEMORY, step};
use crate::trees::empty_tree;
use fa_bodies::{MAX_FILE_BYTES, ROOT_ID as ROOT};
use fa_capture::codes::BYTES_READ;
use fa_sample::Sample;
use fa_tests::messages::begun;
use fa_tests::paired::calls_in;
use fa_tests::sent::Sent::{Create, Created};
use fa_tests::sent::{CREAT, with_all};
use fa_tree::Tree;
use std::alloc::{AllocError, Global};

/// Where the last byte of a file may be.
const LAST: u64 = MAX_FILE_BYTES - 1;

/// The mode of the file that CREATE makes.
const MODE: u32 = 0o100644;

/// How many bytes are read of a hole, the most that FUSE reads at a time.
const HOLE: u32 = 1 << 20;

/// A file of which the last byte is written, read and cut away. The READ of it, message 6, gives these bytes.
fn last_byte(alloc: Global, zeros: &[u8], read: &[u8]) -> Sample {
    let created = with_all(
        begun(alloc, (0, 0)),
        &[Create(2, ROOT, CREAT), Created(2, 2, 1)],
    );
    let written = created
        .write(4, 2, 1, LAST, b"x")
        .written(4, 1)
        .read(6, 2, 1, LAST, 9)
        .data(6, read)
        .read(8, 2, 1, 1 << 39, HOLE)
        .data(8, zeros);
    written
        .setattr_size(10, 2, LAST)
        .attr(10, MODE, LAST, 1)
        .setattr_size(12, 2, MAX_FILE_BYTES)
        .attr(12, MODE, MAX_FILE_BYTES, 1)
        .read(14, 2, 1, LAST, 9)
        .data(14, b"\0")
        .setattr_size(16, 2, 0)
        .attr(16, MODE, 0, 1)
        .read(18, 2, 1, 0, 9)
        .data(18, b"")
}

/// The code of the first step that is told one, by itself behind the steps before it; 0 where none is. A step to which memory is
/// refused is taken again.
fn first_code(alloc: Global, tree: &mut Tree, read: &[u8]) -> Result<u16, AllocError> {
    let zeros = vec![in alloc; 0u8; HOLE as usize]?;
    let bytes = last_byte(alloc, &zeros, read).capture()?;
    let Some(calls) = calls_in(alloc, &bytes) else {
        return Err(AllocError);
    };
    let mut code = 0;
    for number in 1..10u32 {
        if code == 0 {
            code = step(tree, &calls, 2 * number);
        }
        if code == MEMORY {
            code = step(tree, &calls, 2 * number);
        }
    }
    drop(calls);
    Ok(code)
}

#[test]
fn the_last_byte_that_a_file_may_have(rt: HostRuntime) {
    for (read, expected) in [(b"x", 0), (b"\0", BYTES_READ), (b"y", BYTES_READ)] {
        let mut tree = empty_tree(&rt, rt.alloc());
        let told = first_code(rt.alloc(), &mut tree, read).expect(&rt, "memory");
        drop(tree);
        assert_eq!(rt; told, expected);
    }
}
