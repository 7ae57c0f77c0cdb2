//! The headers of messages.

use crate::messages::{from_server, head_code, request_code, to_server};
use fa_bodies::{reply_head, request};
use std::alloc::Global;

/// An INIT. The bytes of each field behind the opcode are its own, and the high bits of `unique`, `nodeid`,
/// `max_readahead` and `flags` are set.
#[rattlefmt::skip]
pub static INIT_REQUEST: [u8; 56] = [
    // len, opcode
    0x38, 0, 0, 0, 0x1a, 0, 0, 0,
    // unique, nodeid
    0x01, 0x02, 0x03, 0x04, 0x05, 0x06, 0x07, 0xf8, 0x09, 0x0a, 0x0b, 0x0c, 0x0d, 0x0e, 0x0f, 0xf0,
    // uid, gid, pid, padding
    0x11, 0x12, 0x13, 0x14, 0x15, 0x16, 0x17, 0x18, 0x19, 0x1a, 0x1b, 0x1c, 0x1d, 0x1e, 0x1f, 0x20,
    // major, minor, max_readahead, flags
    0x21, 0x22, 0x23, 0x24, 0x25, 0x26, 0x27, 0x28, 0x29, 0x2a, 0x2b, 0xac, 0x2d, 0x2e, 0x2f, 0xb0,
];

/// The answer to it, of 24 bytes behind the header.
#[rattlefmt::skip]
pub static INIT_ANSWER: [u8; 40] = [
    // len, error
    0x28, 0, 0, 0, 0, 0, 0, 0,
    // unique
    0x01, 0x02, 0x03, 0x04, 0x05, 0x06, 0x07, 0xf8,
    // major, minor, max_readahead, flags
    0x31, 0x32, 0x33, 0x34, 0x35, 0x36, 0x37, 0x38, 0x39, 0x3a, 0x3b, 0xbc, 0x3d, 0x3e, 0x3f, 0xc0,
    // max_background, congestion_threshold, max_write
    0x41, 0x42, 0x43, 0x44, 0x45, 0x46, 0x47, 0x48,
];

/// A refusal. The error is -742.
#[rattlefmt::skip]
static REFUSAL: [u8; 16] = [
    // len, error
    0x10, 0, 0, 0, 0x1a, 0xfd, 0xff, 0xff,
    // unique
    0x51, 0x52, 0x53, 0x54, 0x55, 0x56, 0x57, 0xd8,
];

/// A message with its byte at this place changed.
fn with_byte<const N: usize>(mut message: [u8; N], at: usize, byte: u8) -> [u8; N] {
    if let Some(place) = message.get_mut(at) {
        *place = byte;
    }
    message
}

/// All four bytes of the length and of the opcode count. The header is looked at before its length, and that before
/// the operation, the error and the notification's code.
#[test]
fn headers_and_lengths(rt: HostRuntime) {
    for (at, byte, code) in [(0, 0x37, 11), (0, 0x39, 11), (3, 0x80, 11), (7, 0x80, 12)] {
        let message = with_byte(INIT_REQUEST, at, byte);
        assert_eq!(rt; request_code(&message), code, "byte {at} is {byte}");
    }
    for (at, byte) in [(0, 0x27), (0, 0x29), (3, 0x80)] {
        let message = with_byte(INIT_ANSWER, at, byte);
        assert_eq!(rt; head_code(&message), 11, "byte {at} is {byte}");
    }
    // The opcode is none, the error is out of range, and neither length is right.
    let request = with_byte(with_byte(INIT_REQUEST, 4, 0), 0, 0x39);
    let reply = with_byte(with_byte(INIT_ANSWER, 7, 1), 0, 0x29);
    for len in 0..=40 {
        let expected = if len < 40 { 10 } else { 11 };
        assert_eq!(rt; request_code(&request[..len]), expected, "{len} bytes");
        let expected = if len < 16 { 10 } else { 11 };
        assert_eq!(rt; head_code(&reply[..len]), expected, "{len} bytes");
    }
}

/// The unique, the error or code, and the code that it is refused by, 0 where it is read.
static HEADS: [(u64, i32, u16); 22] = [
    (4, 0, 0),
    (4, -1, 0),
    (4, -999, 0),
    (u64::MAX, -999, 0),
    (4, -1000, 15),
    (4, 1, 15),
    (4, 5, 15),
    (0x0100_0000_0000_0000, 1, 15),
    (4, i32::MIN, 15),
    (4, i32::MAX, 15),
    (0, 1, 0),
    (0, 2, 0),
    (0, 3, 0),
    (0, 4, 0),
    (0, 6, 0),
    (0, 0, 17),
    (0, 5, 17),
    (0, 7, 17),
    (0, -1, 17),
    (0, -1000, 17),
    (0, 0x0100_0001, 17),
    (0, i32::MIN, 17),
];

/// The unique and the error of a head, or the code by which it is refused.
fn head_of(bytes: &[u8]) -> (u64, i32, u16) {
    match reply_head(&from_server(bytes)) {
        Ok(head) => (head.unique, head.error, 0),
        Err(code) => (0, 0, code),
    }
}

/// The head of a message with this unique and error, and so many bytes of body.
fn head_with(alloc: Global, unique: u64, error: i32, len: usize) -> Option<(u64, i32, u16)> {
    let body = [0xff; 48];
    let message = fa_sample::reply_bytes(alloc, unique, error, body.get(..len)?).ok()?;
    Some(head_of(&message))
}

/// The head of a reply has an error from -999 to 0, and that of a notification one of five codes. The body is not looked
/// at. Each field of a header stands at its place.
#[test]
fn errors_and_notifications(rt: HostRuntime) {
    for (unique, error, code) in &HEADS {
        let expected = if *code == 0 {
            (*unique, *error, 0)
        } else {
            (0, 0, *code)
        };
        for len in [0, 1, 48] {
            let head = head_with(rt.alloc(), *unique, *error, len);
            assert!(rt; head == Some(expected), "{error} of {unique}");
        }
    }
    let asked = request(&to_server(&INIT_REQUEST)).expect(&rt, "INIT");
    assert!(rt; (asked.unique, asked.node) == (0xf807_0605_0403_0201, 0xf00f_0e0d_0c0b_0a09));
    assert!(rt; head_of(&REFUSAL) == (0xd857_5655_5453_5251, -742, 0));
    assert!(rt; head_of(&INIT_ANSWER) == (0xf807_0605_0403_0201, 0, 0));
}
