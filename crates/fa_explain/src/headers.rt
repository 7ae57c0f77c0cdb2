//! Messages that are no requests, replies or notifications: codes 10 to 17.

use crate::advice::Advice;
use crate::citing::{bytes_line, request_line};
use crate::exchange::Exchange;
use crate::fault::Fault;
use crate::{bodies, successes};
use fa_capture::{Direction, codes};
use fa_show::{Text, message_in, request_in, u32_at, words};

/// The last operation of `fuse.h` 7.31.
const LAST_OPCODE: u32 = 49;

/// The names of operations that are not judged: the kernel's answer to a RETRIEVE, and those of the latest `fuse.h`.
static OTHERS: [(u32, &str); 7] = [
    (41, "NOTIFY_REPLY"),
    (48, "SETUPMAPPING"),
    (49, "REMOVEMAPPING"),
    (50, "SYNCFS"),
    (51, "TMPFILE"),
    (52, "STATX"),
    (53, "COPY_FILE_RANGE_64"),
];

/// The one notification of `fuse.h` that is not judged, as the kernel answers it.
const RETRIEVE: i32 = 5;

/// Writes which check of one message fails, how the message begins, and what it answers: what to look at.
pub(crate) fn explain(
    text: &mut Text,
    fault: &Fault<'_>,
    exchange: Option<Exchange<'_>>,
) -> Advice {
    match fault.code {
        codes::HEADER_TOO_SHORT => too_short(text, fault),
        codes::LENGTH_FIELD => other_length(text, fault),
        codes::OPERATION => no_operation(text, fault),
        codes::REQUEST_BODY => bodies::refused(text, fault),
        codes::PROFILE_LIMIT => bodies::beyond(text, fault),
        codes::ERROR_VALUE => no_error(text, fault),
        codes::REPLY_BODY => successes::refused(text, fault, exchange),
        _ => no_notification(text, fault),
    }
    text.end_line();
    if fault.code != codes::PROFILE_LIMIT {
        bytes_line(text, fault.packet.bytes);
    }
    if fault.code == codes::REPLY_BODY {
        if let Some(exchange) = exchange {
            request_line(text, exchange.asked, exchange.packet);
        }
    }
    advice_on(fault, exchange)
}

/// What to look at: headers that are wrong are told of requests, and then of messages of the server; names that have no file of their own
/// behind bodies that are wrong, and entries of listings behind other successes.
fn advice_on(fault: &Fault<'_>, exchange: Option<Exchange<'_>>) -> Advice {
    let is_second = match fault.code {
        codes::HEADER_TOO_SHORT | codes::LENGTH_FIELD => {
            matches!(fault.packet.direction, Direction::FromServer)
        }
        codes::REQUEST_BODY => bodies::looks_up_a_dot(fault),
        codes::REPLY_BODY => successes::is_of_entries(fault, exchange),
        _ => false,
    };
    if is_second {
        Advice::Second
    } else {
        Advice::First
    }
}

/// Writes which header has no room.
fn too_short(text: &mut Text, fault: &Fault<'_>) {
    text.word(match fault.packet.direction {
        Direction::ToServer => "a request begins with struct fuse_in_header, 40 bytes: ",
        Direction::FromServer => {
            "a message of the server begins with struct fuse_out_header, 16 bytes: "
        }
    });
    bodies::this_one(text, fault.packet.bytes);
}

/// Writes which lengths differ.
fn other_length(text: &mut Text, fault: &Fault<'_>) {
    text.field(
        "len says ",
        u64::from(u32_at(fault.packet.bytes, 0).unwrap_or(0)),
    );
    text.word(", and the record has ");
    text.count(fault.packet.bytes.len(), " byte", " bytes");
}

/// Writes which opcode has no operation.
fn no_operation(text: &mut Text, fault: &Fault<'_>) {
    let Some(asked) = request_in(&fault.packet) else {
        return;
    };
    text.word(if asked.opcode > LAST_OPCODE {
        "fuse.h 7.31"
    } else {
        "this profile"
    });
    text.field(" has no opcode ", u64::from(asked.opcode));
    for (opcode, name) in &OTHERS {
        if *opcode == asked.opcode {
            text.word(", which is ");
            text.word(name);
        }
    }
}

/// Writes which error is none.
fn no_error(text: &mut Text, fault: &Fault<'_>) {
    let Some(told) = message_in(&fault.packet) else {
        return;
    };
    text.word("an error is 0, or from -999 to -1: this one is ");
    words::signed(text, told.error);
    if told.error > 0 {
        if let Some(name) = words::error_name(-told.error) {
            text.word(", and ");
            text.word(name);
            text.word(" is ");
            words::signed(text, -told.error);
        }
    }
}

/// Writes which code is that of no notification.
fn no_notification(text: &mut Text, fault: &Fault<'_>) {
    let Some(told) = message_in(&fault.packet) else {
        return;
    };
    text.word("unique 0 stands for a notification, and its code ");
    words::signed(text, told.error);
    if told.error == RETRIEVE {
        text.word(", RETRIEVE,");
    }
    text.word(" is none of 1, 2, 3, 4 and 6");
}
