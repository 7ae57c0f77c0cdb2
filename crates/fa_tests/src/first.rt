//! The first capture, from a sample to what is read of it.

use crate::captures::FIRST;
use crate::paired::packets_of;
use bitflags::Flags;
use fa_bodies::{Reply, Request, RequestBody, reply_body, reply_head, request};
use fa_capture::{Direction, Packet, read_capture};
use fa_sample::Sample;
use std::alloc::Global;

/// The bytes of a sample of one LOOKUP that is refused with ENOENT.
fn first_sample(alloc: Global) -> Option<Vec<u8>> {
    let sample = Sample::new(alloc).init(2).init_answer(2);
    sample.lookup(4, 1, b"a").error(4, -2).capture().ok()
}

/// Whether a request is INIT of version 7.31 with the unique 2, without flags.
fn is_init(asked: &Request<'_>) -> bool {
    let header = (asked.unique, asked.node, asked.opcode) == (2, 0, 26);
    header
        && matches!(asked.body, RequestBody::Init(init)
            if (init.major, init.minor, init.max_readahead, init.flags.bits()) == (7, 31, 0, 0))
}

/// Whether a request is LOOKUP of `a` in the root with the unique 4.
fn is_lookup(asked: &Request<'_>) -> bool {
    let header = (asked.unique, asked.node, asked.opcode) == (4, 1, 1);
    header && matches!(asked.body, RequestBody::Lookup { name: b"a" })
}

/// What a reply says to a request, where it has its unique.
fn said<'a>(asked: &Request<'_>, packet: &Packet<'a>) -> Option<Reply<'a>> {
    let head = reply_head(packet).ok()?;
    if head.unique != asked.unique {
        return None;
    }
    reply_body(asked, packet).ok()
}

/// Whether a reply is the answer of INIT of version 7.31 without flags.
fn is_answer(reply: &Reply<'_>) -> bool {
    matches!(reply, Reply::Negotiated(agreed)
        if (agreed.major, agreed.minor, agreed.max_readahead, agreed.flags.bits()) == (7, 31, 0, 0))
}

/// Whether the messages are INIT, its answer, LOOKUP and ENOENT.
fn is_first(packets: &[Packet<'_>]) -> Option<bool> {
    let [init, answer, lookup, refusal] = packets else {
        return None;
    };
    let asked = request(init).ok()?;
    let looked_up = request(lookup).ok()?;
    let answer = said(&asked, answer)?;
    let refusal = said(&looked_up, refusal)?;
    let is_read = is_init(&asked) && is_answer(&answer) && is_lookup(&looked_up);
    Some(is_read && matches!(refusal, Reply::Refused(-2)))
}

#[test]
fn the_first_capture(rt: HostRuntime) {
    let bytes = first_sample(rt.alloc()).expect(&rt, "memory");
    assert!(rt; bytes.as_slice() == FIRST.as_slice());
    let packets = packets_of(rt.alloc(), &FIRST).expect(&rt, "memory");
    assert!(rt; read_capture(&FIRST).fault.is_none() && is_first(&packets) == Some(true));
    let (to, from) = (Direction::ToServer, Direction::FromServer);
    for (packet, shape) in packets
        .iter()
        .zip([(to, 56), (from, 80), (to, 42), (from, 16)])
    {
        assert!(rt; (packet.direction, packet.bytes.len()) == shape);
    }
}
