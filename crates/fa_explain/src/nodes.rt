//! Nodes that are not known, are taken back too often or may not be given: codes 40 to 42.

use crate::advice::Advice;
use crate::citing::earlier_two;
use crate::exchange::{Answered, Exchange, request_of};
use crate::fault::Fault;
use crate::given::{Given, name_listed};
use crate::misplaced::{Sought, given_behind, late_answer, may_be_late_behind};
use crate::past::Past;
use fa_bodies::{ROOT_ID, RequestBody, items};
use fa_capture::{Capture, codes};
use fa_show::{Text, said};
use std::alloc::{AllocError, Global};

/// What the messages so far say of a node since its lookup count was last 0.
#[derive(Clone, Copy, Default)]
pub(crate) struct NodePast {
    /// Its lookup count.
    lookups: u64,
    /// How many answers gave it.
    answers: usize,
    /// The first of them.
    pub first: Option<Answered>,
    /// The last of them.
    given: Option<Answered>,
    /// The last request that took lookups of it back.
    pub taken: Option<u32>,
}

impl NodePast {
    /// Whether its lookup count is above 0.
    pub fn is_known(&self) -> bool {
        self.lookups > 0
    }

    /// Whether it is known, and was when the message of this number came.
    pub fn is_known_since(&self, number: u32) -> bool {
        match self.first {
            Some(first) => self.is_known() && first.at < number,
            None => false,
        }
    }

    /// Notes that an answer gives it.
    pub fn give(&mut self, answered: Answered) {
        if !self.is_known() {
            *self = NodePast {
                first: Some(answered),
                ..NodePast::default()
            };
        }
        self.lookups = self.lookups.saturating_add(1);
        match self.given {
            Some(given) if given.at == answered.at => {}
            _ => self.answers = self.answers.saturating_add(1),
        }
        self.given = Some(answered);
    }

    /// Notes that a request takes lookups of it back.
    pub fn take(&mut self, at: u32, nlookup: u64) {
        if nlookup > 0 {
            self.lookups = self.lookups.saturating_sub(nlookup);
            self.taken = Some(at);
        }
    }
}

/// Writes what a message may not say of a node, and what gave the node and took it back: what to look at. Nothing was asked of the past.
pub(crate) fn explain(
    alloc: Global,
    text: &mut Text,
    capture: &Capture<'_>,
    fault: &Fault<'_>,
    exchange: Option<Exchange<'_>>,
    past: &mut Past,
) -> Result<Advice, AllocError> {
    match fault.code {
        codes::FORGOTTEN_NODE => return unknown(alloc, text, capture, fault, past),
        codes::FORGOTTEN_TOO_OFTEN => too_often(alloc, text, capture, fault, past)?,
        _ => not_allowed(text, fault, exchange),
    }
    Ok(Advice::First)
}

/// The second node that a request names: the new directory of RENAME and RENAME2, and the file of LINK.
fn other_node(body: &RequestBody<'_>) -> Option<u64> {
    match body {
        RequestBody::Rename { newdir, .. } | RequestBody::Rename2 { newdir, .. } => Some(*newdir),
        RequestBody::Link { oldnodeid, .. } => Some(*oldnodeid),
        _ => None,
    }
}

/// Writes which node is not known, and why: what to look at.
fn unknown(
    alloc: Global,
    text: &mut Text,
    capture: &Capture<'_>,
    fault: &Fault<'_>,
    past: &mut Past,
) -> Result<Advice, AllocError> {
    let Some(request) = fault.request() else {
        return Ok(Advice::First);
    };
    let other = other_node(&request.body).unwrap_or(ROOT_ID);
    past.ask_for(request.node);
    past.ask_for(other);
    past.read(alloc, capture, fault.number)?;
    let node = if request.node == ROOT_ID || past.node(request.node).is_known() {
        other
    } else {
        request.node
    };
    let late = late_answer(alloc, capture, fault.number, Sought::Node(node))?;
    let past = past.node(node);
    unknown_node(text, capture, node, &past, late);
    // What to look at: an answer that was recorded too late, the request, which may have been recorded too late behind a FORGET, or an
    // answer that is missing.
    Ok(
        match (may_be_late_behind(capture, fault, past.taken), late) {
            (true, Some(_)) => Advice::SecondAndThird,
            (true, None) => Advice::FirstAndSecond,
            (false, Some(_)) => Advice::Third,
            (false, None) => Advice::First,
        },
    )
}

/// Writes why a node is not known, and the messages that say so.
fn unknown_node(
    text: &mut Text,
    capture: &Capture<'_>,
    node: u64,
    past: &NodePast,
    late: Option<Answered>,
) {
    match past.taken {
        Some(taken) => taken_back(text, node, past, taken),
        None => {
            text.field("node ", node);
            text.word(" was given by no answer before");
        }
    }
    if let Some(late) = late {
        given_behind(text, capture, late, "gives it");
    }
    text.end_line();
    earlier_two(text, capture, past.given, past.taken);
}

/// Writes how the lookups of a node came and went.
fn taken_back(text: &mut Text, node: u64, past: &NodePast, taken: u32) {
    text.field("the lookups of node ", node);
    text.word(" were all taken back: ");
    text.count(past.answers, " answer", " answers");
    text.field(" gave it, and ", u64::from(taken));
    text.word(" took the last one");
}

/// Writes of which node more lookups are taken back than it has, and why.
fn too_often(
    alloc: Global,
    text: &mut Text,
    capture: &Capture<'_>,
    fault: &Fault<'_>,
    past: &mut Past,
) -> Result<(), AllocError> {
    let Some(request) = fault.request() else {
        return Ok(());
    };
    match &request.body {
        RequestBody::BatchForget { items: bytes, .. } => {
            for (node, _) in items(bytes) {
                past.ask_for(node);
            }
            past.read(alloc, capture, fault.number)?;
            for (node, nlookup) in items(bytes) {
                if is_too_many(past, node, nlookup) {
                    taken_too_often(text, capture, fault, node, nlookup, &past.node(node));
                    break;
                }
                past.take(fault.number, node, nlookup);
            }
        }
        RequestBody::Forget { nlookup } => {
            past.ask_for(request.node);
            past.read(alloc, capture, fault.number)?;
            let node = request.node;
            taken_too_often(text, capture, fault, node, *nlookup, &past.node(node));
        }
        _ => {}
    }
    Ok(())
}

/// Whether more lookups of a node are taken back than it has.
fn is_too_many(past: &Past, node: u64, nlookup: u64) -> bool {
    node != ROOT_ID && nlookup > past.node(node).lookups
}

/// Writes how many lookups of a node are taken back, and how many it has.
fn taken_too_often(
    text: &mut Text,
    capture: &Capture<'_>,
    fault: &Fault<'_>,
    node: u64,
    nlookup: u64,
    past: &NodePast,
) {
    text.field("it takes ", nlookup);
    text.field(" from the lookup count of node ", node);
    text.field(", which is ", past.lookups);
    text.word(": ");
    if past.answers == 0 {
        text.word("no answer");
    } else {
        text.count(past.answers, " answer", " answers");
    }
    text.word(" gave it");
    let mut earlier = past.taken;
    if let Some(taken) = earlier {
        if taken == fault.number {
            text.word(", and an item before took from it");
            earlier = None;
        } else {
            text.field(", and ", u64::from(taken));
            text.word(" took from it");
        }
    }
    text.end_line();
    earlier_two(text, capture, past.given, earlier);
}

/// Writes which node may not be given, and of a listing which entry gives it.
fn not_allowed(text: &mut Text, fault: &Fault<'_>, exchange: Option<Exchange<'_>>) {
    let mut node = ROOT_ID;
    match given_by(fault, exchange) {
        Given::Listed(entries) => {
            text.word("its entry ");
            text.name(name_listed(entries, ROOT_ID).unwrap_or(&[]));
        }
        Given::One(given) => {
            text.word("it");
            node = given;
        }
        Given::Nothing => text.word("it"),
    }
    text.field(" gives node ", node);
    text.word(if node == ROOT_ID {
        ", which is the root's"
    } else {
        ", which is no node"
    });
    text.end_line();
}

/// What the reply at fault gives.
fn given_by<'a>(fault: &Fault<'a>, exchange: Option<Exchange<'_>>) -> Given<'a> {
    let Some(exchange) = exchange else {
        return Given::Nothing;
    };
    let Some(request) = request_of(&exchange.packet) else {
        return Given::Nothing;
    };
    match said(&request, &fault.packet) {
        Some(reply) => Given::by(&request, &reply),
        None => Given::Nothing,
    }
}
