//! What the messages that are chosen come to.

use crate::asked::{message_in, request_in};
use crate::choice::Choice;
use crate::line::Line;
use crate::pairing::Pairing;
use crate::tally::{Answer, Flight, Operation, TreeRequests, one_more};
use crate::words::operation_name;
use fa_bodies::RequestBody;
use fa_capture::{Direction, Packet};
use indexmap::IndexMap;
use std::alloc::{AllocError, Global};
use std::cmp::Reverse;

/// How many numbers of requests that were never answered are kept.
const FIRST_UNANSWERED: usize = 8;

/// What is counted of the messages that are chosen.
#[derive(Drop)]
pub(crate) struct Counts {
    /// By the numbers of the operations.
    pub operations: IndexMap<u32, Operation>,
    /// All but those that are refused.
    pub messages: u32,
    pub notifications: u32,
    pub refused: u32,
    pub flight: Flight,
    pub tree: TreeRequests,
    /// How many requests were never answered.
    pub unanswered: u32,
    /// The numbers of the first of these.
    pub first_unanswered: Vec<u32>,
}

impl Counts {
    /// No messages.
    pub fn new(alloc: Global) -> Counts {
        Counts {
            operations: IndexMap::new(alloc),
            messages: 0,
            notifications: 0,
            refused: 0,
            flight: Flight::default(),
            tree: TreeRequests::default(),
            unanswered: 0,
            first_unanswered: Vec::new(alloc),
        }
    }

    /// Counts the next message if it is chosen; a reply to a request is where that one is, whatever number it has itself.
    pub fn take(
        &mut self,
        alloc: Global,
        pairing: &Pairing<'_>,
        choice: &Choice<'_>,
        line: &Line<'_>,
    ) -> Result<(), AllocError> {
        let request = answered_by(pairing, line);
        let is_chosen = match &request {
            Some(request) => choice.takes(pairing, request),
            None => choice.takes(pairing, line),
        };
        if !is_chosen {
            return Ok(());
        }
        if line.fate.code.is_some() {
            self.refused = one_more(self.refused);
            return Ok(());
        }
        self.messages = one_more(self.messages);
        match (line.packet.direction, &request) {
            (Direction::ToServer, _) => self.ask(alloc, pairing, line)?,
            (Direction::FromServer, Some(request)) => self.answer(&request.packet),
            (Direction::FromServer, None) => self.notifications = one_more(self.notifications),
        }
        Ok(())
    }

    /// Counts a request.
    fn ask(
        &mut self,
        alloc: Global,
        pairing: &Pairing<'_>,
        line: &Line<'_>,
    ) -> Result<(), AllocError> {
        let Some(asked) = request_in(&line.packet) else {
            return Ok(());
        };
        let Ok(request) = &asked.request else {
            return Ok(());
        };
        let answer = answer_to(pairing, line);
        if acts_on_tree(&request.body) {
            self.tree.begin();
        }
        if request.body.may_be_answered() {
            self.flight.begin(line.number);
            if answer.is_none() {
                self.never_answered(line.number)?;
            }
        }
        self.operation(alloc, asked.opcode, request.body.may_be_answered(), answer)
    }

    /// Counts a request of an operation.
    fn operation(
        &mut self,
        alloc: Global,
        opcode: u32,
        may_be_answered: bool,
        answer: Option<Answer>,
    ) -> Result<(), AllocError> {
        if !self.operations.contains_key(&opcode) {
            self.operations
                .insert(opcode, Operation::new(alloc, may_be_answered))?;
        }
        match self.operations.get_mut(&opcode) {
            Some(operation) => operation.ask(answer),
            None => Ok(()),
        }
    }

    /// Counts a request that was never answered.
    fn never_answered(&mut self, number: u32) -> Result<(), AllocError> {
        self.unanswered = one_more(self.unanswered);
        if self.first_unanswered.len() < FIRST_UNANSWERED {
            self.first_unanswered.push(number)?;
        }
        Ok(())
    }

    /// A request was answered.
    fn answer(&mut self, packet: &Packet<'_>) {
        self.flight.end();
        let Some(asked) = request_in(packet) else {
            return;
        };
        let Ok(request) = &asked.request else {
            return;
        };
        if acts_on_tree(&request.body) {
            self.tree.end();
        }
    }

    /// Sorts the operations by falling numbers of requests and then by rising names, and what is counted of each.
    pub fn sort(&mut self) -> Result<(), AllocError> {
        for operation in self.operations.values_mut() {
            operation.sort()?;
        }
        self.operations.sort_unstable_by_key(|opcode, operation| {
            (
                Reverse(operation.requests),
                operation_name(*opcode).unwrap_or(""),
            )
        })
    }

    /// Whether it is known of an answer how long it took.
    pub fn is_timed(&self) -> bool {
        self.operations
            .values()
            .any(|operation| operation.is_timed())
    }
}

/// The line of the request to which a message of the server is the reply.
fn answered_by<'a>(pairing: &Pairing<'_>, line: &Line<'a>) -> Option<Line<'a>> {
    match line.packet.direction {
        Direction::ToServer => None,
        Direction::FromServer => {
            let (number, packet) = line.partner?;
            Some(Line {
                number,
                packet,
                fate: pairing.fate(number),
                partner: Some((line.number, line.packet)),
            })
        }
    }
}

/// The answer to a request, if it has one that was not refused.
fn answer_to(pairing: &Pairing<'_>, line: &Line<'_>) -> Option<Answer> {
    let (number, packet) = line.partner?;
    if pairing.fate(number).code.is_some() {
        return None;
    }
    let told = message_in(&packet)?;
    Some(Answer {
        error: told.error,
        duration: duration(line.packet.time, packet.time),
    })
}

/// How many nanoseconds an answer took, where both times are known: below zero where it has the earlier one, and at most 292 years.
fn duration(asked: u64, answered: u64) -> Option<i64> {
    if asked == 0 || answered == 0 {
        return None;
    }
    let apart = i64::try_from(asked.abs_diff(answered)).unwrap_or(i64::MAX);
    Some(if answered < asked {
        0i64.saturating_sub(apart)
    } else {
        apart
    })
}

/// Whether a request acts on the tree.
fn acts_on_tree(body: &RequestBody<'_>) -> bool {
    !matches!(
        body,
        RequestBody::Init(_)
            | RequestBody::Forget { .. }
            | RequestBody::BatchForget { .. }
            | RequestBody::Flush(_)
            | RequestBody::Release(_)
            | RequestBody::Releasedir(_)
            | RequestBody::Passed
    )
}
