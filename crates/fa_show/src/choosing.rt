//! Which messages are shown.

use crate::asked::{Asked, request_in, said};
use crate::choice::Choice;
use crate::line::{Line, is_never_answered};
use crate::pairing::{Fate, Pairing};
use crate::spelling::is_spelled;
use crate::{passed, words};
use fa_bodies::{Reply, RequestBody, opcodes};
use fa_capture::{Direction, Packet};

/// A request with its answer, which was not refused.
#[derive(Drop)]
struct Call<'a> {
    asked: Asked<'a>,
    fate: Fate,
    answer: Option<Reply<'a>>,
}

impl Choice<'_> {
    /// Whether the message of a line is shown.
    pub(crate) fn takes(&self, pairing: &Pairing<'_>, line: &Line<'_>) -> bool {
        if line.number < self.from.unwrap_or(0) || line.number > self.to.unwrap_or(u32::MAX) {
            return false;
        }
        if self.takes_all() {
            return true;
        }
        match call_of(pairing, line) {
            Some(call) => self.takes_call(&call),
            None => false,
        }
    }

    /// Whether there is no filter but numbers.
    fn takes_all(&self) -> bool {
        self.node.is_none() && self.name.is_none() && self.operation.is_none() && !self.unanswered
    }

    /// Whether the messages of a request are shown.
    fn takes_call(&self, call: &Call<'_>) -> bool {
        self.takes_operation(call)
            && self.takes_node(call)
            && self.takes_name(call)
            && self.takes_unanswered(call)
    }

    /// Whether the operation is asked for.
    fn takes_operation(&self, call: &Call<'_>) -> bool {
        match self.operation {
            Some(operation) => match words::operation_name(call.asked.opcode) {
                Some(name) => name == operation,
                None => false,
            },
            None => true,
        }
    }

    /// Whether the node is asked for.
    fn takes_node(&self, call: &Call<'_>) -> bool {
        match self.node {
            Some(node) => call.asked.node == node
                || other_node(&call.asked) == Some(node)
                || given_node(call) == Some(node),
            None => true,
        }
    }

    /// Whether a name is asked for.
    fn takes_name(&self, call: &Call<'_>) -> bool {
        match self.name {
            Some(name) => has_name(&call.asked, name) || lists_name(call, name),
            None => true,
        }
    }

    /// Whether it was never answered, if that is asked for.
    fn takes_unanswered(&self, call: &Call<'_>) -> bool {
        !self.unanswered || is_never_answered(call.fate, &call.asked)
    }
}

/// The request of a line, or the one that it answers, with its answer.
fn call_of<'a>(pairing: &Pairing<'a>, line: &Line<'a>) -> Option<Call<'a>> {
    match line.packet.direction {
        Direction::ToServer => call_with(pairing, &line.packet, line.fate),
        Direction::FromServer => {
            let (number, packet) = line.partner?;
            call_with(pairing, &packet, pairing.fate(number))
        }
    }
}

/// A request with its answer.
fn call_with<'a>(pairing: &Pairing<'a>, packet: &Packet<'a>, fate: Fate) -> Option<Call<'a>> {
    let asked = request_in(packet)?;
    let answer = answer_of(pairing, &asked, fate);
    Some(Call {
        asked,
        fate,
        answer,
    })
}

/// The answer to a request, if it has one that was not refused.
fn answer_of<'a>(pairing: &Pairing<'a>, asked: &Asked<'_>, fate: Fate) -> Option<Reply<'a>> {
    let (number, packet) = pairing.partner(fate)?;
    if pairing.fate(number).code.is_some() {
        return None;
    }
    match &asked.request {
        Ok(request) => said(request, &packet),
        Err(_) => None,
    }
}

/// The new directory of RENAME and RENAME2, and the file of LINK.
fn other_node(asked: &Asked<'_>) -> Option<u64> {
    let Ok(request) = &asked.request else {
        return None;
    };
    match &request.body {
        RequestBody::Rename { newdir, .. } | RequestBody::Rename2 { newdir, .. } => Some(*newdir),
        RequestBody::Link { oldnodeid, .. } => Some(*oldnodeid),
        RequestBody::Passed if asked.opcode == opcodes::RENAME2 => match passed::moved_in(
            asked.behind,
        ) {
            Some(moved) => Some(moved.newdir),
            None => None,
        },
        _ => None,
    }
}

/// The node that an answer gives.
fn given_node(call: &Call<'_>) -> Option<u64> {
    match &call.answer {
        Some(Reply::Entry(entry)) => Some(entry.nodeid()),
        Some(Reply::Created { entry, .. }) => Some(entry.nodeid()),
        _ => None,
    }
}

/// Whether a request has this name.
fn has_name(asked: &Asked<'_>, spelling: &str) -> bool {
    let Ok(request) = &asked.request else {
        return false;
    };
    match &request.body {
        RequestBody::Lookup { name } | RequestBody::Unlink { name } | RequestBody::Rmdir { name } =>
            is_spelled(name, spelling),
        RequestBody::Mknod { name, .. }
        | RequestBody::Mkdir { name, .. }
        | RequestBody::Create { name, .. }
        | RequestBody::Symlink { name, .. } => is_spelled(name, spelling),
        RequestBody::Link { new_name, .. } => is_spelled(new_name, spelling),
        RequestBody::Rename {
            old_name,
            new_name,
            ..
        }
        | RequestBody::Rename2 {
            old_name,
            new_name,
            ..
        } => { is_spelled(old_name, spelling) || is_spelled(new_name, spelling) }
        RequestBody::Passed if asked.opcode == opcodes::RENAME2 => moves_name(
            asked.behind,
            spelling,
        ),
        _ => false,
    }
}

/// Whether a RENAME2 that is not judged has this name.
fn moves_name(body: &[u8], spelling: &str) -> bool {
    match passed::moved_in(body) {
        Some(moved) => is_spelled(moved.old_name, spelling) || is_spelled(moved.new_name, spelling),
        None => false,
    }
}

/// Whether an answer lists this name.
fn lists_name(call: &Call<'_>, spelling: &str) -> bool {
    match &call.answer {
        Some(Reply::Listed(entries)) => {
            for dirent in *entries {
                if is_spelled(dirent.name, spelling) {
                    return true;
                }
            }
            false
        }
        _ => false,
    }
}
