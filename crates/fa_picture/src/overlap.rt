//! Requests that were under way at once.

use crate::effect::Effect;
use crate::exchanges::Exchanges;
use crate::scene::readable;
use fa_capture::{Capture, Direction, Packet};

/// The number of the first request on the tree that came while another one had no answer yet, if there is one.
pub(crate) fn first_overlap(capture: &Capture<'_>, exchanges: &Exchanges) -> Option<u32> {
    let mut answered: u32 = 0;
    let mut number: u32 = 0;
    for packet in capture.packets() {
        if acts_on_tree(&packet) {
            if number < answered {
                return Some(number);
            }
            answered = exchanges.partner(number).unwrap_or(u32::MAX);
        }
        number = number.saturating_add(1);
    }
    None
}

/// Whether a message is a request that acts on the tree.
fn acts_on_tree(packet: &Packet<'_>) -> bool {
    if packet.direction == Direction::FromServer {
        return false;
    }
    match readable(packet) {
        Some(request) => !matches!(Effect::of(&request.body), Effect::Apart),
        None => false,
    }
}
