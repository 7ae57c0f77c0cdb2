//! What is drawn: the requests and messages of a window, with their places.

use crate::band::Band;
use crate::bars::Bar;
use crate::diamonds::Diamond;
use crate::exchanges::Exchanges;
use crate::fault::Fault;
use crate::lanes::Lanes;
use crate::layout::COLUMNS;
use crate::mark::Share;
use crate::numbered::count_before;
use crate::overlap::first_overlap;
use crate::taking_effect::moments;
use crate::window::{View, Window};
use fa_bodies::Request;
use fa_capture::{Capture, Direction, Packet};
use fa_order::Entry;
use fa_show::request_in;
use std::alloc::{AllocError, Global};

/// What a picture is of.
#[derive(Clone, Copy)]
pub struct Subject<'a, 'o> {
    pub capture: Capture<'a>,
    /// The entries of an order of its requests; none, if there is no order.
    pub order: &'o [Entry],
    /// What is at fault in them.
    pub fault: Fault,
}

/// A band, with the bars that have a part in it.
#[derive(Drop)]
pub(crate) struct Strip {
    pub band: Band,
    /// The places of the bars.
    pub bars: Vec<usize>,
    /// How many lanes it has: one at least.
    pub lanes: u32,
}

/// What is drawn.
#[derive(Drop)]
pub(crate) struct Scene<'a> {
    /// How many messages the capture has.
    pub messages: u32,
    /// Which of them are drawn; none of a capture that has none.
    pub window: Option<Window>,
    /// Which way each message of the window went.
    directions: Vec<Direction>,
    /// By rising numbers of their requests.
    pub bars: Vec<Bar<'a>>,
    /// By rising numbers.
    pub diamonds: Vec<Diamond<'a>>,
    pub strips: Vec<Strip>,
}

/// Which messages are taken in, and which of them go together.
#[derive(Clone, Copy)]
struct Choice<'e> {
    window: Window,
    exchanges: &'e Exchanges,
}

impl<'a> Scene<'a> {
    /// What is drawn of a capture.
    pub fn of(
        alloc: Global,
        subject: &Subject<'a, '_>,
        exchanges: &Exchanges,
        view: View,
    ) -> Result<Scene<'a>, AllocError> {
        let mut scene = Scene {
            messages: subject.capture.messages,
            window: window_of(subject, exchanges, view),
            directions: Vec::new(alloc),
            bars: Vec::new(alloc),
            diamonds: Vec::new(alloc),
            strips: Vec::new(alloc),
        };
        if let Some(window) = scene.window {
            let choice = Choice { window, exchanges };
            scene.take_messages(alloc, &subject.capture, choice)?;
            scene.take_order(alloc, subject.fault.entries_before(subject.order))?;
            scene.take_bands(alloc, window)?;
        }
        Ok(scene)
    }

    /// Takes in the messages of a capture.
    fn take_messages(
        &mut self,
        alloc: Global,
        capture: &Capture<'a>,
        choice: Choice<'_>,
    ) -> Result<(), AllocError> {
        let mut lanes = Lanes::new(alloc);
        let mut number: u32 = 0;
        for packet in capture.packets() {
            if choice.window.has(number) {
                self.directions.push(packet.direction)?;
            }
            let taken = match packet.direction {
                Direction::ToServer => self.take_request(choice, &mut lanes, number, packet),
                Direction::FromServer => self.take_reply(choice, &mut lanes, number, packet),
            };
            taken?;
            number = number.saturating_add(1);
        }
        Ok(())
    }

    /// Takes in a message to the server.
    fn take_request(
        &mut self,
        choice: Choice<'_>,
        lanes: &mut Lanes,
        number: u32,
        packet: Packet<'a>,
    ) -> Result<(), AllocError> {
        let window = choice.window;
        if number > window.last {
            return Ok(());
        }
        let Some(request) = readable(&packet) else {
            return self.take_alone(window, lanes, number, packet, None);
        };
        let ends = match choice.exchanges.partner(number) {
            Some(answer) => answer,
            None if choice.exchanges.waits(number, &request) => window.last.saturating_add(1),
            None => number,
        };
        if ends < window.first {
            return Ok(());
        }
        let lane = lanes.take(number, ends)?;
        self.bars.push(Bar {
            begins: number,
            ends,
            packet,
            request,
            answer: None,
            lane,
            entry: None,
            mark: None,
        })?;
        Ok(())
    }

    /// Takes in a message of the server.
    fn take_reply(
        &mut self,
        choice: Choice<'_>,
        lanes: &mut Lanes,
        number: u32,
        packet: Packet<'a>,
    ) -> Result<(), AllocError> {
        let Some(asked) = choice.exchanges.ended_by(number) else {
            let answered = match choice.exchanges.partner(number) {
                Some(asked) => match self.bar_mut(asked) {
                    Some(bar) => Some((asked, bar.packet)),
                    None => None,
                },
                None => None,
            };
            return self.take_alone(choice.window, lanes, number, packet, answered);
        };
        if let Some(bar) = self.bar_mut(asked) {
            bar.answer = Some(packet);
        }
        Ok(())
    }

    /// Takes in a message that is no part of a bar.
    fn take_alone(
        &mut self,
        window: Window,
        lanes: &mut Lanes,
        number: u32,
        packet: Packet<'a>,
        answered: Option<(u32, Packet<'a>)>,
    ) -> Result<(), AllocError> {
        if !window.has(number) {
            return Ok(());
        }
        let lane = lanes.take(number, number)?;
        self.diamonds.push(Diamond {
            at: number,
            packet,
            answered,
            lane,
        })?;
        Ok(())
    }

    /// The bar of the request of this number, if it is drawn.
    fn bar_mut(&mut self, asked: u32) -> Option<&mut Bar<'a>> {
        let place = count_before(&self.bars, asked);
        match self.bars.get_mut(place) {
            Some(bar) if bar.begins == asked => Some(bar),
            _ => None,
        }
    }

    /// Takes in the entries of an order.
    fn take_order(&mut self, alloc: Global, order: &[Entry]) -> Result<(), AllocError> {
        let moments = moments(alloc, order)?;
        let mut share = Share::none();
        let mut number: u32 = 0;
        for (entry, behind) in order.iter().zip(moments.iter()) {
            share = share.next(&moments, number, *behind);
            if let Some(bar) = self.bar_mut(entry.at) {
                bar.place(number, *behind, share);
            }
            number = number.saturating_add(1);
        }
        Ok(())
    }

    /// Takes in the bands of the window, with what has a part in them.
    fn take_bands(&mut self, alloc: Global, window: Window) -> Result<(), AllocError> {
        for place in 0..=window.band_of(window.last) {
            let first = window.first.saturating_add(place.saturating_mul(COLUMNS));
            let Some(band) = Band::of(window, first) else {
                break;
            };
            self.strips.push(Strip {
                band,
                bars: Vec::new(alloc),
                lanes: 1,
            })?;
        }
        for diamond in self.diamonds.iter() {
            let place = window.band_of(diamond.at);
            if let Some(strip) = self.strips.get_mut(place as usize) {
                strip.lanes = strip.lanes.max(diamond.lane.saturating_add(1));
            }
        }
        self.take_parts(window)
    }

    /// Takes in which bars have a part in which bands.
    fn take_parts(&mut self, window: Window) -> Result<(), AllocError> {
        let mut place: usize = 0;
        for bar in self.bars.iter() {
            let last = window.band_of(bar.ends.min(window.last));
            for band in window.band_of(bar.begins)..=last {
                if let Some(strip) = self.strips.get_mut(band as usize) {
                    strip.lanes = strip.lanes.max(bar.lane.saturating_add(1));
                    strip.bars.push(place)?;
                }
            }
            place = place.saturating_add(1);
        }
        Ok(())
    }

    /// The messages that stand alone, from one of this number on.
    pub fn diamonds_from(&self, number: u32) -> &[Diamond<'a>] {
        let diamonds = self.diamonds.as_slice();
        let (_, behind) = diamonds.split_at(count_before(diamonds, number));
        behind
    }

    /// Which way the message of this number went. The number is of the window.
    pub fn direction(&self, number: u32) -> Option<Direction> {
        match self.window {
            Some(window) => {
                let place = number.saturating_sub(window.first);
                self.directions.get(place as usize).copied()
            }
            None => None,
        }
    }
}

/// The number of the message around which a picture is, as [`View::around`] says.
///
/// Takes no memory, in the time of [`request_in`] for each message of the capture where none is asked for and nothing is at fault, and else
/// in constant time.
pub fn centre(subject: &Subject<'_, '_>, exchanges: &Exchanges, view: View) -> u32 {
    match (view.around, subject.fault.coded()) {
        (Some(around), _) => around,
        (None, Some((at, _))) => at,
        (None, None) => first_overlap(&subject.capture, exchanges).unwrap_or(0),
    }
}

/// The messages that are drawn, if the capture has any.
fn window_of(subject: &Subject<'_, '_>, exchanges: &Exchanges, view: View) -> Option<Window> {
    let messages = subject.capture.messages;
    if messages == 0 {
        return None;
    }
    let around = centre(subject, exchanges, view).min(messages - 1);
    Some(Window::around(around, view.messages, messages))
}

/// What a message asks for, if it is read.
pub(crate) fn readable<'a>(packet: &Packet<'a>) -> Option<Request<'a>> {
    match request_in(packet) {
        Some(asked) => asked.request.ok(),
        None => None,
    }
}
