//! Which messages the page has.

use crate::exchanges::Exchanges;
use crate::numbered::{Numbered, count_before};
use crate::reasons::mention;
use crate::scene::{Subject, centre};
use crate::window::View;
use fa_capture::{Capture, Packet};
use fa_order::Entry;
use std::alloc::{AllocError, Global};

/// A message of the table.
#[derive(Clone, Copy)]
pub(crate) struct Row<'a> {
    /// Its number.
    pub number: u32,
    pub packet: Packet<'a>,
    /// The place of its entry in the order, if it stands before what is at fault.
    pub entry: Option<u32>,
}

impl Numbered for Row<'_> {
    fn number(&self) -> u32 {
        self.number
    }
}

/// The messages of the table, by rising numbers.
#[derive(Drop)]
pub(crate) struct Table<'a> {
    pub rows: Vec<Row<'a>>,
}

impl<'a> Table<'a> {
    /// So many messages around the one that the view says, as in a picture; and those that the reasons name, each with the one that goes
    /// with it.
    pub fn of(
        alloc: Global,
        subject: &Subject<'a, '_>,
        exchanges: &Exchanges,
        reasons: &[u8],
        view: View,
    ) -> Result<Table<'a>, AllocError> {
        let numbers = numbers(alloc, subject, exchanges, reasons, view)?;
        let mut table = Table {
            rows: Vec::new(alloc),
        };
        table.take_messages(&subject.capture, &numbers)?;
        table.take_order(subject.fault.entries_before(subject.order));
        Ok(table)
    }

    /// Takes in the messages of these numbers, which rise.
    fn take_messages(&mut self, capture: &Capture<'a>, numbers: &[u32]) -> Result<(), AllocError> {
        let mut number: u32 = 0;
        for packet in capture.packets() {
            if numbers.get(self.rows.len()) == Some(&number) {
                self.rows.push(Row {
                    number,
                    packet,
                    entry: None,
                })?;
            }
            number = number.saturating_add(1);
        }
        Ok(())
    }

    /// Takes in the entries of an order.
    fn take_order(&mut self, order: &[Entry]) {
        let mut place: u32 = 0;
        for entry in order {
            let at = count_before(&self.rows, entry.at);
            match self.rows.get_mut(at) {
                Some(row) if row.number == entry.at => row.entry = Some(place),
                _ => {}
            }
            place = place.saturating_add(1);
        }
    }

    /// The row of the message of this number, if it is there.
    pub fn row(&self, number: u32) -> Option<&Row<'a>> {
        match self.rows.get(count_before(&self.rows, number)) {
            Some(row) if row.number == number => Some(row),
            _ => None,
        }
    }
}

/// The numbers of the messages that the table has, each once, rising. Behind them may stand numbers in the reasons that no message has.
fn numbers(
    alloc: Global,
    subject: &Subject<'_, '_>,
    exchanges: &Exchanges,
    reasons: &[u8],
    view: View,
) -> Result<Vec<u32>, AllocError> {
    let count = subject.capture.messages;
    let most = view.messages.max(1);
    let first = centre(subject, exchanges, view)
        .saturating_sub(most / 2)
        .min(count.saturating_sub(most));
    let mut numbers = Vec::new(alloc);
    mention(reasons, &mut numbers)?;
    for number in first..count.min(first.saturating_add(most)) {
        numbers.push(number)?;
    }
    take_partners(&mut numbers, exchanges)?;
    numbers.sort_unstable();
    numbers.dedup();
    Ok(numbers)
}

/// Takes in the numbers of the messages that go with those of these numbers.
fn take_partners(numbers: &mut Vec<u32>, exchanges: &Exchanges) -> Result<(), AllocError> {
    for place in 0..numbers.len() {
        if let Some(number) = numbers.get(place).copied() {
            if let Some(partner) = exchanges.partner(number) {
                numbers.push(partner)?;
            }
        }
    }
    Ok(())
}
