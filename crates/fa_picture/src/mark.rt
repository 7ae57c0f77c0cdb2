//! Where an order places a request.

ghost use Rattle.std.specs.Prelude.{◌≤◌, ◌<◌};

use crate::layout::COLUMN;

/// Which part of what is between two messages an entry of an order has.
#[derive(Clone, Copy)]
pub(crate) struct Share {
    /// Its place among the entries that are there too, from 1 on; 0 of no entry.
    pub place: u32,
    /// How many entries are there.
    pub entries: u32,
    pub ghost among: { place ≤ entries },
}

impl Share {
    /// That of no entry, before the first.
    pub fn none() -> Share {
        Share {
            place: 0,
            entries: 0,
        }
    }

    /// The part of the entry of this number, which is placed behind a message, where the entry before has this part: the next one there, or
    /// else the first behind another message. `moments` has, for each entry, the message behind which it is placed.
    pub fn next(&self, moments: &[u32], entry: u32, behind: u32) -> Share {
        if self.place < self.entries {
            return Share {
                place: self.place + 1,
                entries: self.entries,
            };
        }
        Share {
            place: 1,
            entries: count_together(moments, entry, behind).max(1),
        }
    }

    /// How far behind the middle of the message's column it is, of the width of a column: rounded to the nearest.
    fn length(&self) -> u64
        ensures { result ≤ COLUMN }
    {
        let parts = u64::from(self.entries) + 1;
        (u64::from(self.place) * COLUMN + parts / 2) / parts
    }
}

/// How many entries from this one on are placed behind a message, by their `moments`.
fn count_together(moments: &[u32], entry: u32, behind: u32) -> u32 {
    let mut count: u32 = 0;
    for place in entry as usize..moments.len() {
        match moments.get(place) {
            Some(moment) if *moment == behind => count = count.saturating_add(1),
            _ => break,
        }
    }
    count
}

/// The place in the picture at which a request may have taken effect: behind a message, before the next one.
#[derive(Clone, Copy)]
pub(crate) struct Mark {
    /// The number of the request.
    pub asked: u32,
    /// The number of the message with which its bar ends.
    pub ends: u32,
    /// The number of the message behind which it is.
    pub behind: u32,
    /// Which part of what is between that message and the next one it has.
    pub share: Share,
    pub ghost not_before: { asked ≤ behind },
    pub ghost not_after: { behind < ends },
}

impl Mark {
    ghost use Rattle.fa_picture.specs.Columns.{column_middle};

    /// The mark of a request, whose bar ends with a message, behind this message, if that is between them.
    pub fn between(asked: u32, ends: u32, behind: u32, share: Share) -> Option<Mark> {
        if behind < asked || behind >= ends {
            return None;
        }
        Some(Mark {
            asked,
            ends,
            behind,
            share,
        })
    }

    /// Where its middle is on the axis of messages, on which the column of the message `n` begins at `n` widths of a column: between the
    /// request and its answer, of which each is in the middle of its column.
    pub fn middle(&self) -> u64
        ensures after_request { column_middle self.now.asked ≤ result }
        ensures before_answer { result ≤ column_middle self.now.ends }
    {
        u64::from(self.behind) * COLUMN + COLUMN / 2 + self.share.length()
    }
}
