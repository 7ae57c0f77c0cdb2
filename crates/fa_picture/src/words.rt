//! The words of what is drawn.

use crate::bars::Bar;
use crate::diamonds::Diamond;
use crate::exchanges::Exchanges;
use crate::labels::{self, Detail};
use crate::look::Look;
use fa_capture::Direction;
use fa_show::{Text, message_in, words};
use std::alloc::{AllocError, Global};

/// How many bytes there is room for in the lines of two messages. Where names and data are shortened, these are fewer.
const TITLE_ROOM: usize = 16_384;

/// How many bytes there is room for in a word of a bar. Two names that are shortened are fewer.
const WORD_ROOM: usize = 1_024;

/// The words of a bar, or of a message that stands alone.
#[derive(Drop)]
pub(crate) struct Words {
    /// What is shown where one points at it: the lines of its messages.
    pub title: Text,
    /// The operation.
    pub operation: Text,
    /// What it acts on.
    pub objects: Text,
    /// What came of it.
    pub result: Text,
}

impl Words {
    /// No words.
    pub fn new(alloc: Global) -> Result<Words, AllocError> {
        Ok(Words {
            title: Text::new(alloc, TITLE_ROOM, false)?,
            operation: Text::new(alloc, WORD_ROOM, false)?,
            objects: Text::new(alloc, WORD_ROOM, false)?,
            result: Text::new(alloc, WORD_ROOM, false)?,
        })
    }

    /// Takes the words of a bar. Where its request stands in a band before, its number stands before the operation.
    pub fn take_bar(&mut self, exchanges: &Exchanges, bar: &Bar<'_>, look: &Look) {
        self.take_title(exchanges, bar);
        self.operation.begin(0);
        if look.is_begun {
            self.operation.number(u64::from(bar.begins));
            self.operation.word(" ");
            words::operation(&mut self.operation, bar.request.opcode);
        } else {
            labels::operation(&mut self.operation, &bar.request);
        }
        self.objects.begin(0);
        labels::objects(&mut self.objects, &bar.request, Detail::Extent);
        self.result.begin(0);
        if let Some(answer) = &bar.answer {
            labels::result(&mut self.result, &bar.request, answer);
        }
    }

    /// Takes the lines of a request and of its answer, and its place in the order.
    fn take_title(&mut self, exchanges: &Exchanges, bar: &Bar<'_>) {
        self.title.begin(0);
        exchanges
            .line(bar.begins, bar.packet, None)
            .write(&mut self.title);
        if let Some(answer) = bar.answer {
            exchanges
                .line(bar.ends, answer, Some((bar.begins, bar.packet)))
                .write(&mut self.title);
        }
        if let Some(entry) = bar.entry {
            self.title.field("entry ", u64::from(entry));
            self.title.word(" of the order");
        }
    }

    /// Takes the words of a message that stands alone.
    pub fn take_diamond(&mut self, exchanges: &Exchanges, diamond: &Diamond<'_>) {
        self.title.begin(0);
        exchanges
            .line(diamond.at, diamond.packet, diamond.answered)
            .write(&mut self.title);
        self.result.begin(0);
        match (diamond.packet.direction, message_in(&diamond.packet)) {
            (Direction::FromServer, Some(told)) => labels::alone(&mut self.result, &told),
            _ => self.result.word("unreadable"),
        }
    }

    /// The lines of a title, without the line feed behind the last one.
    pub fn title_lines(&self) -> &[u8] {
        let lines = self.title.as_bytes();
        match lines.split_last() {
            Some((b'\n', before)) => before,
            _ => lines,
        }
    }
}
