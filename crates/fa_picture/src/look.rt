//! How a bar looks.

use crate::band::Band;
use crate::bars::Bar;
use crate::effect::Effect;
use crate::fault::Fault;
use crate::labels::error_of;
use crate::shapes::open;
use fa_show::Text;

/// How a bar looks in a band.
#[derive(Clone, Copy)]
pub(crate) struct Look {
    /// The class of its colours.
    pub class: &'static str,
    pub is_at_fault: bool,
    /// Whether its answer is an error.
    pub is_error: bool,
    pub is_unanswered: bool,
    /// Whether its request stands in a band before.
    pub is_begun: bool,
    /// Whether its answer stands in a band behind.
    pub goes_on: bool,
    /// Whether one of its ends stands in another band.
    pub is_open: bool,
    /// Whether its left edge is thick: where a request begins that may change the tree.
    pub has_edge: bool,
}

impl Look {
    /// How a bar looks in a band.
    pub fn of(bar: &Bar<'_>, band: &Band, fault: Fault) -> Look {
        let effect = Effect::of(&bar.request.body);
        let is_at_fault = bar.is_at_fault(fault);
        let is_error = match &bar.answer {
            Some(answer) => error_of(answer) != 0,
            None => false,
        };
        let is_begun = bar.begins < band.first;
        let goes_on = bar.ends > band.last;
        Look {
            class: if is_at_fault { "bad" } else { effect.class() },
            is_at_fault,
            is_error,
            is_unanswered: bar.is_unanswered(),
            is_begun,
            goes_on,
            is_open: is_begun || goes_on,
            has_edge: !is_begun && matches!(effect, Effect::MayChange),
        }
    }

    /// Writes an element's name with the classes of the bar: a hollow one is answered by an error, a dashed one never.
    pub fn open(&self, text: &mut Text, element: &str) {
        open(text, element, self.class);
        if self.is_error && !self.is_at_fault {
            text.word(" error");
        }
        if self.is_unanswered {
            text.word(" never");
        }
    }
}
