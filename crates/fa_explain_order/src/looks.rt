//! Which of the lines of what to look at fit.

/// Which of the lines of what to look at fit: one or two by their cases, and whether that of the first tree does.
#[derive(Clone, Copy)]
pub(crate) struct Looks {
    /// The case of the first line, empty of one without a case,
    pub first: &'static str,
    /// and of a second one.
    pub second: Option<&'static str>,
    /// Whether what differs is so from the start, and no answer told it: the tree text may be wrong.
    pub is_from_start: bool,
}

impl Looks {
    /// No line yet: one has to be added.
    pub fn none() -> Self {
        Looks::at("", false)
    }

    /// One line, and that of the first tree where what differs is so from the start.
    pub fn at(case: &'static str, is_from_start: bool) -> Self {
        Looks {
            first: case,
            second: None,
            is_from_start,
        }
    }

    /// One line more, where there was one alone or none.
    pub fn add(&mut self, case: &'static str, is_from_start: bool) {
        if self.first.is_empty() {
            self.first = case;
        } else if self.second.is_none() {
            self.second = Some(case);
        }
        self.is_from_start |= is_from_start;
    }
}
