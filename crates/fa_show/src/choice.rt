//! Which messages are shown, and how.

/// Which messages are shown, and how. Those that each of the filters lets through; an answer is shown where its request is.
#[derive(Clone, Copy, Debug, Default)]
pub struct Choice<'a> {
    /// The number of the first message.
    pub from: Option<u32>,
    /// The number of the last message.
    pub to: Option<u32>,
    /// A node: that of the header, the new directory of RENAME and RENAME2, the file of LINK, or the one that the answer gives.
    pub node: Option<u64>,
    /// A name as the lines spell it, without its quotes: one of the request, or an entry of its answer.
    pub name: Option<&'a str>,
    /// The name of an operation.
    pub operation: Option<&'a str>,
    /// Those alone that were never answered.
    pub unanswered: bool,
    /// Nothing is shortened.
    pub whole: bool,
    /// In the place of lines a table of the requests that are shown, with their answers. There an answer is shown where its request is
    /// whatever number it has itself.
    pub summary: bool,
}
