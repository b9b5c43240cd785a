//! The shapes of the line of a fault.

/// A line of text with no, one or two numbers.
#[derive(Clone, Copy, Debug)]
pub(crate) enum Line {
    /// A text alone.
    Text(&'static str),
    /// A text, and after a space a number.
    EndsWithNumber(&'static str, u64),
    /// A text, a number, and the text that follows it.
    AroundNumber(&'static str, u64, &'static str),
    /// A text, a number, the text that follows it, and after a space a second number.
    AroundAndEndsWithNumber(&'static str, u64, &'static str, u64),
}
