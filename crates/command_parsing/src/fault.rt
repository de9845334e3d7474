//! What is wrong with words.

/// What is wrong with the words of a call. It is found before any device is called, in this order.
#[derive(Clone, Copy, PartialEq, Eq, Debug, Drop)]
pub enum BadWords {
    /// They name no command, or aren't those that it takes.
    Usage,
    /// The schema isn't in its grammar.
    BadSchema,
    /// The filter isn't in its grammar.
    BadFilter,
    /// Some relation of the filter doesn't suit its literal.
    BadOrder,
    /// A path isn't in its grammar.
    BadPath,
    /// Two paths have one canonical text.
    RepeatedPath,
}

/// Why words gave no command.
#[derive(Clone, Copy, PartialEq, Eq, Debug, Drop)]
pub enum WordsFault {
    /// They ask for nothing.
    Wrong(BadWords),
    /// There was no memory to read them.
    NoMemory,
}
