//! The faults of lines.

ghost use Rattle.std.specs.Prelude.{◌≡◌};
ghost use Rattle.exact_json.specs.Faults.{name_of};

/// Why a line has no tree: the first of its faults, in this order, each a property of the whole line.
#[derive(Clone, Copy, PartialEq, Eq, Debug, Drop)]
pub enum DocFault {
    /// It has more than 1,048,576 bytes.
    LineTooLong,
    /// Its bytes aren't UTF-8.
    NotUtf8,
    /// It opens more than 64 brackets at once, quoted ones aside.
    TooDeep,
    /// It is no JSON text (RFC 8259, section 2).
    NotJson,
    /// A `\u` escape names a surrogate that has no partner.
    LoneSurrogate,
    /// An object has a name twice, after escapes.
    DuplicateKey,
    /// A number needs more than 38 digits, or more than 38 places after the point.
    NumberTooWide,
    /// There was no memory for its tree, which says nothing of the line.
    NoMemory,
}

impl DocFault {
    /// The name that is printed.
    pub fn name(&self) -> &'static str
        ensures { result.now ≡ name_of self.now }
    {
        match self {
            DocFault::LineTooLong => "LineTooLong",
            DocFault::NotUtf8 => "NotUtf8",
            DocFault::TooDeep => "TooDeep",
            DocFault::NotJson => "NotJson",
            DocFault::LoneSurrogate => "LoneSurrogate",
            DocFault::DuplicateKey => "DuplicateKey",
            DocFault::NumberTooWide => "NumberTooWide",
            DocFault::NoMemory => "NoMemory",
        }
    }
}
