//! The flaws of a line that is JSON, noted as it is read.

ghost use Rattle.std.specs.Prelude.{◌≡◌, true};

use crate::fault::DocFault;

/// What was seen of the flaws that make a line no document.
#[derive(Drop)]
pub(crate) struct Seen {
    lone: bool,
    repeated: bool,
    wide: bool,
}

impl Seen {
    ghost use Rattle.exact_json.specs.Judging.{fault_of};
    ghost use Rattle.exact_json.specs.Meaning.{flawless, joined, lone_flaw, repeated_flaw, wide_flaw};
    ghost use Rattle.exact_json.specs.Shown.{shown};

    /// No flaw.
    pub fn new() -> Seen
        ensures { shown result ≡ flawless }
    {
        Seen {
            lone: false,
            repeated: false,
            wide: false,
        }
    }

    /// Notes a string, in which a surrogate without its partner was found or not.
    pub fn note_lone(&mut self, found: bool)
        ensures { shown self.new ≡ joined (shown self.old) (lone_flaw found) }
    {
        self.lone = found || self.lone;
    }

    /// Notes an object, in which a name was found twice or not.
    pub fn note_repeated(&mut self, found: bool)
        ensures { shown self.new ≡ joined (shown self.old) (repeated_flaw found) }
    {
        self.repeated = found || self.repeated;
    }

    /// Notes a number that isn't admitted.
    pub fn note_wide(&mut self)
        ensures { shown self.new ≡ joined (shown self.old) (wide_flaw true) }
    {
        self.wide = true;
    }

    /// The first of the faults that the flaws make.
    pub fn fault(&self) -> Option<DocFault>
        ensures { result ≡ fault_of (shown self.now) }
    {
        if self.lone {
            return Some(DocFault::LoneSurrogate);
        }
        if self.repeated {
            return Some(DocFault::DuplicateKey);
        }
        if self.wide {
            return Some(DocFault::NumberTooWide);
        }
        None
    }
}
