//! Levels.

ghost use Rattle.std.specs.Prelude.{◌≡◌, ◌+◌, ◌<◌, ◌^◌};

/// Where a record stands.
#[derive(Clone, Copy)]
pub(crate) struct Levels {
    /// The repetition level of its first entry.
    pub rep: u16,
    /// How many lists stand round it.
    pub lists: u16,
    /// The definition level that is reached.
    pub def: u16,
}

impl Levels {
    /// Inside an optional part that is there.
    pub(crate) fn deeper(self) -> Levels
        requires { self.def + 1 < 2 ^ 16 }
        ensures { result ≡ record self { def = self.def + 1 } }
    {
        Levels {
            def: self.def + 1,
            ..self
        }
    }

    /// Inside the first item of a list.
    pub(crate) fn first_item(self) -> Levels
        requires level { self.def + 2 < 2 ^ 16 }
        requires lists { self.lists + 1 < 2 ^ 16 }
        ensures { result ≡ record self { lists = self.lists + 1; def = self.def + 2 } }
    {
        Levels {
            rep: self.rep,
            lists: self.lists + 1,
            def: self.def + 2,
        }
    }

    /// Inside a later item of a list.
    pub(crate) fn later_item(self) -> Levels
        requires level { self.def + 2 < 2 ^ 16 }
        requires lists { self.lists + 1 < 2 ^ 16 }
        ensures { result ≡ record { rep = self.lists + 1; lists = self.lists + 1; def = self.def + 2 } }
    {
        Levels {
            rep: self.lists + 1,
            lists: self.lists + 1,
            def: self.def + 2,
        }
    }
}
