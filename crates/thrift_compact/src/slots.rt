//! Slots for the fields of a struct.

ghost use Rattle.std.specs.Prelude.{◌≡◌, true, false};
ghost use Rattle.thrift_compact.specs.declared.slots.Slot.TheVariants.{Missing, Found, Broken};
ghost use Rattle.thrift_compact.specs.Slots.{put, required, optional, counted};

/// What was read of a field. One that stands twice, or can't be read, is broken.
#[derive(Debug, Drop)]
pub enum Slot<T: Drop> {
    /// It wasn't met.
    Missing,
    /// It was met once.
    Found(T),
    /// It stands twice, or has another type or value.
    Broken,
}

// The slot that was free or not, with what was read.
fn filled_by<T: Drop>(free: bool, read: Option<T>) -> Slot<T>
    ensures free { free ≡ true → result ≡ put Missing read }
    ensures taken { free ≡ false → result ≡ Broken }
{
    match read {
        Some(value) if free => Slot::Found(value),
        _ => Slot::Broken,
    }
}

impl<T: Drop> Slot<T> {
    /// Holds what was read of the field, or `None` where that can't be read.
    pub fn put(&mut self, read: Option<T>)
        ensures { self.new ≡ put self.old read }
    {
        let free = matches!(self, Slot::Missing);
        *self = filled_by(free, read);
    }

    /// The value of a required field.
    pub fn required(self) -> Option<T>
        ensures { result ≡ required self }
    {
        match self {
            Slot::Found(value) => Some(value),
            _ => None,
        }
    }

    /// The value of any other field, or `None` where it is broken.
    pub fn optional(self) -> Option<Option<T>>
        ensures { result ≡ optional self }
    {
        match self {
            Slot::Missing => Some(None),
            Slot::Found(value) => Some(Some(value)),
            Slot::Broken => None,
        }
    }
}

impl Slot<i32> {
    /// The value of a required count or size, which isn't negative.
    pub fn counted(self) -> Option<i32>
        ensures { result ≡ counted self }
    {
        match self {
            Slot::Found(value) if value >= 0 => Some(value),
            _ => None,
        }
    }
}

impl Slot<i64> {
    /// The value of a required count or size, which isn't negative.
    pub fn counted(self) -> Option<i64>
        ensures { result ≡ counted self }
    {
        match self {
            Slot::Found(value) if 0 <= value => Some(value),
            _ => None,
        }
    }
}
