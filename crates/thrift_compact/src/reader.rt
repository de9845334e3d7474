//! One value after the other.

ghost use Rattle.std.specs.Prelude.{◌≡◌, ◌≤◌, length, IfOk, OnErr, drop, pos};
ghost use Rattle.vs_bytes.specs.Outcome.{Gives};
ghost use Rattle.thrift_compact.specs.Ends.{IsEnd};
ghost use Rattle.thrift_compact.specs.Numbers.{signed, int8, binary};
ghost use Rattle.thrift_compact.specs.Headers.{field, list};
ghost use Rattle.thrift_compact.specs.Skipping.{max_nesting, skipped};

use crate::headers::{field_at, list_at};
use crate::numbers::{binary_at, i8_at, i32_at, i64_at};
use crate::skipping::{MAX_NESTING, skip};
use vs_bytes::Rule;

/// Reads a struct in place: the header of a field, then its value, up to the stop.
///
/// It begins in the outer struct. A struct that is a value is entered by `begin`, and left by `end` after its
/// stop. An element of a list follows the one before it. After an `Err` the reader is as before.
#[derive(Clone, Copy)]
pub struct Reader<'a> {
    bytes: &'a [u8],
    // The bytes that are ahead.
    rest: &'a [u8],
    // The id of the last field of the innermost struct.
    last: i16,
    ghost inside: { IsEnd rest.now bytes.now },
}

impl<'a> Reader<'a> {
    ghost use Rattle.thrift_compact.specs.Readers.{ahead, last_id, all_bytes, place, StandsAsBefore, id_after};

    /// A reader of all of `bytes`.
    #[tactic(auto, using(crate::proofs::Ends::all_end), unfolding(crate::specs::Readers::ahead, crate::specs::Readers::last_id, crate::specs::Readers::all_bytes))]
    pub fn new(bytes: &'a [u8]) -> Reader<'a>
        ensures ahead { ahead result ≡ bytes.now }
        ensures bytes { all_bytes result ≡ bytes.now }
        ensures last { last_id result ≡ pos 0 }
    {
        Reader {
            bytes,
            rest: bytes,
            last: 0,
        }
    }

    /// How many bytes were read.
    #[tactic(auto, using(crate::proofs::Ends::end_len), unfolding(crate::specs::Readers::ahead, crate::specs::Readers::all_bytes, crate::specs::Readers::place))]
    pub fn place(&self) -> usize
        ensures read { result ≡ place self.now }
        ensures ahead { drop result (all_bytes self.now) ≡ ahead self.now }
    {
        self.bytes.len() - self.rest.len()
    }

    /// The header of the next field of the innermost struct: id and type, or `None` at the stop.
    #[tactic(auto, using(crate::proofs::Ends::field_still), unfolding(crate::specs::Readers::ahead, crate::specs::Readers::last_id, crate::specs::Readers::all_bytes))]
    pub fn field(&mut self) -> Result<Option<(i16, u8)>, Rule>
        ensures exact { Gives (λ f. (f, ahead self.new)) result (field (last_id self.old) (ahead self.old)) }
        ensures last { IfOk result (λ f. last_id self.new ≡ id_after f (last_id self.old)) }
        ensures bytes { all_bytes self.new ≡ all_bytes self.old }
        ensures err { OnErr result (self.new ≡ self.old) }
    {
        let (head, rest) = field_at(self.last, self.rest)?;
        self.rest = rest;
        if let Some((id, _)) = head {
            self.last = id;
        }
        Ok(head)
    }

    /// An i32, also one of an enum.
    #[tactic(auto, using(crate::proofs::Ends::signed_still), unfolding(crate::specs::Readers::ahead, crate::specs::Readers::last_id, crate::specs::Readers::all_bytes))]
    pub fn i32(&mut self) -> Result<i32, Rule>
        ensures exact { Gives (λ n. (n, ahead self.new)) result (signed 32 (ahead self.old)) }
        ensures same { StandsAsBefore self.old self.new }
        ensures err { OnErr result (self.new ≡ self.old) }
    {
        let (value, rest) = i32_at(self.rest)?;
        self.rest = rest;
        Ok(value)
    }

    /// An i64.
    #[tactic(auto, using(crate::proofs::Ends::signed_still), unfolding(crate::specs::Readers::ahead, crate::specs::Readers::last_id, crate::specs::Readers::all_bytes))]
    pub fn i64(&mut self) -> Result<i64, Rule>
        ensures exact { Gives (λ n. (n, ahead self.new)) result (signed 64 (ahead self.old)) }
        ensures same { StandsAsBefore self.old self.new }
        ensures err { OnErr result (self.new ≡ self.old) }
    {
        let (value, rest) = i64_at(self.rest)?;
        self.rest = rest;
        Ok(value)
    }

    /// An i8.
    #[tactic(auto, using(crate::proofs::Ends::int8_still), unfolding(crate::specs::Readers::ahead, crate::specs::Readers::last_id, crate::specs::Readers::all_bytes))]
    pub fn i8(&mut self) -> Result<i8, Rule>
        ensures exact { Gives (λ n. (n, ahead self.new)) result (int8 (ahead self.old)) }
        ensures same { StandsAsBefore self.old self.new }
        ensures err { OnErr result (self.new ≡ self.old) }
    {
        let (value, rest) = i8_at(self.rest)?;
        self.rest = rest;
        Ok(value)
    }

    /// A binary or string, in place.
    #[tactic(auto, using(crate::proofs::Ends::binary_still), unfolding(crate::specs::Readers::ahead, crate::specs::Readers::last_id, crate::specs::Readers::all_bytes))]
    pub fn binary(&mut self) -> Result<&'a [u8], Rule>
        ensures exact { Gives (λ part. (part.now, ahead self.new)) result (binary (ahead self.old)) }
        ensures same { StandsAsBefore self.old self.new }
        ensures err { OnErr result (self.new ≡ self.old) }
    {
        let (part, rest) = binary_at(self.rest)?;
        self.rest = rest;
        Ok(part)
    }

    /// The header of a list or set: element type and size. The elements follow.
    #[tactic(auto, using(crate::proofs::Ends::list_still), unfolding(crate::specs::Readers::ahead, crate::specs::Readers::last_id, crate::specs::Readers::all_bytes))]
    pub fn list(&mut self) -> Result<(u8, u32), Rule>
        ensures exact { Gives (λ l. (l, ahead self.new)) result (list (ahead self.old)) }
        ensures same { StandsAsBefore self.old self.new }
        ensures err { OnErr result (self.new ≡ self.old) }
    {
        let (head, rest) = list_at(self.rest)?;
        self.rest = rest;
        Ok(head)
    }

    /// Passes over the value of a field of a type. A truth value stands in the field's header, and has no byte.
    #[tactic(auto, using(crate::proofs::Ends::skipped_still), unfolding(crate::specs::Readers::ahead, crate::specs::Readers::last_id, crate::specs::Readers::all_bytes))]
    pub fn skip(&mut self, kind: u8) -> Result<(), Rule>
        ensures exact { Gives (λ _. ahead self.new) result (skipped max_nesting kind (ahead self.old)) }
        ensures same { StandsAsBefore self.old self.new }
        ensures err { OnErr result (self.new ≡ self.old) }
    {
        self.rest = skip(self.rest, kind, MAX_NESTING)?;
        Ok(())
    }

    /// Enters a struct that stands next. Answers the id of the last field of the struct around it, for `end`.
    #[tactic(auto, unfolding(crate::specs::Readers::ahead, crate::specs::Readers::last_id, crate::specs::Readers::all_bytes))]
    pub fn begin(&mut self) -> i16
        ensures outer { result ≡ last_id self.old }
        ensures last { last_id self.new ≡ pos 0 }
        ensures ahead { ahead self.new ≡ ahead self.old }
        ensures bytes { all_bytes self.new ≡ all_bytes self.old }
    {
        let outer = self.last;
        self.last = 0;
        outer
    }

    /// Leaves a struct after its stop. `last` is what its `begin` answered.
    #[tactic(auto, unfolding(crate::specs::Readers::ahead, crate::specs::Readers::last_id, crate::specs::Readers::all_bytes))]
    pub fn end(&mut self, last: i16)
        ensures last { last_id self.new ≡ last }
        ensures ahead { ahead self.new ≡ ahead self.old }
        ensures bytes { all_bytes self.new ≡ all_bytes self.old }
    {
        self.last = last;
    }
}
