//! Fields, one after the other.

ghost use Rattle.std.specs.Prelude.{◌≡◌, ◌+◌, ◌-◌, ◌<◌, ◌≤◌, ◌^◌, ◌++◌, ◌<ℤ◌, [], ◌∷◌, ℕ, ℤ, List, length, take, pos, true, false, OnOk, OnErr, unsigned_abs, ◌⊎◌, Some, None};
ghost use Rattle.vs_bytes.specs.Outcome.{Grows};
ghost use Rattle.thrift_compact.specs.Trees.{Value, Elements, Fields, bool_value, i8_value, i32_value, i64_value, binary_value, list_value, struct_value, no_elements, no_fields, with_element, with_field};
ghost use Rattle.thrift_compact.specs.Coded.{kind_of, how_many, fields_coded, field_bytes, list_bytes};

use crate::appending::{append_field_header, append_list_header};
use crate::coding::{Code, Int8, Int32, Int64, Part, Truth, append_field};
use std::alloc::Global;
use vs_bytes::NoMemory;

// A struct that is open.
#[derive(Clone, Copy, Debug)]
pub(crate) struct Open {
    // The id of its last field, or 0.
    pub(crate) last: u16,
    // The type of the elements of its last list, and how many of them aren't written.
    pub(crate) kind: u8,
    pub(crate) left: u32,
}

const FRESH: Open = Open {
    last: 0,
    kind: 0,
    left: 0,
};

/// Writes a struct: its fields by their ids, which rise, then the stop.
///
/// It begins in the outer struct. After `list` its elements are written, as many and of the type that it says.
/// `begin` and `begin_item` open a struct inside, and `end` closes it. After an `Err` the writer is as before.
#[derive(Debug, Drop)]
pub struct Writer {
    bytes: Vec<u8>,
    innermost: Open,
    // The structs around the innermost one, the outermost first.
    outer: Vec<Open>,
    ended: bool,
}

impl Writer {
    ghost use Rattle.thrift_compact.specs.Writers.{bytes_of, last_of, kind_left, left_of, outer_of, is_open, Rest, finished, IsAsBefore, WritesField, WritesElement, WritesList, BeginsField, BeginsElement, EndsInner, EndsOuter};
    ghost use Rattle.thrift_compact.specs.declared.writer.Open.{Open};

    /// A writer that stands in the outer struct.
    #[tactic(auto, unfolding(crate::specs::Writers::bytes_of, crate::specs::Writers::last_of, crate::specs::Writers::kind_left, crate::specs::Writers::left_of, crate::specs::Writers::outer_of, crate::specs::Writers::is_open, crate::specs::Writers::finished))]
    pub fn new(alloc: Global) -> Writer
        ensures start { (fs : Fields) → finished result no_elements fs [] ≡ fields_coded 0 fs }
        ensures last { last_of result ≡ 0 }
        ensures left { left_of result ≡ 0 }
        ensures outer { outer_of result ≡ [] }
        ensures open_struct { is_open result ≡ true }
    {
        Writer {
            bytes: Vec::new(alloc),
            innermost: FRESH,
            outer: Vec::new(alloc),
            ended: false,
        }
    }

    /// The bytes that were written.
    #[tactic(auto, unfolding(crate::specs::Writers::bytes_of, crate::specs::Writers::last_of, crate::specs::Writers::kind_left, crate::specs::Writers::left_of, crate::specs::Writers::outer_of, crate::specs::Writers::is_open))]
    pub fn bytes(&self) -> &[u8]
        ensures { result.now ≡ bytes_of self.now }
    {
        self.bytes.as_slice()
    }

    // A field.
    #[tactic(auto, using(crate::proofs::Written::field_done), unfolding(crate::specs::Writers::bytes_of, crate::specs::Writers::last_of, crate::specs::Writers::kind_left, crate::specs::Writers::left_of, crate::specs::Writers::outer_of, crate::specs::Writers::is_open))]
    fn field<C: Code>(&mut self, id: i16, value: &C::Of) -> Result<(), NoMemory>
        requires open_struct { is_open self.old ≡ true }
        requires no_list { left_of self.old ≡ 0 }
        requires rising { pos (last_of self.old) <ℤ id }
        requires fits { C.fits value.now }
        ensures ok { OnOk result (WritesField self.old self.new id (C.tree value.now)) }
        ensures err { OnErr result (IsAsBefore self.old self.new) }
    {
        let before = self.bytes.len();
        match append_field::<C>(&mut self.bytes, self.innermost.last, id, value) {
            Ok(()) => {
                self.innermost.last = id.unsigned_abs();
                Ok(())
            }
            Err(error) => {
                self.bytes.truncate(before);
                Err(error)
            }
        }
    }

    /// Writes an i32, also one of an enum.
    pub fn i32(&mut self, id: i16, number: i32) -> Result<(), NoMemory>
        requires open_struct { is_open self.old ≡ true }
        requires no_list { left_of self.old ≡ 0 }
        requires rising { pos (last_of self.old) <ℤ id }
        ensures ok { OnOk result (WritesField self.old self.new id (i32_value number)) }
        ensures err { OnErr result (IsAsBefore self.old self.new) }
    {
        self.field::<Int32>(id, &number)
    }

    /// Writes an i64.
    pub fn i64(&mut self, id: i16, number: i64) -> Result<(), NoMemory>
        requires open_struct { is_open self.old ≡ true }
        requires no_list { left_of self.old ≡ 0 }
        requires rising { pos (last_of self.old) <ℤ id }
        ensures ok { OnOk result (WritesField self.old self.new id (i64_value number)) }
        ensures err { OnErr result (IsAsBefore self.old self.new) }
    {
        self.field::<Int64>(id, &number)
    }

    /// Writes an i8.
    pub fn i8(&mut self, id: i16, number: i8) -> Result<(), NoMemory>
        requires open_struct { is_open self.old ≡ true }
        requires no_list { left_of self.old ≡ 0 }
        requires rising { pos (last_of self.old) <ℤ id }
        ensures ok { OnOk result (WritesField self.old self.new id (i8_value number)) }
        ensures err { OnErr result (IsAsBefore self.old self.new) }
    {
        self.field::<Int8>(id, &number)
    }

    /// Writes a truth value.
    pub fn boolean(&mut self, id: i16, truth: bool) -> Result<(), NoMemory>
        requires open_struct { is_open self.old ≡ true }
        requires no_list { left_of self.old ≡ 0 }
        requires rising { pos (last_of self.old) <ℤ id }
        ensures ok { OnOk result (WritesField self.old self.new id (bool_value truth)) }
        ensures err { OnErr result (IsAsBefore self.old self.new) }
    {
        self.field::<Truth>(id, &truth)
    }

    /// Writes a binary or string.
    pub fn binary(&mut self, id: i16, bytes: &[u8]) -> Result<(), NoMemory>
        requires open_struct { is_open self.old ≡ true }
        requires no_list { left_of self.old ≡ 0 }
        requires rising { pos (last_of self.old) <ℤ id }
        ensures ok { OnOk result (WritesField self.old self.new id (binary_value bytes.now)) }
        ensures err { OnErr result (IsAsBefore self.old self.new) }
    {
        self.field::<Part>(id, &Part { part: bytes })
    }

    /// Writes the header of a list of `size` elements of type `kind`: i32, binary or struct. They follow.
    #[tactic(auto, unfolding(crate::specs::Writers::bytes_of, crate::specs::Writers::last_of, crate::specs::Writers::kind_left, crate::specs::Writers::left_of, crate::specs::Writers::outer_of, crate::specs::Writers::is_open))]
    pub fn list(&mut self, id: i16, kind: u8, size: u32) -> Result<(), NoMemory>
        requires open_struct { is_open self.old ≡ true }
        requires no_list { left_of self.old ≡ 0 }
        requires rising { pos (last_of self.old) <ℤ id }
        requires kind { (kind ≡ 5) ⊎ (kind ≡ 8) ⊎ (kind ≡ 12) }
        ensures ok { OnOk result (WritesList self.old self.new id kind size) }
        ensures err { OnErr result (IsAsBefore self.old self.new) }
    {
        let before = self.bytes.len();
        match append_list_start(&mut self.bytes, self.innermost.last, id, kind, size) {
            Ok(()) => {
                self.innermost = Open {
                    last: id.unsigned_abs(),
                    kind,
                    left: size,
                };
                Ok(())
            }
            Err(error) => {
                self.bytes.truncate(before);
                Err(error)
            }
        }
    }

    // An element of the last list.
    #[tactic(auto, unfolding(crate::specs::Writers::bytes_of, crate::specs::Writers::last_of, crate::specs::Writers::kind_left, crate::specs::Writers::left_of, crate::specs::Writers::outer_of, crate::specs::Writers::is_open))]
    fn element<C: Code>(&mut self, value: &C::Of) -> Result<(), NoMemory>
        requires open_struct { is_open self.old ≡ true }
        requires wanted { 0 < left_of self.old }
        requires kind { kind_left self.old ≡ kind_of (C.tree value.now) }
        requires fits { C.fits value.now }
        ensures ok { OnOk result (WritesElement self.old self.new (C.tree value.now)) }
        ensures err { OnErr result (IsAsBefore self.old self.new) }
    {
        let before = self.bytes.len();
        match C::write(&mut self.bytes, value) {
            Ok(()) => {
                self.innermost.left -= 1;
                Ok(())
            }
            Err(error) => {
                self.bytes.truncate(before);
                Err(error)
            }
        }
    }

    /// Writes an i32 as an element of the last list.
    pub fn item_i32(&mut self, number: i32) -> Result<(), NoMemory>
        requires open_struct { is_open self.old ≡ true }
        requires wanted { 0 < left_of self.old }
        requires kind { kind_left self.old ≡ 5 }
        ensures ok { OnOk result (WritesElement self.old self.new (i32_value number)) }
        ensures err { OnErr result (IsAsBefore self.old self.new) }
    {
        self.element::<Int32>(&number)
    }

    /// Writes a binary as an element of the last list.
    pub fn item_binary(&mut self, bytes: &[u8]) -> Result<(), NoMemory>
        requires open_struct { is_open self.old ≡ true }
        requires wanted { 0 < left_of self.old }
        requires kind { kind_left self.old ≡ 8 }
        ensures ok { OnOk result (WritesElement self.old self.new (binary_value bytes.now)) }
        ensures err { OnErr result (IsAsBefore self.old self.new) }
    {
        self.element::<Part>(&Part { part: bytes })
    }

    /// Opens a struct that is a field.
    #[tactic(auto, unfolding(crate::specs::Writers::bytes_of, crate::specs::Writers::last_of, crate::specs::Writers::kind_left, crate::specs::Writers::left_of, crate::specs::Writers::outer_of, crate::specs::Writers::is_open))]
    pub fn begin(&mut self, id: i16) -> Result<(), NoMemory>
        requires open_struct { is_open self.old ≡ true }
        requires no_list { left_of self.old ≡ 0 }
        requires rising { pos (last_of self.old) <ℤ id }
        ensures ok { OnOk result (BeginsField self.old self.new id) }
        ensures err { OnErr result (IsAsBefore self.old self.new) }
    {
        let before = self.bytes.len();
        let around = Open {
            last: id.unsigned_abs(),
            kind: self.innermost.kind,
            left: 0,
        };
        match append_begin(
            &mut self.bytes,
            &mut self.outer,
            self.innermost.last,
            id,
            around,
        ) {
            Ok(()) => {
                self.innermost = FRESH;
                Ok(())
            }
            Err(error) => {
                self.bytes.truncate(before);
                Err(error)
            }
        }
    }

    /// Opens a struct that is an element of the last list.
    #[tactic(auto, unfolding(crate::specs::Writers::bytes_of, crate::specs::Writers::last_of, crate::specs::Writers::kind_left, crate::specs::Writers::left_of, crate::specs::Writers::outer_of, crate::specs::Writers::is_open))]
    pub fn begin_item(&mut self) -> Result<(), NoMemory>
        requires open_struct { is_open self.old ≡ true }
        requires wanted { 0 < left_of self.old }
        requires kind { kind_left self.old ≡ 12 }
        ensures ok { OnOk result (BeginsElement self.old self.new) }
        ensures err { OnErr result (IsAsBefore self.old self.new) }
    {
        self.outer.push(Open {
            last: self.innermost.last,
            kind: self.innermost.kind,
            left: self.innermost.left - 1,
        })?;
        self.innermost = FRESH;
        Ok(())
    }

    /// Writes the stop of the innermost open struct.
    #[tactic(auto, unfolding(crate::specs::Writers::bytes_of, crate::specs::Writers::last_of, crate::specs::Writers::kind_left, crate::specs::Writers::left_of, crate::specs::Writers::outer_of, crate::specs::Writers::is_open))]
    pub fn end(&mut self) -> Result<(), NoMemory>
        requires open_struct { is_open self.old ≡ true }
        requires no_list { left_of self.old ≡ 0 }
        ensures inner { OnOk result ((outer : List Open) (around : Open) → outer_of self.old ≡ outer ++ around ∷ [] → EndsInner self.old self.new outer around) }
        ensures outermost { OnOk result (outer_of self.old ≡ [] → EndsOuter self.old self.new) }
        ensures err { OnErr result (IsAsBefore self.old self.new) }
    {
        self.bytes.push(0)?;
        match pop_open(&mut self.outer) {
            Some(around) => self.innermost = around,
            None => self.ended = true,
        }
        Ok(())
    }
}

#[tactic(auto, using(vs_bytes::proofs::Growing::grows_on, crate::proofs::Appended::joined))]
fn append_list_start(
    into: &mut Vec<u8>,
    last: u16,
    id: i16,
    kind: u8,
    size: u32,
) -> Result<(), NoMemory>
    requires { kind ≤ 15 }
    ensures ok { OnOk result (into.new.items ≡ into.old.items ++ (field_bytes last (unsigned_abs id) 9 ++ list_bytes kind size)) }
    ensures grows { Grows into.old.items into.new.items }
{
    append_field_header(into, last, id, 9)?;
    append_list_header(into, kind, size)
}

// The struct around is held as well. After an `Err` the outer structs are as before.
fn append_begin(
    into: &mut Vec<u8>,
    outer: &mut Vec<Open>,
    last: u16,
    id: i16,
    around: Open,
) -> Result<(), NoMemory>
    ensures ok { OnOk result (into.new.items ≡ into.old.items ++ field_bytes last (unsigned_abs id) 12) }
    ensures held { OnOk result (outer.new.items ≡ outer.old.items ++ around ∷ []) }
    ensures grows { Grows into.old.items into.new.items }
    ensures err { OnErr result (outer.new.items ≡ outer.old.items) }
{
    append_field_header(into, last, id, 12)?;
    outer.push(around)?;
    Ok(())
}

#[tactic(auto, using(crate::proofs::Written::last_same, crate::proofs::Written::not_none))]
fn pop_open(outer: &mut Vec<Open>) -> Option<Open>
    ensures inner { (rest : List Open) (around : Open) → outer.old.items ≡ rest ++ around ∷ [] → (result ≡ Some around) × (outer.new.items ≡ rest) }
    ensures outermost { outer.old.items ≡ [] → (result ≡ None) × (outer.new.items ≡ []) }
{
    outer.pop()
}
