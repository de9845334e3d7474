//! What the members of LogicalType hold, read.

ghost use Rattle.std.specs.Prelude.{◌≡◌, ℤ, Option};
ghost use Rattle.vs_bytes.specs.Outcome.{Makes};
ghost use Rattle.thrift_compact.specs.Numbers.{mapped};
ghost use Rattle.thrift_compact.specs.Trees.{Value, unknown};
ghost use Rattle.schema_elements.specs.Unions.{none_met};
ghost use Rattle.schema_elements.specs.LogicalTypes.{member_start, member_finish, empty_put, decimal_shapes, decimal_put, unit_shapes, unit_put, member_of, time_shapes, time_put, time_finish, known_unit, integer_shapes, integer_put, variant_shapes, variant_put};

use crate::entries::{Flag, Small};
use crate::unions::{Inside, UnionSlots, put_member};
use std::alloc::Global;
use thrift_compact::{Int32, Slot, pass};
use thrift_structs::{Draft, StructOf, put};
use vs_bytes::Refusal;

/// The slots of a member of LogicalType.
#[derive(Drop)]
pub struct MemberSlots {
    first: Slot<i32>,
    second: Slot<i32>,
}

impl MemberSlots {
    fn new() -> MemberSlots
        ensures { result ≡ member_start }
    {
        MemberSlots {
            first: Slot::Missing,
            second: Slot::Missing,
        }
    }

    #[tactic(auto, unfolding(crate::specs::LogicalTypes::member_finish))]
    fn finished(self) -> Option<Inside>
        ensures { result ≡ member_finish self }
    {
        let first = self.first.optional()?;
        let second = self.second.optional()?;
        Some(Inside { first, second })
    }
}

/// How a struct without known fields is read, and written.
pub struct EmptyDraft;

impl Draft for EmptyDraft {
    type Held = MemberSlots;

    type Item = Inside;

    ghost shapes = { unknown };

    ghost start = { member_start };

    ghost put = { empty_put };

    ghost finish = { member_finish };

    fn start() -> MemberSlots {
        MemberSlots::new()
    }

    #[tactic(auto, unfolding(thrift_compact::specs::Trees::known_at, thrift_compact::specs::Trees::passed_over))]
    fn field<'a>(
        _held: &mut MemberSlots,
        _alloc: Global,
        _id: i16,
        kind: u8,
        bytes: &'a [u8],
    ) -> Result<&'a [u8], Refusal> {
        Ok(pass(bytes, kind)?)
    }

    fn finished(held: MemberSlots) -> Option<Inside> {
        held.finished()
    }
}

/// How DecimalType is read, and written.
pub struct DecimalDraft;

impl Draft for DecimalDraft {
    type Held = MemberSlots;

    type Item = Inside;

    ghost shapes = { decimal_shapes };

    ghost start = { member_start };

    ghost put = { decimal_put };

    ghost finish = { member_finish };

    fn start() -> MemberSlots {
        MemberSlots::new()
    }

    #[tactic(auto, unfolding(thrift_compact::specs::Trees::known_at, thrift_compact::specs::Trees::at_shape, crate::specs::LogicalTypes::decimal_shapes, crate::specs::LogicalTypes::decimal_put))]
    fn field<'a>(
        held: &mut MemberSlots,
        alloc: Global,
        id: i16,
        kind: u8,
        bytes: &'a [u8],
    ) -> Result<&'a [u8], Refusal> {
        match id {
            1 => put::<Int32>(alloc, &mut held.first, kind, bytes),
            2 => put::<Int32>(alloc, &mut held.second, kind, bytes),
            _ => Ok(pass(bytes, kind)?),
        }
    }

    fn finished(held: MemberSlots) -> Option<Inside> {
        held.finished()
    }
}

/// How TimeUnit is read, and written: as the id of its first known member, or 0.
pub struct UnitDraft;

impl Draft for UnitDraft {
    type Held = UnionSlots;

    type Item = i32;

    ghost shapes = { unit_shapes };

    ghost start = { none_met };

    ghost put = { unit_put };

    ghost finish = { member_of };

    fn start() -> UnionSlots {
        UnionSlots::new()
    }

    #[tactic(auto, unfolding(thrift_compact::specs::Trees::known_at, thrift_compact::specs::Trees::at_shape, crate::specs::LogicalTypes::unit_shapes, crate::specs::LogicalTypes::unit_put))]
    fn field<'a>(
        held: &mut UnionSlots,
        alloc: Global,
        id: i16,
        kind: u8,
        bytes: &'a [u8],
    ) -> Result<&'a [u8], Refusal> {
        match id {
            1 => put_member::<StructOf<EmptyDraft>>(alloc, held, 1, kind, bytes),
            2 => put_member::<StructOf<EmptyDraft>>(alloc, held, 2, kind, bytes),
            3 => put_member::<StructOf<EmptyDraft>>(alloc, held, 3, kind, bytes),
            _ => Ok(pass(bytes, kind)?),
        }
    }

    #[tactic(auto, unfolding(crate::specs::LogicalTypes::member_of))]
    fn finished(held: UnionSlots) -> Option<i32> {
        if held.broken {
            None
        } else {
            Some(i32::from(held.member))
        }
    }
}

/// How TimeType and TimestampType are read, and written.
pub struct TimeDraft;

fn known_unit(unit: Option<i32>) -> Option<i32>
    ensures { result ≡ known_unit unit }
{
    match unit {
        Some(unit) if unit != 0 => Some(unit),
        _ => None,
    }
}

impl Draft for TimeDraft {
    type Held = MemberSlots;

    type Item = Inside;

    ghost shapes = { time_shapes };

    ghost start = { member_start };

    ghost put = { time_put };

    ghost finish = { time_finish };

    fn start() -> MemberSlots {
        MemberSlots::new()
    }

    #[tactic(auto, unfolding(thrift_compact::specs::Trees::known_at, thrift_compact::specs::Trees::at_shape, crate::specs::LogicalTypes::time_shapes, crate::specs::LogicalTypes::time_put))]
    fn field<'a>(
        held: &mut MemberSlots,
        alloc: Global,
        id: i16,
        kind: u8,
        bytes: &'a [u8],
    ) -> Result<&'a [u8], Refusal> {
        match id {
            1 => put::<Flag>(alloc, &mut held.first, kind, bytes),
            2 => put::<StructOf<UnitDraft>>(alloc, &mut held.second, kind, bytes),
            _ => Ok(pass(bytes, kind)?),
        }
    }

    #[tactic(auto, unfolding(crate::specs::LogicalTypes::time_finish))]
    fn finished(held: MemberSlots) -> Option<Inside> {
        let first = held.first.optional()?;
        let second = held.second.optional()?;
        Some(Inside {
            first,
            second: known_unit(second),
        })
    }
}

/// How IntType is read, and written.
pub struct IntegerDraft;

impl Draft for IntegerDraft {
    type Held = MemberSlots;

    type Item = Inside;

    ghost shapes = { integer_shapes };

    ghost start = { member_start };

    ghost put = { integer_put };

    ghost finish = { member_finish };

    fn start() -> MemberSlots {
        MemberSlots::new()
    }

    #[tactic(auto, unfolding(thrift_compact::specs::Trees::known_at, thrift_compact::specs::Trees::at_shape, crate::specs::LogicalTypes::integer_shapes, crate::specs::LogicalTypes::integer_put))]
    fn field<'a>(
        held: &mut MemberSlots,
        alloc: Global,
        id: i16,
        kind: u8,
        bytes: &'a [u8],
    ) -> Result<&'a [u8], Refusal> {
        match id {
            1 => put::<Small>(alloc, &mut held.first, kind, bytes),
            2 => put::<Flag>(alloc, &mut held.second, kind, bytes),
            _ => Ok(pass(bytes, kind)?),
        }
    }

    fn finished(held: MemberSlots) -> Option<Inside> {
        held.finished()
    }
}

/// How VariantType is read, and written.
pub struct VariantDraft;

impl Draft for VariantDraft {
    type Held = MemberSlots;

    type Item = Inside;

    ghost shapes = { variant_shapes };

    ghost start = { member_start };

    ghost put = { variant_put };

    ghost finish = { member_finish };

    fn start() -> MemberSlots {
        MemberSlots::new()
    }

    #[tactic(auto, unfolding(thrift_compact::specs::Trees::known_at, thrift_compact::specs::Trees::at_shape, crate::specs::LogicalTypes::variant_shapes, crate::specs::LogicalTypes::variant_put))]
    fn field<'a>(
        held: &mut MemberSlots,
        alloc: Global,
        id: i16,
        kind: u8,
        bytes: &'a [u8],
    ) -> Result<&'a [u8], Refusal> {
        match id {
            1 => put::<Small>(alloc, &mut held.first, kind, bytes),
            _ => Ok(pass(bytes, kind)?),
        }
    }

    fn finished(held: MemberSlots) -> Option<Inside> {
        held.finished()
    }
}
