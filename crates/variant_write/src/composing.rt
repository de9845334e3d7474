//! Objects and arrays whose widths are known only at run time.

ghost use Rattle.std.specs.Prelude.{◌≡◌, ◌<◌, ◌≤◌, ◌^◌, ◌++◌, [], max, true, false, length, All, OnOk};
ghost use Rattle.vs_bytes.specs.Outcome.{Grows};
ghost use Rattle.vs_bytes.specs.Numbers.{width_of};
ghost use Rattle.variant_write.specs.Coded.{greatest, id_size};
ghost use Rattle.variant_write.specs.Conditions.{max_width, IsWidths};
ghost use Rattle.variant_write.specs.Layout.{packed};

use crate::composer::Composer;
use crate::widths::Widths;
use vs_bytes::{NoMemory, width_of};

// The instance of `Composer` for widths that are known only at run time: that of offsets, and that of ids.
macro_rules! composer {
    ([$offset:expr] $($call:tt)*) => {
        match $offset {
            1 => Composer::<1, 1> $($call)*,
            2 => Composer::<2, 1> $($call)*,
            3 => Composer::<3, 1> $($call)*,
            _ => Composer::<4, 1> $($call)*,
        }
    };
    ([$offset:expr, $id:expr] $($call:tt)*) => {
        match ($offset, $id) {
            (1, 1) => Composer::<1, 1> $($call)*,
            (1, 2) => Composer::<1, 2> $($call)*,
            (1, 3) => Composer::<1, 3> $($call)*,
            (1, _) => Composer::<1, 4> $($call)*,
            (2, 1) => Composer::<2, 1> $($call)*,
            (2, 2) => Composer::<2, 2> $($call)*,
            (2, 3) => Composer::<2, 3> $($call)*,
            (2, _) => Composer::<2, 4> $($call)*,
            (3, 1) => Composer::<3, 1> $($call)*,
            (3, 2) => Composer::<3, 2> $($call)*,
            (3, 3) => Composer::<3, 3> $($call)*,
            (3, _) => Composer::<3, 4> $($call)*,
            (_, 1) => Composer::<4, 1> $($call)*,
            (_, 2) => Composer::<4, 2> $($call)*,
            (_, 3) => Composer::<4, 3> $($call)*,
            (_, _) => Composer::<4, 4> $($call)*,
        }
    };
}

fn append_array(
    into: &mut Vec<u8>,
    width: usize,
    ends: &[u32],
    items: &[u8],
) -> Result<(), NoMemory>
    requires least { 1 ≤ width }
    requires most { width ≤ max_width }
    requires few { length ends.now < 2 ^ 32 }
    requires ends { All (λ end. end < 256 ^ width) ends.now }
    ensures ok { OnOk result (into.new.items ≡ into.old.items ++ packed false width 0 [] ends.now items.now) }
    ensures grows { Grows into.old.items into.new.items }
{
    composer!([width] ::append_array(into, ends, items))
}

fn append_object(
    into: &mut Vec<u8>,
    width: usize,
    id_width: usize,
    ids: &[u32],
    ends: &[u32],
    values: &[u8],
) -> Result<(), NoMemory>
    requires least { 1 ≤ width }
    requires most { width ≤ max_width }
    requires id_least { 1 ≤ id_width }
    requires id_most { id_width ≤ max_width }
    requires few { length ends.now < 2 ^ 32 }
    requires ids { All (λ id. id < 256 ^ id_width) ids.now }
    requires ends { All (λ end. end < 256 ^ width) ends.now }
    ensures ok { OnOk result (into.new.items ≡ into.old.items ++ packed true width id_width ids.now ends.now values.now) }
    ensures grows { Grows into.old.items into.new.items }
{
    composer!([width, id_width] ::append_object(into, ids, ends, values))
}

// The bytes of a number, at least `least`.
fn width_for(number: u32, least: u8) -> usize
    requires least { 1 ≤ least }
    requires most { least ≤ max_width }
    ensures value { result ≡ max least (width_of number) }
    ensures least { 1 ≤ result }
    ensures most { result ≤ max_width }
    ensures holds { number < 256 ^ result }
{
    usize::from(least).max(width_of(number))
}

fn greatest(ids: &[u32]) -> u32
    ensures { result ≡ greatest ids.now }
{
    let mut most: u32 = 0;
    for id in ids {
        most = most.max(*id);
    }
    most
}

/// Appends the array of items that end at `ends`. After an `Err` the bytes have grown.
pub(crate) fn compose_array(
    into: &mut Vec<u8>,
    ends: &[u32],
    items: &[u8],
    widths: Widths,
) -> Result<(), NoMemory>
    requires small { length items.now < 2 ^ 32 }
    requires few { length ends.now < 2 ^ 32 }
    requires ends { All (λ end. end ≤ length items.now) ends.now }
    requires widths { IsWidths widths }
    ensures ok { OnOk result (into.new.items ≡ into.old.items ++ packed false (max widths.offset (width_of (length items.now))) 0 [] ends.now items.now) }
    ensures grows { Grows into.old.items into.new.items }
{
    let width = width_for(items.len() as u32, widths.offset);
    append_array(into, width, ends, items)
}

/// Appends the object of fields whose ids are `ids`, and whose values end at `ends`. After an `Err` the bytes have
/// grown.
pub(crate) fn compose_object(
    into: &mut Vec<u8>,
    ids: &[u32],
    ends: &[u32],
    values: &[u8],
    widths: Widths,
) -> Result<(), NoMemory>
    requires small { length values.now < 2 ^ 32 }
    requires few { length ends.now < 2 ^ 32 }
    requires ends { All (λ end. end ≤ length values.now) ends.now }
    requires widths { IsWidths widths }
    ensures ok { OnOk result (into.new.items ≡ into.old.items ++ packed true (max widths.offset (width_of (length values.now))) (id_size widths.id ids.now) ids.now ends.now values.now) }
    ensures grows { Grows into.old.items into.new.items }
{
    let width = width_for(values.len() as u32, widths.offset);
    let id_width = width_for(greatest(ids), widths.id);
    append_object(into, width, id_width, ids, ends, values)
}
