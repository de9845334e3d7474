//! Objects and arrays of values that are there already, written (VariantEncoding.md, "Value encoding").

ghost use Rattle.std.specs.Prelude.{◌≡◌, ◌<◌, ◌≤◌, ◌^◌, ◌++◌, [], true, false, length, All, OnOk, OnErr};
ghost use Rattle.vs_bytes.specs.Outcome.{Grows};
ghost use Rattle.variant_meta.specs.Written.{numbers};
ghost use Rattle.variant_write.specs.Conditions.{max_width, RiseTo};
ghost use Rattle.variant_write.specs.Layout.{count_bytes, head, large_bit, packed};

use variant_meta::{ARRAY_TYPE, OBJECT_TYPE};
use vs_bytes::{Le, NoMemory};

// Counts above this one have 4 bytes.
const MAX_SMALL_COUNT: usize = 255;

/// Writes objects and arrays with offsets of `OW` bytes, and objects with field ids of `IW` bytes, 1 to 4 each.
///
/// What lies in them is there already, as bytes: one item after the other. An end says how many bytes the items up to
/// one have together, so that the last end is the length of all.
pub struct Composer<const OW: usize, const IW: usize>;

impl<const OW: usize, const IW: usize> Composer<OW, IW> {
    /// Appends an object: the ids of its fields, where each field's value ends among all values, and the values,
    /// which lie in the order of the fields without gaps. After an `Err` the bytes are as before.
    pub fn object(
        into: &mut Vec<u8>,
        ids: &[u32],
        ends: &[u32],
        values: &[u8],
    ) -> Result<(), NoMemory>
        requires offset_least { 1 ≤ OW }
        requires offset_most { OW ≤ max_width }
        requires id_least { 1 ≤ IW }
        requires id_most { IW ≤ max_width }
        requires each { length ids.now ≡ length ends.now }
        requires few { length ends.now < 2 ^ 32 }
        requires ids { All (λ id. id < 256 ^ IW) ids.now }
        requires ends { All (λ end. end < 256 ^ OW) ends.now }
        requires rise { RiseTo 0 ends.now (length values.now) }
        ensures ok { OnOk result (into.new.items ≡ into.old.items ++ packed true OW IW ids.now ends.now values.now) }
        ensures err { OnErr result (into.new.items ≡ into.old.items) }
    {
        let before = into.len();
        let done = Self::append_object(into, ids, ends, values);
        if done.is_err() {
            into.truncate(before);
        }
        done
    }

    /// Appends an array: where each item ends among all items, and the items, which lie in order without gaps.
    /// After an `Err` the bytes are as before.
    pub fn array(into: &mut Vec<u8>, ends: &[u32], values: &[u8]) -> Result<(), NoMemory>
        requires offset_least { 1 ≤ OW }
        requires offset_most { OW ≤ max_width }
        requires few { length ends.now < 2 ^ 32 }
        requires ends { All (λ end. end < 256 ^ OW) ends.now }
        requires rise { RiseTo 0 ends.now (length values.now) }
        ensures ok { OnOk result (into.new.items ≡ into.old.items ++ packed false OW 0 [] ends.now values.now) }
        ensures err { OnErr result (into.new.items ≡ into.old.items) }
    {
        let before = into.len();
        let done = Self::append_array(into, ends, values);
        if done.is_err() {
            into.truncate(before);
        }
        done
    }

    /// Appends an object. After an `Err` the bytes have grown.
    #[tactic(auto, using(crate::proofs::Fits::zero_fits), unfolding(crate::specs::Layout::packed))]
    pub(crate) fn append_object(
        into: &mut Vec<u8>,
        ids: &[u32],
        ends: &[u32],
        values: &[u8],
    ) -> Result<(), NoMemory>
        requires offset_least { 1 ≤ OW }
        requires offset_most { OW ≤ max_width }
        requires id_least { 1 ≤ IW }
        requires id_most { IW ≤ max_width }
        requires few { length ends.now < 2 ^ 32 }
        requires ids { All (λ id. id < 256 ^ IW) ids.now }
        requires ends { All (λ end. end < 256 ^ OW) ends.now }
        ensures ok { OnOk result (into.new.items ≡ into.old.items ++ packed true OW IW ids.now ends.now values.now) }
        ensures grows { Grows into.old.items into.new.items }
    {
        into.push(Self::object_head(ends.len()))?;
        append_count(into, ends.len())?;
        append_numbers::<IW>(into, ids)?;
        Le::<OW>::write(into, 0)?;
        append_numbers::<OW>(into, ends)?;
        into.extend_from_slice(values)?;
        Ok(())
    }

    /// Appends an array. After an `Err` the bytes have grown.
    #[tactic(auto, using(crate::proofs::Fits::zero_fits), unfolding(crate::specs::Layout::packed))]
    pub(crate) fn append_array(
        into: &mut Vec<u8>,
        ends: &[u32],
        values: &[u8],
    ) -> Result<(), NoMemory>
        requires offset_least { 1 ≤ OW }
        requires offset_most { OW ≤ max_width }
        requires few { length ends.now < 2 ^ 32 }
        requires ends { All (λ end. end < 256 ^ OW) ends.now }
        ensures ok { OnOk result (into.new.items ≡ into.old.items ++ packed false OW 0 [] ends.now values.now) }
        ensures grows { Grows into.old.items into.new.items }
    {
        into.push(Self::array_head(ends.len()))?;
        append_count(into, ends.len())?;
        Le::<OW>::write(into, 0)?;
        append_numbers::<OW>(into, ends)?;
        into.extend_from_slice(values)?;
        Ok(())
    }

    #[tactic(auto, unfolding(crate::specs::Layout::head))]
    fn object_head(count: usize) -> u8
        requires offset_least { 1 ≤ OW }
        requires offset_most { OW ≤ max_width }
        requires id_least { 1 ≤ IW }
        requires id_most { IW ≤ max_width }
        ensures { result ≡ head true OW IW count }
    {
        OBJECT_TYPE + 4 * (OW as u8 - 1 + 4 * (IW as u8 - 1) + 16 * large_bit(count))
    }

    #[tactic(auto, unfolding(crate::specs::Layout::head))]
    fn array_head(count: usize) -> u8
        requires offset_least { 1 ≤ OW }
        requires offset_most { OW ≤ max_width }
        ensures { result ≡ head false OW 0 count }
    {
        ARRAY_TYPE + 4 * (OW as u8 - 1 + 4 * large_bit(count))
    }
}

#[tactic(auto, unfolding(crate::specs::Layout::is_large, crate::specs::Layout::large_bit))]
fn large_bit(count: usize) -> u8
    ensures value { result ≡ large_bit count }
    ensures bit { result ≤ 1 }
{
    if count > MAX_SMALL_COUNT { 1 } else { 0 }
}

#[tactic(auto, unfolding(crate::specs::Layout::is_large, crate::specs::Layout::count_bytes))]
fn append_count(into: &mut Vec<u8>, count: usize) -> Result<(), NoMemory>
    requires { count < 2 ^ 32 }
    ensures ok { OnOk result (into.new.items ≡ into.old.items ++ count_bytes count) }
    ensures grows { Grows into.old.items into.new.items }
{
    if count > MAX_SMALL_COUNT {
        Le::<4>::write(into, count as u32)
    } else {
        Le::<1>::write(into, count as u32)
    }
}

#[tactic(auto, using(vs_bytes::proofs::Growing::grows_more))]
fn append_numbers<const W: usize>(into: &mut Vec<u8>, list: &[u32]) -> Result<(), NoMemory>
    requires least { 1 ≤ W }
    requires most { W ≤ max_width }
    requires fit { All (λ n. n < 256 ^ W) list.now }
    ensures ok { OnOk result (into.new.items ≡ into.old.items ++ numbers W list.now) }
    ensures grows { Grows into.old.items into.new.items }
{
    for number in list {
        Le::<W>::write(into, *number)?;
    }
    Ok(())
}
