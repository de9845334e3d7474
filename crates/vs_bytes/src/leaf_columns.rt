//! Leaf columns: what a column holds, and the cells and entries of it.

ghost use Rattle.std.specs.Prelude.{◌≡◌};

use crate::byte_list::Bytes;
use crate::rule::Rule;
use crate::sequence::Sequence;

/// A physical type of parquet.thrift, which fixes how a cell is coded.
#[derive(Clone, Copy, PartialEq, Eq, Debug, Drop)]
pub enum Phys {
    /// BOOLEAN.
    Boolean,
    /// INT32.
    Int32,
    /// INT64.
    Int64,
    /// FLOAT.
    Float,
    /// DOUBLE.
    Double,
    /// BYTE_ARRAY.
    ByteArray,
    /// FIXED_LEN_BYTE_ARRAY, with the bytes of a cell.
    Fixed(u32),
    /// Any other.
    Other,
}

/// The kind of values that a leaf column's cells stand for.
#[derive(Clone, Copy, PartialEq, Eq, Debug, Drop)]
pub enum PrimKind {
    /// Bytes as they are: the metadata and the values of Variants.
    Raw,
    /// Truth values.
    Boolean,
    /// Integers of 8 bits.
    Int8,
    /// Integers of 16 bits.
    Int16,
    /// Integers of 32 bits.
    Int32,
    /// Integers of 64 bits.
    Int64,
    /// Decimals of a precision and a scale.
    Decimal {
        /// The precision: how many digits at most.
        p: u8,
        /// The scale: how many of them stand after the point.
        s: u8,
    },
    /// UTF-8 texts.
    Text,
    /// A kind that isn't read, and why.
    Refused(Rule),
}

/// A leaf column.
#[derive(Clone, Copy, PartialEq, Eq, Debug, Drop)]
pub struct Leaf {
    /// The maximum repetition level.
    pub rep: u16,
    /// The maximum definition level.
    pub def: u16,
    /// The physical type.
    pub phys: Phys,
    /// The kind of its values.
    pub prim: PrimKind,
}

impl Leaf {
    /// The leaf with this physical type.
    ///
    /// Where the type is one that was matched, what is put in line after it is made for that type.
    #[inline(always)]
    pub fn of_type(&self, phys: Phys) -> Leaf
        ensures { result ≡ record { rep = self.now.rep; def = self.now.def; phys = phys; prim = self.now.prim } }
    {
        Leaf { phys, ..*self }
    }
}

/// A value of a leaf column.
#[derive(Debug, Drop)]
pub enum Cell {
    /// A truth value.
    Bool(bool),
    /// An integer, or the unscaled integer of a decimal.
    Num(i128),
    /// The bytes of a text, or bytes as they are.
    Bytes(Bytes),
}

/// A value of a leaf column with its levels (the parquet-format README, "Nested Encoding").
#[derive(Debug, Drop)]
pub struct Entry {
    /// The repetition level.
    pub rep: u16,
    /// The definition level.
    pub def: u16,
    /// The value, which stands exactly at the maximum definition level.
    pub value: Option<Cell>,
}

/// Cells in order.
pub type Cells = Sequence<Cell>;

/// Entries in order.
pub type EntryList = Sequence<Entry>;
