//! The kinds of cells by physical type and annotation (VariantShredding.md, "Shredded Value Types"; LogicalTypes.md).

ghost use Rattle.std.specs.Prelude.{◌≡◌, true};
ghost use Rattle.shred_schema.specs.Kinds.{unread, plain_kind, text_kind, narrow_kind, wide_kind, signed_kind, holds_decimals, decimal_kind, decimal_type, kind_read, type_written, note_written};

use vs_bytes::{Phys, Prim, Rule};

/// What the footer says of a leaf column beside its physical type: a logical type, or the converted type that stands
/// for it. A unit is 1 for milliseconds, 2 for microseconds, 3 for nanoseconds.
#[derive(Clone, Copy, PartialEq, Eq, Debug, Drop)]
pub enum Note {
    /// Nothing.
    None,
    /// STRING.
    Text,
    /// LIST.
    List,
    /// DECIMAL.
    Decimal {
        /// The precision.
        p: u8,
        /// The scale.
        s: u8,
    },
    /// INTEGER.
    Integer {
        /// How many bits it has.
        bits: u8,
        /// Whether it has a sign.
        signed: bool,
    },
    /// DATE.
    Date,
    /// TIME.
    Time {
        /// Whether it is adjusted to UTC.
        utc: bool,
        /// The unit.
        unit: u8,
    },
    /// TIMESTAMP.
    Stamp {
        /// Whether it is adjusted to UTC.
        utc: bool,
        /// The unit.
        unit: u8,
    },
    /// UUID.
    Uuid,
    /// FLOAT16.
    Float16,
    /// Any other.
    Other,
}

/// The kind of cells that a leaf column has.
///
/// Precision and scale of a DECIMAL go up to 38, and its integers stand in an INT32, an INT64, a BYTE_ARRAY or a
/// FIXED_LEN_BYTE_ARRAY of 1 to 16 bytes. Floating point is left out, and what isn't in the table isn't read.
pub fn prim_of(phys: Phys, note: Note) -> Prim
    ensures { result ≡ kind_read phys note }
{
    match note {
        Note::None => plain_kind(phys),
        Note::Text => text_kind(phys),
        Note::Decimal { p, s } => decimal_kind(phys, p, s),
        Note::Integer { bits, signed } => integer_kind(phys, bits, signed),
        Note::Float16 => Prim::Refused(Rule::FloatLeftOut),
        Note::List => unread(phys),
        Note::Date => unread(phys),
        Note::Time { .. } => unread(phys),
        Note::Stamp { .. } => unread(phys),
        Note::Uuid => unread(phys),
        Note::Other => unread(phys),
    }
}

/// The physical type and the annotation that are written for a kind of cells. A kind that isn't read has none.
pub fn form_of(prim: Prim) -> (Phys, Note)
    ensures physical { result.0 ≡ type_written prim }
    ensures annotation { result.1 ≡ note_written prim }
{
    match prim {
        Prim::Raw => (Phys::ByteArray, Note::None),
        Prim::Boolean => (Phys::Boolean, Note::None),
        Prim::Int8 => (Phys::Int32, signed_note(8)),
        Prim::Int16 => (Phys::Int32, signed_note(16)),
        Prim::Int32 => (Phys::Int32, Note::None),
        Prim::Int64 => (Phys::Int64, Note::None),
        Prim::Decimal { p, s } => (decimal_type(p), Note::Decimal { p, s }),
        Prim::Text => (Phys::ByteArray, Note::Text),
        Prim::Refused(_) => (Phys::Other, Note::Other),
    }
}

// A kind that isn't read.
fn unread(phys: Phys) -> Prim
    ensures { result ≡ unread phys }
{
    match phys {
        Phys::Float => Prim::Refused(Rule::FloatLeftOut),
        Phys::Double => Prim::Refused(Rule::FloatLeftOut),
        _ => Prim::Refused(Rule::KindNotRead),
    }
}

fn plain_kind(phys: Phys) -> Prim
    ensures { result ≡ plain_kind phys }
{
    match phys {
        Phys::Boolean => Prim::Boolean,
        Phys::Int32 => Prim::Int32,
        Phys::Int64 => Prim::Int64,
        _ => unread(phys),
    }
}

fn text_kind(phys: Phys) -> Prim
    ensures { result ≡ text_kind phys }
{
    match phys {
        Phys::ByteArray => Prim::Text,
        _ => unread(phys),
    }
}

fn signed_kind(phys: Phys, bits: u8) -> Prim
    ensures { result ≡ signed_kind phys bits }
{
    match phys {
        Phys::Int32 => narrow_kind(bits),
        Phys::Int64 => wide_kind(bits),
        _ => unread(phys),
    }
}

fn narrow_kind(bits: u8) -> Prim
    ensures { result ≡ narrow_kind bits }
{
    if bits == 8 {
        Prim::Int8
    } else if bits == 16 {
        Prim::Int16
    } else if bits == 32 {
        Prim::Int32
    } else {
        Prim::Refused(Rule::KindNotRead)
    }
}

fn wide_kind(bits: u8) -> Prim
    ensures { result ≡ wide_kind bits }
{
    if bits == 64 {
        Prim::Int64
    } else {
        Prim::Refused(Rule::KindNotRead)
    }
}

fn holds_decimals(phys: Phys) -> bool
    ensures { result ≡ holds_decimals phys }
{
    match phys {
        Phys::Int32 => true,
        Phys::Int64 => true,
        Phys::ByteArray => true,
        Phys::Fixed(size) => 1 <= size && size <= 16,
        _ => false,
    }
}

fn decimal_kind(phys: Phys, p: u8, s: u8) -> Prim
    ensures { result ≡ decimal_kind phys p s }
{
    if holds_decimals(phys) && p <= 38 && s <= p {
        Prim::Decimal { p, s }
    } else {
        unread(phys)
    }
}

fn integer_kind(phys: Phys, bits: u8, signed: bool) -> Prim
    ensures { result ≡ kind_read phys (Note.Integer bits signed) }
{
    if signed {
        signed_kind(phys, bits)
    } else {
        unread(phys)
    }
}

fn signed_note(bits: u8) -> Note
    ensures { result ≡ Note.Integer bits true }
{
    Note::Integer { bits, signed: true }
}

fn decimal_type(p: u8) -> Phys
    ensures { result ≡ decimal_type p }
{
    if p <= 9 {
        Phys::Int32
    } else if p <= 18 {
        Phys::Int64
    } else {
        Phys::Fixed(16)
    }
}
