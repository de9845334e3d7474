//! Why bytes aren't in their format.

ghost use Rattle.std.specs.Prelude.{◌≡◌};
ghost use Rattle.vs_bytes.specs.RuleNames.{name_of};

/// What the bytes of a file, a page or a value violate.
///
/// A reader answers the first violation in the order that its definition states.
#[derive(Clone, Copy, PartialEq, Eq, Debug, Drop)]
pub enum Rule {
    /// It has no magic number `PAR1` at one of its ends, or fewer than 12 bytes.
    NotParquet,
    /// The footer's length is over its limit, or passes the file.
    FooterLength,
    /// Bytes in the Thrift compact protocol end early, or have a number, a type or a nesting out of range.
    Thrift,
    /// A field of the footer has another type, stands twice, is missing, or has a value out of range.
    FooterField,
    /// Row counts don't agree.
    RowCount,
    /// No child of the schema's root has the column's name.
    NoVariant,
    /// The column's schema isn't that of a shredded Variant.
    SchemaShape,
    /// The column has more leaf columns than the limit.
    TooManyLeaves,
    /// A floating point number, which this project doesn't read.
    FloatLeftOut,
    /// A kind of value that isn't read.
    KindNotRead,
    /// A compressed column chunk.
    Codec,
    /// A column chunk over its limit.
    ChunkTooLarge,
    /// A column chunk outside the file's data.
    ChunkRange,
    /// A page header has another type, stands twice, is missing, or has a size out of range.
    PageHeader,
    /// A kind of page that isn't read there.
    PageKind,
    /// An encoding that isn't read.
    Encoding,
    /// The bytes of a run end early.
    RunShort,
    /// A run has more values than are left.
    RunTooLong,
    /// A level above the maximum.
    LevelRange,
    /// The bytes of plain values end early.
    PlainShort,
    /// A decimal of more than 38 digits.
    DecimalDigits,
    /// A text that isn't UTF-8.
    TextUtf8,
    /// An index that isn't below the dictionary's length.
    DictionaryIndex,
    /// The entries of the pages aren't as many as the column chunk says.
    ValueCount,
    /// A bound in the statistics that is no value of its leaf column.
    StatBytes,
    /// Statistics that aren't accurate.
    StatFalse,
    /// Levels that are those of no row.
    LevelMismatch,
    /// Metadata that ends early.
    MetaShort,
    /// Metadata of another version than 1.
    MetaVersion,
    /// Offsets of names that don't begin at 0, or fall.
    MetaOffsets,
    /// A name in the metadata that isn't UTF-8.
    MetaUtf8,
    /// Names that don't strictly rise, though the metadata says that they are sorted.
    MetaOrder,
    /// A value that ends early.
    ValueShort,
    /// A type id that the standard doesn't have.
    TypeId,
    /// A decimal of a scale above 38.
    DecimalScale,
    /// A field id that isn't below the dictionary's size.
    FieldId,
    /// Fields of an object that aren't in the order of their names.
    FieldOrder,
    /// Offsets of items that pass the last offset, or items that are longer together.
    Offsets,
    /// Arrays and objects nested deeper than the limit.
    ValueTooDeep,
    /// A value and a typed value where only one may be.
    BothPresent,
    /// A field of the schema that the residual value has too.
    FieldInBoth,
    /// An element with neither a value nor a typed value.
    ElementMissing,
    /// An object in the residual value where the typed value is missing.
    ObjectWithoutTyped,
    /// A residual value that is no object, beside typed fields.
    PartialNotObject,
}

impl Rule {
    /// The name that is printed.
    pub fn name(self) -> &'static str
        ensures { result.now ≡ name_of self }
    {
        match self {
            Rule::NotParquet => "NotParquet",
            Rule::FooterLength => "FooterLength",
            Rule::Thrift => "Thrift",
            Rule::FooterField => "FooterField",
            Rule::RowCount => "RowCount",
            Rule::NoVariant => "NoVariant",
            Rule::SchemaShape => "SchemaShape",
            Rule::TooManyLeaves => "TooManyLeaves",
            Rule::FloatLeftOut => "FloatLeftOut",
            Rule::KindNotRead => "KindNotRead",
            Rule::Codec => "Codec",
            Rule::ChunkTooLarge => "ChunkTooLarge",
            Rule::ChunkRange => "ChunkRange",
            Rule::PageHeader => "PageHeader",
            Rule::PageKind => "PageKind",
            Rule::Encoding => "Encoding",
            Rule::RunShort => "RunShort",
            Rule::RunTooLong => "RunTooLong",
            Rule::LevelRange => "LevelRange",
            Rule::PlainShort => "PlainShort",
            Rule::DecimalDigits => "DecimalDigits",
            Rule::TextUtf8 => "TextUtf8",
            Rule::DictionaryIndex => "DictionaryIndex",
            Rule::ValueCount => "ValueCount",
            Rule::StatBytes => "StatBytes",
            Rule::StatFalse => "StatFalse",
            Rule::LevelMismatch => "LevelMismatch",
            Rule::MetaShort => "MetaShort",
            Rule::MetaVersion => "MetaVersion",
            Rule::MetaOffsets => "MetaOffsets",
            Rule::MetaUtf8 => "MetaUtf8",
            Rule::MetaOrder => "MetaOrder",
            Rule::ValueShort => "ValueShort",
            Rule::TypeId => "TypeId",
            Rule::DecimalScale => "DecimalScale",
            Rule::FieldId => "FieldId",
            Rule::FieldOrder => "FieldOrder",
            Rule::Offsets => "Offsets",
            Rule::ValueTooDeep => "ValueTooDeep",
            Rule::BothPresent => "BothPresent",
            Rule::FieldInBoth => "FieldInBoth",
            Rule::ElementMissing => "ElementMissing",
            Rule::ObjectWithoutTyped => "ObjectWithoutTyped",
            Rule::PartialNotObject => "PartialNotObject",
        }
    }
}
