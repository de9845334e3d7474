//! The types of values (VariantEncoding.md, "Value encoding"), as `specs/TypeIds.antt` names them.

/// The basic type of primitive values.
pub const PRIMITIVE_TYPE: u8 = 0;

/// The basic type of short strings.
pub const SHORT_STRING_TYPE: u8 = 1;

/// The basic type of objects.
pub const OBJECT_TYPE: u8 = 2;

/// The basic type of arrays.
pub const ARRAY_TYPE: u8 = 3;

/// The type id of null.
pub const NULL_ID: u8 = 0;

/// The type id of true.
pub const TRUE_ID: u8 = 1;

/// The type id of false.
pub const FALSE_ID: u8 = 2;

/// The type id of integers of 1 byte.
pub const INT8_ID: u8 = 3;

/// The type id of integers of 2 bytes.
pub const INT16_ID: u8 = 4;

/// The type id of integers of 4 bytes.
pub const INT32_ID: u8 = 5;

/// The type id of integers of 8 bytes.
pub const INT64_ID: u8 = 6;

/// The type id of floating-point numbers of 8 bytes.
pub const DOUBLE_ID: u8 = 7;

/// The type id of decimals of 4 bytes.
pub const DECIMAL4_ID: u8 = 8;

/// The type id of decimals of 8 bytes.
pub const DECIMAL8_ID: u8 = 9;

/// The type id of decimals of 16 bytes.
pub const DECIMAL16_ID: u8 = 10;

/// The type id of floating-point numbers of 4 bytes.
pub const FLOAT_ID: u8 = 14;

/// The type id of strings that aren't short ones.
pub const STRING_ID: u8 = 16;

/// The greatest type id of the standard, that of uuid.
pub const LAST_TYPE_ID: u8 = 20;
