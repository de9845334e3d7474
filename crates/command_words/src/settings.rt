//! How Variant values and files are written, as words give it.

ghost use Rattle.std.specs.Prelude.{◌≤◌};

/// The least widths of offsets and of field ids that words give, 1 to 4 bytes each.
#[derive(Clone, Copy, Drop)]
pub struct WidthWords {
    pub offset_width: u8,
    pub id_width: u8,
    ghost offset_fits: { (1 ≤ offset_width) × (offset_width ≤ 4) },
    ghost id_fits: { (1 ≤ id_width) × (id_width ≤ 4) },
}

/// How a file is written: the text of the schema, the least widths of offsets and of field ids, and the limits
/// of a page, in bytes, and of a row group, in rows.
#[derive(Clone, Copy, Drop)]
pub struct WritingWords<'a> {
    pub schema: &'a str,
    pub widths: WidthWords,
    pub page_bytes: u32,
    pub group_rows: u32,
    ghost pages_fit: { (1024 ≤ page_bytes) × (page_bytes ≤ 16777216) },
    ghost groups_fit: { (1 ≤ group_rows) × (group_rows ≤ 100000) },
}
