//! The structs of a file's footer (parquet.thrift, FileMetaData, RowGroup, ColumnOrder), read and written.
//!
//! | Module | What it holds |
//! |---|---|
//! | `column_orders` | how the order of a column is read |
//! | `row_groups` | `GroupMeta`: a row group |
//! | `file_metadata` | `FileMeta`: the metadata of a file |
//! | `file_ends` | `MAGIC`, `FOOTER_LIMIT`: what stands at the ends of a file |
//! | `footer_reading` | `read_footer` |
//! | `footer_writing` | `write_footer`; `append_group`, `footer_len`: the length of a footer by its groups' bytes |
//! | `laws` | what is written reads back |
#![tactic(auto)]

mod column_orders;
mod file_ends;
mod file_metadata;
mod footer_reading;
mod footer_writing;
mod laws;
mod row_groups;

pub use column_orders::OrderDraft;
pub use file_ends::{FOOTER_LIMIT, MAGIC};
pub use file_metadata::{FileDraft, FileMeta, FileSlots, GroupList};
pub use footer_reading::read_footer;
pub use footer_writing::{append_group, footer_len, write_footer};
pub use laws::footers_read_back;
pub use row_groups::{ChunkList, GroupDraft, GroupMeta, GroupSlots};
