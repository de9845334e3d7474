//! The column of a name in the metadata of a file.

ghost use Rattle.std.specs.Prelude.{◌≡◌, ◌+◌, ◌<◌, All, length, IfOk};
ghost use Rattle.vs_bytes.specs.Outcome.{Makes};
ghost use Rattle.shred_schema.specs.Groups.{width};
ghost use Rattle.shred_schema.specs.Lawful.{IsWellFormed};
ghost use Rattle.shred_schema.specs.Views.{group_of};
ghost use Rattle.file_columns.specs.Columns.{column_of};
ghost use Rattle.file_columns.specs.Views.{shown};
ghost use Rattle.schema_elements.specs.SchemaTrees.{leaf_count};
ghost use Rattle.footer_structs.specs.Footers.{orders_in};

use file_columns::FileColumn;
use footer_structs::FileMeta;
use std::alloc::Global;
use vs_bytes::{Refusal, Sequence};

fn orders_in(orders: &Option<Sequence<i32>>) -> &[i32]
    ensures { result.now ≡ orders_in orders.now }
{
    match orders {
        Some(orders) => orders.as_slice(),
        None => &[],
    }
}

/// The column of a name in the metadata of a file: `file_columns::column` of its schema and its orders.
pub fn column(alloc: Global, meta: &FileMeta, name: &str) -> Result<FileColumn, Refusal>
    ensures exact { Makes shown result (column_of meta.now.schema name.now (orders_in meta.now.column_orders)) }
    ensures well_formed { IfOk result (λ found. IsWellFormed (group_of found.column.node)) }
    ensures leaves { IfOk result (λ found. length found.leaves ≡ 1 + width (group_of found.column.node)) }
    ensures places { IfOk result (λ found. length found.places ≡ 1 + width (group_of found.column.node)) }
    ensures within { IfOk result (λ found. All (λ place. place < leaf_count meta.now.schema) found.places) }
    ensures ordered { IfOk result (λ found. length found.ordered ≡ 1 + width (group_of found.column.node)) }
{
    file_columns::column(
        alloc,
        meta.schema.as_slice(),
        name,
        orders_in(&meta.column_orders),
    )
}
