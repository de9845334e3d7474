//! The row groups that are closed.

ghost use Rattle.std.specs.Prelude.{◌≡◌, ◌+◌, ◌*◌, ◌^◌, ◌<◌, ◌≤◌, pos, [], length, IfOk, IfSome};
ghost use Rattle.std.specs.List.{flat_map};
ghost use Rattle.vs_bytes.specs.Numbers.{number_bytes};
ghost use Rattle.thrift_structs.specs.Listed.{ListFits};
ghost use Rattle.thrift_structs.specs.ChunkWriting.{ChunkFits};
ghost use Rattle.schema_elements.specs.ElementWriting.{ElementFits};
ghost use Rattle.footer_structs.specs.FooterWriting.{footer_bytes, group_bytes, GroupFits};
ghost use Rattle.closed_groups.specs.ClosedGroups.{group_meta, meta_of, Closes, PutsGroup, ending_of};

use footer_structs::{
    ChunkList, FOOTER_LIMIT, FileMeta, GroupMeta, MAGIC, append_group, footer_len, write_footer,
};
use schema_elements::ElementList;
use std::alloc::Global;
use std::marker::Model;
use vs_bytes::{Bytes, NoMemory, Sequence};

/// So many bytes are in no memory.
const MOST_BYTES: usize = 1 << 62;

/// Why a group isn't closed.
#[derive(Clone, Copy, PartialEq, Eq, Debug, Drop)]
pub enum Unclosed {
    /// The footer would be so long with the group.
    TooLong(u64),
    /// There was no memory.
    NoMemory,
}

// The struct of a group.
fn struct_of(columns: ChunkList, size: u64, rows: u64) -> GroupMeta
    requires size { size < 2 ^ 63 }
    requires rows { rows < 2 ^ 63 }
    ensures { result ≡ group_meta columns size rows }
{
    GroupMeta {
        columns,
        total_byte_size: size as i64,
        num_rows: rows as i64,
    }
}

// How many bytes a group has in a footer.
fn group_len(alloc: Global, group: &GroupMeta) -> Result<usize, NoMemory>
    requires { GroupFits group.now }
    ensures len { IfOk result (λ len. len ≡ length (group_bytes group.now)) }
    ensures small { IfOk result (λ len. len < 2 ^ 62) }
{
    let mut bytes = Vec::new(alloc);
    append_group(&mut bytes, group)?;
    if bytes.len() >= MOST_BYTES {
        return Err(NoMemory);
    }
    Ok(bytes.len())
}

// Puts a group after the others, of which the file has `before` rows and the footer `coded` bytes, if the footer isn't
// too long with it. Else nothing changes.
fn put_group(
    alloc: Global,
    meta: &mut FileMeta,
    before: u64,
    coded: usize,
    group: GroupMeta,
    rows: u64,
    len: usize,
) -> Result<(), Unclosed>
    requires schema { ListFits ElementFits meta.old.schema }
    requires orders { IfSome meta.old.column_orders (ListFits (λ order. Unit {0})) }
    requires few { length meta.old.row_groups + 1 < 2 ^ 32 }
    requires counted { meta.old.num_rows ≡ pos before }
    requires coded { coded ≡ length (flat_map group_bytes meta.old.row_groups) }
    requires len { len ≡ length (group_bytes group) }
    requires fit { coded + len < 2 ^ 63 }
    requires rows { before + rows < 2 ^ 63 }
    ensures { PutsGroup meta.old meta.new (before + rows) group result }
{
    let old = meta.num_rows;
    let groups = meta.row_groups.len() as u32 + 1;
    meta.num_rows = (before + rows) as i64;
    match footer_len(alloc, meta, groups, coded + len) {
        Ok(footer) => {
            if footer > FOOTER_LIMIT {
                meta.num_rows = old;
                return Err(Unclosed::TooLong(footer as u64));
            }
        }
        Err(_) => {
            meta.num_rows = old;
            return Err(Unclosed::NoMemory);
        }
    }
    match meta.row_groups.push(group) {
        Ok(()) => Ok(()),
        Err(_) => {
            meta.num_rows = old;
            Err(Unclosed::NoMemory)
        }
    }
}

/// The row groups of a file that are closed.
#[derive(Drop)]
pub struct ClosedGroups {
    alloc: Global,
    meta: FileMeta,
    coded: usize,
    rows: u64,
    place: u64,
}

impl Model for ClosedGroups {
    ghost use Rattle.footer_structs.specs.Footers.{orders_in};
    ghost use Rattle.closed_groups.specs.ClosedGroups.{Closed, IsSound};

    ghost Value = { Closed };

    ghost view = { λ g. record {
      schema = g.meta.schema;
      orders = orders_in g.meta.column_orders;
      groups = g.meta.row_groups;
      place = g.place;
    } };

    ghost invariant = { λ g. IsSound g.meta g.coded g.rows g.place };
}

impl ClosedGroups {
    /// No groups: the first one begins after the magic number. `orders` are the orders of the leaves, as in
    /// `FileMeta`.
    pub fn new(
        alloc: Global,
        schema: ElementList,
        orders: Sequence<i32>,
    ) -> Result<ClosedGroups, NoMemory>
        requires schema { ListFits ElementFits schema }
        requires orders { length orders < 2 ^ 32 }
        ensures { IfOk result (λ g. g ≡ record { schema = schema; orders = orders; groups = []; place = 4 }) }
    {
        let created_by = Bytes::from_slice(alloc, b"vstore 1")?;
        Ok(ClosedGroups {
            alloc,
            meta: FileMeta {
                version: 1,
                schema,
                num_rows: 0,
                row_groups: Sequence::new(alloc),
                created_by: Some(created_by),
                column_orders: Some(orders),
            },
            coded: 0,
            rows: 0,
            place: 4,
        })
    }

    /// The place after the last group.
    pub fn place(&self) -> u64
        ensures place { result ≡ self.now.place }
        ensures low { result < 2 ^ 62 }
    {
        self.place
    }

    /// Puts a group after the others: the structs of its chunks, which have `size` bytes, and how many rows it has.
    /// It isn't put there where the footer would be longer than 67,108,864 bytes.
    pub fn close(&mut self, columns: ChunkList, size: u64, rows: u64) -> Result<(), Unclosed>
        requires fits { ListFits ChunkFits columns }
        requires size { size ≤ 2 ^ 30 * length columns }
        requires rows { rows ≤ 2 ^ 25 }
        ensures { Closes self.old self.new (group_meta columns size rows) size result }
    {
        let group = struct_of(columns, size, rows);
        let len = match group_len(self.alloc, &group) {
            Ok(len) => len,
            Err(_) => return Err(Unclosed::NoMemory),
        };
        match put_group(
            self.alloc,
            &mut self.meta,
            self.rows,
            self.coded,
            group,
            rows,
            len,
        ) {
            Ok(()) => {
                self.coded += len;
                self.rows += rows;
                self.place += size;
                Ok(())
            }
            Err(Unclosed::TooLong(footer)) => Err(Unclosed::TooLong(footer)),
            Err(Unclosed::NoMemory) => Err(Unclosed::NoMemory),
        }
    }

    /// The end of the file: the footer, its length, and the magic number.
    pub fn ending(&self) -> Result<Bytes, NoMemory>
        ensures { IfOk result (λ bytes. bytes ≡ ending_of (footer_bytes (meta_of self.now))) }
    {
        let mut bytes = Vec::new(self.alloc);
        write_footer(&mut bytes, &self.meta)?;
        let len = bytes.len();
        bytes.extend_from_slice(&low_bytes(len))?;
        bytes.extend_from_slice(MAGIC)?;
        Bytes::from_vec(bytes)
    }
}

// The lowest four bytes of a number, the lowest byte first.
fn low_bytes(number: usize) -> [u8; 4]
    ensures { result ≡ number_bytes 4 number }
{
    let second = number / 256;
    let third = second / 256;
    let fourth = third / 256;
    [
        (number % 256) as u8,
        (second % 256) as u8,
        (third % 256) as u8,
        (fourth % 256) as u8,
    ]
}
