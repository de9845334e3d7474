//! `scan`: the line of a query for each document.

ghost use Rattle.query_tree.specs.Asked.{query_of};
ghost use Rattle.variant_store.specs.Stream.{scan};

use crate::printer::Printer;
use json_tree::Tree;
use path_query::{Query, print_row};
use vs_bytes::NoMemory;

/// Prints the line of a query for each document on which its filter holds.
#[derive(Drop)]
pub struct QueryPrinter<'q> {
    pub query: &'q Query,
}

impl<'q> Printer for QueryPrinter<'q> {
    ghost stream = { λ p. scan (query_of p.query.now) };

    fn print(&mut self, into: &mut Vec<u8>, document: &Tree) -> Result<(), NoMemory> {
        print_row(into, self.query, Some(document))
    }
}
