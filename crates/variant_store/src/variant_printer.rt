//! `variant`: each document as a Variant (VariantEncoding.md), in hex.

ghost use Rattle.std.specs.Prelude.{◌≡◌, ◌≤◌, ◌++◌, length, OnOk, OnErr};
ghost use Rattle.vs_bytes.specs.Hex.{hex_of};
ghost use Rattle.vs_bytes.specs.Outcome.{Grows};
ghost use Rattle.json_tree.specs.Text.{text_of};
ghost use Rattle.json_tree.specs.View.{view};
ghost use Rattle.variant_meta.specs.Written.{coded_names};
ghost use Rattle.variant_write.specs.Coded.{coded};
ghost use Rattle.variant_write.specs.Conditions.{IsWidths, HasNames, max_text_len};
ghost use Rattle.variant_store.specs.Answer.{variant_text};
ghost use Rattle.variant_store.specs.Stream.{variant};

use crate::printer::Printer;
use json_tree::Tree;
use std::alloc::Global;
use variant_meta::Dictionary;
use variant_write::{Widths, dictionary_of, encode};
use vs_bytes::{NoMemory, hex};

/// Prints the metadata and the value of each document in lower-case hex, with a space between them, as a line.
#[derive(Drop)]
pub struct VariantPrinter {
    widths: Widths,
    // The bytes of a document. Their room serves the next one again.
    bytes: Vec<u8>,
    ghost fits: { IsWidths widths },
}

impl VariantPrinter {
    /// One that hasn't printed yet.
    pub fn new(alloc: Global, widths: Widths) -> VariantPrinter
        requires { IsWidths widths }
        ensures { result.widths ≡ widths }
    {
        VariantPrinter {
            widths,
            bytes: Vec::new(alloc),
        }
    }
}

/// Appends the metadata of the names in hex. `bytes` takes what stands there meanwhile.
fn append_metadata(
    into: &mut Vec<u8>,
    bytes: &mut Vec<u8>,
    dict: &Dictionary,
    least: u8,
) -> Result<(), NoMemory>
    requires least { 1 ≤ least }
    requires most { least ≤ 4 }
    ensures ok { OnOk result (into.new.items ≡ into.old.items ++ hex_of (coded_names least dict.now)) }
    ensures err { OnErr result (into.new.items ≡ into.old.items) }
{
    bytes.clear();
    dict.write(bytes, least)?;
    hex(into, bytes.as_slice())
}

/// Appends the bytes of the value in hex.
fn append_value(
    into: &mut Vec<u8>,
    bytes: &mut Vec<u8>,
    dict: &Dictionary,
    document: &Tree,
    widths: Widths,
) -> Result<(), NoMemory>
    requires names { HasNames dict.now (view document.now) }
    requires small { length (text_of (view document.now)) ≤ max_text_len }
    requires widths { IsWidths widths }
    ensures ok { OnOk result (into.new.items ≡ into.old.items ++ hex_of (coded dict.now (view document.now) widths)) }
    ensures err { OnErr result (into.new.items ≡ into.old.items) }
{
    bytes.clear();
    encode(bytes, dict, document, widths)?;
    hex(into, bytes.as_slice())
}

fn append_line(
    into: &mut Vec<u8>,
    bytes: &mut Vec<u8>,
    dict: &Dictionary,
    document: &Tree,
    widths: Widths,
) -> Result<(), NoMemory>
    requires names { HasNames dict.now (view document.now) }
    requires small { length (text_of (view document.now)) ≤ max_text_len }
    requires widths { IsWidths widths }
    ensures ok { OnOk result (into.new.items ≡ into.old.items ++ variant_text dict.now widths (view document.now)) }
    ensures grows { Grows into.old.items into.new.items }
{
    append_metadata(into, bytes, dict, widths.offset)?;
    into.push(b' ')?;
    append_value(into, bytes, dict, document, widths)?;
    into.push(b'\n')?;
    Ok(())
}

impl Printer for VariantPrinter {
    ghost stream = { λ p. variant p.widths };

    fn print(&mut self, into: &mut Vec<u8>, document: &Tree) -> Result<(), NoMemory> {
        let dict = dictionary_of(*into.allocator(), document)?;
        let before = into.len();
        let done = append_line(into, &mut self.bytes, &dict, document, self.widths);
        if done.is_err() {
            into.truncate(before);
        }
        done
    }
}
