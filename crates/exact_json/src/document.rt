//! Whole lines, each one JSON text (RFC 8259, section 2).

ghost use Rattle.std.specs.Prelude.{◌≡◌, IfOk, cond};
ghost use Rattle.json_tree.specs.Order.{IsOrdered};
ghost use Rattle.json_tree.specs.View.{view};
ghost use Rattle.json_grammar.specs.Reading.{document_at};
ghost use Rattle.exact_json.specs.Brackets.{is_too_deep};
ghost use Rattle.exact_json.specs.Judging.{Gives, judged_text, fault_or, fault_of};
ghost use Rattle.exact_json.specs.declared.fault.DocFault.TheVariants.{TooDeep, NotJson};
ghost use Rattle.exact_json.specs.Meaning.{Answers};
ghost use Rattle.vs_bytes.specs.Outcome.{Reads};
ghost use Rattle.exact_json.specs.Parsing.{told_text};
ghost use Rattle.exact_json.specs.Shown.{shown};

use crate::brackets::is_too_deep;
use crate::fault::DocFault;
use crate::scan::past_gap;
use crate::seen::Seen;
use crate::values::read_value;
use json_lines::LINE_LIMIT;
use json_tree::Tree;
use std::alloc::Global;
use vs_bytes::{Absent, Refused};

// The greatest number of arrays and objects that are open at once.
pub(crate) const DEPTH_LIMIT: u32 = 64;

/// Reads the value of a line, or tells the first of its faults.
///
/// The members of an object stand in the order of their names.
pub fn read_line(alloc: Global, line: &[u8]) -> Result<Tree, DocFault>
    ensures exact { Answers view line.now result }
    ensures ordered { IfOk result (λ tree. IsOrdered (view tree)) }
{
    if line.len() > LINE_LIMIT {
        return Err(DocFault::LineTooLong);
    }
    match std::str::from_utf8(line) {
        Ok(_) => read_text(alloc, line),
        Err(_) => Err(DocFault::NotUtf8),
    }
}

// Of a line that is UTF-8 and not too long.
fn read_text(alloc: Global, line: &[u8]) -> Result<Tree, DocFault>
    ensures { Gives view result (judged_text line.now) }
{
    let mut noted = Seen::new();
    match read_document(alloc, line, &mut noted) {
        Ok(tree) => unless_flawed(tree, &noted),
        Err(Refused::Fault(Absent)) => Err(why_not_read(line)),
        Err(Refused::NoMemory) => Err(DocFault::NoMemory),
    }
}

fn unless_flawed(tree: Tree, noted: &Seen) -> Result<Tree, DocFault>
    ensures { Gives view result (fault_or (view tree) (fault_of (shown noted.now))) }
{
    match noted.fault() {
        Some(fault) => Err(fault),
        None => Ok(tree),
    }
}

// The parser opens no more brackets than a line may, and doesn't tell this from what is no JSON.
fn why_not_read(line: &[u8]) -> DocFault
    ensures { result ≡ cond (is_too_deep line.now) TooDeep NotJson }
{
    if is_too_deep(line) {
        return DocFault::TooDeep;
    }
    DocFault::NotJson
}

fn read_document(alloc: Global, line: &[u8], noted: &mut Seen) -> Result<Tree, Refused<Absent>>
    ensures told { Reads (λ tree. (view tree, shown noted.new)) result (told_text (shown noted.old) (document_at line.now)) }
{
    let (tree, behind) = read_value(alloc, past_gap(line), DEPTH_LIMIT, noted)?;
    if !past_gap(behind).is_empty() {
        return Err(Refused::Fault(Absent));
    }
    Ok(tree)
}
