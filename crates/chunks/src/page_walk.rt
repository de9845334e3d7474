//! The pages in the bytes of a chunk.

ghost use Rattle.std.specs.Prelude.{◌≡◌, ◌<◌, ◌≤◌, drop, length, IfOk, IfSome};
ghost use Rattle.vs_bytes.specs.Outcome.{Makes};
ghost use Rattle.chunks.specs.Turns.{body_len, entries_at, page_after, page_at, less, standing, next_of};

use pages::{OpenPage, open_page};
use std::alloc::Global;
use thrift_compact::{PageHeader, read_page_header};
use vs_bytes::{Leaf, Refusal, Refused, Rule, part, rest};

// A kind of page (parquet.thrift, PageType).
const INDEX_PAGE: i32 = 1;

#[tactic(auto, unfolding(crate::specs::Turns::entries_at))]
fn entries_at(
    alloc: Global,
    leaf: &Leaf,
    header: &PageHeader,
    body: &[u8],
) -> Result<Option<OpenPage>, Refusal>
    ensures exact { Makes (λ entries. entries) result (entries_at leaf.now header.now body.now) }
{
    if header.kind == INDEX_PAGE {
        return Ok(None);
    }
    match open_page(alloc, leaf, header, body) {
        Ok(entries) => Ok(Some(entries)),
        Err(refusal) => Err(refusal),
    }
}

fn body_len(header: &PageHeader) -> usize
    ensures { result ≡ body_len header.now }
{
    if header.compressed_page_size < 0 {
        0
    } else {
        header.compressed_page_size as usize
    }
}

#[tactic(auto, unfolding(crate::specs::Turns::page_after))]
fn page_after(
    alloc: Global,
    leaf: &Leaf,
    header: &PageHeader,
    used: usize,
    bytes: &[u8],
) -> Result<(Option<OpenPage>, usize), Refusal>
    requires { used ≤ length bytes.now }
    ensures exact { Makes (λ page. page) result (page_after leaf.now header.now used bytes.now) }
    ensures least { IfOk result (λ page. used ≤ page.1) }
    ensures within { IfOk result (λ page. page.1 ≤ length bytes.now) }
{
    let len = body_len(header);
    if bytes.len() - used < len {
        return Err(Refused::Fault(Rule::PageHeader));
    }
    match entries_at(alloc, leaf, header, part(bytes, used, len)) {
        Ok(entries) => Ok((entries, used + len)),
        Err(refusal) => Err(refusal),
    }
}

// The page at the front, and how many bytes it takes.
#[tactic(auto, unfolding(crate::specs::Turns::page_at))]
fn page_at(alloc: Global, leaf: &Leaf, bytes: &[u8]) -> Result<(Option<OpenPage>, usize), Refusal>
    ensures exact { Makes (λ page. page) result (page_at leaf.now bytes.now) }
    ensures least { IfOk result (λ page. 1 ≤ page.1) }
    ensures within { IfOk result (λ page. page.1 ≤ length bytes.now) }
{
    match read_page_header(bytes) {
        Ok((header, used)) => page_after(alloc, leaf, &header, used, bytes),
        Err(rule) => Err(Refused::Fault(rule)),
    }
}

fn less(left: Option<u64>, count: usize) -> Option<u64>
    ensures { result ≡ less left count }
{
    match left {
        Some(left) => left.checked_sub(count as u64),
        None => None,
    }
}

/// What comes next from `from` on: the entries of a page, or `None` at the end; how many entries are still to come;
/// where the next page begins.
#[tactic(auto, unfolding(crate::specs::Turns::next_of))]
pub(crate) fn next_page(
    alloc: Global,
    leaf: &Leaf,
    left: Option<u64>,
    bytes: &[u8],
    from: usize,
) -> Result<(Option<OpenPage>, Option<u64>, usize), Refusal>
    requires { from ≤ length bytes.now }
    ensures exact { Makes (λ turn. (turn.0, standing leaf.now turn.1 (drop turn.2 bytes.now))) result (next_of (standing leaf.now left (drop from bytes.now))) }
    ensures more { IfOk result (λ turn. IfSome turn.0 (λ _. from < turn.2)) }
    ensures within { IfOk result (λ turn. turn.2 ≤ length bytes.now) }
{
    let mut at = from;
    while at < bytes.len() {
        match page_at(alloc, leaf, rest(bytes, at)) {
            Ok((page, used)) => {
                at += used;
                match page {
                    Some(entries) => {
                        let after = less(left, entries.len());
                        return Ok((Some(entries), after, at));
                    }
                    None => {}
                }
            }
            Err(refusal) => return Err(refusal),
        }
    }
    if left == Some(0) {
        Ok((None, left, at))
    } else {
        Err(Refused::Fault(Rule::ValueCount))
    }
}
