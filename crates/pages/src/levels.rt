//! The levels of a page.

ghost use Rattle.std.specs.Prelude.{◌≡◌, ◌<◌, ◌≤◌, ◌==◌, nat_lt, ℕ, length, drop, slice_index, IfOk};
ghost use Rattle.std.specs.List.{list_any, count_by};
ghost use Rattle.vs_bytes.specs.Outcome.{Gives, Makes};
ghost use Rattle.pages.specs.Bodies.{value_count};
ghost use Rattle.pages.specs.Levels.{level_width, prefixed, stored, levels_of};
ghost use Rattle.pages.specs.Shown.{shown};

use hybrid_levels::{decode, measure};
use std::alloc::Global;
use vs_bytes::{NoMemory, Refusal, Refused, Rule, number_at, part};

/// Levels in order.
#[derive(Drop)]
pub(crate) enum Levels {
    /// So many levels, each 0.
    Zeros(usize),
    /// Levels that bytes hold.
    Listed(Vec<u16>),
}

impl Levels {
    /// The level at `i`, counted from 0.
    pub(crate) fn at(&self, i: usize) -> u16
        requires { i < length (shown self.now) }
        ensures { result ≡ slice_index (shown self.now) i }
    {
        match self {
            Levels::Zeros(_) => 0,
            Levels::Listed(levels) => levels[i],
        }
    }

    /// How many of the levels are this one.
    pub(crate) fn count(&self, maximum: u16) -> usize
        ensures { result ≡ value_count maximum (shown self.now) }
    {
        match self {
            Levels::Zeros(count) => { if maximum == 0 { *count } else { 0 } }
            Levels::Listed(levels) => equal(levels, maximum),
        }
    }

    /// How many of the levels from `from` on are 0.
    pub(crate) fn zeros_from(&self, from: usize) -> usize
        requires { from ≤ length (shown self.now) }
        ensures { result ≡ count_by (λ level. level == 0) (drop from (shown self.now)) }
    {
        match self {
            Levels::Zeros(count) => *count - from,
            Levels::Listed(levels) => levels[from..].iter().filter(|level| **level == 0).count(),
        }
    }
}

// How many levels are this one. No test ends the loop, so that it looks at several levels at a time.
fn equal(levels: &[u16], wanted: u16) -> usize
    ensures { result ≡ value_count wanted levels.now }
{
    let mut count = 0;
    for level in levels {
        count += (*level == wanted) as usize;
    }
    count
}

pub(crate) fn level_width(maximum: u16) -> u8
    ensures value { result ≡ level_width maximum }
    ensures most { result ≤ 16 }
{
    (16 - maximum.leading_zeros()) as u8
}

#[tactic(auto, unfolding(crate::specs::Levels::prefixed))]
fn prefixed(bytes: &[u8]) -> Result<(&[u8], usize), Rule>
    ensures exact { Gives (λ p. (p.0.now, p.1)) result (prefixed bytes.now) }
    ensures inside { IfOk result (λ p. p.1 ≤ length bytes.now) }
{
    if bytes.len() < 4 {
        return Err(Rule::RunShort);
    }
    let len = number_at(bytes, 0, 4) as usize;
    if bytes.len() < 4 + len {
        return Err(Rule::RunShort);
    }
    Ok((part(bytes, 4, len), 4 + len))
}

// Whether a level is above the maximum. No test ends the loop, so that it looks at several levels at a time.
fn passes(levels: &[u32], maximum: u16) -> bool
    ensures { result ≡ list_any (λ level. nat_lt maximum level) levels.now }
{
    let most = u32::from(maximum);
    let mut above = false;
    for level in levels {
        above |= most < *level;
    }
    above
}

// The same levels in 16 bits each. No test but the count ends the loop, so that several are stored at a time.
#[tactic(auto, using(crate::proofs::Narrowed::one_more, crate::proofs::Narrowed::all_stored))]
fn narrowed(alloc: Global, levels: &[u32]) -> Result<Vec<u16>, NoMemory>
    requires small { (i : ℕ) → slice_index levels.now i < 65536 }
    ensures { IfOk result (λ narrow. narrow.items ≡ levels.now) }
{
    let mut narrow = Vec::from_elem(alloc, 0u16, levels.len())?;
    for i in 0..levels.len() {
        narrow[i] = levels[i] as u16;
    }
    Ok(narrow)
}

#[tactic(auto, using(crate::proofs::Maximum::small_levels), unfolding(crate::specs::Levels::stored))]
fn listed(alloc: Global, maximum: u16, count: usize, bytes: &[u8]) -> Result<Vec<u16>, Refusal>
    ensures exact { Makes (λ levels. levels.items) result (stored maximum count bytes.now) }
    ensures count { IfOk result (λ levels. length levels.items ≡ count) }
{
    let mut levels = match Vec::from_elem(alloc, 0u32, count) {
        Ok(levels) => levels,
        Err(_) => return Err(Refused::NoMemory),
    };
    match decode(level_width(maximum), bytes, &mut levels) {
        Ok(_) => {
            if passes(&levels, maximum) {
                return Err(Refused::Fault(Rule::LevelRange));
            }
            match narrowed(alloc, &levels) {
                Ok(levels) => Ok(levels),
                Err(_) => Err(Refused::NoMemory),
            }
        }
        Err(rule) => Err(Refused::Fault(rule)),
    }
}

// The memory is taken once the bytes bear so many levels. A byte bears eight that aren't in runs; for more of them the
// headers are read first.
fn stored(alloc: Global, maximum: u16, count: usize, bytes: &[u8]) -> Result<Vec<u16>, Refusal>
    ensures exact { Makes (λ levels. levels.items) result (stored maximum count bytes.now) }
    ensures count { IfOk result (λ levels. length levels.items ≡ count) }
{
    if count / 8 <= bytes.len() {
        return listed(alloc, maximum, count, bytes);
    }
    match measure(level_width(maximum), count, bytes) {
        Ok(_) => listed(alloc, maximum, count, bytes),
        Err(rule) => Err(Refused::Fault(rule)),
    }
}

/// The levels at the front, and how many bytes they take.
#[tactic(auto, unfolding(crate::specs::Levels::levels_of))]
pub(crate) fn read_levels(
    alloc: Global,
    maximum: u16,
    count: usize,
    bytes: &[u8],
) -> Result<(Levels, usize), Refusal>
    ensures exact { Makes (λ p. (shown p.0, p.1)) result (levels_of maximum count bytes.now) }
    ensures inside { IfOk result (λ p. p.1 ≤ length bytes.now) }
    ensures count { IfOk result (λ p. length (shown p.0) ≡ count) }
{
    if maximum == 0 {
        return Ok((Levels::Zeros(count), 0));
    }
    match prefixed(bytes) {
        Ok((hybrid, used)) => match stored(alloc, maximum, count, hybrid) {
            Ok(levels) => Ok((Levels::Listed(levels), used)),
            Err(refusal) => Err(refusal),
        },
        Err(rule) => Err(Refused::Fault(rule)),
    }
}
