//! What splitting rows into entries and putting rows together costs, for `make bench` to count: some 100,000 entries as
//! often as the words say.
//!
//! Words: what, and how often. Where rows are put together, they are split first, so that the cost of this is taken off.
#![tactic(auto)]

mod filling;
mod turns;

use crate::turns::{Reading, assembled, striped};
use std::alloc::Global;
use std::{env, io};
use vs_bytes::{Refusal, Refused};

// Objects of 24 integers: 50 leaves. Lists of lists of integers: 6 leaves.
const FLAT: &str =
    "{a:int64,b:int64,c:int64,d:int64,e:int64,f:int64,g:int64,h:int64,i:int64,j:int64,k:int64,l:int64,m:int64,n:int64,o:int64,p:int64,q:int64,r:int64,s:int64,t:int64,u:int64,v:int64,w:int64,x:int64}";

const LISTS: &str = "{t:[[int64]]}";

// How many entries were written or read.
fn spent(alloc: Global, what: &str, count: u32) -> Result<usize, Refusal> {
    match what {
        "stripe-flat" => striped(alloc, FLAT, count),
        "stripe-lists" => striped(alloc, LISTS, count),
        "assemble-flat" => assembled(alloc, FLAT, Reading::All, count),
        "assemble-one" => assembled(alloc, FLAT, Reading::One, count),
        "assemble-lists" => assembled(alloc, LISTS, Reading::All, count),
        _ => Ok(0),
    }
}

fn main(rt: HostRuntime) -> io::Result<()> {
    let mut words = env::args(&rt)?.skip(1);
    let (Some(what), Some(count)) = (words.next(), words.next()) else {
        return println!(rt; "usage: striping_cost WHAT TURNS");
    };
    let Ok(turns) = count.parse::<u32>() else {
        return println!(rt; "no number of turns");
    };
    match spent(rt.alloc(), what.as_str(), turns) {
        Ok(entries) => println!(rt; "{} entries", entries),
        Err(Refused::Fault(rule)) => println!(rt; "{}", rule.name()),
        Err(Refused::NoMemory) => println!(rt; "no memory"),
    }
}
