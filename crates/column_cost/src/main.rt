//! What reading and writing columns costs, for `make bench` to count: reads or writes a million values as often as
//! the words say.
//!
//! Words: what, and how often.
#![tactic(auto)]

ghost use Rattle.std.specs.Prelude.{◌≤◌};

mod cells;
mod entries;
mod numbers;

use std::alloc::Global;
use std::{env, io};
use vs_bytes::NoMemory;

fn packed(alloc: Global, width: u8, turns: u32) -> Result<usize, NoMemory>
    requires { width ≤ 32 }
{
    let bytes = numbers::groups(alloc, width)?;
    numbers::read(alloc, width, &bytes, turns)
}

fn runs(alloc: Global, turns: u32) -> Result<usize, NoMemory> {
    let bytes = numbers::runs(alloc)?;
    numbers::read(alloc, 1, &bytes, turns)
}

// How many values were read or written.
fn spent(alloc: Global, what: &str, turns: u32) -> Result<usize, NoMemory> {
    match what {
        "runs" => runs(alloc, turns),
        "packed-1" => packed(alloc, 1, turns),
        "packed-3" => packed(alloc, 3, turns),
        "packed-17" => packed(alloc, 17, turns),
        "write-levels" => numbers::write(alloc, turns),
        "read-integers" => cells::read_integers(alloc, turns),
        "write-integers" => cells::write_integers(alloc, turns),
        "read-texts" => cells::read_texts(alloc, turns),
        "write-texts" => cells::write_texts(alloc, turns),
        "read-page" => entries::read(alloc, turns),
        "write-page" => entries::write(alloc, turns),
        _ => Ok(0),
    }
}

fn main(rt: HostRuntime) -> io::Result<()> {
    let mut words = env::args(&rt)?.skip(1);
    let (Some(what), Some(count)) = (words.next(), words.next()) else {
        return println!(rt; "usage: column_cost WHAT TURNS");
    };
    let Ok(turns) = count.parse::<u32>() else {
        return println!(rt; "no number of turns");
    };
    match spent(rt.alloc(), what.as_str(), turns) {
        Ok(values) => println!(rt; "{} values", values),
        Err(NoMemory) => println!(rt; "no memory"),
    }
}
