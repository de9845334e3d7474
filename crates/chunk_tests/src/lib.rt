//! Column chunks written and read back, each call once on its happy path: no contract can say that memory was there.
#![tactic(auto)]

#[cfg(test)]
mod chunks_written;
