//! The calls on the compact protocol, on pages and on column chunks: each once on its happy path, since no contract
//! can say that memory was there; and rows of bytes, with what they mean or the first rule that they violate.
//!
//! | Module | What it calls |
//! |---|---|
//! | `readers` | values of the compact protocol, read and passed over |
//! | `writers` | values of the compact protocol, written |
//! | `headers` | page headers |
//! | `metadata` | the metadata of column chunks |
//! | `entries` | pages and column chunks |
//! | `any_bytes` | readers of bytes that nobody wrote |
#![tactic(auto)]

#[cfg(test)]
mod any_bytes;
#[cfg(test)]
mod entries;
#[cfg(test)]
mod headers;
#[cfg(test)]
mod metadata;
#[cfg(test)]
mod readers;
#[cfg(test)]
mod writers;
