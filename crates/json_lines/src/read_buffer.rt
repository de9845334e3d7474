//! The bytes that were read and not yet given.
//!
//! They stand in one vector of a fixed length, between two indices. Giving a line moves the first
//! index on; the bytes themselves are moved only when a read needs the places before them, and the
//! vector grows only for a line that doesn't fit.

ghost use Rattle.std.specs.Prelude.{◌≡◌, ◌+◌, ◌<◌, ◌≤◌, ◌^◌, [], length, take, drop, IfOk, OnOk};
ghost use Rattle.memchr.specs.Find.{IsFirstByte, is_byte};
ghost use Rattle.json_lines.specs.Cut.{max_line};
ghost use Rattle.json_lines.specs.Buffer.{max_read};
ghost use Rattle.json_lines.specs.Gains.{ReadsMore, ReadsAt};

use memchr::memchr;
use outside::{Source, SourceError};
use std::alloc::Global;
use std::marker::Model;
use vs_bytes::NoMemory;

// A read takes at most this many bytes.
const PIECE: usize = 65_536;

// Room for a piece after as many held bytes.
const FIRST_SIZE: usize = 131_072;

/// The held bytes, between `start` and `end`, with no LF among them below `searched`.
#[derive(Drop)]
pub struct Buffer {
    bytes: Vec<u8>,
    start: usize,
    end: usize,
    searched: usize,
}

impl Model for Buffer {
    ghost use Rattle.std.specs.Prelude.{◌-◌, slice_range, vec_len};
    ghost use Rattle.json_lines.specs.Buffer.{Buffered, IsOrderly};

    ghost Value = { Buffered };

    ghost view = { λ b. record {
      held = slice_range b.bytes.items b.start b.end;
      free = vec_len b.bytes - b.end;
      passed = b.start;
    } };

    ghost invariant = { IsOrderly };
}

impl Buffer {
    /// A buffer that holds nothing.
    pub fn new(alloc: Global) -> Result<Buffer, NoMemory>
        ensures { IfOk result (λ b. b.held ≡ []) }
    {
        Ok(Buffer {
            bytes: Vec::from_elem(alloc, 0, FIRST_SIZE)?,
            start: 0,
            end: 0,
            searched: 0,
        })
    }

    /// How many bytes are held.
    pub fn len(&self) -> usize
        ensures { result ≡ length self.now.held }
    {
        self.end - self.start
    }

    /// The first of the held bytes, in place.
    pub fn front(&self, size: usize) -> &[u8]
        requires { size ≤ length self.now.held }
        ensures { result.now ≡ take size self.now.held }
    {
        &self.bytes[self.start..self.start + size]
    }

    /// The place of the first LF among the held bytes. No byte is searched twice.
    pub fn line_end(&mut self) -> Option<usize>
        ensures same { self.new ≡ self.old }
        ensures first { IsFirstByte (is_byte 10) self.old.held result }
    {
        match memchr(b'\n', &self.bytes[self.searched..self.end]) {
            Some(at) => {
                self.searched += at;
                Some(self.searched - self.start)
            }
            None => {
                self.searched = self.end;
                None
            }
        }
    }

    /// Lets the first of the held bytes go.
    pub fn advance(&mut self, count: usize)
        requires { count ≤ length self.old.held }
        ensures { self.new.held ≡ drop count self.old.held }
    {
        self.start += count;
        self.searched = self.searched.max(self.start);
    }

    // How many places stand free after the held bytes.
    fn free(&self) -> usize
        ensures { result ≡ self.now.free }
    {
        self.bytes.len() - self.end
    }

    // Moves the held bytes to the front.
    fn move_to_front(&mut self)
        ensures held { self.new.held ≡ self.old.held }
        ensures free { self.new.free ≡ self.old.free + self.old.passed }
        ensures passed { self.new.passed ≡ 0 }
    {
        let start = self.start;
        self.bytes.copy_within(start..self.end, 0);
        self.start = 0;
        self.searched -= start;
        self.end -= start;
    }

    // Doubles the length.
    fn grow(&mut self) -> Result<(), NoMemory>
        requires { self.old.passed + length self.old.held + self.old.free < 2 ^ 62 }
        ensures held { self.new.held ≡ self.old.held }
        ensures free { OnOk result (max_read ≤ self.new.free) }
    {
        let size = 2 * self.bytes.len();
        self.bytes.resize(size, 0)?;
        Ok(())
    }

    /// Makes room for a piece after the held bytes.
    pub fn make_room(&mut self) -> Result<(), NoMemory>
        requires { length self.old.held ≤ max_line }
        ensures held { self.new.held ≡ self.old.held }
        ensures free { OnOk result (max_read ≤ self.new.free) }
    {
        if self.free() < PIECE {
            self.move_to_front();
            if self.free() < PIECE {
                self.grow()?;
            }
        }
        Ok(())
    }

    /// Reads at most `most` bytes, and at most a piece, after those that are held.
    pub fn read<S: Source>(&mut self, source: &mut S, most: usize) -> Result<usize, SourceError>
        requires some { 0 < most }
        requires free { max_read ≤ self.old.free }
        ensures most { IfOk result (λ count. count ≤ most) }
        ensures piece { IfOk result (λ count. count ≤ max_read) }
        ensures reads { ReadsMore (S.seen source.old) (S.seen source.new) self.old.held self.new.held result }
    {
        let size = most.min(PIECE);
        match read_at(source, &mut self.bytes, self.end, size) {
            Ok(count) => {
                self.end += count;
                Ok(count)
            }
            Err(error) => Err(error),
        }
    }
}

// Reads into the `size` places from `from` on. Those before it stay.
fn read_at<S: Source>(
    source: &mut S,
    bytes: &mut [u8],
    from: usize,
    size: usize,
) -> Result<usize, SourceError>
    requires some { 0 < size }
    requires within { from + size ≤ length bytes.old }
    ensures count { IfOk result (λ count. count ≤ size) }
    ensures before { take from bytes.new ≡ take from bytes.old }
    ensures reads { ReadsAt from (S.seen source.old) (S.seen source.new) bytes.old bytes.new result }
{
    match source.read(&mut bytes[from..from + size]) {
        Ok(count) => Ok(count),
        Err(error) => Err(error),
    }
}
