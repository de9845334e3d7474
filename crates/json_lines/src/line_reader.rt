//! The lines of an input, given in turn.
//!
//! An input is cut at each LF; its last line may lack one. Lines are counted from 1. Those of
//! nothing but white space are counted and passed over. Of an input only a given number of bytes
//! count, and of a line only 1,048,576, so what is held stays small whatever the input is.

ghost use Rattle.std.specs.Prelude.{◌≡◌, ◌+◌, ◌-◌, ◌<◌, ◌≤◌, List, ℕ, [], Some, length, drop, IfNone, IfSome, OnSome, IfOk, IsTrue};
ghost use Rattle.std.specs.List.{list_all};
ghost use Rattle.json_lines.specs.Cut.{is_blank_byte, lines_of, max_line};
ghost use Rattle.json_lines.specs.Buffer.{max_read};
ghost use Rattle.json_lines.specs.Next.{nothing, ended, Repeats, IsKept, kept_next, LeavesLess, is_decided, Counted};
ghost use Rattle.json_lines.specs.Takings.{Comes, IsBounded, Arrives};
ghost use Rattle.json_lines.specs.Answers.{kept_of};
ghost use Rattle.json_lines.specs.Front.{Shows, PassesBlank, IsOpen, GivesLine, ComesLast, Closes, Fills};

use crate::answer::{KeptAnswer, LineFault, Next, kept_answer};
use crate::read_buffer::Buffer;
use outside::{Source, SourceError};
use std::alloc::Global;
use std::marker::Model;
use vs_bytes::{NoMemory, Sequence};

/// The greatest number of bytes of a line, without its LF.
pub const LINE_LIMIT: usize = 1_048_576;

/// Gives the lines of one input.
///
/// It holds what was read and not yet given: 128 KiB of memory, and up to 2 MiB where lines are long.
/// It never holds more than the longest line and one read after it.
#[derive(Drop)]
pub struct Lines {
    alloc: Global,
    buffer: Buffer,
    // How many lines were given or passed over.
    number: u64,
    // How many bytes from the held ones on still count.
    room: u64,
    kept: KeptAnswer,
}

impl Model for Lines {
    ghost use Rattle.std.specs.Prelude.{◌+◌, ◌<◌, ◌≤◌, ◌^◌, length};
    ghost use Rattle.json_lines.specs.Cut.{max_line};
    ghost use Rattle.json_lines.specs.Buffer.{max_read};
    ghost use Rattle.json_lines.specs.Next.{State};
    ghost use Rattle.json_lines.specs.Answers.{kept_of};

    ghost Value = { State };

    ghost view = { λ l. record { number = l.number; room = l.room; held = l.buffer.held; kept = kept_of l.kept } };

    ghost invariant = { λ l. (l.number + l.room < 2 ^ 64) × (length l.buffer.held ≤ l.room + 1) × (length l.buffer.held ≤ max_line + max_read) };
}

impl Lines {
    /// An input of which at most `limit` bytes count.
    pub fn new(alloc: Global, limit: u64) -> Result<Lines, NoMemory>
        ensures { IfOk result (λ lines. lines ≡ record { number = 0; room = limit; held = []; kept = nothing }) }
    {
        Ok(Lines {
            alloc,
            buffer: Buffer::new(alloc)?,
            number: 0,
            room: limit,
            kept: KeptAnswer::Nothing,
        })
    }

    /// The next line that isn't blank, read from `source`, or the end of the input.
    ///
    /// It reads only while the bytes that it holds don't decide the answer, and gives:
    ///
    /// | Answer | What it says | What a later call answers |
    /// |---|---|---|
    /// | `Line` | the line, without its LF, and its number | what comes after it |
    /// | `TooLong` | the line of this number has more than 1,048,576 bytes | the same |
    /// | `End` | the input ended, and its last line was given or is blank | the same |
    /// | `ReadFault` | the source failed; every line whose LF was read has been given | the same |
    /// | `InputTooLong` | the limit of the input falls into this line, and more bytes came | the same |
    /// | `NoMemory` | nothing was given, and nothing that was read is lost | tries again |
    ///
    /// A line that is both too long and cut by the limit is `TooLong`. An answer that is given again
    /// is given without a read, and so is `End` after a last line without LF: the source isn't read
    /// again once it has ended. All calls are to be made with one source.
    pub fn next<S: Source>(&mut self, source: &mut S) -> Result<Next, LineFault>
        ensures again { Repeats self.old.kept result }
        ensures untouched { (self.old.kept ≡ nothing → ⊥) → (source.new ≡ source.old) × (self.new ≡ self.old) }
        ensures keeps { IsKept self.old.kept self.new.kept result }
        ensures comes { self.old.kept ≡ nothing → (rest : List ℕ) → (S.seen source.old).bytes ≡ Some rest → Comes self.old rest self.new (S.seen source.new).bytes result }
        ensures bounded { (rest : List ℕ) → (S.seen source.old).bytes ≡ Some rest → IsBounded self.old rest (S.seen source.new).bytes }
        ensures holds { length self.new.held ≤ max_line + max_read }
        ensures less { LeavesLess self.old self.new result }
        ensures decided { self.old.kept ≡ nothing → IsTrue (is_decided (lines_of self.old.room self.old.held)) → source.new ≡ source.old }
        ensures counts { self.old.kept ≡ nothing → Counted (S.seen source.old) (S.seen source.new) result }
    {
        if let Some(answer) = self.repeated() {
            return answer;
        }
        let answer = self.find_next(source);
        self.keep(&answer);
        answer
    }

    // The kept answer, if there is one.
    fn repeated(&self) -> Option<Result<Next, LineFault>>
        ensures none { IfNone result (self.now.kept ≡ nothing) }
        ensures some { OnSome result (self.now.kept ≡ nothing → ⊥) }
        ensures again { IfSome result (Repeats self.now.kept) }
        ensures keeps { IfSome result (IsKept self.now.kept self.now.kept) }
        ensures within { length self.now.held ≤ self.now.room + 1 }
        ensures holds { length self.now.held ≤ max_line + max_read }
    {
        match self.kept {
            KeptAnswer::Nothing => None,
            KeptAnswer::End => Some(Ok(Next::End)),
            KeptAnswer::TooLong(number) => Some(Ok(Next::TooLong { number })),
            KeptAnswer::InputTooLong => Some(Err(LineFault::InputTooLong)),
            KeptAnswer::ReadFault => Some(Err(LineFault::ReadFault)),
        }
    }

    // Keeps an answer that later calls repeat.
    fn keep(&mut self, answer: &Result<Next, LineFault>)
        ensures kept { self.new ≡ record { number = self.old.number; room = self.old.room; held = self.old.held; kept = kept_next answer.now self.old.kept } }
        ensures holds { length self.new.held ≤ max_line + max_read }
    {
        self.kept = kept_answer(answer, self.kept);
    }

    // Keeps that the input has ended.
    fn close(&mut self)
        ensures { self.new ≡ record { number = self.old.number; room = self.old.room; held = self.old.held; kept = ended } }
    {
        self.kept = KeptAnswer::End;
    }

    // The next answer, where none is kept.
    fn find_next<S: Source>(&mut self, source: &mut S) -> Result<Next, LineFault>
        ensures closes { Closes self.old.kept self.new.kept result }
        ensures arrives { (rest : List ℕ) → (S.seen source.old).bytes ≡ Some rest → Arrives self.old rest self.new (S.seen source.new).bytes result }
        ensures less { LeavesLess self.old self.new result }
        ensures decided { IsTrue (is_decided (lines_of self.old.room self.old.held)) → source.new ≡ source.old }
        ensures counts { Counted (S.seen source.old) (S.seen source.new) result }
    {
        loop {
            match self.pass_blank() {
                Front::Line(at) => return self.give(at, at + 1),
                Front::Long => {
                    return Ok(Next::TooLong {
                        number: self.number + 1,
                    });
                }
                Front::Over => return Err(LineFault::InputTooLong),
                Front::Open => {}
            }
            match self.fill(source) {
                Ok(0) => return self.last(),
                Ok(_) => {}
                Err(error) => return Err(error),
            }
        }
    }

    // Passes over the blank lines that are held, up to what comes after them.
    fn pass_blank(&mut self) -> Front
        ensures passes { PassesBlank self.old self.new result }
    {
        loop {
            match self.front() {
                Front::Line(at) => {
                    if !is_blank(self.buffer.front(at)) {
                        return Front::Line(at);
                    }
                    self.pass(at + 1);
                }
                Front::Long => return Front::Long,
                Front::Over => return Front::Over,
                Front::Open => return Front::Open,
            }
        }
    }

    // What the held bytes begin with.
    fn front(&mut self) -> Front
        ensures same { self.new ≡ self.old }
        ensures within { length self.old.held ≤ self.old.room + 1 }
        ensures shows { Shows self.old result }
    {
        let room = self.room;
        let len = self.buffer.len() as u64;
        if let Some(at) = self.buffer.line_end() {
            if (at as u64).min(room) > LINE_LIMIT as u64 {
                return Front::Long;
            }
            if (at as u64) < room {
                return Front::Line(at);
            }
            return Front::Over;
        }
        if len.min(room) > LINE_LIMIT as u64 {
            return Front::Long;
        }
        if len > room {
            return Front::Over;
        }
        Front::Open
    }

    // Counts a line, and lets its bytes go: `taken` of them, with its LF.
    fn pass(&mut self, taken: usize)
        requires some { 0 < taken }
        requires held { taken ≤ length self.old.held }
        requires counts { taken ≤ self.old.room }
        ensures { self.new ≡ record { number = self.old.number + 1; room = self.old.room - taken; held = drop taken self.old.held; kept = self.old.kept } }
    {
        self.buffer.advance(taken);
        self.room -= taken as u64;
        self.number += 1;
    }

    // Gives a line of `size` bytes, of which `taken` go with its LF.
    fn give(&mut self, size: usize, taken: usize) -> Result<Next, LineFault>
        requires some { 0 < taken }
        requires size { size ≤ length self.old.held }
        requires held { taken ≤ length self.old.held }
        requires counts { taken ≤ self.old.room }
        ensures { GivesLine size taken self.old self.new result }
    {
        let bytes = copied(self.alloc, self.buffer.front(size))?;
        self.pass(taken);
        Ok(Next::Line {
            number: self.number,
            bytes,
        })
    }

    // Reads more bytes, at most one more than still count.
    fn fill<S: Source>(&mut self, source: &mut S) -> Result<usize, LineFault>
        requires within { length self.old.held ≤ self.old.room }
        requires short { length self.old.held ≤ max_line }
        ensures fills { Fills (S.seen source.old) (S.seen source.new) self.old self.new result }
    {
        let most = (self.room - self.buffer.len() as u64).saturating_add(1);
        self.buffer.make_room()?;
        match self.buffer.read(source, most as usize) {
            Ok(count) => Ok(count),
            Err(SourceError::Failed) => Err(LineFault::ReadFault),
        }
    }

    // The end of the input: the held bytes are its last line, which lacks an LF.
    fn last(&mut self) -> Result<Next, LineFault>
        requires { IsOpen self.old }
        ensures { ComesLast self.old self.new result }
    {
        let len = self.buffer.len();
        if is_blank(self.buffer.front(len)) {
            return Ok(Next::End);
        }
        match self.give(len, len) {
            Ok(line) => {
                self.close();
                Ok(line)
            }
            Err(fault) => Err(fault),
        }
    }
}

// What the held bytes begin with.
#[derive(Clone, Copy, Debug, Drop)]
enum Front {
    // A line whose LF stands at this place.
    Line(usize),
    // A line of too many bytes.
    Long,
    // A line that isn't ended where the limit of the input is reached.
    Over,
    // Bytes of a line whose end wasn't read yet.
    Open,
}

// Most lines are long: a sequence of their own takes one allocation.
fn copied(alloc: Global, line: &[u8]) -> Result<Sequence<u8>, NoMemory>
    ensures { IfOk result (λ copy. copy ≡ line.now) }
{
    Ok(Sequence::from_vec(Vec::from_slice(alloc, line)?))
}

// Whether all bytes are white space. It stops at the first that isn't.
fn is_blank(line: &[u8]) -> bool
    ensures { result ≡ list_all is_blank_byte line.now }
{
    for byte in line {
        if *byte != b' ' && *byte != b'\t' && *byte != b'\r' {
            return false;
        }
    }
    true
}
