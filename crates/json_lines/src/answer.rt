//! What a call of `Lines::next` answers, and which answers later calls repeat.

ghost use Rattle.std.specs.Prelude.{◌≡◌};
ghost use Rattle.json_lines.specs.Next.{kept_next};
ghost use Rattle.json_lines.specs.Answers.{kept_of};

use vs_bytes::{NoMemory, Sequence};

/// What a call of `Lines::next` found.
#[derive(Drop)]
pub enum Next {
    /// A line that isn't blank, without its LF. Lines are counted from 1, blank ones too.
    Line { number: u64, bytes: Sequence<u8> },
    /// A line of more than 1,048,576 bytes.
    TooLong { number: u64 },
    /// The end of the input.
    End,
}

/// Why a call of `Lines::next` gave nothing.
#[derive(Clone, Copy, PartialEq, Eq, Debug, Drop)]
pub enum LineFault {
    /// The source failed.
    ReadFault,
    /// More bytes came than count.
    InputTooLong,
    /// There was no memory for the line.
    NoMemory,
}

impl From<NoMemory> for LineFault {
    ghost use Rattle.json_lines.specs.declared.answer.LineFault.TheVariants.{NoMemory as OutOfMemory};

    ghost from_gives = { λ _ e. e ≡ OutOfMemory };

    fn from(_error: NoMemory) -> LineFault {
        LineFault::NoMemory
    }
}

/// The answer that every later call repeats.
#[derive(Clone, Copy, Debug, Drop)]
pub enum KeptAnswer {
    Nothing,
    End,
    TooLong(u64),
    InputTooLong,
    ReadFault,
}

/// What is kept after an answer, where `kept` was kept when it was found.
pub fn kept_answer(answer: &Result<Next, LineFault>, kept: KeptAnswer) -> KeptAnswer
    ensures { kept_of result ≡ kept_next answer.now (kept_of kept) }
{
    match answer {
        Ok(Next::Line { .. }) => kept,
        Ok(Next::TooLong { number }) => KeptAnswer::TooLong(*number),
        Ok(Next::End) => KeptAnswer::End,
        Err(LineFault::InputTooLong) => KeptAnswer::InputTooLong,
        Err(LineFault::ReadFault) => KeptAnswer::ReadFault,
        Err(LineFault::NoMemory) => kept,
    }
}
