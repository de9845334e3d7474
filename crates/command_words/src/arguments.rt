//! The words after a command's name: options with their values, and operands.

ghost use Rattle.std.specs.Prelude.{◌≡◌, [], Some};
ghost use Rattle.std.specs.Option.{option_map};
ghost use Rattle.command_words.specs.Arguments.{is_dashed, is_option, name_of, value_in, with_option, nothing_given, arguments_of};
ghost use Rattle.command_words.specs.Reading.{given_by, before, ReadsWords};

use crate::fault::WordFault;
use std::alloc::Global;
use vs_bytes::Text;

/// An option's name, with its dashes, and its value.
#[derive(Clone, Copy, Drop)]
pub struct OptionWord<'a> {
    pub name: &'a str,
    pub value: &'a str,
}

/// The options and the operands that words give, each in order.
#[derive(Drop)]
pub struct CommandWords<'a> {
    pub options: Vec<OptionWord<'a>>,
    pub operands: Vec<&'a str>,
}

/// Whether a word begins with `-` and has more bytes than that.
fn is_dashed(word: &[u8]) -> bool
    ensures { result ≡ is_dashed word.now }
{
    match word {
        [first, _, ..] => *first == b'-',
        _ => false,
    }
}

/// Whether a word begins with `--`.
fn is_option(word: &[u8]) -> bool
    ensures { result ≡ is_option word.now }
{
    match word {
        [first, second, ..] => *first == b'-' && *second == b'-',
        _ => false,
    }
}

/// The name of an option's word, and the value that stands in it.
fn split_option(word: &str) -> (&str, Option<&str>)
    ensures name { result.0.now ≡ name_of word.now }
    ensures value { option_map (λ value. value.now) result.1 ≡ value_in word.now }
{
    match word.split_once('=') {
        Some((name, value)) => (name, Some(value)),
        None => (word, None),
    }
}

impl<'a> CommandWords<'a> {
    /// Takes an option. Its value may not begin with `-`.
    fn take_option(&mut self, name: &'a str, value: &'a str) -> Result<(), WordFault>
        ensures { ReadsWords (λ done. given_by self.new) result (before (given_by self.old) (with_option name.now value.now nothing_given)) }
    {
        if is_dashed(value.as_bytes()) {
            return Err(WordFault::Usage);
        }
        self.options.push(OptionWord { name, value })?;
        Ok(())
    }

    /// Takes words as operands.
    fn take_operands(&mut self, words: &'a [Text]) -> Result<(), WordFault>
        ensures { ReadsWords (λ done. given_by self.new) result (before (given_by self.old) (Some (record { options = []; operands = words.now }))) }
    {
        for word in words {
            self.operands.push(word.as_str())?;
        }
        Ok(())
    }
}

/// Reads the words in turn.
pub fn read_words<'a>(alloc: Global, words: &'a [Text]) -> Result<CommandWords<'a>, WordFault>
    ensures { ReadsWords given_by result (arguments_of words.now) }
{
    let mut read = CommandWords {
        options: Vec::new(alloc),
        operands: Vec::new(alloc),
    };
    let mut rest = words;
    while let [word, more @ ..] = rest {
        let text = word.as_str();
        rest = more;
        if text.as_bytes() == b"--".as_slice() {
            match read.take_operands(more) {
                Ok(()) => return Ok(read),
                Err(fault) => return Err(fault),
            }
        } else if is_option(text.as_bytes()) {
            match split_option(text) {
                (name, Some(value)) => match read.take_option(name, value) {
                    Ok(()) => {}
                    Err(fault) => return Err(fault),
                },
                (name, None) => {
                    let [value, others @ ..] = more else {
                        return Err(WordFault::Usage);
                    };
                    match read.take_option(name, value.as_str()) {
                        Ok(()) => rest = others,
                        Err(fault) => return Err(fault),
                    }
                }
            }
        } else if is_dashed(text.as_bytes()) {
            return Err(WordFault::Usage);
        } else {
            read.operands.push(text)?;
        }
    }
    Ok(read)
}
