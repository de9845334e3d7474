//! The operands of commands over files, and their columns.

ghost use Rattle.std.specs.Prelude.{◌≡◌, map};
ghost use Rattle.std.specs.Option.{option_map};
ghost use Rattle.vs_bytes.specs.Outcome.{Finds};
ghost use Rattle.command_words.specs.Files.{only_file, or_text, column_given};
ghost use Rattle.command_words.specs.Reading.{option_of};

use crate::arguments::OptionWord;
use crate::options::value_of;

/// The one file among operands, where no other operand is given.
pub fn only_file<'a>(operands: &[&'a str]) -> Option<&'a str>
    ensures { Finds (λ file. file.now) result (only_file (map (λ operand. operand.now) operands.now)) }
{
    match operands {
        [file] => Some(*file),
        _ => None,
    }
}

/// The text of an option, or the one that stands for it where it isn't given.
pub fn or_text<'a>(value: Option<&'a str>, default: &'a str) -> &'a str
    ensures { result.now ≡ or_text default.now (option_map (λ v. v.now) value.entry) }
{
    match value {
        Some(text) => text,
        None => default,
    }
}

/// The column that options name, or `doc`.
pub fn column_given<'a>(options: &[OptionWord<'a>]) -> Option<&'a str>
    ensures { Finds (λ column. column.now) result (column_given (map option_of options.now)) }
{
    Some(or_text(value_of("--column", options)?, "doc"))
}
