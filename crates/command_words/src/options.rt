//! The options that a command knows, and their values.

ghost use Rattle.std.specs.Prelude.{◌≡◌, map};
ghost use Rattle.std.specs.Option.{option_map};
ghost use Rattle.std.specs.List.{list_any};
ghost use Rattle.std.specs.Str.{bytes_eq};
ghost use Rattle.vs_bytes.specs.Outcome.{Finds};
ghost use Rattle.command_words.specs.Options.{are_known, value_of};
ghost use Rattle.command_words.specs.Reading.{option_of};

use crate::arguments::OptionWord;

fn is_among(name: &str, names: &[&str]) -> bool
    ensures { result ≡ list_any (λ other. bytes_eq other name.now) (map (λ n. n.now) names.now) }
{
    for other in names {
        if other.as_bytes() == name.as_bytes() {
            return true;
        }
    }
    false
}

/// Whether each option has one of these names.
pub fn are_known(names: &[&str], options: &[OptionWord<'_>]) -> bool
    ensures { result ≡ are_known (map (λ n. n.now) names.now) (map option_of options.now) }
{
    for option in options {
        if !is_among(option.name, names) {
            return false;
        }
    }
    true
}

/// The value of the option of that name, if it is given, or `None` where it is given twice.
pub fn value_of<'a>(name: &str, options: &[OptionWord<'a>]) -> Option<Option<&'a str>>
    ensures { Finds (option_map (λ v. v.now)) result (value_of name.now (map option_of options.now)) }
{
    let mut found = None;
    for option in options {
        if option.name.as_bytes() == name.as_bytes() {
            if found.is_some() {
                return None;
            }
            found = Some(option.value);
        }
    }
    Some(found)
}
