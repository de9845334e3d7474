//! Numbers (RFC 8259, section 6).

ghost use Rattle.std.specs.Prelude.{◌≡◌};
ghost use Rattle.json_grammar.specs.Reading.{number_at};
ghost use Rattle.json_tree.specs.View.{view};
ghost use Rattle.vs_bytes.specs.Outcome.{Finds};
ghost use Rattle.exact_json.specs.Parsing.{told};
ghost use Rattle.exact_json.specs.Shown.{shown};

use crate::seen::Seen;
use exact_num::{NumFault, read_leading};
use json_tree::Tree;

/// Reads a number from the front of `text`, and gives the bytes after it. One that isn't admitted is
/// noted, and null stands in for it.
///
/// All the leading bytes of which numbers consist are one number.
#[tactic(auto, using(crate::proofs::NumberTold::number_told))]
pub(crate) fn read_number<'a>(text: &'a [u8], noted: &mut Seen) -> Option<(Tree, &'a [u8])>
    ensures { Finds (λ x. (view x.0, shown noted.new, x.1.now)) result (told (shown noted.old) (number_at text.now)) }
{
    let (number, behind) = read_leading(text);
    match number {
        Ok(number) => Some((Tree::Num(number), behind)),
        Err(NumFault::TooWide) => {
            noted.note_wide();
            Some((Tree::Null, behind))
        }
        Err(NumFault::NotNumber) => None,
    }
}
