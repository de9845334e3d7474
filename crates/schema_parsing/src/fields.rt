//! Names that stand twice among fields.

ghost use Rattle.std.specs.Prelude.{◌≡◌, map};
ghost use Rattle.std.specs.List.{list_any};
ghost use Rattle.std.specs.Str.{bytes_eq};
ghost use Rattle.vs_bytes.specs.Names.{repeats};
ghost use Rattle.shred_schema.specs.Views.{named};
ghost use Rattle.schema_parsing.specs.Grammar.{names_of};

use shred_schema::Node;
use vs_bytes::Text;

fn has_name(fields: &[(Text, Node)], name: &Text) -> bool
    ensures { result ≡ list_any (λ other. bytes_eq other name.now) (names_of (map named fields.now)) }
{
    let mut rest = fields;
    while let [first, others @ ..] = rest {
        if first.0.as_bytes() == name.as_bytes() {
            return true;
        }
        rest = others;
    }
    false
}

/// Whether two fields have the same name.
pub(crate) fn names_repeat(fields: &[(Text, Node)]) -> bool
    ensures { result ≡ repeats (names_of (map named fields.now)) }
{
    let mut rest = fields;
    while let [first, others @ ..] = rest {
        if has_name(others, &first.0) {
            return true;
        }
        rest = others;
    }
    false
}
