//! The ids of an object's fields.

ghost use Rattle.std.specs.Prelude.{◌≡◌, ◌++◌, map, OnOk};
ghost use Rattle.json_tree.specs.Json.{fields_of};
ghost use Rattle.json_tree.specs.View.{seen};
ghost use Rattle.variant_write.specs.Coded.{ids_of};
ghost use Rattle.variant_write.specs.Conditions.{FieldsHaveNames};

use json_tree::Tree;
use variant_meta::Dictionary;
use vs_bytes::{NoMemory, Text};

/// Appends the ids of these fields.
pub(crate) fn append_ids(
    into: &mut Vec<u32>,
    dict: &Dictionary,
    pairs: &[(Text, Tree)],
) -> Result<(), NoMemory>
    requires { FieldsHaveNames dict.now (fields_of (map seen pairs.now)) }
    ensures { OnOk result (into.new.items ≡ into.old.items ++ ids_of dict.now (fields_of (map seen pairs.now))) }
{
    for pair in pairs {
        into.push(dict.id(pair.0.as_str()).unwrap())?;
    }
    Ok(())
}
