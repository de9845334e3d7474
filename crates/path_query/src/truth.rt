//! Whether a filter holds in a row.

ghost use Rattle.std.specs.Prelude.{◌≡◌};
ghost use Rattle.std.specs.List.{list_any};
ghost use Rattle.json_tree.specs.View.{view};
ghost use Rattle.query_tree.specs.View.{steps_of, claim_of, formula_of};
ghost use Rattle.path_query.specs.Matches.{matches, at};
ghost use Rattle.path_query.specs.Rows.{row_of};
ghost use Rattle.path_query.specs.Serves.{serves};
ghost use Rattle.path_query.specs.Truth.{is_ordered, is_same, stands_to, is_true_of, holds};

use crate::taking::parts_at;
use json_tree::Tree;
use query_tree::{Filter, Path, Relation, Step, Test};
use std::cmp::Ordering;

fn is_ordered(relation: Relation, order: Ordering) -> bool
    ensures { result ≡ is_ordered relation order }
{
    match relation {
        Relation::Equal => order.is_eq(),
        Relation::NotEqual => order.is_ne(),
        Relation::Less => order.is_lt(),
        Relation::AtMost => order.is_le(),
        Relation::Greater => order.is_gt(),
        Relation::AtLeast => order.is_ge(),
    }
}

fn is_same(relation: Relation, same: bool) -> bool
    ensures { result ≡ is_same relation same }
{
    match relation {
        Relation::Equal => same,
        Relation::NotEqual => !same,
        Relation::Less | Relation::AtMost | Relation::Greater | Relation::AtLeast => false,
    }
}

// A match of another kind than the literal's stands in no relation to it.
fn stands(relation: Relation, literal: &Tree, found: &Tree) -> bool
    ensures { result ≡ stands_to relation (view literal.now) (view found.now) }
{
    match literal {
        Tree::Null => match found {
            Tree::Null => is_same(relation, true),
            _ => false,
        },
        Tree::Bool(wanted) => match found {
            Tree::Bool(truth) => is_same(relation, *truth == *wanted),
            _ => false,
        },
        Tree::Num(wanted) => match found {
            Tree::Num(number) => is_ordered(relation, exact_num::cmp(*number, *wanted)),
            _ => false,
        },
        Tree::Text(wanted) => match found {
            Tree::Text(text) => is_ordered(relation, text.cmp(wanted)),
            _ => false,
        },
        Tree::Array(_) | Tree::Object(_) => false,
    }
}

fn serves(test: &Test, found: &Tree) -> bool
    ensures { result ≡ serves (claim_of test.now) (view found.now) }
{
    match test {
        Test::Exists | Test::Missing => true,
        Test::Stands { rel, literal } => stands(*rel, literal, found),
    }
}

// It ends at the first match that serves.
fn any_match(steps: &[Step], tree: &Tree, test: &Test) -> bool
    ensures { result ≡ list_any (serves (claim_of test.now)) (matches steps.now (view tree.now)) }
{
    match steps.split_first() {
        None => serves(test, tree),
        Some((step, others)) => {
            for part in parts_at(step, tree) {
                if any_match(others, part, test) {
                    return true;
                }
            }
            false
        }
    }
}

fn is_true(path: &Path, test: &Test, row: Option<&Tree>) -> bool
    ensures { result ≡ is_true_of (at (steps_of path.now) (row_of row.entry)) (claim_of test.now) }
{
    let any = match row {
        Some(tree) => any_match(path.as_slice(), tree, test),
        None => false,
    };
    match test {
        Test::Missing => !any,
        Test::Exists | Test::Stands { .. } => any,
    }
}

/// Whether a filter holds in a row. It takes no memory.
#[cycle(holds)]
pub fn holds(filter: &Filter, row: Option<&Tree>) -> bool
    ensures { result ≡ holds (formula_of filter.now) (row_of row.entry) }
{
    match filter {
        Filter::Term { path, test } => is_true(path, test, row),
        Filter::And(f, g) => holds(f.get(), row) && holds(g.get(), row),
        Filter::Or(f, g) => holds(f.get(), row) || holds(g.get(), row),
        Filter::Not(f) => !holds(f.get(), row),
    }
}
