//! Whether the literals of a filter suit their relations.

ghost use Rattle.std.specs.Prelude.{◌≡◌};
ghost use Rattle.json_tree.specs.View.{view};
ghost use Rattle.query_tree.specs.Formula.{is_claim_suited, is_equal, is_equality, is_suited, suits};
ghost use Rattle.query_tree.specs.View.{claim_of, formula_of};

use json_tree::Tree;
use query_tree::{Filter, Relation, Test};

fn is_equal(rel: Relation) -> bool
    ensures { result ≡ is_equal rel }
{
    matches!(rel, Relation::Equal)
}

fn is_equality(rel: Relation) -> bool
    ensures { result ≡ is_equality rel }
{
    matches!(rel, Relation::Equal | Relation::NotEqual)
}

fn suits(rel: Relation, literal: &Tree) -> bool
    ensures { result ≡ suits rel (view literal.now) }
{
    match literal {
        Tree::Null => is_equal(rel),
        Tree::Bool(_) => is_equality(rel),
        Tree::Num(_) => true,
        Tree::Text(_) => true,
        Tree::Array(_) => false,
        Tree::Object(_) => false,
    }
}

fn is_test_suited(test: &Test) -> bool
    ensures { result ≡ is_claim_suited (claim_of test.now) }
{
    match test {
        Test::Exists => true,
        Test::Missing => true,
        Test::Stands { rel, literal } => suits(*rel, literal),
    }
}

/// Whether each literal suits its relation: null stands with `=` alone, a truth value with `=` and `!=`.
#[cycle(suiting)]
pub fn is_suited(filter: &Filter) -> bool
    ensures { result ≡ is_suited (formula_of filter.now) }
{
    match filter {
        Filter::Term { path, test } => is_test_suited(test),
        Filter::And(left, right) => is_suited(left.get()) && is_suited(right.get()),
        Filter::Or(left, right) => is_suited(left.get()) && is_suited(right.get()),
        Filter::Not(denied) => is_suited(denied.get()),
    }
}
