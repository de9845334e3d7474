//! The query that a filter's text and paths' texts ask for.

ghost use Rattle.std.specs.Prelude.{◌≡◌, map};
ghost use Rattle.std.specs.List.{list_any};
ghost use Rattle.std.specs.Str.{bytes_eq};
ghost use Rattle.std.specs.Option.{option_map};
ghost use Rattle.query_tree.specs.Asked.{query_of};
ghost use Rattle.query_tree.specs.PathText.{path_text};
ghost use Rattle.query_tree.specs.View.{steps_of, formula_of};
ghost use Rattle.path_parsing.specs.Grammar.{IsPath};
ghost use Rattle.command_words.specs.Reading.{texts_of};
ghost use Rattle.command_parsing.specs.Asking.{Reads};
ghost use Rattle.command_parsing.specs.Queries.{AsksFilter, ArePaths, IsAsked, IsWrongFilter, IsWrongPath, AreWrongPaths, IsWrongQuery, is_repeated};

use crate::fault::{BadWords, WordsFault};
use command_words::ScanWords;
use path_query::{Filter, Path, PathList, Query, TextFault, parse_filter, parse_path};
use std::alloc::Global;

/// The filter of a text, if there is one.
fn asked_filter(alloc: Global, text: Option<&str>) -> Result<Option<Filter>, WordsFault>
    ensures { Reads (λ filter. AsksFilter (option_map (λ t. t.now) text.entry) (option_map formula_of filter)) (IsWrongFilter (option_map (λ t. t.now) text.entry)) result }
{
    let Some(text) = text else {
        return Ok(None);
    };
    match parse_filter(alloc, text) {
        Ok(filter) => Ok(Some(filter)),
        Err(TextFault::BadFilter) => Err(WordsFault::Wrong(BadWords::BadFilter)),
        Err(TextFault::BadOrder) => Err(WordsFault::Wrong(BadWords::BadOrder)),
        Err(TextFault::BadPath) => Err(WordsFault::Wrong(BadWords::BadPath)),
        Err(TextFault::NoMemory) => Err(WordsFault::NoMemory),
    }
}

/// The path of a text.
fn asked_path(alloc: Global, text: &str) -> Result<Path, WordsFault>
    ensures { Reads (λ path. IsPath text.now (steps_of path)) (IsWrongPath text.now) result }
{
    match parse_path(alloc, text) {
        Ok(path) => Ok(path),
        Err(TextFault::BadPath) => Err(WordsFault::Wrong(BadWords::BadPath)),
        Err(TextFault::BadFilter) => Err(WordsFault::Wrong(BadWords::BadFilter)),
        Err(TextFault::BadOrder) => Err(WordsFault::Wrong(BadWords::BadOrder)),
        Err(TextFault::NoMemory) => Err(WordsFault::NoMemory),
    }
}

/// The paths of texts, in order.
fn asked_paths(alloc: Global, texts: &[&str]) -> Result<PathList, WordsFault>
    ensures { Reads (λ paths. ArePaths (map (λ t. t.now) texts.now) (map steps_of paths)) (AreWrongPaths (map (λ t. t.now) texts.now)) result }
{
    let mut paths = PathList::new(alloc);
    for text in texts {
        match asked_path(alloc, text) {
            Ok(path) => match paths.push(path) {
                Ok(()) => {}
                Err(_) => return Err(WordsFault::NoMemory),
            },
            Err(fault) => return Err(fault),
        }
    }
    Ok(paths)
}

fn has_text(path: &Path, text: &[u8]) -> bool
    ensures { result ≡ bytes_eq (path_text (steps_of path.now)) text.now }
{
    path.text() == text
}

/// Whether some path has that canonical text.
fn is_among(text: &[u8], paths: &[Path]) -> bool
    ensures { result ≡ list_any (λ other. bytes_eq other text.now) (map path_text (map steps_of paths.now)) }
{
    for path in paths {
        if has_text(path, text) {
            return true;
        }
    }
    false
}

/// Whether two paths have one canonical text.
fn is_repeated(paths: &[Path]) -> bool
    ensures { result ≡ is_repeated (map steps_of paths.now) }
{
    let mut rest = paths;
    while let [path, others @ ..] = rest {
        if is_among(path.text(), others) {
            return true;
        }
        rest = others;
    }
    false
}

/// The query of a filter's text and paths' texts.
#[tactic(auto, using(crate::proofs::ReadTexts::filter_refused))]
pub fn query_of_texts(alloc: Global, texts: &ScanWords<'_>) -> Result<Query, WordsFault>
    ensures { Reads (λ query. IsAsked (texts_of texts.now) (query_of query)) (IsWrongQuery (texts_of texts.now)) result }
{
    let filter = match asked_filter(alloc, texts.filter) {
        Ok(filter) => filter,
        Err(fault) => return Err(fault),
    };
    let paths = match asked_paths(alloc, texts.paths.as_slice()) {
        Ok(paths) => paths,
        Err(fault) => return Err(fault),
    };
    if is_repeated(paths.as_slice()) {
        return Err(WordsFault::Wrong(BadWords::RepeatedPath));
    }
    Ok(Query { filter, paths })
}
