//! Paths, and their canonical text.

ghost use Rattle.std.specs.Prelude.{◌≡◌, ◌↔◌, ◌<◌, [], ◌++◌, length, IsTrue, IfOk, OnOk, OnErr, slice_get, Some, decimal};
ghost use Rattle.json_tree.specs.Text.{quoted};
ghost use Rattle.query_tree.specs.PathText.{step_text, path_text, is_star, has_star};

use crate::step::Step;
use byte_parsing::is_name;
use itoa::Buffer;
use json_tree::{print_quoted, print_text};
use smallvec::SmallVec;
use std::alloc::Global;
use vs_bytes::NoMemory;

/// The steps of a path. Most paths are short, and need no allocation of their own.
pub type Steps = SmallVec<Step, 4>;

/// A path: steps, and their canonical text.
#[derive(Drop)]
pub struct Path {
    steps: Steps,
    text: Vec<u8>,
    // The text as a JSON string, as each printed row has it.
    key: Vec<u8>,
    ghost spelled: { text.items ≡ path_text steps.items },
    ghost named: { key.items ≡ quoted (path_text steps.items) },
}

fn put_field(into: &mut Vec<u8>, name: &str) -> Result<(), NoMemory>
    ensures { OnOk result (into.new.items ≡ into.old.items ++ step_text (Step.Field name.now)) }
{
    if is_name(name.as_bytes()) {
        into.push(b'.')?;
        into.extend_from_slice(name.as_bytes())?;
    } else {
        into.push(b'[')?;
        print_text(into, name)?;
        into.push(b']')?;
    }
    Ok(())
}

fn put_index(into: &mut Vec<u8>, index: u32) -> Result<(), NoMemory>
    ensures { OnOk result (into.new.items ≡ into.old.items ++ step_text (Step.Index index)) }
{
    let mut digits = Buffer::new();
    into.push(b'[')?;
    into.extend_from_slice(digits.format(index).as_bytes())?;
    into.push(b']')?;
    Ok(())
}

fn put_step(into: &mut Vec<u8>, step: &Step) -> Result<(), NoMemory>
    ensures { OnOk result (into.new.items ≡ into.old.items ++ step_text step.now) }
{
    match step {
        Step::Field(name) => put_field(into, name.as_str()),
        Step::Index(index) => put_index(into, *index),
        Step::Star => {
            into.extend_from_slice(b"[*]")?;
            Ok(())
        }
    }
}

fn text_of(alloc: Global, steps: &[Step]) -> Result<Vec<u8>, NoMemory>
    ensures { IfOk result (λ text. text.items ≡ path_text steps.now) }
{
    let mut text = Vec::new(alloc);
    text.push(b'$')?;
    for step in steps {
        put_step(&mut text, step)?;
    }
    Ok(text)
}

fn is_star(step: &Step) -> bool
    ensures { result ≡ is_star step.now }
{
    matches!(step, Step::Star)
}

impl Path {
    ghost use Rattle.query_tree.specs.View.{steps_of};

    /// The path of these steps.
    pub fn new(alloc: Global, steps: Steps) -> Result<Path, NoMemory>
        ensures { IfOk result (λ path. steps_of path ≡ steps.items) }
    {
        let text = text_of(alloc, steps.as_slice())?;
        let mut key = Vec::new(alloc);
        print_quoted(&mut key, text.as_slice())?;
        Ok(Path { steps, text, key })
    }

    /// How many steps it has.
    pub fn len(&self) -> usize
        ensures { result ≡ length (steps_of self.now) }
    {
        self.steps.len()
    }

    /// Whether it has no step, and so stands for the row itself.
    pub fn is_empty(&self) -> bool
        ensures { IsTrue result ↔ (steps_of self.now ≡ []) }
    {
        self.steps.is_empty()
    }

    /// The step at `k`, counted from 0.
    pub fn step(&self, k: usize) -> &Step
        requires { k < length (steps_of self.now) }
        ensures { slice_get (steps_of self.now) k ≡ Some result.now }
    {
        &self.steps.as_slice()[k]
    }

    /// The steps in place.
    pub fn as_slice(&self) -> &[Step]
        ensures { result.now ≡ steps_of self.now }
    {
        self.steps.as_slice()
    }

    /// Its canonical text: `.name` where a name is letters, digits and `_` and begins with no digit,
    /// else the name as a JSON string in brackets. Two paths of the same steps have the same text.
    pub fn text(&self) -> &[u8]
        ensures { result.now ≡ path_text (steps_of self.now) }
    {
        self.text.as_slice()
    }

    /// Its canonical text as a JSON string: the name of its member in a printed row.
    pub fn key(&self) -> &[u8]
        ensures { result.now ≡ quoted (path_text (steps_of self.now)) }
    {
        self.key.as_slice()
    }

    /// Whether it has a star, so that a row may have several matches.
    pub fn has_star(&self) -> bool
        ensures { result ≡ has_star (steps_of self.now) }
    {
        self.steps.as_slice().iter().any(|step| is_star(step))
    }
}
