//! Unions: structs of which one field should stand, the member. Where several known members stand in one, the first
//! counts; one that stands twice breaks the union.

ghost use Rattle.std.specs.Prelude.{◌≡◌, ◌<◌};
ghost use Rattle.vs_bytes.specs.Outcome.{Makes};
ghost use Rattle.thrift_compact.specs.Numbers.{mapped};
ghost use Rattle.thrift_compact.specs.Trees.{at_shape};
ghost use Rattle.schema_elements.specs.Unions.{none_met, is_broken_by, met};

use std::alloc::Global;
use thrift_compact::pass;
use thrift_structs::Entry;
use vs_bytes::Refusal;

// One more than the greatest id of a member.
const MEMBERS: usize = 17;

/// What a member holds: up to two numbers.
#[derive(Clone, Copy, Debug)]
pub struct Inside {
    /// The first of them.
    pub first: Option<i32>,
    /// The second of them.
    pub second: Option<i32>,
}

/// The slots of a union.
#[derive(Drop)]
pub struct UnionSlots {
    /// The id of the first known member, or 0.
    pub member: u8,
    seen: [bool; MEMBERS],
    /// Whether a member stands twice, or has another type or value.
    pub broken: bool,
    /// What the first known member holds.
    pub inside: Inside,
}

impl UnionSlots {
    /// No member yet.
    pub fn new() -> UnionSlots
        ensures { result ≡ none_met }
    {
        UnionSlots {
            member: 0,
            seen: [
                false, false, false, false, false, false, false, false, false, false, false, false,
                false, false, false, false, false,
            ],
            broken: false,
            inside: Inside {
                first: None,
                second: None,
            },
        }
    }

    // Whether the union is broken with member `i`, of which `read` is what it holds.
    fn is_broken_by(&self, i: u8, read: Option<Inside>) -> bool
        requires { i < 17 }
        ensures { result ≡ is_broken_by self.now i read }
    {
        self.broken || self.seen[usize::from(i)] || read.is_none()
    }

    // Member `i`, of which `read` is what it holds.
    #[tactic(auto, using(std::proofs::lemmas::Bool::Decides::nat_tests), unfolding(crate::specs::Unions::met))]
    fn meet(&mut self, i: u8, read: Option<Inside>)
        requires { i < 17 }
        ensures { self.new ≡ met self.old i read }
    {
        self.broken = self.is_broken_by(i, read);
        self.seen[usize::from(i)] = true;
        if self.member == 0 {
            self.member = i;
            self.inside = read.unwrap_or(self.inside);
        }
    }
}

/// Reads the value of member `i` into the slots, or passes over it.
#[tactic(auto, using(crate::proofs::Meeting::met_other), unfolding(thrift_compact::specs::Trees::at_shape, thrift_compact::specs::Trees::passed_over))]
pub fn put_member<'a, E: Entry<Out = Inside>>(
    alloc: Global,
    slots: &mut UnionSlots,
    i: u8,
    kind: u8,
    bytes: &'a [u8],
) -> Result<&'a [u8], Refusal>
    requires { i < 17 }
    ensures { Makes (λ rest. (slots.new, rest.now)) result (mapped (λ v. met slots.old i (E.read v)) (at_shape E.shape kind bytes.now)) }
{
    if E::fits(kind) {
        let (inside, rest) = E::read(alloc, kind, bytes)?;
        slots.meet(i, inside);
        Ok(rest)
    } else {
        let rest = pass(bytes, kind)?;
        slots.meet(i, None);
        Ok(rest)
    }
}
