//! Whose the puts of a stream are.
ghost use Rattle.std.specs.Prelude.{◌≡◌, ◌+◌, ◌<◌, ◌^◌, ◌++◌, ◌∷◌, [], IsTrue, OnOk, length};
ghost use Rattle.amo_archive.specs.Lane.{left_behind, message_of, owners_in, owns, section_owners, stands_in};

use crate::lists::push;
use std::alloc::{AllocError, Global};

/// Who put a message.
#[derive(Clone, Copy)]
pub(crate) struct Owner {
    /// The place of its life among the lives; none where no life is known.
    pub(crate) life: Option<usize>,
    /// Whether a loss of power may have changed what became of it.
    pub(crate) is_doubtful: bool,
}

/// Puts one behind the other, of one owner.
#[derive(Clone, Copy)]
struct Section {
    owner: Owner,
    count: usize,
}

/// The puts of a stream: whose they are. Contracts see the owner of each, in order.
#[derive(Drop)]
pub(crate) struct Lane {
    sections: Vec<Section>,
}

impl Lane {
    /// There are none.
    pub(crate) fn new(alloc: Global) -> Lane
        ensures { owners_in result ≡ [] }
    {
        Lane {
            sections: Vec::new(alloc),
        }
    }

    /// One put more. Where memory is refused, nobody knows whose the last ones were.
    pub(crate) fn add(&mut self, owner: Owner) -> Result<(), AllocError>
        ensures { OnOk result (owners_in self.new ≡ owners_in self.old ++ owner ∷ []) }
    {
        let Some(section) = self.sections.pop() else {
            return push(&mut self.sections, Section { owner, count: 1 });
        };
        if is_same(section.owner, owner) && section.count < usize::MAX {
            return push(&mut self.sections, with_one(section));
        }
        push(&mut self.sections, section)?;
        push(&mut self.sections, Section { owner, count: 1 })
    }

    /// Which put is the message of this number, counted from 1, of a life, and whether it is doubtful.
    pub(crate) fn find(&self, life: usize, number: u64) -> Option<(usize, bool)>
        ensures { length (owners_in self.now) < 2 ^ 64 → result ≡ message_of life number (owners_in self.now) }
    {
        let mut put = 0usize;
        let mut left = number as usize;
        for section in self.sections.as_slice() {
            if stands_in(life, left, section) {
                return Some((
                    put.saturating_add(left.saturating_sub(1)),
                    section.owner.is_doubtful,
                ));
            }
            left = left_behind(life, left, section);
            put = put.saturating_add(section.count);
        }
        None
    }
}

/// Whether the message of this number of a life, counted from a section on, stands in it.
fn stands_in(life: usize, number: usize, section: &Section) -> bool
    ensures { result ≡ stands_in life number section.now }
{
    owns(life, section.owner) && 0 < number && number <= section.count
}

/// Its number counted from behind the section.
fn left_behind(life: usize, number: usize, section: &Section) -> usize
    ensures { result ≡ left_behind life number section.now }
{
    if owns(life, section.owner) {
        number.saturating_sub(section.count)
    } else {
        number
    }
}

/// A section with one put more.
fn with_one(section: Section) -> Section
    requires { section.count + 1 < 2 ^ 64 }
    ensures { section_owners result ≡ section_owners section ++ section.owner ∷ [] }
{
    Section {
        owner: section.owner,
        count: section.count + 1,
    }
}

/// Whether both are one owner.
fn is_same(one: Owner, other: Owner) -> bool
    ensures { IsTrue result → one ≡ other }
{
    let is_one_life = match (one.life, other.life) {
        (Some(one), Some(other)) => one == other,
        (None, None) => true,
        _ => false,
    };
    is_one_life && one.is_doubtful == other.is_doubtful
}

/// Whether a put of this owner is one of a life.
fn owns(life: usize, owner: Owner) -> bool
    ensures { result ≡ owns life owner }
{
    match owner.life {
        Some(other) => life == other,
        None => false,
    }
}
