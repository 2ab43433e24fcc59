//! The lives of a host.
ghost use Rattle.std.specs.Prelude.{◌≡◌, ◌+◌, ◌≤◌, ◌<◌, ◌^◌, ◌↔◌, [], ◌∷◌, ◌++◌, vec_len, vec_capacity, IfErr, IsOk, OnOk, OnErr};
ghost use Rattle.amo_lives.specs.Fault.{IsBeyond};
ghost use Rattle.amo_lives.specs.Lives.{AreLives, MayFollow, has_tag, reach, with_life};
ghost use Rattle.amo_lives.specs.Life.{InRange};

use crate::{BeyondJournal, Life};
use amo_object::End;
use std::alloc::{AllocError, Global};
use std::collections::HashSet;
use std::marker::Model;

/// The lives of a host, in the order of time. Contracts see the side of the host, the key of its words, and the lives.
#[derive(Drop)]
pub struct Lives {
    side: End,
    pub(crate) key: [u8; 16],
    lives: Vec<Life>,
    // Those of the lives, so that a life more costs no walk over all of them.
    tags: HashSet<u32>,
    // The greatest number of a life's first line, or 0.
    reach: u64,
}

impl Model for Lives {
    ghost use Rattle.amo_lives.specs.Lives.{LivesState};

    ghost Value = { LivesState };

    ghost use Rattle.amo_lives.specs.Kept.{IsKept};

    ghost view = { λ s. record { side = s.side; key = s.key; lives = s.lives.items } };

    ghost invariant = { λ s. IsKept s.key s.lives.items s.tags.keys s.reach };
}

impl Lives {
    /// None yet, of the host of this side, with this key: 16 bytes that the system drew at random, and that nobody else knows.
    pub fn new(alloc: Global, side: End, key: [u8; 16]) -> Lives
        ensures { result ≡ record { side = side; key = key; lives = [] } }
    {
        Lives {
            side,
            key,
            lives: Vec::new(alloc),
            tags: HashSet::new(alloc),
            reach: 0,
        }
    }

    /// The side of the host.
    pub fn side(&self) -> End
        ensures { result ≡ self.now.side }
    {
        self.side
    }

    /// The lives, in the order of time.
    pub fn lives(&self) -> &[Life]
        ensures lives { result.now ≡ self.now.lives }
        ensures known { AreLives self.now.lives }
    {
        self.lives.as_slice()
    }

    /// Tells whether these lives can be those of the journal of this side that has so many lines: none begins beyond the next one.
    pub fn check_journal(&self, lines: u64) -> Result<(), BeyondJournal>
        ensures ok { IsOk result ↔ (reach self.now.lives ≤ lines) }
        ensures beyond { IfErr result (IsBeyond self.now.lives lines) }
    {
        for place in 0..self.lives.len() {
            let first_line = self.lives[place].first_line;
            if first_line > lines {
                return Err(BeyondJournal {
                    line: line_of(place),
                    first_line,
                });
            }
        }
        Ok(())
    }

    /// Whether a life has this tag.
    pub fn has_tag(&self, tag: u32) -> bool
        ensures { result ≡ has_tag self.now.lives tag }
    {
        self.tags.contains(&tag)
    }

    /// The greatest number of a life's first line, or 0.
    pub fn reach(&self) -> u64
        ensures { result ≡ reach self.now.lives }
    {
        self.reach
    }

    /// One life more. Where memory is refused nothing changed.
    pub(crate) fn add(&mut self, life: &Life) -> Result<(), AllocError>
        requires known { InRange life.now }
        requires follows { MayFollow self.old.lives life.now }
        ensures ok { OnOk result (self.new ≡ with_life self.old life.now) }
        ensures err { OnErr result (self.new ≡ self.old) }
    {
        self.lives.reserve(1)?;
        self.tags.insert(life.tag)?;
        push_within(&mut self.lives, life);
        self.reach = life.first_line;
        Ok(())
    }
}

/// The line of the life at this place in the file, counted from 1: the heading is line 1.
pub(crate) fn line_of(place: usize) -> usize
    requires { place + 2 < 2 ^ 64 }
    ensures { result ≡ place + 2 }
{
    place + 2
}

/// Adds a life where there is room.
fn push_within(lives: &mut Vec<Life>, life: &Life)
    requires { vec_len lives.old < vec_capacity lives.old }
    ensures { lives.new.items ≡ lives.old.items ++ life.now ∷ [] }
{
    // The check is told so of the types that a life holds.
    let _boot = life.boot;
    let Ok(()) = lives.push(*life) else {
        unreachable!()
    };
}
