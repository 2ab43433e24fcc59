//! What lies in a slot.
ghost use Rattle.std.specs.Prelude.{◌≡◌, IfOk};
ghost use Rattle.amo_core.specs.Automaton.{row, mode_of, handed_back, Writes};
ghost use Rattle.amo_core.specs.Summary.{summary_of};
ghost use Rattle.amo_book.specs.Foresee.{Tells};

use crate::Foreseen;
use amo_core::{Act, Advanced, Automaton, Mode, Outcome, Summary};
use amo_packet::MAX_PACKET;
use std::alloc::{AllocError, Global};
use std::marker::Model;

/// An automaton in memory of its own, so that a call that takes it out of its slot moves no more than a pointer.
/// Contracts see the automaton.
#[derive(Drop)]
pub struct Housed {
    automaton: Box<Automaton>,
}

impl Model for Housed {
    ghost use Rattle.amo_core.specs.declared.automaton.Automaton.{Automaton};

    ghost Value = { Automaton };

    ghost view = { λ housed. housed.automaton.value };
}

impl Housed {
    /// Moves an automaton into memory of its own.
    pub fn new(alloc: Global, automaton: Automaton) -> Result<Housed, AllocError>
        ensures { IfOk result (λ housed. housed ≡ automaton) }
    {
        Ok(Housed {
            automaton: Box::new(alloc, automaton)?,
        })
    }

    /// As [`Automaton::step`].
    pub fn step(&mut self, act: Act, buffer: &mut [u8; MAX_PACKET]) -> Outcome
        ensures state { self.new ≡ (row self.old act).state }
        ensures reply { result.reply ≡ (row self.old act).reply }
        ensures handed_back { result.handed_back ≡ handed_back act result.reply }
        ensures emitted { Writes (row self.old act).emitted buffer.old buffer.new result.length }
    {
        self.automaton.step(act, buffer)
    }

    /// As [`Automaton::advance`].
    // Inlined, a caller that names its act moves and tests nothing of the other acts.
    #[inline(always)]
    pub fn advance(&mut self, act: Act) -> Advanced
        ensures state { self.new ≡ (row self.old act).state }
        ensures reply { result.reply ≡ (row self.old act).reply }
        ensures handed_back { result.handed_back ≡ handed_back act result.reply }
    {
        self.automaton.advance(act)
    }

    /// What the act would do. What it would emit stands at the front of the buffer where it would change nothing.
    pub fn foresee(&self, act: &Act, buffer: &mut [u8; MAX_PACKET]) -> Foreseen
        ensures { Tells (row self.now act.now) self.now buffer.old buffer.new result }
    {
        if self.automaton.is_changed_by(act) {
            Foreseen::Changes(self.automaton.summary())
        } else {
            Foreseen::Keeps(self.automaton.write_emission(act, buffer))
        }
    }

    /// As [`Automaton::summary`].
    pub fn summary(&self) -> Summary
        ensures { result ≡ summary_of self.now }
    {
        self.automaton.summary()
    }

    /// As [`Automaton::mode`].
    pub fn mode(&self) -> Mode
        ensures { result ≡ mode_of self.now }
    {
        self.automaton.mode()
    }
}
