//! A side of a stream, as far as its own events are judged without the other's.
ghost use Rattle.std.specs.Prelude.{◌≡◌, ◌↔◌, ◌++◌, ℕ, List, [], Some, IfErr, IfOk, IsTrue, OnOk};
ghost use Rattle.std.specs.Option.{option_to_list};
ghost use Rattle.amo_core.specs.declared.automaton.Automaton.{Automaton};
ghost use Rattle.amo_core.specs.Automaton.{row, used_word};
ghost use Rattle.amo_audit.specs.Alone.{IsLone, IsNew, RefusesAct};

use amo_core::{Act, Automaton, Reply};
use amo_world::WorldFault;
use std::alloc::{AllocError, Global};
use std::collections::BTreeSet;

/// One side of a stream: its automaton, and the words that it used up.
#[derive(Drop)]
pub(crate) struct LoneSide {
    automaton: Automaton,
    words: BTreeSet<u64>,
}

impl LoneSide {
    /// A side at which nothing happened yet.
    pub(crate) fn new(alloc: Global, automaton: Automaton) -> LoneSide
        ensures { IsLone result automaton [] }
    {
        LoneSide {
            automaton,
            words: BTreeSet::new(alloc),
        }
    }

    /// An act with its reply, unless the row replies otherwise, or the act uses up a word again.
    pub(crate) fn take(&mut self, act: &Act, reply: &Reply) -> Result<(), WorldFault>
        ensures taken { OnOk result ((automaton : Automaton) (words : List ℕ) → IsLone self.old automaton words
            → ((row automaton act.now).reply ≡ Some reply.now) × IsNew (used_word automaton act.now) words
            × IsLone self.new (row automaton act.now).state (option_to_list (used_word automaton act.now) ++ words)) }
        ensures refused { IfErr result (λ fault. (automaton : Automaton) (words : List ℕ) → IsLone self.old automaton words
            → RefusesAct automaton words act.now reply.now fault) }
    {
        if !self.automaton.replies(act, reply) {
            return Err(WorldFault::WrongReply);
        }
        let word = self.automaton.used_word(act);
        if self.has_used(word) {
            return Err(WorldFault::Repeat);
        }
        self.make(act, word)?;
        Ok(())
    }

    /// Whether the word, if there is one, was used up.
    fn has_used(&self, word: Option<u64>) -> bool
        ensures { (automaton : Automaton) (words : List ℕ) → IsLone self.now automaton words → IsTrue result ↔ (¬ (IsNew word words)) }
    {
        match word {
            Some(word) => self.words.contains(&word),
            None => false,
        }
    }

    /// Makes an act, which uses up this word if there is one.
    fn make(&mut self, act: &Act, word: Option<u64>) -> Result<(), AllocError>
        ensures { IfOk result (λ _. (automaton : Automaton) (words : List ℕ) → IsLone self.old automaton words
            → IsLone self.new (row automaton act.now).state (option_to_list word ++ words)) }
    {
        self.note(word)?;
        let copy = copy_of(act)?;
        self.automaton.advance(copy);
        Ok(())
    }

    /// Adds a word, if there is one, to those that the side used up.
    fn note(&mut self, word: Option<u64>) -> Result<(), AllocError>
        ensures state { self.new.automaton ≡ self.old.automaton }
        ensures known { IfOk result (λ _. (automaton : Automaton) (words : List ℕ) → IsLone self.old automaton words
            → IsLone self.new automaton (option_to_list word ++ words)) }
    {
        if let Some(word) = word {
            self.words.insert(word)?;
        }
        Ok(())
    }
}

/// An act, copied.
fn copy_of(act: &Act) -> Result<Act, AllocError>
    ensures { IfOk result (λ copy. copy ≡ act.now) }
{
    act.clone()
}
