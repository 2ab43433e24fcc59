//! Laws of journals: a journal is that of one list of events, in one version, and what is wrong with bytes is a matter of them alone.
//!
//! These functions do nothing. Their contracts are facts about the definitions, which callers may use.
ghost use Rattle.std.specs.Prelude.{◌≡◌, ◌≤◌, ◌^◌, ℕ, List, All, length};
ghost use Rattle.amo_world.specs.declared.event.Event.{Event};
ghost use Rattle.amo_journal.specs.declared.version.Version.{Version};
ghost use Rattle.amo_journal.specs.Journal.{CanSpell, IsJournal, IsJournalOf, IsMalformedAt, HasGapAt};

/// Bytes are the journal of one list of events at most, and in one version; and events that can be spelt in a version have exactly one journal
/// of it.
pub fn journals_are_unambiguous()
    ensures events { (bytes : List ℕ) (first second : List Event) → IsJournal first bytes → IsJournal second bytes → first ≡ second }
    ensures version { (bytes : List ℕ) (v w : Version) (first second : List Event) → IsJournalOf v first bytes → IsJournalOf w second bytes → v ≡ w }
    ensures bytes { (version : Version) (events : List Event) (first second : List ℕ) → IsJournalOf version events first → IsJournalOf version events second → first ≡ second }
    ensures exists { (version : Version) (events : List Event) → length events ≤ 2 ^ 64 → All (CanSpell version) events → (bytes : List ℕ) × IsJournalOf version events bytes }
{}

/// Bytes with a malformed line or a gap are no journal. They have not both, and one line of theirs is the first.
pub fn faults_are_no_journals()
    ensures malformed { (bytes : List ℕ) (at : ℕ) (events : List Event) → IsMalformedAt bytes at → ¬ (IsJournal events bytes) }
    ensures gap { (bytes : List ℕ) (at : ℕ) (events : List Event) → HasGapAt bytes at → ¬ (IsJournal events bytes) }
    ensures one_malformed { (bytes : List ℕ) (m n : ℕ) → IsMalformedAt bytes m → IsMalformedAt bytes n → m ≡ n }
    ensures one_gap { (bytes : List ℕ) (m n : ℕ) → HasGapAt bytes m → HasGapAt bytes n → m ≡ n }
    ensures not_both { (bytes : List ℕ) (m n : ℕ) → IsMalformedAt bytes m → ¬ (HasGapAt bytes n) }
{}

/// Each event that has a line in a journal of version 1 has it in one of version 2.
pub fn version_2_has_all_lines()
    ensures { (e : Event) → CanSpell Version.One e → CanSpell Version.Two e }
{}
