//! Laws of journals in pieces.
//!
//! These functions do nothing. Their contracts are facts about the definitions, which callers may use.
ghost use Rattle.std.specs.Prelude.{◌≡◌, ◌↔◌, ◌∷◌, [], ℕ, List};
ghost use Rattle.amo_world.specs.declared.event.Event.{Event};
ghost use Rattle.amo_journal.specs.Journal.{IsJournal};
ghost use Rattle.amo_pieces.specs.Journal.{AreJournal};
ghost use Rattle.amo_pieces.specs.Text.{IsTextOf};

/// The text of pieces is the journal of the events of which they are the journal, and of no others.
pub fn text_is_the_journal()
    ensures { (pieces : List (List ℕ)) (text : List ℕ) (events : List Event) → IsTextOf pieces text → IsJournal events text ↔ AreJournal events pieces }
{}

/// The text of one piece is that piece, as of one file.
pub fn one_piece_is_its_text()
    ensures { (piece text : List ℕ) → IsTextOf (piece ∷ []) text → text ≡ piece }
{}
