//! Laws of pieces that grow.
//!
//! These functions do nothing. Their contracts are facts about the definitions, which callers may use.
ghost use Rattle.std.specs.Prelude.{◌<◌, ◌∷◌, ℕ, List};
ghost use Rattle.amo_journal.specs.declared.version.Version.{Version};
ghost use Rattle.amo_pieces.specs.Text.{IsTextOf};
ghost use Rattle.amo_disk.specs.Kept.{AreClosed, AreHeaded, spelt};

/// The pieces of a roll, read as one, have the text that was written to it: what a reader of pieces makes of them is that of one file.
pub fn pieces_are_one_text()
    ensures { (version : Version) (limit : ℕ) (newest : List ℕ) (earlier : List (List ℕ)) → 6 < limit → AreHeaded version (newest ∷ earlier) → AreClosed version limit earlier
        → IsTextOf (newest ∷ earlier) (spelt version (newest ∷ earlier)) }
{}
