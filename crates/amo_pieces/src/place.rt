//! Where a line of the text stands.
ghost use Rattle.std.specs.Prelude.{◌≡◌, ◌⊎◌, [], List, ℕ, IfSome, IfNone};
ghost use Rattle.amo_pieces.specs.Kept.{AreStarts};
ghost use Rattle.amo_pieces.specs.Places.{IsAt};

use crate::start::Start;

/// A line of a piece.
#[derive(Clone, Copy, Debug, PartialEq, Eq)]
pub struct Place {
    /// Which piece it is, from 0.
    pub piece: usize,
    /// Which line of the piece, from 1.
    pub line: usize,
}

/// The place of this line, counted from 1, in pieces that start so.
pub(crate) fn place_in(starts: &[Start], line: usize) -> Option<Place>
    ensures found { IfSome result (λ place. (pieces : List (List ℕ)) → AreStarts starts.now pieces → IsAt pieces line place) }
    ensures none { IfNone result ((pieces : List (List ℕ)) → AreStarts starts.now pieces → (line ≡ 0) ⊎ (pieces ≡ [])) }
{
    let mut rest = starts;
    'starts: while let [earlier @ .., start] = rest {
        if start.is_before(line) {
            return Some(Place {
                piece: earlier.len(),
                line: line - start.ends + start.left_out,
            });
        }
        rest = earlier;
    }
    None
}
