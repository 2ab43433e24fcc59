//! Whose the passes of a book are.
use crate::part::Part;

/// Which passes of a book are those of pumps and of clients. Each client has one, and behind them each pump; those before them are nobody's.
#[derive(Clone, Copy)]
pub struct Roster {
    /// The hosts that stand in the book.
    pub part: Part,
    /// How many pumps each of them has.
    pub pumps: usize,
    /// The number of the first client's pass.
    pub first_client: usize,
    /// The number of the first pump's pass.
    pub first_pump: usize,
}
