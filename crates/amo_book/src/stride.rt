//! Where gates and slots stand in the table.
ghost use Rattle.std.specs.Prelude.{◌≡◌, ◌<◌, ◌^◌};
ghost use Rattle.amo_book.specs.Rule.{gate_of, slot_of};

/// How many words a gate stands from the next one, and how many slots a slot that is used from the next one: sixty-four bytes,
/// so that no two share a line of a cache. What stands between is never touched.
pub const STRIDE: usize = 8;

/// The word of the count.
pub const COUNT: usize = 0;

/// The word that is the gate of the side at a place.
pub fn gate_of(place: usize) -> usize
    requires { place < 2 ^ 60 }
    ensures { result ≡ gate_of place }
{
    STRIDE * (place + 1)
}

/// The slot of the side at a place.
pub fn slot_of(place: usize) -> usize
    requires { place < 2 ^ 60 }
    ensures { result ≡ slot_of place }
{
    STRIDE * place
}
