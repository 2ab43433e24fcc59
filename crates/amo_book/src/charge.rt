//! Charges.
ghost use Rattle.std.specs.Prelude.{◌≡◌};
ghost use Rattle.amo_world.specs.Stream.{IsStream};

use crate::board::Chair;
use crate::site::Site;
use amo_core::Mode;
use amo_object::End;
use std::marker::Model;

/// The right to drive one side of a stream. Contracts see its book, its place among the book's sides, the side, and the mode
/// that its last answer named.
#[derive(Drop)]
pub struct Charge {
    pub(crate) site: Site,
    pub(crate) mode: Mode,
    // It ties the charge to its book.
    pub(crate) seat: Chair,
}

impl Model for Charge {
    ghost use Rattle.amo_book.specs.Charge.{ChargeState};
    ghost use Rattle.amo_world.specs.Stream.{IsStream};

    ghost Value = { ChargeState };

    ghost view = { λ c. record { book = c.seat.table_id; place = c.site.place; side = c.site.side; stream = c.site.stream; mode = c.mode } };

    ghost invariant = { λ c. IsStream c.site.stream };
}

impl Charge {
    /// The side that it drives.
    pub fn side(&self) -> End
        ensures { result ≡ self.now.side }
    {
        self.site.side
    }

    /// The number of the stream.
    pub fn stream(&self) -> u32
        ensures number { result ≡ self.now.stream }
        ensures within { IsStream result }
    {
        self.site.stream
    }

    /// The kind of the mode that its last answer named; at first the one at rest.
    pub fn mode(&self) -> Mode
        ensures { result ≡ self.now.mode }
    {
        self.mode
    }

    pub(crate) fn site(&self) -> Site
        ensures site { (result.place ≡ self.now.place) × (result.side ≡ self.now.side) × (result.stream ≡ self.now.stream) }
        ensures within { IsStream result.stream }
    {
        self.site
    }
}
