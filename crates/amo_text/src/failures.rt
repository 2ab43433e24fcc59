//! How often a device has failed.
ghost use Rattle.std.specs.Prelude.{◌≡◌, ◌+◌, ◌<◌};

use std::marker::Model;
use std::sync::ledger::{Blank, Book, Ledger, Share};

/// How often a device has failed: a number without a greatest value, seen by contracts alone. It takes no bytes.
#[derive(Drop)]
pub struct Failures<L: Ledger> {
    book: Book<L>,
    share: Share<L>,
}

impl<L: Ledger> Model for Failures<L> {
    ghost use Rattle.std.specs.Prelude.{ℕ, ◌<◌};

    ghost Value = { ℕ };

    ghost view = { λ f. f.book.total };

    ghost invariant = { λ f. 0 < f.share.parts };
}

impl<L: Ledger> Failures<L> {
    /// None yet. The blank becomes the ledger in which contracts count.
    pub fn new(blank: Blank) -> Failures<L>
        requires name { blank.name ≡ L.name }
        requires parts { blank.parts ≡ L.parts }
        requires some { 0 < L.parts }
        ensures { result ≡ 0 }
    {
        let (book, share) = blank.open::<L>();
        Failures { book, share }
    }

    /// Counts one more.
    pub fn count(&mut self)
        ensures { self.new ≡ self.old + 1 }
    {
        self.book.add(&mut self.share, 1);
    }
}
