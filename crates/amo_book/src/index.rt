//! Where each side of a stream stands among the sides of a book.
ghost use Rattle.std.specs.Prelude.{◌≡◌, ◌<◌, Some, None, true, false, IfSome, IfNone, length, slice_get, ℕ};
ghost use Rattle.amo_object.specs.declared.step.End.{End};
ghost use Rattle.amo_world.specs.Stream.{IsStream};
ghost use Rattle.amo_book.specs.Book.{AreLawful};
ghost use Rattle.amo_book.specs.Index.{place_of, IsIndex, Adds};
ghost use Rattle.amo_book.specs.Site.{IsSite};

use crate::site::Site;
use amo_object::End;
use amo_world::STREAMS;

/// How long a column is: the number of a stream is its index.
const COLUMN: usize = STREAMS as usize + 1;

/// The place of each side, by its stream's number.
#[derive(Drop)]
pub struct Index {
    senders: [Option<usize>; COLUMN],
    receivers: [Option<usize>; COLUMN],
}

impl Index {
    /// The index of no side.
    pub fn new() -> Index
        ensures { (side : End) (stream : ℕ) → place_of result side stream ≡ None }
    {
        Index {
            senders: [None; COLUMN],
            receivers: [None; COLUMN],
        }
    }

    /// The index of these sides, if there is one, each is of a stream of a host, and none stands twice.
    #[tactic(auto, using(crate::proofs::Indexing::begins, crate::proofs::Indexing::adds, crate::proofs::Indexing::whole, crate::proofs::Indexing::not_lawful))]
    pub fn of(sides: &[(End, u32)]) -> Option<Index>
        ensures some { IfSome result (λ index. IsIndex sides.now index × AreLawful sides.now) }
        ensures none { IfNone result (AreLawful sides.now → ⊥) }
    {
        if sides.is_empty() {
            return None;
        }
        let mut index = Index::new();
        for place in 0..sides.len() {
            if !index.add(site_at(sides, place)) {
                return None;
            }
        }
        Some(index)
    }

    /// The place of a side, if it is among them.
    pub fn find(&self, side: End, stream: u32) -> Option<usize>
        ensures { result ≡ place_of self.now side stream }
    {
        let column = match side {
            End::Sender => &self.senders,
            End::Receiver => &self.receivers,
        };
        *column.get(stream as usize)?
    }

    /// Adds a side, if it is of a stream of a host, and new. Otherwise nothing changes.
    pub fn add(&mut self, site: Site) -> bool
        ensures added { result ≡ true → Adds self.old self.new site.side site.stream site.place }
        ensures refused { result ≡ false → IsStream site.stream → (k : ℕ) × (place_of self.old site.side site.stream ≡ Some k) }
        ensures same { result ≡ false → self.new ≡ self.old }
    {
        let Site {
            place,
            side,
            stream,
        } = site;
        if stream < 1 || stream > STREAMS || self.find(side, stream).is_some() {
            return false;
        }
        match side {
            End::Sender => self.senders[stream as usize] = Some(place),
            End::Receiver => self.receivers[stream as usize] = Some(place),
        }
        true
    }
}

/// The side at a place.
pub fn site_at(sides: &[(End, u32)], place: usize) -> Site
    requires { place < length sides.now }
    ensures { IsSite sides.now result × (result.place ≡ place) }
{
    let (side, stream) = sides[place];
    Site {
        place,
        side,
        stream,
    }
}
