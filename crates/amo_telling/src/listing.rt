//! What is told of all puts.
ghost use Rattle.std.specs.Prelude.{◌≡◌, map, slice_get};
ghost use Rattle.amo_telling.specs.Told.{at_place, in_list};

use crate::put_outcome::PutOutcome;
use amo_outcomes::{Outcome, SenderOutcome};

/// What is told of each put, by the journals of both sides, or by a sender's alone: that of stream 1 first, and of each stream in their order.
#[derive(Clone, Copy)]
pub(crate) enum Listing<'a> {
    OfBoth(&'a [Vec<Outcome>]),
    OfSender(&'a [Vec<SenderOutcome>]),
    /// By both, and by the sender's where it goes on.
    Known(&'a [Vec<PutOutcome>]),
}

impl Listing<'_> {
    /// What is told of a put of the stream of this place, if it is listed.
    pub(crate) fn told_at(self, place: usize, put: usize) -> Option<PutOutcome>
        ensures { result ≡ at_place self.entry place put }
    {
        match self {
            Listing::OfBoth(all) => {
                let outcome = listed(all, place, put)?;
                Some(PutOutcome::ByBoth(outcome))
            }
            Listing::OfSender(all) => {
                let outcome = listed(all, place, put)?;
                Some(PutOutcome::BySender(outcome))
            }
            Listing::Known(all) => listed(all, place, put),
        }
    }
}

/// What is listed of a put of the stream of this place, if it is.
fn listed<T: Copy>(all: &[Vec<T>], place: usize, put: usize) -> Option<T>
    ensures { result ≡ in_list (slice_get (map (λ told. told.items) all.now) place) put }
{
    let told = all.get(place)?;
    told.as_slice().get(put).copied()
}
