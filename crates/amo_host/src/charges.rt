//! Lists of charges: whether a pump may have them, and what a host knows of them.
ghost use Rattle.std.specs.Prelude.{◌≡◌, ◌↔◌, IsTrue, IfOk, map};
ghost use Rattle.std.specs.List.Sorted.{IsStrictlyIncreasing};
ghost use Rattle.amo_world.specs.Stream.{IsStream};
ghost use Rattle.amo_book.specs.Book.{Each};
ghost use Rattle.amo_host.specs.Charges.{CanBeDriven, IsOfSide, stream_mode_of};
ghost use Rattle.amo_host.specs.Host.{streams_of};

use crate::agenda::StreamMode;
use amo_book::Charge;
use amo_object::End;
use amo_window::MAX_PERMITS;
use std::alloc::{AllocError, Global};

/// Whether there is a charge, all are of one side and rise by stream, and the window is one that is allowed.
pub fn can_be_driven(charges: &[Charge], window: usize) -> bool
    ensures { IsTrue result ↔ CanBeDriven charges.now window }
{
    let Some(first) = charges.first() else {
        return false;
    };
    (1..=MAX_PERMITS).contains(&window) && are_of_side(charges, first.side()) && are_rising(charges)
}

/// Whether all charges are of this side.
#[tactic(auto, using(crate::proofs::ChargeLemmas::each_at, crate::proofs::ChargeLemmas::each_from))]
fn are_of_side(charges: &[Charge], side: End) -> bool
    ensures { IsTrue result ↔ Each (IsOfSide side) charges.now }
{
    for charge in charges {
        if charge.side() != side {
            return false;
        }
    }
    true
}

/// Whether the stream of each charge is greater than that of the one before it.
fn are_rising(charges: &[Charge]) -> bool
    ensures { IsTrue result ↔ IsStrictlyIncreasing (map (λ c. c.stream) charges.now) }
{
    charges.is_sorted_by(|before, after| before.stream() < after.stream())
}

/// What a host knows of its charges.
#[tactic(auto, using(crate::proofs::ChargeLemmas::each_push))]
pub fn modes_of(alloc: Global, charges: &[Charge]) -> Result<Vec<StreamMode>, AllocError>
    ensures modes { IfOk result (λ modes. modes.items ≡ map stream_mode_of charges.now) }
    ensures streams { IfOk result (λ modes. Each IsStream (streams_of modes.items)) }
{
    let mut modes = Vec::with_capacity(alloc, charges.len())?;
    for charge in charges {
        modes.push_reserved(StreamMode {
            stream: charge.stream(),
            mode: charge.mode(),
        });
    }
    Ok(modes)
}
