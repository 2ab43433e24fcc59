//! A book of a run, and the pumps of its hosts.
ghost use Rattle.std.specs.Prelude.{◌≡◌, ◌++◌, ◌≤◌, IfOk, OnOk};
ghost use Rattle.amo_book.specs.Book.{IsLawful, Opens};
ghost use Rattle.amo_run.specs.Parts.{sides_of};
ghost use Rattle.amo_run.specs.Sides.{sides_from};

use crate::RunFault;
use crate::part::Part;
use amo_book::{Book, Charge, OpenFault, Pass};
use amo_object::End;
use std::alloc::{AllocError, Global};

/// A book that was opened, with its passes and charges.
#[derive(Drop)]
pub struct Opened {
    pub book: Book,
    pub passes: Vec<Pass>,
    pub charges: Vec<Charge>,
}

/// Opens a book with the sides of these hosts, of the streams from 1 on, and so many passes.
#[tactic(auto, using(crate::proofs::Openings::may_open, crate::proofs::Lines::lawful_book))]
pub fn open(alloc: Global, part: Part, streams: u32, passes: usize) -> Result<Opened, RunFault>
    requires streams { (1 ≤ streams) × (streams ≤ 256) }
    requires passes { (2 ≤ passes) × (passes ≤ 64) }
    ensures opens { IfOk result (λ o. Opens (sides_of part streams) passes o.book o.passes.items o.charges.items) }
    ensures lawful { IfOk result (λ o. IsLawful o.book.sides o.book.passes) }
{
    let Ok(sides) = all_sides(alloc, part, streams) else {
        return Err(RunFault::NoMemory);
    };
    match Book::open(alloc, sides, passes) {
        Ok((book, passes, charges)) => Ok(Opened {
            book,
            passes,
            charges,
        }),
        Err(OpenFault::NoMemory) => Err(RunFault::NoMemory),
        Err(OpenFault::Limits) => unreachable!(),
    }
}

/// The sides of these hosts, of the streams from 1 on, the senders' first.
fn all_sides(alloc: Global, part: Part, streams: u32) -> Result<Vec<(End, u32)>, AllocError>
    ensures { IfOk result (λ sides. sides.items ≡ sides_of part streams) }
{
    let mut sides = Vec::new(alloc);
    match part {
        Part::Both => {
            push_sides(&mut sides, End::Sender, streams)?;
            push_sides(&mut sides, End::Receiver, streams)?;
        }
        Part::Senders => push_sides(&mut sides, End::Sender, streams)?,
        Part::Receivers => push_sides(&mut sides, End::Receiver, streams)?,
    }
    Ok(sides)
}

/// Adds this side of the streams from 1 on.
#[tactic(auto, using(crate::proofs::Openings::sides_step))]
fn push_sides(sides: &mut Vec<(End, u32)>, side: End, streams: u32) -> Result<(), AllocError>
    ensures { OnOk result (sides.new.items ≡ sides.old.items ++ sides_from side 1 streams) }
{
    'streams: for index in 0..streams {
        sides.push((side, index + 1))?;
    }
    Ok(())
}
