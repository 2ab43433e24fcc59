//! The book itself: how it opens, and how passes meet.
ghost use Rattle.std.specs.Prelude.{◌≡◌, ◌↔◌, IfOk, IfSome, IfNone, IsErrOf, Some, slice_get};
ghost use Rattle.amo_world.specs.History.{Extends, IsRight};
ghost use Rattle.amo_book.specs.Book.{Opens, IsLawful};
ghost use Rattle.amo_book.specs.Pass.{IsSamePass, Met};
ghost use Rattle.amo_book.specs.Calls.{HasSide};
ghost use Rattle.amo_book.specs.Rule.{AllBelow};

use crate::board::{Board, Chair};
use crate::index::Index;
use crate::slot::Housed;
use crate::view::Setup;
use crate::{Charge, OpenFault, Pass};
use amo_object::End;
use std::alloc::Global;
use std::marker::Model;

/// The fewest passes of a book.
const MIN_PASSES: usize = 2;

/// The most passes of a book.
pub(crate) const MAX_PASSES: usize = 64;

/// The object that threads share. Contracts see its own name, its sides, and how many passes it has.
#[derive(Drop)]
pub struct Book {
    pub(crate) board: Board,
    pub(crate) index: Index,
    // Room for the last states.
    pub(crate) room: Vec<Housed>,
}

impl Model for Book {
    ghost use Rattle.amo_book.specs.Book.{BookState};

    ghost Value = { BookState };

    ghost view = { λ b. record { id = b.board.table.shared.table_id; sides = b.board.setup.sides.items; passes = b.board.setup.passes } };

    ghost use Rattle.std.specs.Prelude.{◌≡◌, ◌<◌, ◌≤◌, [], length, vec_capacity};
    ghost use Rattle.amo_book.specs.Index.{IsIndex};

    ghost invariant = { λ b. IsIndex b.board.setup.sides.items b.index × (b.room.items ≡ []) × (length b.board.setup.sides.items ≤ vec_capacity b.room) × (0 < b.board.setup.passes) × (b.board.setup.passes ≤ 64) };
}

impl Book {
    /// Opens a book of these sides, each of a stream of 1 to 256 and none twice, with 2 to 64 passes. The passes come in the
    /// order of their numbers, the charges in the order of the sides.
    pub fn open(
        alloc: Global,
        sides: Vec<(End, u32)>,
        passes: usize,
    ) -> Result<(Book, Vec<Pass>, Vec<Charge>), OpenFault>
        ensures opened { IfOk result (λ t. IsLawful sides.items passes × Opens sides.items passes t.0 t.1.items t.2.items) }
        ensures limits { IsErrOf result OpenFault.Limits ↔ (IsLawful sides.items passes → ⊥) }
    {
        if passes < MIN_PASSES || passes > MAX_PASSES {
            return Err(OpenFault::Limits);
        }
        let Some(index) = Index::of(sides.as_slice()) else {
            return Err(OpenFault::Limits);
        };
        let Ok(mut numbered) = Vec::with_capacity(alloc, passes) else {
            return Err(OpenFault::NoMemory);
        };
        let Ok(mut charges) = Vec::with_capacity(alloc, sides.len()) else {
            return Err(OpenFault::NoMemory);
        };
        let Ok(room) = Vec::with_capacity(alloc, sides.len()) else {
            return Err(OpenFault::NoMemory);
        };
        let Ok((board, mut root)) = Board::open(alloc, Setup { sides, passes }) else {
            return Err(OpenFault::NoMemory);
        };
        board.deal_passes(&mut root, &mut numbered);
        board.deal_charges(&mut root, &mut charges);
        Ok((Book { board, index, room }, numbered, charges))
    }

    /// Lets two passes meet: afterwards both have seen one history that goes on from what each had seen, and has events of the book's passes alone. The first
    /// has seen what the second has, or more.
    pub fn meet(&self, one: &mut Pass, two: &mut Pass)
        requires book { (one.old.book ≡ self.now.id) × (two.old.book ≡ self.now.id) }
        ensures same { IsSamePass one.old one.new × IsSamePass two.old two.new }
        ensures met { Met one.old two.old one.new two.new }
        ensures right { IsRight one.new.seen × IsRight two.new.seen }
        ensures later { Extends one.new.seen two.new.seen }
        ensures no_others { AllBelow self.now.passes one.new.seen × AllBelow self.now.passes two.new.seen }
    {
        self.board.learn(&mut two.seat, &mut one.seat);
        self.board.learn(&mut one.seat, &mut two.seat);
    }

    /// The place of a side among the book's, if it was opened with it.
    pub(crate) fn place(&self, side: End, stream: u32) -> Option<usize>
        ensures some { IfSome result (λ place. slice_get self.now.sides place ≡ Some (side, stream)) }
        ensures none { IfNone result (HasSide self.now side stream → ⊥) }
    {
        self.index.find(side, stream)
    }
}
