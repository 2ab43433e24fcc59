//! Whether all passes and charges of a book are there.
ghost use Rattle.std.specs.Prelude.{◌≡◌, ◌↔◌, ◌≤◌, true, length, set, IsTrue};
ghost use Rattle.amo_book.specs.Book.{Apart};
ghost use Rattle.amo_book.specs.Closed.{AllPasses, AllCharges};
ghost use Rattle.amo_book.specs.Gathering.{AreAt, Covers, Marks};

use crate::book::MAX_PASSES;
use crate::index::{Index, site_at};
use crate::{Charge, Pass};
use amo_object::End;

/// Marks a number, if a pass may have it.
#[tactic(auto, using(std::proofs::lemmas::List::set_past))]
fn mark(marks: &mut [bool; MAX_PASSES], number: usize)
    ensures { marks.new ≡ set marks.old number true }
{
    if number < MAX_PASSES {
        marks[number] = true;
    }
}

/// Which numbers these passes have.
fn numbers_of(passes: &[Pass]) -> [bool; MAX_PASSES]
    ensures { Marks passes.now (length passes.now) result }
{
    let mut marks = [false; MAX_PASSES];
    for pass in passes {
        mark(&mut marks, pass.number());
    }
    marks
}

#[tactic(auto, using(crate::proofs::Gathering::unmarked))]
fn are_all_passes(passes: &[Pass], count: usize) -> bool
    requires { count ≤ 64 }
    ensures { IsTrue result ↔ AllPasses passes.now count }
{
    let marks = numbers_of(passes);
    for number in 0..count {
        if !marks[number] {
            return false;
        }
    }
    true
}

/// An index of the sides of these charges.
#[tactic(auto, using(crate::proofs::Gathering::begins, crate::proofs::Gathering::grows))]
fn sides_of(charges: &[Charge]) -> Index
    ensures { Covers charges.now (length charges.now) result }
{
    let mut index = Index::new();
    for charge in charges {
        index.add(charge.site());
    }
    index
}

/// Whether the charges have each place of these sides, which are theirs.
#[tactic(auto, using(crate::proofs::Gathering::has, crate::proofs::Gathering::lacks))]
fn are_all_charges(charges: &[Charge], sides: &[(End, u32)]) -> bool
    requires own { AreAt sides.now charges.now }
    requires apart { Apart sides.now }
    ensures { IsTrue result ↔ AllCharges charges.now (length sides.now) }
{
    let index = sides_of(charges);
    for place in 0..sides.len() {
        let site = site_at(sides, place);
        let Some(_) = index.find(site.side, site.stream) else {
            return false;
        };
    }
    true
}

/// Whether the passes have each number below `numbers`, and the charges each place of these sides, which are theirs.
pub fn are_all(passes: &[Pass], numbers: usize, charges: &[Charge], sides: &[(End, u32)]) -> bool
    requires numbers { numbers ≤ 64 }
    requires own { AreAt sides.now charges.now }
    requires apart { Apart sides.now }
    ensures { IsTrue result ↔ AllPasses passes.now numbers × AllCharges charges.now (length sides.now) }
{
    are_all_passes(passes, numbers) && are_all_charges(charges, sides)
}
