//! Several pumps of one host: its charges, its window and its words are divided among them.
ghost use Rattle.std.specs.Prelude.{◌↔◌, IsTrue, IfOk, IfErr};
ghost use Rattle.amo_book.specs.Book.{Each};
ghost use Rattle.amo_host.specs.Charges.{IsAtRest};
ghost use Rattle.amo_host.specs.Division.{CanBeDivided, Divides, ShareWindow, RefusesDivision};

use crate::charges::can_be_driven;
use crate::room::{Room, assemble, deal};
use crate::{DivideFault, Pump};
use amo_book::Charge;
use amo_word::Words;
use std::alloc::Global;

/// The greatest number of pumps of a host.
pub const MAX_PUMPS: usize = 4;

/// Divides the charges of a host, which are as their book gave them out, among several pumps. Pump p has the charges in the places
/// p, p + `pumps`, and so on, an even share of the window (the first pumps one handshake more, where some are left over), and the words in
/// place p. A fault hands charges and words back.
pub fn divide<W: Words + Drop>(
    alloc: Global,
    charges: Vec<Charge>,
    window: usize,
    pumps: usize,
    words: Vec<W>,
) -> Result<Vec<Pump<W>>, DivideFault<W>>
    requires { Each IsAtRest charges.items }
    ensures divided { IfOk result (λ made. Divides charges.items window pumps words.items made.items) }
    ensures window { IfOk result (λ made. ShareWindow window made.items) }
    ensures refused { IfErr result (RefusesDivision charges.items window pumps words.items) }
{
    if !can_be_divided(&charges, window, pumps, words.len()) {
        return Err(DivideFault::Limits(charges, words));
    }
    let Ok(room) = Room::new(alloc, &charges, window, pumps) else {
        return Err(DivideFault::NoMemory(charges, words));
    };
    let Room {
        agendas,
        parts,
        pumps,
    } = room;
    Ok(assemble(alloc, agendas, deal(charges, parts), words, pumps))
}

/// Whether there are 1 to 4 pumps, as many words, a charge and a handshake for each, and charges that one pump could drive.
fn can_be_divided(charges: &[Charge], window: usize, pumps: usize, words: usize) -> bool
    ensures { IsTrue result ↔ CanBeDivided charges.now window pumps words }
{
    (1..=MAX_PUMPS).contains(&pumps)
        && words == pumps
        && pumps <= charges.len()
        && pumps <= window
        && can_be_driven(charges, window)
}
