//! What several pumps are made of. All of it that takes memory is made before the first charge is dealt.
ghost use Rattle.std.specs.Prelude.{◌≡◌, ◌<◌, ◌≤◌, ℕ, [], IfOk, Some, false, length, map, slice_get, vec_capacity};
ghost use Rattle.amo_window.specs.Timers.{CanBeTimed};
ghost use Rattle.amo_window.specs.Window.{most_permits};
ghost use Rattle.amo_book.specs.Book.{Each};
ghost use Rattle.amo_host.specs.Charges.{IsAtRest, IsOfSide, stream_mode_of};
ghost use Rattle.amo_host.specs.Division.{share, most_pumps, IsPart, CanBeDivided};
ghost use Rattle.amo_host.specs.Host.{streams_of};
ghost use Rattle.amo_host.specs.Modes.{is_open};
ghost use Rattle.amo_host.specs.Room.{IsHostOfPart, HasHosts, HasRoom, AreDealt, Suit, joined};

use crate::Pump;
use crate::agenda::{Agenda, StreamMode};
use crate::charges::modes_of;
use amo_book::Charge;
use amo_object::End;
use amo_window::WindowFault;
use amo_word::Words;
use std::alloc::{AllocError, Global};

/// The agenda of each pump, and the room for its charges and for the pumps.
#[derive(Drop)]
pub struct Room<W> {
    pub agendas: Vec<Agenda>,
    pub parts: Vec<Vec<Charge>>,
    pub pumps: Vec<Pump<W>>,
}

impl<W: Words + Drop> Room<W> {
    /// The room for so many pumps of these charges.
    pub fn new(
        alloc: Global,
        charges: &[Charge],
        window: usize,
        pumps: usize,
    ) -> Result<Room<W>, AllocError>
        requires lawful { CanBeDivided charges.now window pumps pumps }
        requires rest { Each IsAtRest charges.now }
        ensures agendas { IfOk result (λ room. (side : End) × Each (IsOfSide side) charges.now × HasHosts side (map stream_mode_of charges.now) window pumps room.agendas.items) }
        ensures parts { IfOk result (λ room. HasRoom pumps (length charges.now) room.parts.items) }
        ensures pumps { IfOk result (λ room. (room.pumps.items ≡ []) × (pumps ≤ vec_capacity room.pumps)) }
    {
        let modes = modes_of(alloc, charges)?;
        let agendas = agendas_of(alloc, charges[0].side(), &modes, window, pumps)?;
        let parts = empty_parts(alloc, pumps, charges.len())?;
        let pumps = Vec::with_capacity(alloc, pumps)?;
        Ok(Room {
            agendas,
            parts,
            pumps,
        })
    }
}

/// The agendas of so many pumps of charges of this side.
fn agendas_of(
    alloc: Global,
    side: End,
    modes: &[StreamMode],
    window: usize,
    pumps: usize,
) -> Result<Vec<Agenda>, AllocError>
    requires few { pumps ≤ most_pumps × (pumps ≤ length modes.now) }
    requires window { pumps ≤ window × (window ≤ most_permits) }
    requires rest { (place : ℕ) (m : StreamMode) → slice_get modes.now place ≡ Some m → is_open m.mode ≡ false }
    requires timed { CanBeTimed (streams_of modes.now) }
    ensures { IfOk result (λ agendas. HasHosts side modes.now window pumps agendas.items) }
{
    let mut agendas = Vec::with_capacity(alloc, pumps)?;
    for place in 0..pumps {
        agendas.push_reserved(agenda_of_part(alloc, side, modes, window, pumps, place)?);
    }
    Ok(agendas)
}

/// The agenda of the pump in a place.
fn agenda_of_part(
    alloc: Global,
    side: End,
    modes: &[StreamMode],
    window: usize,
    pumps: usize,
    place: usize,
) -> Result<Agenda, AllocError>
    requires place { place < pumps }
    requires few { pumps ≤ most_pumps × (pumps ≤ length modes.now) }
    requires window { pumps ≤ window × (window ≤ most_permits) }
    requires rest { (place : ℕ) (m : StreamMode) → slice_get modes.now place ≡ Some m → is_open m.mode ≡ false }
    requires timed { CanBeTimed (streams_of modes.now) }
    ensures { IfOk result (IsHostOfPart side modes.now window pumps place) }
{
    let part = part_of(alloc, modes, pumps, place)?;
    match Agenda::new(alloc, side, part, share(window, pumps, place)) {
        Ok(agenda) => Ok(agenda),
        Err(WindowFault::NoMemory) => Err(AllocError),
        Err(WindowFault::Limits) => unreachable!(),
    }
}

/// The window of the pump in a place.
fn share(window: usize, pumps: usize, place: usize) -> usize
    requires { 0 < pumps }
    ensures { result ≡ share window pumps place }
{
    window / pumps + usize::from(place < window % pumps)
}

/// What stands in each n-th place from this one on, n being the number of pumps.
fn part_of(
    alloc: Global,
    modes: &[StreamMode],
    pumps: usize,
    first: usize,
) -> Result<Vec<StreamMode>, AllocError>
    requires { first < pumps × (pumps ≤ most_pumps) }
    ensures { IfOk result (λ part. IsPart pumps first modes.now part.items) }
{
    let mut part = Vec::new(alloc);
    let mut place = first;
    while let Some(mode) = modes.get(place) {
        part.push(*mode)?;
        place += pumps;
    }
    Ok(part)
}

/// Room for the part of each pump of so many charges.
fn empty_parts(alloc: Global, pumps: usize, charges: usize) -> Result<Vec<Vec<Charge>>, AllocError>
    requires { 0 < pumps }
    ensures { IfOk result (λ parts. HasRoom pumps charges parts.items) }
{
    let mut parts = Vec::with_capacity(alloc, pumps)?;
    for _place in 0..pumps {
        parts.push_reserved(Vec::with_capacity(alloc, charges.div_ceil(pumps))?);
    }
    Ok(parts)
}

/// Deals the charges out in turn.
pub fn deal(charges: Vec<Charge>, parts: Vec<Vec<Charge>>) -> Vec<Vec<Charge>>
    requires some { 0 < length parts.items }
    requires room { HasRoom (length parts.items) (length charges.items) parts.items }
    ensures { AreDealt charges.items (length parts.items) result.items }
{
    let mut parts = parts;
    let last = parts.len() - 1;
    let mut turn = 0;
    for charge in charges {
        parts[turn].push_reserved(charge);
        turn = if turn < last { turn + 1 } else { 0 };
    }
    parts
}

/// The pumps of these agendas, charges and words, in the room for them.
pub fn assemble<W: Words + Drop>(
    alloc: Global,
    agendas: Vec<Agenda>,
    parts: Vec<Vec<Charge>>,
    words: Vec<W>,
    pumps: Vec<Pump<W>>,
) -> Vec<Pump<W>>
    requires suit { Suit agendas.items parts.items }
    requires room { (pumps.items ≡ []) × (length words.items ≤ vec_capacity pumps) }
    ensures { result.items ≡ joined agendas.items parts.items words.items }
{
    let mut pumps = pumps;
    for ((agenda, charges), words) in agendas.into_iter().zip(parts).zip(words) {
        pumps.push_reserved(Pump {
            alloc,
            charges,
            agenda,
            words,
            batches: false,
        });
    }
    pumps
}
