//! What a seat of the table knows. No value of these types but `Setup` is ever made: they stand in proofs alone.
use amo_core::Automaton;
use amo_object::End;
use amo_world::Event;
use std::collections::LinkedList;

/// The events that a pass has made. Whoever has its share may make more.
pub struct Share {
    pub number: usize,
    pub made: LinkedList<Event>,
}

/// The view of a seat.
pub struct View {
    /// The history that was seen.
    pub seen: LinkedList<Event>,
    /// What a seat that was met had seen, until the next look.
    pub met: LinkedList<Event>,
    pub shares: LinkedList<Share>,
    /// The place of the side that the seat holds, and its state.
    pub held: Option<(usize, Automaton)>,
}

/// What a book is opened with.
#[derive(Drop)]
pub struct Setup {
    pub sides: Vec<(End, u32)>,
    pub passes: usize,
}
