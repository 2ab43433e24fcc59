//! Journals in pieces: files of which each goes on where the one before it ended, and which are read as one.
//! It opens no file, and it does not judge what the lines say: the text that it makes is that of one journal.
//!
//! A host that writes a journal may close its file between two lines and begin another. Each piece of a journal of version 2 begins with
//! the heading of that version, so that a piece alone shows it; the numbers of lines go on over all pieces.
//!
//! - [`Pieces`] takes the bytes of one piece after another from readers, and has the text that they spell together: one block of memory,
//!   with the heading once. It tells in which [`Place`] a line of that text stands.
//! - [`laws`]: the text is the journal of some events exactly where the pieces are. Behind a piece that ends in mid-line, and at one of
//!   another version, the text ends in a line that is malformed, and an audit names it.
//!
//! What a journal in pieces is stands in `specs/Journal.antt`, its text in `specs/Text.antt`, and places in `specs/Places.antt`. Definitions
//! have the newest piece first, since each is added to those before it.
#![tactic(auto)]

mod joining;
pub mod laws;
mod names;
mod pieces;
mod place;
mod start;

pub use names::piece_number;
pub use pieces::Pieces;
pub use place::Place;
