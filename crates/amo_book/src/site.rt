//! Where a side stands.
use amo_object::End;

/// The place of a side among the book's sides, from 0, and which side of which stream it is.
#[derive(Clone, Copy)]
pub struct Site {
    pub place: usize,
    pub side: End,
    pub stream: u32,
}
