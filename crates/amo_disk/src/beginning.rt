//! How a journal begins, in front of the end of its first line.
ghost use Rattle.std.specs.Prelude.{◌≡◌, ◌≤◌, ◌↔◌, length, IsTrue};
ghost use Rattle.amo_disk.specs.Beginning.{Agree, Begins, BeginsAct, BeginsHeading, BeginsJournal, BeginsLine, BeginsStream, first_front};

use amo_journal::Version;
use amo_object::End;
use amo_text::{next_field, read_stream};

/// Whether a journal of this side, of either version, may begin so, in front of the end of its first line.
pub(crate) fn begins_journal(side: End, text: &[u8]) -> bool
    ensures { IsTrue result ↔ BeginsJournal side text.now }
{
    begins_first_line(side, text) || begins_heading(text)
}

/// Whether the first line of an event may begin so.
#[tactic(auto, using(crate::proofs::Beginnings::behind_front))]
fn begins_first_line(side: End, text: &[u8]) -> bool
    ensures { IsTrue result ↔ BeginsLine side text.now }
{
    let front = front_for(side);
    if begins(text, front) {
        begins_stream(side, &text[front.len()..])
    } else {
        begins(front, text)
    }
}

/// Whether it may go on so behind the side: with a stream, and an act of which the first line can tell.
fn begins_stream(side: End, text: &[u8]) -> bool
    ensures { IsTrue result ↔ BeginsStream side text.now }
{
    match next_field(text) {
        Some((stream, act)) => read_stream(stream).is_some() && begins_act(side, act),
        None => text.is_empty() || read_stream(text).is_some(),
    }
}

/// Whether it may go on so behind the stream.
fn begins_act(side: End, text: &[u8]) -> bool
    ensures { IsTrue result ↔ BeginsAct side text.now }
{
    match side {
        End::Sender => agree(text, b"put "),
        End::Receiver => agree(text, b"deliver ") || agree(text, b"get "),
    }
}

/// Whether one of two texts begins with the other.
pub(crate) fn agree(one: &[u8], other: &[u8]) -> bool
    ensures { IsTrue result ↔ Agree one.now other.now }
{
    begins(one, other) || begins(other, one)
}

/// What stands in front of the stream in the first line of an event.
fn front_for(side: End) -> &'static [u8]
    ensures { result.now ≡ first_front side }
{
    match side {
        End::Sender => b"0 1 s ",
        End::Receiver => b"0 1 r ",
    }
}

/// Whether the heading of version 2 begins so.
pub(crate) fn begins_heading(text: &[u8]) -> bool
    ensures { IsTrue result ↔ BeginsHeading text.now }
{
    begins(Version::Two.heading(), text)
}

/// Whether a text begins so.
fn begins(text: &[u8], front: &[u8]) -> bool
    ensures begins { IsTrue result ↔ Begins text.now front.now }
    ensures bound { IsTrue result → length front.now ≤ length text.now }
{
    text.starts_with(front)
}
