//! Reads a line of a journal, as one of version 2, which has all lines of version 1.
ghost use Rattle.std.specs.Prelude.{◌≡◌, ◌≢◌, ℕ, ◌<◌, ◌^◌, ◌∷◌, ◌++◌, List, IfOk, IfSome, IfNone};
ghost use Rattle.std.specs.Fmt.{decimal};
ghost use Rattle.amo_object.specs.declared.step.End.{End};
ghost use Rattle.amo_packet.specs.Stream.{IsStream};
ghost use Rattle.amo_text.specs.Side.{letter_of};
ghost use Rattle.amo_journal.specs.Journal.{ReadsAsEvent};
ghost use Rattle.amo_journal.specs.declared.version.Version.{Version};
ghost use Rattle.amo_journal.specs.Fields.{place_and};

use crate::act_reader::next_act;
use crate::reply_reader::read_reply;
use crate::spelling::has_line;
use crate::{Numbered, Version};
use amo_object::End;
use amo_text::{LineItem, next_decimal, next_field, next_stream, read_side};
use amo_world::Event;
use std::alloc::{AllocError, Global};

impl LineItem for Numbered {
    ghost use Rattle.amo_journal.specs.Journal as journal;
    ghost use Rattle.amo_journal.specs.declared.version.Version.{Version};

    ghost fields_of = { journal.fields_of };

    ghost InRange = { journal.InRange Version.Two };

    fn read(alloc: Global, text: &[u8]) -> Result<Option<Numbered>, AllocError> {
        let Some((number, rest)) = next_decimal(text) else {
            return Ok(None);
        };
        let Some(event) = read_event(alloc, rest)? else {
            return Ok(None);
        };
        Ok(Some(Numbered { number, event }))
    }

    fn fields_are_a_line() {}
}

/// The event of which this is the text, on a line without its number.
fn read_event(alloc: Global, text: &[u8]) -> Result<Option<Event>, AllocError>
    ensures { IfOk result (λ read. ReadsAsEvent Version.Two text.now read) }
{
    let Some((pass, side, stream, rest)) = next_place(text) else {
        return Ok(None);
    };
    let Some((act, rest)) = next_act(alloc, rest)? else {
        return Ok(None);
    };
    let Some(reply) = read_reply(alloc, rest)? else {
        return Ok(None);
    };
    let event = Event {
        pass,
        side,
        stream,
        act,
        reply,
    };
    if !has_line(Version::Two, &event) {
        return Ok(None);
    }
    Ok(Some(event))
}

/// The pass, the side and the stream in front, and what stands behind the space after them.
fn next_place(text: &[u8]) -> Option<(usize, End, u32, &[u8])>
    ensures found { IfSome result (λ at. (at.0 < 2 ^ 64) × IsStream at.2 × (text.now ≡ place_and at.0 at.1 at.2 at.3.now)) }
    ensures none { IfNone result ((pass : ℕ) (side : End) (stream : ℕ) (rest : List ℕ) → pass < 2 ^ 64 → IsStream stream
        → text.now ≢ place_and pass side stream rest) }
{
    let (pass, rest) = next_decimal(text)?;
    let (side, rest) = next_side(rest)?;
    let (stream, rest) = next_stream(rest)?;
    Some((pass as usize, side, stream, rest))
}

/// The side in front, and what stands behind the space after it.
fn next_side(text: &[u8]) -> Option<(End, &[u8])>
    ensures found { IfSome result (λ s. text.now ≡ letter_of s.0 ++ 32 ∷ s.1.now) }
    ensures none { IfNone result ((side : End) (rest : List ℕ) → text.now ≢ letter_of side ++ 32 ∷ rest) }
{
    let (field, rest) = next_field(text)?;
    Some((read_side(field)?, rest))
}
