//! Reads a line.
ghost use Rattle.std.specs.Prelude.{◌≡◌, ◌≢◌, ◌<◌, ◌^◌, ℕ, ◌∷◌, ◌++◌, List, codes, IfSome, IfNone};
ghost use Rattle.std.specs.Fmt.{decimal};
ghost use Rattle.amo_object.specs.declared.step.End.{End};
ghost use Rattle.amo_packet.specs.Stream.{IsStream};
ghost use Rattle.amo_text.specs.Act.{act_field};
ghost use Rattle.amo_text.specs.Side.{letter_of};
ghost use Rattle.amo_schedule.specs.Schedule.{ReadsAs, Parses};

use crate::ScheduleLine;
use amo_object::End;
use amo_text::{
    ActName, CheckedItem, LineItem, is_message, next_decimal, next_field, next_stream,
    read_act_name, read_decimal, read_message, read_side, read_stream,
};
use std::alloc::{AllocError, Global};

/// A line as its text has it: the message of a put is still in HEX. It holds no memory.
#[derive(Drop)]
pub(crate) enum LineText<'a> {
    Put(u32, &'a [u8]),
    Other(ScheduleLine),
}

/// The side and the stream that these fields name.
fn read_side_of_stream(fields: &[u8]) -> Option<(End, u32)>
    ensures found { IfSome result (λ at. IsStream at.1 × (fields.now ≡ letter_of at.0 ++ 32 ∷ decimal at.1)) }
    ensures none { IfNone result ((side : End) (stream : ℕ) → IsStream stream → fields.now ≢ letter_of side ++ 32 ∷ decimal stream) }
{
    let (side, stream) = next_field(fields)?;
    Some((read_side(side)?, read_stream(stream)?))
}

/// The put of which these are the fields after the first, its message still in HEX.
fn read_put(fields: &[u8]) -> Option<LineText<'_>>
    ensures { Parses (codes "put" ++ 32 ∷ fields.now) result }
{
    let (stream, digits) = next_stream(fields)?;
    if is_message(digits) {
        Some(LineText::Put(stream, digits))
    } else {
        None
    }
}

/// The get of which this is the field after the first.
// Each kind of line that is frequent is read where it is asked for, so that it is not copied out of one result into another.
#[inline(always)]
fn read_get(field: &[u8]) -> Option<ScheduleLine>
    ensures { ReadsAs (codes "get" ++ 32 ∷ field.now) result }
{
    Some(ScheduleLine::Get(read_stream(field)?))
}

/// The ack of which this is the field after the first.
#[inline(always)]
fn read_ack(field: &[u8]) -> Option<ScheduleLine>
    ensures { ReadsAs (codes "ack" ++ 32 ∷ field.now) result }
{
    Some(ScheduleLine::Ack(read_stream(field)?))
}

/// The stream and the word that these fields name.
fn read_word_of_stream(fields: &[u8]) -> Option<(u32, u64)>
    ensures found { IfSome result (λ at. IsStream at.0 × (at.1 < 2 ^ 64) × (fields.now ≡ decimal at.0 ++ 32 ∷ decimal at.1)) }
    ensures none { IfNone result ((stream word : ℕ) → IsStream stream → word < 2 ^ 64 → fields.now ≢ decimal stream ++ 32 ∷ decimal word) }
{
    let (stream, word) = next_stream(fields)?;
    Some((stream, read_decimal(word)?))
}

/// The start of which these are the fields after the first.
fn read_start(fields: &[u8]) -> Option<ScheduleLine>
    ensures { ReadsAs (codes "start" ++ 32 ∷ fields.now) result }
{
    let (stream, word) = read_word_of_stream(fields)?;
    Some(ScheduleLine::Start(stream, word))
}

/// The start of a batch of which these are the fields after the first.
fn read_batch(fields: &[u8]) -> Option<ScheduleLine>
    ensures { ReadsAs (codes "batch" ++ 32 ∷ fields.now) result }
{
    let (stream, word) = read_word_of_stream(fields)?;
    Some(ScheduleLine::Batch(stream, word))
}

/// The delivery of which these are the fields after the first.
#[inline(always)]
fn read_deliver(fields: &[u8]) -> Option<ScheduleLine>
    ensures { ReadsAs (codes "deliver" ++ 32 ∷ fields.now) result }
{
    let (number, word) = next_decimal(fields)?;
    Some(ScheduleLine::Deliver(number, read_decimal(word)?))
}

/// The resending of which these are the fields after the first.
#[inline(always)]
fn read_resend(fields: &[u8]) -> Option<ScheduleLine>
    ensures { ReadsAs (codes "resend" ++ 32 ∷ fields.now) result }
{
    let (side, stream) = read_side_of_stream(fields)?;
    Some(ScheduleLine::Resend(side, stream))
}

/// The crash of which these are the fields after the first.
fn read_crash(fields: &[u8]) -> Option<ScheduleLine>
    ensures { ReadsAs (codes "crash" ++ 32 ∷ fields.now) result }
{
    let (side, stream) = read_side_of_stream(fields)?;
    Some(ScheduleLine::Crash(side, stream))
}

/// The recovery of which these are the fields after the first.
fn read_recover(fields: &[u8]) -> Option<ScheduleLine>
    ensures { ReadsAs (codes "recover" ++ 32 ∷ fields.now) result }
{
    let (side, stream) = read_side_of_stream(fields)?;
    Some(ScheduleLine::Recover(side, stream))
}

/// A line that is no put, as its text has it.
#[inline(always)]
fn other<'a>(line: Option<ScheduleLine>) -> Option<LineText<'a>>
    ensures { (text : List ℕ) → ReadsAs text line → Parses text result }
{
    match line {
        Some(line) => Some(LineText::Other(line)),
        None => None,
    }
}

/// The line with this name, which is no put, of which these are the fields after the first.
fn read_other(name: ActName, fields: &[u8]) -> Option<ScheduleLine>
    requires { name ≢ ActName.Put }
    ensures { ReadsAs (act_field name ++ 32 ∷ fields.now) result }
{
    match name {
        ActName::Put => unreachable!(),
        ActName::Get => read_get(fields),
        ActName::Ack => read_ack(fields),
        ActName::Start => read_start(fields),
        ActName::Batch => read_batch(fields),
        ActName::Resend => read_resend(fields),
        ActName::Deliver => read_deliver(fields),
        ActName::Crash => read_crash(fields),
        ActName::Recover => read_recover(fields),
    }
}

/// The line of which this is the text, without its end.
fn parse(text: &[u8]) -> Option<LineText<'_>>
    ensures { Parses text.now result }
{
    let (name, fields) = next_field(text)?;
    match read_act_name(name)? {
        ActName::Put => read_put(fields),
        act => other(read_other(act, fields)),
    }
}

impl LineItem for ScheduleLine {
    ghost use Rattle.amo_schedule.specs.Schedule as schedule;

    ghost fields_of = { schedule.fields_of };

    ghost InRange = { schedule.InRange };

    fn read(alloc: Global, text: &[u8]) -> Result<Option<ScheduleLine>, AllocError> {
        match parse(text) {
            Some(LineText::Put(stream, digits)) => match read_message(alloc, digits)? {
                Some(message) => Ok(Some(ScheduleLine::Put(stream, message))),
                None => Ok(None),
            },
            Some(LineText::Other(line)) => Ok(Some(line)),
            None => Ok(None),
        }
    }

    fn fields_are_a_line() {}
}

impl CheckedItem for ScheduleLine {
    fn is_line(text: &[u8]) -> bool {
        parse(text).is_some()
    }
}
