//! The replies that stand in the history for what clients were answered.
ghost use Rattle.std.specs.Prelude.{◌≡◌};
ghost use Rattle.amo_book.specs.Calls.{put_answer, get_answer, ack_answer};

use crate::{AckFault, GetFault, PutFault};
use amo_core::Reply;
use amo_packet::Message;

/// The reply to a put and its event's position, from what [`Book::put`](crate::Book::put) answered, if that made an event.
pub fn reply_to_put(answer: &Result<u64, PutFault>) -> Option<(Reply, u64)>
    ensures { result ≡ put_answer answer.now }
{
    match answer {
        Ok(position) => Some((Reply::Ok, *position)),
        Err(PutFault::Full(position, _)) => Some((Reply::Full, *position)),
        Err(PutFault::Down(position, _)) => Some((Reply::Down, *position)),
        Err(PutFault::Busy(_)) => None,
        Err(PutFault::NoStream(_)) => None,
    }
}

/// The reply to a get and its event's position, from what [`Book::get`](crate::Book::get) answered, if that made an event.
pub fn reply_to_get(answer: Result<(Message, u64), GetFault>) -> Option<(Reply, u64)>
    ensures { result ≡ get_answer answer }
{
    match answer {
        Ok((message, position)) => Some((Reply::Got(message), position)),
        Err(GetFault::Nothing(position)) => Some((Reply::Nothing, position)),
        Err(GetFault::Down(position)) => Some((Reply::Down, position)),
        Err(GetFault::Busy) => None,
        Err(GetFault::NoStream) => None,
    }
}

/// The reply to a get_ack and its event's position, from what [`Book::get_ack`](crate::Book::get_ack) answered, if that made an event.
pub fn reply_to_ack(answer: Result<(bool, u64), AckFault>) -> Option<(Reply, u64)>
    ensures { result ≡ ack_answer answer }
{
    match answer {
        Ok((true, position)) => Some((Reply::Yes, position)),
        Ok((false, position)) => Some((Reply::No, position)),
        Err(AckFault::NotYet(position)) => Some((Reply::NotYet, position)),
        Err(AckFault::Down(position)) => Some((Reply::Down, position)),
        Err(AckFault::Busy) => None,
        Err(AckFault::NoStream) => None,
    }
}
