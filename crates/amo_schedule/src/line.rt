//! The lines of schedules.
use amo_object::End;
use amo_packet::Message;

/// A line of a schedule: what happens, and where.
#[derive(Debug, Drop)]
pub enum ScheduleLine {
    /// `put S HEX`: a put of these bytes on the sender of stream S.
    Put(u32, Message),
    /// `get S`: a get on the receiver of stream S.
    Get(u32),
    /// `ack S`: a call on the sender of stream S for what became of the last put.
    Ack(u32),
    /// `start S WORD`: the sender of stream S may start a handshake under this word.
    Start(u32, u64),
    /// `batch S WORD`: the sender of stream S may start a handshake under this word for all messages that wait, at most four.
    Batch(u32, u64),
    /// `resend s S` or `resend r S`: the sender, or the receiver, of stream S emits the packet of its mode again.
    Resend(End, u32),
    /// `deliver K WORD`: the packet that was emitted as number K, from 0, arrives at the other side of its stream.
    /// A receiver at rest that it asks for an identifier accepts under this word.
    Deliver(u64, u64),
    /// `crash s S` or `crash r S`: the sender, or the receiver, of stream S goes down and forgets everything.
    Crash(End, u32),
    /// `recover s S` or `recover r S`: the sender, or the receiver, of stream S comes up again.
    Recover(End, u32),
}
