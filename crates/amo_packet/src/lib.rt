//! Messages and packets of the five-packet handshake, and the bytes that spell packets.
//! It sends and receives nothing: it says what a packet is, and reads and writes it.
//!
//! A [`Message`] is 0 to 1024 bytes that a client puts on one side and gets on the other. A packet belongs to one
//! stream and says one of five things, in the order of a handshake (Lynch, *Distributed Algorithms*, chapter 22):
//!
//! ```text
//!   sender                         receiver
//!     | -------- needuid(jd) --------> |    a fresh identifier of the sender's own
//!     | <------ accept(jd, id) ------- |    a fresh identifier of the receiver's own
//!     | ------- send(id, bytes) -----> |    the message travels under it
//!     | <------- ack(id, got) -------- |    got, or not known here
//!     | -------- cleanup(id) --------> |    the receiver may forget
//! ```
//!
//! In the place of the send a sender may write batch(id, messages), by which a [`Batch`] of one to four messages
//! travels under the one identifier.
//!
//! A packet comes in two forms. An [`OwnedPacket`] owns its messages: whoever keeps packets keeps these, and contracts
//! speak of every packet as one of them. A [`Packet`] borrows its messages from where they lie, so that reading and
//! emitting copy nothing; contracts see it through one function, `packet_of`, as the packet that it stands for. What
//! it borrows for a batch is [`Parts`]: the messages in a row, or the bytes that spell them.
//!
//! Each packet has one spelling, which [`write`] writes and [`read`] reads, and no spelling begins another. It begins
//! with eight bytes: 41 4D, the version, the kind, and the stream in four bytes. The version is 02 for a batch, and 01
//! for every other kind. The kind's fields follow, and nothing else. Numbers stand with the highest byte first.
//!
//! ```text
//!   kind         fields, with their bytes                                        length in all
//!   1 needuid    jd 8                                                            16
//!   2 accept     jd 8, id 8                                                      24
//!   3 send       id 8, length 2, the message                                     18 and the message
//!   4 ack        id 8, got 1 (0 or 1)                                            17
//!   5 cleanup    id 8                                                            16
//!   6 batch      id 8, count 1 (1 to 4), and each message behind its length 2    17, and 2 and the message for each
//! ```
//!
//! What is no packet is refused by its first fault, in the order that [`ReadFault`] gives.
//!
//! A reader knows the versions up to a newest one. So the grammar takes that version, and each kind has the version that
//! it is spelt under. [`read`] knows both, up to [`NEWEST_VERSION`]; [`read_1`] is the reader from before there were
//! batches, which knows [`FIRST_VERSION`] alone.
#![tactic(auto)]

mod batch;
mod fault;
mod laws;
mod layout;
mod message;
mod packet;
mod parts;
mod reader;
mod stream;
mod writer;

pub use batch::{Batch, MAX_BATCH};
pub use fault::{NoRoom, ReadFault};
pub use laws::{
    bytes_without_a_fault_spell_a_packet, copies_without_bytes_take_no_memory,
    no_spelling_begins_another, packets_that_tie_are_one, spellings_are_bounded,
    spellings_are_bytes, spellings_are_unique, streams_are_numbered_from_one,
    what_is_written_is_read,
};
pub use layout::{FIRST_VERSION, NEWEST_VERSION};
pub use message::{MAX_MESSAGE, Message, MessageFault};
pub use packet::{Body, OwnedBody, OwnedPacket, Packet};
pub use parts::Parts;
pub use reader::{read, read_1};
pub use stream::STREAMS;
pub use writer::{MAX_PACKET, MAX_PACKET_1, write};
