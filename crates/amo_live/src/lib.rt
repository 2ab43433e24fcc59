//! A live host: one side of the service in a process of its own, which can be killed at any moment and started again.
//! It authenticates no peer, and promises nothing of when a message comes.
//!
//! ```text
//!   Host      a book of one side of some streams, one pass and its charges; a link; the packets that are to leave; a journal
//!   Journal   the lines of what happened, each written whole before anything of its event leaves
//! ```
//!
//! **Each event goes one way**: it happens in the book, then its line is written, then its packet may leave, or its answer goes to the
//! client. A crash of the process forgets all but the journal. What had left before is in there: so what the peer and the clients
//! were shown is explained by the journals of both hosts, which `amo audit` merges.
//!
//! **A journal has a version**, which its first line tells. A new one of a receiver is of version 2, and so is one of a sender that starts batches:
//! its heading is written before anything else. One that is there already goes on in its own version, and that decides which packets the host
//! reads: what has no line in its journal does not happen.
//!
//! **What is repeated is no event.** A network may repeat each packet that was emitted: so a packet leaves again without a line where it left of late. A
//! datagram that would change nothing, and draw no answer but one that left of late, was lost, and that answer is repeated. So a journal grows by
//! nothing while a peer is away, or hears and is not heard.
//!
//! **Words come in lives**, from a [`Lineage`]: no event bears a word that another one bears, in this life or in an earlier one. [`HostLives`] keeps a file with
//! a key and a line for each life, which is written before the life's first word is drawn; so a host keeps no word that it used. Where the words of a
//! life are at their end another one begins.
//!
//! **A sender keeps the lines that still matter**: of its journal those that tell of messages without an answer, [`Service::unanswered_lines`]. They are those
//! of its open events ([`laws`]), and bring the sender of each stream to where the whole journal does. Who keeps account of them looks at a host when all its lines are with
//! the system.
//!
//! The contracts say it so. Each call that makes an event asks that the journal has all lines so far, and gives that back with
//! Ok. It never touches the link: what its row emits is added to the packets that are to leave. [`Host::send`], which hands them to the
//! link, asks for the same. Where a line fails the call answers a fault, and says only that a beginning of the lines was written: no
//! other call can go on from there, and the process ends.
//!
//! **A pump drives the streams**: it knows which are at rest, which wait for the peer and since when, and what is to be sent again next. A host asks
//! it, and begins a handshake only where a message waits: an empty start would be a line.
//!
//! **What clients' lines say is a matter of [`amo_lines`]**, whose types it hands on. A host puts their messages, and shows what its events tell, in its lines.
//!
//! The definitions stand in `specs/`: a journal that goes on in `Noted.antt`, which of its lines a sender keeps in `OpenLines.antt`, a host and what its calls do in `Host.antt`, packets that leave again in
//! `Emitted.antt`, words that events bear in `Words.antt`, and those of a host's lives in `HostLives.antt`; what becomes of clients' messages in
//! `Client.antt`, and what clients are shown in `Shown.antt`.
#![tactic(auto)]

mod acts;
mod aside;
mod bell;
mod calls;
mod fault;
mod figures;
mod given_word;
mod host;
mod host_lives;
mod journal;
pub mod laws;
mod limits;
mod lives_file;
mod notices;
mod noting;
mod outbox;
mod own_file;
mod parcel;
mod plan;
mod recent;
mod service;
mod socket;
mod starting;
mod stream_lines;
mod unanswered;
mod words;

pub use amo_disk::{Cause, Durable, OpenFault};
pub use amo_journal::Version;
pub use amo_lines::{Backlog, Id, Input, Line, LineFault, NamedMessage, Spelling};
pub use aside::Aside;
pub use bell::Bell;
pub use fault::{LiveFault, LivesOpenFault, SocketFault};
pub use figures::{Dropped, Figures, Times, Traffic};
pub use given_word::GivenWord;
pub use host::Host;
pub use host_lives::HostLives;
pub use journal::Journal;
pub use limits::{Ended, Limits};
pub use lives_file::OpenedLives;
pub use notices::{Notices, Silence};
pub use plan::Plan;
pub use service::{EventAt, MOST_DATAGRAMS, Service, Settled, Setup};
pub use socket::Socket;
pub use starting::start;
pub use words::Lineage;
