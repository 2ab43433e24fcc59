//! What became of each message that was put: it was got, it is gone for good, or it is open.
//!
//! [`outcomes`] tells it of each put in a right, honest and fresh history of both sides. A put is told by its number on its stream, counted from
//! 0 in the order in which puts were taken. So equal messages are told apart: a put travels under the identifier of the handshake that
//! carries it.
//!
//! ```text
//!   got     a get answered it
//!   open    it may still be got: it waits at the sender, or the sender asks for an identifier for it; or it travels under the
//!           identifier that the receiver accepts; or the receiver holds it
//!   gone    none of these, and it never will be: what travels under any other identifier is taken no more, and what a crash
//!           forgot before it was sent never left
//! ```
//!
//! **Got and gone are final**, in each right, honest and fresh history that goes on from this one ([`laws::got_and_gone_are_final`]). So what is
//! gone may be put again. And once a later put of a stream was got, no earlier one ever will be.
//! That an open put can still be got is not proved. It is tested in all short stories.
//!
//! **How both sides' events are interleaved changes no outcome** ([`laws::outcomes_are_the_same_in_each_interleaving`]): each merge of the
//! same two journals tells the same.
//!
//! [`outcomes_of_sender`] tells what a sender's own events alone tell, those of one journal:
//!
//! ```text
//!   got       an ack said so, of the handshake that carried the put, delivered while the sender was up
//!   gone      a crash forgot it while it waited or an identifier was asked for it, so it was never sent
//!   open      it waits, or an identifier is asked for it
//!   unknown   it was sent, and no ack said that it was got. It is settled where an ack said that its identifier is not known,
//!             or a later message was sent: then it was got, or is gone
//! ```
//!
//! **That is true and final as well** ([`laws::what_a_sender_tells_is_final`]): in each right, honest and fresh history in which the sender's
//! events are these, or go on from these, got is got and gone is gone; and what is settled is got or gone, and stays so. That what is unknown
//! and not settled may still be open is tested in all short stories.
//!
//! The queue in doubt of [`amo_world`] answers another question. There a message stays listed, in doubt, while a handshake still names
//! it, though its identifier died with a receiver; here it is gone.
//!
//! [`Followers`] tells the same of events that come one by one. It keeps none of them: of each stream both automata, and of the puts only
//! those that are open, some twenty at most, and whether each was got. [`SenderFollowers`] tell so what a sender's own events tell: they keep a mark
//! of each put, and the handshakes of which no ack said that they were got.
#![tactic(auto)]

mod follower;
mod followers;
pub mod laws;
mod marks;
mod outcome;
mod places;
mod sender_follower;
mod sender_followers;
mod sender_outcome;
mod sender_places;
mod sender_telling;
mod telling;

pub use followers::Followers;
pub use outcome::Outcome;
pub use sender_followers::SenderFollowers;
pub use sender_outcome::SenderOutcome;
pub use sender_telling::outcomes_of_sender;
pub use telling::outcomes;
