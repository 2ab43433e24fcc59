//! What journals tell of messages: what became of each that was put, and which were got.
//! It opens no file. What a journal is stands in `amo_journal`, and `amo_audit` judges whether it can have happened.
//!
//! - [`tell_outcomes`] writes, of the greatest beginnings of two journals that merge, a line for each put that was taken: its number, its
//!   stream, whether it was got, is gone or is open, and its message. [`Choice`] tells which of them are written; [`Telling`] is how far the
//!   beginnings reach, or what is found of journals of which nothing is told.
//! - [`tell_outcomes_of_sender`] writes the same of a sender's journal alone, as far as that tells it: what was sent and not acknowledged is
//!   unknown, and settled where it is final all the same.
//! - [`Gets`] reads a receiver's journal part by part, whole or as it grows, and writes a line for each message that a get answered, as far as
//!   it reads; [`Reading`] is how far that was.
//! - [`Untold`] reads a sender's journal part by part, from where a life begins, and writes a line for each put that no ack answered: what a
//!   sender that starts again tells. Of lines in front of those it recalls the ones that matter. [`Progress`] is how far it reads.
//!
//! Where one of two journals goes on, the other may be a copy that lacks lines, and no put is told to be gone that may have been got there. Who
//! knows that the other lacks some has none of its own puts told to be gone either ([`Asked::if_short`]).
//! What a loss of power may have changed is told of no put: of journals of which [`Asked`] names doubtful lines, what would be gone there is unknown.
//!
//! The number is that of the line in its journal, as it stands there in front. So it stays the same while a journal goes on, and an
//! application may keep it beside its own work. A message is spelt as `amo receive` shows it, or as a member of a JSON object.
//!
//! What became of puts is made a text, which is then written. Of two journals no events lie in memory, of one alone all of them.
//!
//! Lines are defined in `specs/Shown.antt`, what is told of puts in `specs/Outcomes.antt` and `specs/Alone.antt`, of gets in `specs/Got.antt`, and of
//! puts that had no answer in `specs/Untold.antt` and `specs/Unanswered.antt`.
#![tactic(auto)]

mod alone;
mod asked;
mod choice;
mod further;
mod gets;
mod listing;
mod outcomes;
mod put;
mod put_outcome;
mod puts;
mod reading;
mod shown;
mod tally;
mod telling;
mod unanswered;
mod untold;
mod whole;

pub use alone::tell_outcomes_of_sender;
pub use asked::Asked;
pub use choice::Choice;
pub use gets::Gets;
pub use outcomes::tell_outcomes;
pub use reading::Reading;
pub use telling::Telling;
pub use unanswered::Progress;
pub use untold::Untold;
pub use whole::whole_lines;
