//! An auditor of journals whose yes is proved, and the merge of what two hosts keep.
//! It makes nothing happen, and it cannot know whether what a journal says did happen: it judges whether it can have.
//!
//! - [`audit`] judges bytes as a journal of either version: [`Verdict::Yes`] comes only where they are a journal of a right, honest and
//!   fresh history, which then serves each of its streams. Otherwise the verdict names the first fault and its line: a malformed line
//!   comes before a gap, and a gap before the first event at fault, in the order in which a world finds faults.
//! - [`PiecesAudit`] judges a journal in pieces, or in one, while they are read, each once: its verdict is one on the text that they spell
//!   together.
//! - [`PairAudit`] tells of two journals in pieces whether they are judged yes while they are read, each once: it says of which one it wants more.
//! - [`report`] writes the line that tells what is found of a journal, or of two that are merged, and answers the exit status.
//! - [`explain`] writes, of a journal that is judged yes, the run of the at-most-once queue that its clients saw of each stream; of
//!   other bytes it answers the verdict, which [`tell`] writes. [`explain_both`] does so of two journals. What may still be got is not lost
//!   there, wherever some run keeps all of it.
//! - [`outcomes_of`] tells what became of each put of two journals that are judged yes; of others it answers what is found, as
//!   [`tell_judgement`] writes it. [`stops_of`] tells at which lines two journals stop, as far as they merge.
//! - [`audit_alone`] judges the events of one host, without the other's: whether each reply is right and no word is used twice. [`whose_are`] tells
//!   whose events a journal has. [`sender_events`] reads a sender's journal alone, and judges it so; of another it answers [`SenderFound`].
//! - [`merge`] makes one list of the events of two hosts, in the preferred interleaving: at each place the first list's next
//!   event, unless it delivers a packet that was not emitted yet, else the second's. Otherwise a side of a stream has events
//!   in both lists, or no interleaving is honest.
//! - [`laws`]: there is one preferred interleaving, wherever any is honest.
//!
//! An audit keeps a world, which holds no event, and two numbers; it reads each line once and keeps no line. Of two journals it keeps one event
//! of each and a world, which knows what was emitted; where both are there whole it reads each line twice. Only where an event is at fault does it begin
//! anew, with what a merge keeps of the sides: a world does not go on past that. An explanation is made whole, once its events are given up.
//!
//! One loop merges what is there whole, whatever the events come from, a list or a journal, and whatever takes them. A merge of lists reads each list twice, and
//! keeps what it took and, of each side, its automaton and a set of what it emitted.
//!
//! What a journal is stands in the crate `amo_journal`. Verdicts stand in `specs/Audit.antt`, what is found of two files in
//! `specs/Judgement.antt`, lines of answers in `specs/Report.antt` and `specs/Explanation.antt`, merges in `specs/Merge.antt`. What is found
//! is said first of the lines of events, counted from 1, and then of a file, in which a heading may stand before them.
#![tactic(auto)]

mod alone;
mod auditing;
mod auditor;
mod both;
mod coming;
mod event_reader;
mod explaining;
mod hosts;
mod journal_reader;
mod judged_lines;
mod judgement;
mod judging;
mod keeping;
pub mod laws;
mod lone_auditor;
mod lone_side;
mod lone_sides;
mod marking;
mod merge_fault;
mod merging;
mod outcomes;
mod pair_audit;
mod pieces_audit;
mod reach;
mod reading;
mod reporting;
mod runs;
mod sender;
mod sender_found;
mod side;
mod sides;
mod site;
mod stops;
mod text_audit;
mod verdict;
mod whose;

pub use alone::audit_alone;
pub use amo_journal::JournalFault;
pub use amo_text::{Out, Sink};
pub use auditing::audit;
pub use both::explain_both;
pub use explaining::explain;
pub use judgement::Judgement;
pub use merge_fault::MergeFault;
pub use merging::merge;
pub use outcomes::{PutOutcomes, outcomes_of};
pub use pair_audit::{PairAudit, Progress, Which};
pub use pieces_audit::PiecesAudit;
pub use reach::Reach;
pub use reporting::{report, tell, tell_judgement};
pub use sender::sender_events;
pub use sender_found::SenderFound;
pub use stops::{Stops, stops_of};
pub use verdict::Verdict;
pub use whose::{Whose, whose_are};
