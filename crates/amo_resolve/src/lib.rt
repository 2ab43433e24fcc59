//! A resolver: it finds, for the calls that clients of a stream saw, the run of the at-most-once queue that explains them.
//!
//! What clients see are puts, gets, answers, calls that find a side down, crashes and recoveries; what the queue loses they do not
//! see. A run *explains* calls if it has, with its losses left out, exactly these. [`explain`] gives such a run of any calls,
//! whoever made them, and none exactly where there is none. [`resolve`] gives one for each stream of a finished history.
//!
//! ```text
//!   plan   walks back over the calls, and notes for each one that leaves a side down how many of the messages that are
//!          got from there on have to wait there
//!   tell   walks forward and takes each call; where a side is down it loses what waits but for these
//! ```
//!
//! The queue loses only while a side is down. Between two such calls it is a plain queue, so the calls say which messages must
//! wait at the first of them: some of the first ones got from there on. The fewer must wait the better, as more can be lost but
//! none can be added; so the plan tells the least count. Nothing is searched, and no guess is taken back.
//!
//! The crate does not judge replies or packets itself: [`resolve`] hands each event in to a world first, and tells its fault.
#![tactic(auto)]

mod borders;
mod calls;
mod draft;
mod explanation;
mod fault;
mod judge;
mod plan;
mod replica;
mod resolver;
mod tell;
mod waiting;
mod weave;

pub use amo_object::Step;
pub use amo_world::{Event, NoMemory};
pub use explanation::explain;
pub use fault::ResolveFault;
pub use resolver::{Run, resolve};
