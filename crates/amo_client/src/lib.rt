//! The calls of a door that a shell makes with `amo call`. [`call_door`] makes one, tells what came of it, and answers the status to end with, or a
//! [`ClientFault`].
//!
//! Which call comes next, and what an answer tells, is decided in `amo_call`. Here is what that lacks: the file of a call, which one process has at a
//! time and which is replaced whole (`held`), the connections and the time that is left (`station`, `timely`), and what people are told (`telling`, `watching`).
//!
//! A host looks up addresses and reads its token as a call does: [`check_address`], [`read_token`]. It knows no host, and no journal.
#![tactic(auto)]

mod address;
mod calling;
mod ending;
mod fault;
mod held;
mod message;
mod station;
mod telling;
mod timely;
mod token;
mod watching;

pub use address::check_address;
pub use calling::call_door;
pub use fault::ClientFault;
pub use token::read_token;
