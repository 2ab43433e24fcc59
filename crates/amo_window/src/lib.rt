//! How many handshakes a host holds open at once, and when it sends again.
//! It knows no clock, no packet and no automaton: whoever drives a host asks it.
//!
//! A [`Window`] gives out permits, as many at once as its limit says. A host takes one for each handshake that it
//! begins, and gives it back when the handshake is over. A [`Permit`] cannot be copied, made or thrown away by others:
//! the only way to be rid of one is [`Window::close`].
//!
//! [`Timers`] tell when each stream is to be sent again: 1 tick after the first sending, 2 ticks after the next, then
//! 4, and so on up to 64, until the stream is stopped; or at another [`Pace`].
#![tactic(auto)]

mod due;
mod fault;
mod pace;
mod spacing;
mod timers;
mod window;

pub use due::Due;
pub use fault::WindowFault;
pub use pace::Pace;
pub use timers::{MAX_TIMERS, Timers};
pub use window::{MAX_PERMITS, Permit, Window};
