//! Calls of a door from a shell: which call a file keeps, what is asked, what answers tell, and which call comes next.
//! It opens no socket and no file, and knows no clock: who has these is a [`Caller`].
#![tactic(auto)]

mod answer;
mod caller;
mod connection;
mod following;
mod kept;
pub mod laws;
mod pages;
mod putting;
mod request;
mod scan;
mod taking;

pub use answer::{
    Response, StreamState, read_conflict, read_fate, read_put, read_refusal, read_state,
};
pub use caller::{CallFault, Caller};
pub use connection::{Asker, exchange};
pub use following::{Followed, follow};
pub use kept::{Kept, KeptFault, Progress, push_kept, read_kept};
pub use pages::{Page, PageLines, read_next_line, read_page};
pub use putting::{Order, PutTold, put};
pub use request::Request;
pub use taking::{TakeTold, done, note_done, take};
