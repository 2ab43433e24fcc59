//! The lives of a host: a small file beside its journal, from which each life has words of its own.
//! It opens no file and reads no journal: a host hands it bytes and a sink.
//!
//! A life is a host's time from a start to its end. The file has a heading, with the side of the host and a key, and a line for each life that
//! drew words, as `9f3a01c2 12 unknown sync`: its tag, the number of its first line in the journal, the machine's start and whether the journal
//! was put on its disk. The words of a life are those of the key and its tag ([`amo_word::DistinctWords`]), so that no two lives share one.
//!
//! - [`Lives`] are the lives of a file: new ones have [`Lives::new`] and [`Lives::write_heading`], those of a file [`Lives::read`]. A last line that
//!   was torn is not taken, and [`LivesFile::whole`] tells where it begins: its life drew no word.
//! - [`Lives::check_journal`] tells whether they can be those of a journal.
//! - [`Lives::draw_tag`] draws a tag that no life has.
//! - [`Lives::begin`] writes the line of one life more, and hands out its words. None of them is one of an earlier life.
//! - [`Lives::doubts`] tells of which lines a loss of power may have taken last ones, though their packets left.
//! - [`Life`] is a life, and [`BootId`] the id of the machine's start.
//! - [`laws`]: bytes tell of one list of lives at most, what is wrong with them is a matter of them alone, and one life more is one line more.
//!
//! Whoever reads the key knows all words: the file is for its owner alone. Where it is lost a new key is drawn, and words may meet earlier ones as
//! random ones do.
//!
//! The grammar stands in `specs/Life.antt`, what lives are and what a file tells in `specs/Lives.antt`, faults in `specs/Fault.antt`, doubts in
//! `specs/Doubt.antt`.
#![tactic(auto)]

mod boot;
mod doubt;
mod fault;
pub mod laws;
mod life;
mod line_reader;
mod lives;
mod reading;
mod tag;
mod writing;

pub use boot::BootId;
pub use doubt::Span;
pub use fault::{BeginFault, BeyondJournal, LivesFault, TagFault};
pub use life::Life;
pub use lives::Lives;
pub use reading::LivesFile;
