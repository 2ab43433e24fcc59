//! The text that schedules, transcripts and journals are written in: decimals, HEX, lines of fields, sides, streams
//! and replies, and the sinks that take them.
//! It knows no events and no tables, and gives a line no meaning.
//!
//! Both kinds of file are ASCII. A line is fields with single spaces between them and a line feed at its
//! end, as `put 1 61` of a schedule or `0 0 s 1 put 61 ok` of a journal. What a field spells is read where
//! it stands, and takes no memory.
//!
//! - [`read_decimal`], [`next_decimal`] and [`push_decimal`]: numbers, with no sign and no leading zero.
//! - [`read_hex`], [`hex_length`] and [`push_hex`]: bytes, two lower-case digits each, and `-` for none.
//! - [`cut`], [`next_line`], [`next_field`] and [`next_long_field`]: what stands before and after the first such byte.
//! - [`read_side`], [`read_stream`], [`next_stream`], [`read_act_name`] with [`ActName`], and [`push_reply`]: the fields that
//!   every such file has.
//! - [`read_message`] and [`is_message`]: messages, in HEX.
//! - [`LineItem`] is what one line of a file spells. [`item_in_front`] reads one of them, [`read_items`] a whole file, and
//!   [`first_malformed`] finds the first line that spells none.
//! - [`Sink`] is a place that takes bytes, [`write_all`] fills it, and [`Out`] makes one of any writer of
//!   the standard library, which is a [`Device`]: a sink fails only by an answer of that. Contracts see what a sink was written, where it tells that, and how many of its
//!   calls failed: [`Failures`] is that count, here and for whatever else has a device behind it.
//! - [`laws`]: a number, some bytes and a line of fields have one spelling each. So a grammar of such lines
//!   is unambiguous as soon as no two of its items have the same fields, and one line of what it does not spell
//!   is the first that is malformed.
//!
//! The definitions stand in `specs/`: [`Sink`]'s in `Sink.antt`, HEX in `Hexadecimal.antt`, fields and lines
//! in `Line.antt`, files of lines in `Items.antt`. A decimal is what the standard library's `decimal` writes; where one ends in
//! front of a text stands in `Decimal.antt`.
#![tactic(auto)]

mod act;
mod decimal;
mod device;
mod failures;
mod hexadecimal;
mod items;
pub mod laws;
mod line;
mod message;
mod reply;
mod side;
mod sink;
mod stream;

pub use act::{ActName, read_act_name};
pub use decimal::{next_decimal, push_decimal, read_decimal};
pub use device::Device;
pub use failures::Failures;
pub use hexadecimal::{hex_length, push_hex, read_hex};
pub use items::{CheckedItem, LineItem, LinesFault, first_malformed, item_in_front, read_items};
pub use line::{cut, next_field, next_line, next_long_field};
pub use message::{is_message, read_message};
pub use reply::push_reply;
pub use side::{push_side, read_side};
pub use sink::{Out, Sink, SinkFault, write_all};
pub use stream::{next_stream, read_stream};
