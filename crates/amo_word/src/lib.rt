//! Words: numbers of 64 bits, one after another, of which a host makes its identifiers.
//! It says which words come, and of one kind that no two are equal. That nobody can guess them it does not promise.
//!
//! A host hands out a fresh identifier for each handshake, and a crash leaves it no memory of those that it used. So
//! its words come from outside, as a value that has [`Words`]. For such a value contracts know the word still to come
//! at each place 0, 1, 2, .., or that none is; a call gives the word at place 0 and moves every place up by one.
//!
//! - [`ChaChaWords`] are the key stream of ChaCha20, two of its words of 32 bits for each word, and never end. The seed
//!   is the key, and a stream number picks one of 2^64 key streams: each life of a host takes a number of its own.
//! - [`DistinctWords`] are the values of a keyed bijection at a counter, so no two of them are equal, in constant memory.
//!   A key and a tag have 2^32 words: each life of a host takes a tag of its own, and another one at their end.
//! - [`FixedWords`] are the words of a list and then none, for tests and worked examples.
//! - [`laws`] compares the definitions (`specs/`) with published values, and has that words of one key are distinct.
#![tactic(auto)]

mod chacha;
mod distinct;
mod feistel;
mod fixed;
pub mod laws;
mod siphash;
mod words;

pub use chacha::ChaChaWords;
pub use distinct::DistinctWords;
pub use fixed::FixedWords;
pub use words::Words;
