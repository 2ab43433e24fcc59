//! The streams of a host.

/// How many streams a host has, numbered from 1. A packet may name any number.
pub const STREAMS: u32 = 256;
