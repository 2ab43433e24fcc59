//! The fixed bytes of packets, the numbers of their kinds, and the lengths of their parts in bytes.

/// The bytes that every packet begins with.
pub const MAGIC: [u8; 2] = [0x41, 0x4D];

/// The version under which each of the first five kinds is spelt.
pub const FIRST_VERSION: u8 = 1;

/// The version under which a batch is spelt.
pub const BATCH_VERSION: u8 = 2;

/// The newest version of packets that [`read`](crate::read) reads. It reads those before it too.
pub const NEWEST_VERSION: u8 = BATCH_VERSION;

/// The magic, the version, the kind and the stream.
pub const HEADER_LENGTH: usize = 8;

pub const NEEDUID: u8 = 1;

pub const ACCEPT: u8 = 2;

pub const SEND: u8 = 3;

pub const ACK: u8 = 4;

pub const CLEANUP: u8 = 5;

pub const BATCH: u8 = 6;

/// The first four bytes of a needuid as one number: the magic, the version and the kind.
pub const NEEDUID_START: u32 = 0x414D_0101;

pub const ACCEPT_START: u32 = 0x414D_0102;

pub const SEND_START: u32 = 0x414D_0103;

pub const ACK_START: u32 = 0x414D_0104;

pub const CLEANUP_START: u32 = 0x414D_0105;

pub const BATCH_START: u32 = 0x414D_0206;

/// The fields of a needuid: an identifier.
pub const NEEDUID_LENGTH: usize = 8;

/// The fields of an accept: two identifiers.
pub const ACCEPT_LENGTH: usize = 16;

/// The length of a message, before its bytes.
pub const LENGTH_LENGTH: usize = 2;

/// The fields of a send before its message: an identifier, and the message's length.
pub const SEND_LENGTH: usize = 10;

/// The fields of an ack: an identifier and a flag.
pub const ACK_LENGTH: usize = 9;

/// The fields of a cleanup: an identifier.
pub const CLEANUP_LENGTH: usize = 8;

/// The fields of a batch before its messages: an identifier, and how many there are.
pub const BATCH_LENGTH: usize = 9;
