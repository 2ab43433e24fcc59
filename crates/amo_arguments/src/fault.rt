//! Why the program's arguments are no settings.
use thiserror::Error;

/// Why the program's arguments are no settings.
#[derive(Debug, Drop, Error)]
pub enum ArgumentsFault {
    /// A text for whoever typed them, and the status to end with: 2 for arguments that do not parse, 0 for asked-for help.
    #[error("{0}")]
    Text(String, u8),
    /// The seed is not 64 lower-case hexadecimal digits.
    #[error("amo: seed")]
    Seed,
    /// Memory was refused. The caller may try again later.
    #[error("amo: out of memory")]
    NoMemory,
}
