//! How the pieces of a folder stand.

/// How the pieces of a folder stand, as it keeps count of it: of what a loss of power leaves, and of where the next piece begins.
#[derive(Clone, Copy, PartialEq, Eq)]
pub struct Standing {
    /// Whether all their bytes are on the disk.
    pub bytes: bool,
    /// Whether all their names are on the disk.
    pub names: bool,
    /// Whether the newest has its number, so that another one can be begun behind it.
    pub is_closed: bool,
}
