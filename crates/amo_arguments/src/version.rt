//! What the program tells of its version. The quick build, which proves nothing, is made from a copy of the sources in which
//! this file says so.

/// The version, the toolchain that the program is built with, and whether it is proved.
pub const VERSION: &str = "0.2.0 (rattle-kit-13, proved)";
