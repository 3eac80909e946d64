//! Why a line was not answered.

/// Why a line was not answered.
#[derive(Clone, Copy, PartialEq, Eq, Debug)]
pub enum TellFault {
    /// Memory was refused; nothing was written.
    OutOfMemory,
    /// The writer failed.
    Io,
}
