//! Where a program writes.

/// A standard stream to which a program writes.
#[derive(Clone, Copy)]
pub enum Stream {
    /// Standard output.
    Output,
    /// Standard error.
    Errors,
}
