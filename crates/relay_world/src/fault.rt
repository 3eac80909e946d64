//! Why there is no game, and why a schedule has no world.

use table_file::TableFault;

/// Why there is no game: the first that applies.
#[derive(Clone, Copy, PartialEq, Eq, Debug)]
pub enum GameFault {
    /// The name isn't 1 to 64 bytes, all from 0x20 (the space) to 0x7E (the tilde).
    BadName,
    /// There are more than 4096 moves.
    TooManyMoves,
    /// The delay is above 8.
    BadDelay,
    /// Memory was refused.
    OutOfMemory,
}

/// Why a schedule has no world.
#[derive(Clone, Copy, PartialEq, Eq, Debug)]
pub enum WorldFault {
    /// The file at this place, the first being 0, is no table of its name.
    BadTable(usize, TableFault),
    /// The file at this place is a table of the kind and the men of one before it.
    DuplicateTable(usize),
    /// Memory was refused.
    OutOfMemory,
}
