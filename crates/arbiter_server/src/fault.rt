//! Why a game isn't open, and why what games keep isn't committed.

/// Why a game isn't open.
#[derive(Clone, Copy)]
pub enum OpenGameError {
    /// The message is an acknowledgement or a verdict, which opens no game.
    NotOpen,
    /// The folder has no game with this stamp.
    NoGame,
    /// The game or the record that the folder has under this stamp is another game's.
    OtherGame,
    /// This line of its file, counted from 1, is none of a game.
    BadGame(u32),
    /// Its record can't be had or kept, or is none from which an arbiter runs.
    Keeper,
    /// Memory was refused.
    OutOfMemory,
}

/// Why what games keep isn't committed.
#[derive(Clone, Copy, Debug, PartialEq, Eq)]
pub enum Uncommitted {
    /// The store can't be written. No more can be committed.
    StoreLost,
    /// Memory was refused to note what a game keeps. No more can be committed.
    NotNoted,
    /// Memory was refused to commit it. It stays noted, and may be committed later.
    OutOfMemory,
}
