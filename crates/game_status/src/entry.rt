//! What a folder has of one game: its file and its record.

use arbiter_server::{Game, GameFileFault};
use move_msg::RecordFault;

/// What a folder has of a game.
#[derive(Drop)]
pub struct Entry {
    /// What the game's file tells.
    pub game: Game,
    /// The bytes of its record, if the folder lists one.
    pub kept: Option<Vec<u8>>,
}

/// Why nothing can be told of a game.
#[derive(Clone, Copy)]
pub enum EntryFault {
    /// The game's file isn't there, can't be read, or has more than 192 bytes.
    NoGame,
    /// A line of the game's file is at fault.
    BadGame(GameFileFault),
    /// The record is listed, but can't be read, or has more than 8217 bytes.
    Keeper,
    /// The record's bytes are no record.
    BadRecord(RecordFault),
    /// The record is of another stamp or delay.
    OtherStamp,
    /// The game's file tells another game than that of its stamp, or than the first folder's file.
    OtherGame,
}
