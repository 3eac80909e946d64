//! Why a store can't be had, or a batch not be put.

use sqlite::{Error, ErrorCode};
use std::fmt;

/// Why a store can't be had, or a batch not be put.
#[derive(Clone, Copy, Debug, PartialEq, Eq)]
pub enum DatabaseFault {
    /// What `sqlite` told: memory or the disk failed, or it is no database that can be read.
    Sqlite(Error),
    /// The database has other tables than that of the games.
    OtherTables,
    /// A row of its table is none of a game: its number or its count is none below 2^32, or its stamp none of 16 bytes.
    BadRow,
    /// Two rows of its table have one stamp.
    SameStamp,
    /// A game that has no row yet can't get a number below 2^32.
    NoNumber,
}

impl fmt::Display for DatabaseFault {
    fn fmt<W: fmt::Write>(&self, f: &mut fmt::Formatter<W>) -> fmt::Result {
        match self {
            DatabaseFault::Sqlite(error) => write!(f, "{error}"),
            DatabaseFault::OtherTables => f.write_str("it has other tables than that of the games"),
            DatabaseFault::BadRow => f.write_str("a row is none of a game"),
            DatabaseFault::SameStamp => f.write_str("two rows have one stamp"),
            DatabaseFault::NoNumber => f.write_str("no number is left for a game"),
        }
    }
}

/// Memory was refused.
pub(crate) const OUT_OF_MEMORY: DatabaseFault = DatabaseFault::Sqlite(Error::SqliteFailure(
    ErrorCode::OutOfMemory,
));

/// The connection is in a transaction.
pub(crate) const UNCOMMITTED: DatabaseFault = DatabaseFault::Sqlite(Error::SqliteFailure(
    ErrorCode::TransactionState,
));
