//! One store for the records of all games of a folder: a SQLite database of one table, and all games in memory beside it.
//!
//! A batch of records is put by one commit, all or none. An opening makes the table where the database has none, reads all rows, and
//! from then on each record is found in memory. The table is `game (id INTEGER PRIMARY KEY, stamp BLOB NOT NULL, count INTEGER NOT
//! NULL, record BLOB NOT NULL) STRICT`: a number of the store's own, the stamp of 16 bytes, how many moves the record has, and its
//! bytes. The kit's `sqlite` runs the statements, over memory or over the two files of a database; what is said of values is said
//! under its premise that the disk returned what was written (`IsTrusted`).
//!
//! - `store`: the store (`Store`); `files`: a store over two files; `fault`: why something fails; `open_fault`: why a store at a path isn't
//!   opened
//! - `sqlite_stores`: where stores are opened, and how their files are read (`SqliteStores`); `machine_stores`: the same under the short
//!   names that `main` passes on (`MachineStores`); `store_file`: whether the file of an open store was replaced
//! - `memory`: the games in memory; `tables`: what tables a database has; `reading`: an opening; `writing`: a batch; `store_tests`: stops
//!   and losses of power
//!
//! Definitions, in reading order: `Records` of `system_io`, what is kept of games; `Moments`, from one moment of a database to a
//! later one; `Rows`, the table and what its rows say; `Slots`, memory; `Batches`, what a batch makes of a database; `Shelves`, a
//! store; `Tables`; `Files`, what two files hold; `Listing`; `Places`, where stores are opened. Its tests are `store_tests`;
//! `tools/host_games` plays games between hosts over stores.
//!
//! - CLAIM: `Store::put_batch`, clauses `all`, `open`, `kept`, `none`, `same`: at `Ok` each entry is committed and in memory, in turn,
//!   and what is kept of all other games is as before; after an error memory is as before, and nothing is committed where the store
//!   is still open.
//! - CLAIM: `Store::put_batch`, clauses `stops`, `crash`, `lasts`: a stop or a loss of power within the call leaves the games as they
//!   were or all with the whole batch, and from then on, while the store is open, what is committed.
//! - CLAIM: `Store::over`, clauses `found`, `open`, `lasts`, `has`, `crash`, `refused`; `Store::open`, clauses `found`, `open`, `lasts`,
//!   `has`, `refused`; `Store::open_at`: an opening finds exactly the games that the database has, and leaves them also where it fails or
//!   stops in the middle. Which of its errors comes has no cause in a clause.
//! - CLAIM: `Store::record_of`, clauses `found`, `committed`; `Store::list`: what is found and listed is what is committed, in the
//!   order of the stamps.
//! - CLAIM: `Store::close`, clauses `seen`, `left`, `refused`; `Store::stop`, clauses `finds`, `clean`: after a close the database file
//!   alone has the games, after a stop the next opening finds what the store could be left with.
//! - CLAIM: `Store::put_and_stop`: whatever of the two files a stop or a loss of power leaves, the next opening finds the whole batch,
//!   or, only where it was not acknowledged, the games as they were.
//! - CLAIM: `SqliteStores`: an opened store has the games that its two files held, and a start finds them; the
//!   games that are read of two files are those that an opening over these bytes finds. No clause ties an opened store to its path, or
//!   says when it is refused.
#![tactic(auto)]

mod fault;
mod files;
mod machine_stores;
mod memory;
mod open_fault;
mod reading;
mod sqlite_stores;
mod store;
mod store_file;
#[cfg(test)]
mod store_tests;
mod tables;
mod writing;

pub use fault::DatabaseFault;
pub use machine_stores::{MachineStore, MachineStores};
pub use memory::Kept;
pub use open_fault::OpenFault;
pub use sqlite_stores::{AnyFiles, SqliteStores};
pub use store::Store;
