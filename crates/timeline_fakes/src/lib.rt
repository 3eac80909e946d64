//! Everything outside in memory, with all that happens recorded. No crate of the program builds on this one.
//!
//! A test gives a `MemorySystem` its folders and files, its input, what stands where something is to be kept, and what comes of the calls of
//! a port; it runs the libraries over it, and asks the `MemoryTimeline` for all that happened (`Recorded`), in order. That is none where
//! memory for it was refused. A call fails where the test says: one that reads by the paths that can't be read, a call for a kept file by
//! its `Outcome`, or by `reads_fail`, and of all others that may fail those that the timeline was given (`Failing`). A `MemoryFile` is on a disk that
//! loses power (`stop`); an empty store is at each path.
//!
//! It meets all clauses of `System` by facts that say something, so it also shows that those clauses can be met. Only which records the two
//! files of a store hold isn't stated: `stored` gives none.
//!
//! Inside: `recorded`, `memory_timeline`, `memory_file`, `memory_port`, `memory_store`, `memory_system`.
//!
//! Definitions, in reading order: `Memories` (`event_of`, `events_in`, `memory_outside`); `MemoryLaws`.
//!
//! - CLAIM: `MemorySystem`, clauses `outside`, `one`: each call does what `System` says, and the timeline has its event.
//! - CLAIM: `MemoryFile::stop`, clause `same`: what a start was to find before a stop or a loss of power, it finds after it.
#![tactic(auto)]

mod memory_file;
mod memory_port;
mod memory_store;
mod memory_system;
mod memory_timeline;
mod recorded;

pub use memory_file::{KeptStart, MemoryFile};
pub use memory_port::{MemoryPort, Turn, Turns};
pub use memory_store::MemoryStore;
pub use memory_system::{Binds, MemoryLock, MemorySystem};
pub use memory_timeline::{Failing, MemoryTimeline, Outlet};
pub use recorded::Recorded;
