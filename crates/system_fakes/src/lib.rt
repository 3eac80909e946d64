//! Instances in memory of the traits of `system_io`, for tests and for laws. No crate of the program builds on this one.
//!
//! A test gives an instance its bytes, its datagrams and the calls that fail, runs the libraries over it, and asks for what it has
//! recorded or has left; no file and no socket of the machine is touched. What an instance recorded is none where memory for it was
//! refused. Each meets all clauses of its trait by facts that say something, so it also shows that those clauses can be met;
//! `MemoryInput` has no other use.
//!
//! - `MemoryDisk`: files, their modes and folders by path (`AtPath`), some of which can't be read
//! - `MemoryInput` with `MemoryLines`: an input that ends after its bytes or fails there
//! - `MemoryPort`: datagrams that come turn by turn (`Turn`), so that they are lost, repeated and reordered; it records all traffic
//!   (`Passage`)
//! - `MemorySocket`: a socket for `UdpPort`, at which datagrams come (`Arrival`); it records its calls (`MadeSocketCall`)
//! - `MemoryCalls`: the calls for a `CallLog` file; it records them (`MadeCall`)
//! - `MemoryHandle`, `MemoryPaths`: an open file that knows whether it was synced and locked, and paths with what stands there
//! - `DiskFile`: a file on a disk that loses power (`Crash`). A call of it may fail before, halfway or after (`Outcome`). `read_after`
//!   is what a start reads then
//!
//! Definitions, in reading order: `MemoryDisks`, `MemoryInputs`, `MemoryPorts`, `MemorySockets`, `MemoryCalls`, `MemoryFiles`,
//! `PowerLosses`; `MemoryDiskLaws`, `DiskLaws`. Its tests stand in `checks_io`, and those of an arbiter over a `DiskFile` in
//! `checks_games`.
//!
//! - CLAIM: `MemoryDisk`, `MemoryInput`, clauses `facts`, `one`; `MemoryLines`, `MemoryPort`, `MemoryCalls`, `MemoryHandle`,
//!   `MemoryPaths`, clause `facts`; `MemorySocket`, clause `calls`: each does what its trait says, by what it holds and what it has
//!   recorded.
//! - CLAIM: `DiskFile`, clauses `facts`, `one`; `DiskFile::stop`, clauses `left`, `rest`, `same`; `read_after`, clauses `left`,
//!   `one`: a file on a disk that loses power does what `KeptFile` says, and what is read after a loss of power is what it left.
#![tactic(auto)]

mod disk_file;
mod memory_calls;
mod memory_disk;
mod memory_files;
mod memory_input;
mod memory_port;
mod memory_socket;
mod texts;

pub use disk_file::{Crash, DiskFile, Outcome, read_after};
pub use memory_calls::{MadeCall, MemoryCalls};
pub use memory_disk::{AtPath, MemoryDisk};
pub use memory_files::{MemoryHandle, MemoryPaths};
pub use memory_input::{MemoryInput, MemoryLines};
pub use memory_port::{MemoryPort, Passage, Turn};
pub use memory_socket::{Arrival, MadeSocketCall, MemorySocket};
