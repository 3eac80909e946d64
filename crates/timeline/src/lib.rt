//! Everything outside of a program as one trait, with one timeline to which each call adds its event.
//!
//! `System` has all calls that the program makes outside: folders, files and their modes, the input, lines as they come, the output and
//! errors, notes, ports and datagrams, locks, kept files, and stores of records. Its ghost `outside` is all that a proof knows of it, one
//! record that goes through the layers as one word (`Outside`). What doesn't change is said of the system; what a call does is said of the
//! timeline that it is lent; what is said of a port, a file, a lock, a store or of lines is a function of that value. What a command does
//! outside is so one list of events, with their order: `Adds o before after events`, and `AddsSome` where a definition says which.
//!
//! Events are for proofs: no call builds one at run time. `Machine` is the system's own instance, over the disk, input, host and output of
//! `system_io`; it records nothing, and trusts what `Premises` of `system_io` says. The instance that records all, in memory, is
//! `MemorySystem` of `timeline_fakes`: it shows that the clauses can be met.
//!
//! Inside: `stream`, `system`, `machine`.
//!
//! Definitions, in reading order: `Events` (`Event`, and the event of a call by its result), `Outsides` (`PortState`, `Outside`,
//! `IsConsistent`, `Adds`, `AddsSome`), `Machines`; `MachineLaws`. Lemmas for callers: `EventLaws` (events, one after another),
//! `NamedLaws` (whom the words of a port name).
//!
//! - CLAIM: `System`, clauses `made`: each call adds one event to the timeline, by its arguments and its result, and nothing else. A write
//!   that fails adds the front that was written and that it was refused; a send adds one event for each recipient that has an address, in
//!   their order.
//! - CLAIM: `System::receive`, `System::receive_in_time`, `System::send`, clauses `made`: a datagram that comes has its sender in its event,
//!   and where the words of a port have `sender`, what is sent goes to who sent the last one.
//! - CLAIM: `System::bind`, clauses `bound`, `each`: a port is at the address that it is bound to, and sends to those whom its words name.
//! - CLAIM: `System`, clause `one`: what is known of a system contradicts itself nowhere.
//! - CLAIM: `System::put`, clauses `ok`, `err`, `path`; `System::start`, clauses `one`, `lasts`: a start finds what was put, or, after a put that
//!   failed or was cut off, the old bytes or the new.
//! - CLAIM: `System::commit`, clauses `all`, `kept`, `same`, `stops`: a batch is committed whole or not at all.
//! - CLAIM: `Machine`: each call hands its arguments to the call of `system_io` that it is named for, by what is known of any disk, input,
//!   output and stores, and of the system's own ports, files and locks.
#![tactic(auto)]

mod machine;
mod stream;
mod system;

pub use machine::{Machine, MachineFile, MachineLines, MachineStore, MachineTimeline};
pub use stream::Stream;
pub use system::System;
