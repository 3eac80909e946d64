//! Where the outside comes in: folders and files, an input and an output, datagrams, a file that is replaced by another, and a
//! host that opens ports and files.
//!
//! Each is a trait (`Disk`, `Input` with `LineReader`, `Output`, `Port`, `KeptFile`, `RecordStore`, `Stores`, `Host`). Its `facts`, a
//! record with named fields, are all that a proof sees of it. Beside it stands the system's own instance (`SystemDisk`, `SystemInput`,
//! `BufferedOutput`, `UdpPort`, `SystemFile`, `SystemHost`); those in memory, for tests and laws, are in `system_fakes`.
//! `specs/Premises.antt` says what is trusted of the system. `SystemFile` is `CallLog` over the system's calls (`FileCalls`): what a
//! start finds follows from the calls that it made and their results. They work over `FileHandle` and `FilePaths`, which say of an open
//! file that it was written, synced or locked, and what stands at a path; the system's instances of these are a call each (`handles`).
//! `remove_at` asks that this process made the file there, and wasn't told since that another has locked it, or has its lock and it
//! stands there; what `lock_at` locks stands there, by device and number, which are looked at behind the lock.
//! Of the system's files what is no regular one is refused before it is opened (`opening`), and what is opened to be written is
//! made where nothing stands (`beside_file`). A `Port` sends each datagram to each of its addresses in turn, and a send that fails
//! keeps none of the others back. Where nothing came in time, its traffic has the wait that was asked for (`Quiet`). `UdpPort` is
//! over a `Socket`; among its addresses `sender` stands for whoever sent the last datagram.
//!
//! Inside: `disk`, `system_disk`, `descriptors`; `input`, `line_reader`, `bounded_lines`, `reading`, `system_input`; `output`; `port`,
//! `recipient`, `socket`, `udp_port`, `shared_wait`; `kept_file`, `call_log`, `handles`, `beside_file`, `system_file`, `locked`,
//! `lock_file`; `record_store`; `host`, `system_host`, `notes`; `laws`.
//!
//! Definitions, in reading order: `Failures`, `Histories`, `Reading`, `Descriptors`, `Disks`, `Inputs`, `LineReaders`, `ShortLines`,
//! `Outputs`, `Ports`, `KeptFiles`, `FileCalls`, `Traces`, `Hosts`, `Recipients`, `Records`, `Handles`, `Places`, `BesideFiles`,
//! `SystemFiles`, `Premises`, `Sockets`, `UdpPorts`, `Answers`; `OutputLaws`, `TraceLaws`, `HostLaws`. Its tests
//! stand in `checks_io`; cases in `system.txt` and `disk.txt` of `rows`.
//!
//! - CLAIM: `end`: the output is flushed last, also where an answer was not written to its end. The status is the answer's where
//!   all has gone out; it is 1 in its place only where some can't, or an answer was cut.
//! - CLAIM: `read_at_most`, clauses `whole`, `short`: bytes are read to their end (of a reader that tells what remains), and
//!   never more than so many. Why reading fails is no clause.
//! - CLAIM: `LineReader::next_line`, clauses `read`, `cause`, `same`: a line is what stood before the first line feed, or all
//!   that was left, and nothing after it was taken. Reading fails only where the input fails.
//! - CLAIM: `BoundedLines`: of each line of the system's input its first 65,536 bytes are given, and a line feed
//!   as soon as one more has come; what else the line has is passed over.
//! - CLAIM: `replace`, clauses `ok`, `err`; `replace_in_part`, clause `cut`: bytes take the place of those in a file by four
//!   calls, so ordered that a start finds the old bytes or the new, wherever the calls stop.
//! - CLAIM: `begin`, clauses `one`, `lasts`: where the file says of two contents that each start finds one or the other, what is
//!   read is one of the two, and every later start finds it.
//! - CLAIM: `CallLog`, clauses `facts`, `one`; `read_as_told`: the system's file does what `KeptFile` says by its calls. Under
//!   `IsAsTold` a start reads one of any two contents of which the file said that each start finds one or the other.
//! - CLAIM: `Disk`, clause `one`; `Disk::read`, clause `bytes`: what is no regular file gives no bytes (`HoldsOne`, field `file`).
//! - CLAIM: `open_above_standard`: it returns a file whose descriptor is above 2, so that 0 to 2 are open.
//! - CLAIM: `Host::own_address`, clause `own`; `UdpPort::own_address`: a host says at which address a port listens, or that it
//!   doesn't know.
//! - CLAIM: `Host::bind`, clause `each`: a port sends to as many addresses as it was bound for. `UdpPort::bind`: where its own address is
//!   known, each of a host name is of that one's kind, IPv4 or IPv6 (`Names`, field `kind`).
//! - CLAIM: `UdpPort::receive`, clauses `hears`, `deaf`; `UdpPort::receive_in_time`, clauses `hears`, `deaf`; `UdpPort::send`, clause
//!   `sends`; `laws::answers_follow`; `laws::nothing_else_is_sent`; `laws::each_is_sent`: by the calls of its socket the answers to a
//!   datagram go to the address from which that one came, where the words have `sender`, and to each other address that they name, in
//!   order, and to nobody else.
//! - CLAIM: `Host::bind`, `Host::file`, `Host::lock`, `Host::store`, clauses `made`: each port, file, lock and store that a host opens
//!   is in the history that it is lent, in order, and nothing else is.
//! - CLAIM: `RecordStore::put_all`, clause `refused`: where memory alone was refused, a store goes on as it was, and the batch comes back.
//! - CLAIM: `Host::lock`, clauses `given`, `cause`; `SystemHost::lock`, clause `at`: the file that is locked is the one at the path.
//! - CLAIM: `SystemCalls::write`, clause `beside`; `SystemCalls::sync`, clause `synced`; `SystemCalls::rename`, clause `renamed`;
//!   `SystemCalls::sync_folder`, clause `synced`: at `Ok` all bytes stand in a new and locked file beside, that same file was synced, the
//!   file at its path got the name, and the folder was synced, by what `FileHandle` and `FilePaths` say of each call.
//! - CLAIM: `SystemCalls::read`, clause `nothing`: `Ok(None)` comes only where opening says that nothing is at the path.
#![tactic(auto)]

mod beside_file;
mod bounded_lines;
mod call_log;
mod descriptors;
mod disk;
mod handles;
mod host;
mod input;
mod kept_file;
pub mod laws;
mod line_disk;
mod line_reader;
mod lock_file;
mod locked;
mod note_line;
mod notes;
mod opening;
mod output;
mod port;
mod reading;
mod recipient;
mod record_store;
mod shared_wait;
mod socket;
mod system_disk;
mod system_file;
mod system_host;
mod system_input;
mod udp_port;

pub use bounded_lines::BoundedLines;
pub use call_log::{CallLog, FileCalls, read_as_told};
pub use descriptors::open_above_standard;
pub use disk::{Disk, FileWithMode};
pub use handles::{FileHandle, FileNumber, FilePaths};
pub use host::{BindFault, Host, LockFault};
pub use input::Input;
pub use kept_file::{KeptFile, MOST_KEPT_BYTES, begin, copied, replace, replace_in_part};
pub use line_disk::LineDisk;
pub use line_reader::{LineReader, drop_line_feed};
pub use lock_file::LockFile;
pub use output::{BufferedOutput, Output, WriteFault, end};
pub use port::{NO_TAG, Port, PortFault};
pub use reading::{MOST_BYTES, ReadFault, read_at_most};
pub use recipient::{Recipient, SENDER};
pub use record_store::{Entry, Key, PutFault, RecordStore, StoreFault, Stores};
pub use socket::Socket;
pub use system_disk::SystemDisk;
pub use system_file::{SystemCalls, SystemFile};
pub use system_host::{SystemHost, Unrecorded};
pub use system_input::SystemInput;
pub use udp_port::UdpPort;
