//! Connections of HTTP/1.1 at one address, served in one thread.
//!
//! Streams come at a `Listener`: the system's are `Sockets`, over `mio`; `MemoryListener` has streams whose bytes are stated. Each stream
//! has a connection of its own, an `http_server::Connection`, which holds what it was given and what it handed out as histories. In a
//! round of a `Server` the streams that have come are accepted, and the connections that have become ready have a turn each: in a turn a
//! connection reads, answers and writes until its stream would wait, or what waited to be sent has gone out twice, with so many calls at
//! most. A connection answers no request while bytes wait to be sent beyond what its `Config` says; with `max_pending` 0 that is two
//! requests a turn. One that could have gone on waits in a queue, of which one has its turn in each round, behind all others: so one that
//! pipelines holds up none that doesn't. A connection to which memory for an answer is refused is closed in that turn. Where there are as
//! many connections as may be, one more takes the place of the one that has waited longest, so that silent ones lock nobody out. What
//! still comes at a socket that was closed is passed over for two seconds, so that the last answer isn't lost. Time in which the process
//! didn't run counts for none.
//!
//! In a turn (`take_turn`, private) a connection received what its reader gave, its writer got what it handed out, and its calls are those
//! of the service. Where memory for an answer was refused it ends. One that can't go on has answered each whole request that it received,
//! unless bytes wait to be sent (clause `rests`). Its time is counted anew only where something was sent, or the first bytes of a request
//! came (clause `since`).
//!
//! A look for late connections (`close_late`, private, clause `late`) closes those that have taken too long, and no other. One that comes
//! (`accept_one`, private, clauses `ok`, `err`) takes the place of none, or of the one that has waited longest.
//!
//! Definitions, in reading order: `Times`; `Streams`, `Serving`; `Turns`, `Late`; `Servers`; `Memory`, `Lingering`; `Premises`.
//!
//! - CLAIM: `Server::round`, clause `served`; `Server::new`, clause `served`; `Server::close`, clauses `served`, `closed`: over a
//!   listener whose streams are known, what each stream gave is what one connection received, and what it got is what this connection sent,
//!   also of those that were closed; each of its calls is one that was made of the service, in the chain of all its calls.
//! - CLAIM: `Server::round`, clause `few`; `Server::new`, clauses `limits`, `none`: there are never more connections than the limits say.
//! - CLAIM: `Server::round`, clauses `order`, `turns`; `Server::new`, `Server::close`, clause `order`: each connection that may go on is
//!   in the queue, once, and no other is; all others rest. In a round the first of the queue leaves it, and others come behind.
//! - CLAIM: `Server::round`, clauses `order`, `swept`: at the last look no closed stream had lingered for more than two seconds, and that
//!   look was no longer ago than the limits say.
//! - CLAIM: `MemoryListener::new`, clauses `none`, `coming`; `MemoryListener::accept`, clauses `ok`, `first`, `none`;
//!   `MemoryListener::close`, clauses `streams`, `coming`: a listener in memory shows how each stream came and was left, from the first one
//!   on, and accepts the streams in their order.
#![tactic(auto)]

mod lingering;
mod listener;
mod memory;
mod peer;
mod server;
mod sockets;
mod times;

pub use listener::Listener;
pub use memory::{Coming, Left, MemoryListener};
pub use peer::Peer;
pub use server::{Limits, Server};
pub use sockets::{Incoming, Outgoing, Sockets};
