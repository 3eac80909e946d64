//! The server of a folder of tables, from what its words say to its status, over one system with a timeline.
//!
//! `serve` is what adjudicate_core's program calls: it opens a server (`Pages`: `SystemPages` over the system's sockets), and then all is
//! `serve_task`, over any listener. The line `ready ADDR` comes out, or one that refuses; requests are answered by `http_answer` over the
//! folders that the words name, connections are served by `http_loop`. Sockets of HTTP are no part of the timeline.
//!
//! Inside: `logging` (the line of a request), `answering` (a service over a timeline, and its rounds), `refusals`, `pages`, `task` (over any
//! listener), `serving` (the system's sockets).
//!
//! Definitions, in reading order: `Refusals`, `Serve`; `Limits`, `Streams`, `Tasks`; `Logging`, `Answering`.
//!
//! - CLAIM: `serve`, clauses `made`, `cause`: it is noted where no address is bound; then the manifest is read, if one is named, and the folder of
//!   tables is listed, once. A manifest that can't be read or is malformed, a folder that can't be read, an address that can't be bound and
//!   refused memory, the first in this order is written in one line, with status 1; else the line is `ready` and the address, which goes
//!   out (`Serves`). Then come, of some requests one after another, what is read for each and its note, and nothing else
//!   (`AnswersRequests`); in the end why the port was lost, or memory for it, is noted and written. An error comes only where a write might
//!   be refused.
//! - CLAIM: `serve_task`, clause `replied`: over a listener whose streams are known each stream got the replies to the requests that it
//!   gave, by the folder of tables, the manifest and the folders of games that the words name, in their order, whatever the others gave;
//!   and all are closed (`RepliesToTask`). Where no request is read the status isn't 0.
//! - CLAIM: `answer_requests`, clauses `replied`, `made`: the same, by the folders of a router (`RoutesOver`, `IsRepliedOver`); and of some
//!   requests, one after another, what is read for each and its note come, and nothing else (`AnswersRequests`).
//! - CLAIM: `Pages::open`, clause `opened`: the server has the limits of `HasLimits`, and has served no stream.
//! - CLAIM: `Answering`, clause `answers`: a call is answered by `Router::answer`. What is read for the request comes, and then its note:
//!   where requests are logged the line `request_line`, or none where memory is refused for it, and else none (`AnswersOne`,
//!   `NotesRequest`).
//!
//! Not said: that the requests of `made` are those that the streams gave, how many they are, and that the responses in their notes were
//! given; that a call never fails, and that it answers 503 only where memory is refused.
#![tactic(auto)]

mod answering;
mod logging;
mod pages;
mod refusals;
mod serving;
mod task;

pub use answering::{Answering, Asked, answer_requests};
pub use logging::request_line;
pub use pages::{Bound, Pages};
pub use refusals::Unbound;
pub use serving::{SystemPages, serve};
pub use task::{Serving, serve_task};
