//! A server of games: it answers the datagrams that come to a port, each by the arbiter of its game. `listen` and `host` are such servers, of
//! one game and of many. What happens outside is one list of events over one timeline, with its order.
//!
//! A message names its game by a stamp. The server looks up a game that isn't open among its places (`Games` of `game_folder`): its name, its
//! start, its delay and its record. Where no room is left, the one used least recently is closed. All judge by one set of tables, lent to
//! the one that answers. Datagrams that wait are answered in rounds: `hear` answers each, and what its game keeps is put in a file, or noted
//! for the store; then what was noted is committed; only then the replies go out, each to who asked, and then the lines.
//!
//! Inside: `seat` (a game that is open), `server`, `room`, `lookup`, `seating` (a game is opened, and answers), `hearing` (a datagram),
//! `replies`, `gathering` (the datagrams of a round), `sending`, `lines` (which are written), `printing`, `running`, `starting` (a game that
//! is opened unasked); `laws`.
//!
//! Definitions, in reading order: `Seats`, `Fates` (`OpensFor`, `GoesTo`), `Backed` (`IsBacked`), `Replies`, `Datagrams` (`HearsDatagram`),
//! `Sending`, `Printing` (`written_text`, `WritesLines`), `Rounds` (`round_events`, `IsRound`), `Runs` (`InTurns`, `Serves`), `Starting`,
//! `Orders` (`AcksAreEarned`); for private clauses `Seating`, `Running`.
//!
//! - CLAIM: `serve`, clause `run`: all that happens outside are turns. In each, datagrams come, and each is answered by one delivery of the
//!   arbiter of the game that it names, which is opened where it isn't open, or by a refusal alone; then what was noted is committed; then
//!   each message of each reply goes to each recipient, once and in order, and where that is the sender to whom its datagram came from;
//!   then a line for each datagram goes out, as the log has it. A turn has at most as many datagrams as may be answered together, and as
//!   are still to come (`AreWithin`). Where the commit fails nothing is sent. Nothing is received behind a lost line. The status is 0 only
//!   where all datagrams came, and 1 only where the port is lost or a commit failed.
//! - CLAIM: `serve`, clause `earned`; `laws::acks_are_earned`: where what open games keep is known, each acknowledgement of so many moves comes
//!   after a record of this game with at least so many was put or committed where its record is kept, or found there; each verdict comes
//!   after a record with it.
//! - CLAIM: `hear`, clause `made`: nothing is sent. The datagram has one of the fates of `GoesTo`, and the reply is of that. A record that
//!   can't be kept is not announced, and its game alone is refused and closed.
//! - CLAIM: `hear`, clause `made`: the game that answered is the one used latest (`used_by`). Another one is as it was; where there is no room
//!   for a game that is opened, the one used least recently is closed, and no other.
//! - CLAIM: `hear`, clause `made`: what the messages of the reply say (`backed`) of a record was put, committed or found where that game's
//!   record is kept, or is noted for the next commit.
//! - CLAIM: `open_game`, clause `made`: a game is opened as for a request for its moves, and is open then, or the error says why not; and
//!   nothing is sent.
//!   `ask`, clause `made`: the request for moves of an open game goes to each recipient.
//! - CLAIM: `PortServer::open`: no game is open yet (the error has no cause).
//!
//! Not said: why memory was refused, and whether it was memory or the store that failed a commit; that a round awaits its first datagram
//! alone.
#![tactic(auto)]

mod gathering;
mod hearing;
pub mod laws;
mod lines;
mod lookup;
mod printing;
mod replies;
mod room;
mod running;
mod seat;
mod seating;
mod sending;
mod server;
mod starting;

pub use hearing::hear;
pub use lines::Lines;
pub use replies::{Held, Replies};
pub use running::{PortServer, serve};
pub use seat::{Reply, Seat};
pub use server::Server;
pub use starting::{ask, open_game};
