//! The source of a live game: it sends the game's moves to the two arbiters as they are played.
//!
//! Over a system and its one timeline lines are read, a move each in the notation of the terms; datagrams go out to each recipient of a port
//! until both arbiters have acknowledged the move, and a line is written for each. `Known` keeps what the arbiters have reported, a count
//! and a verdict for each; `Report` is what a datagram of the game reports. After the input's end the last move is sent once more. What it
//! sends is the list of moves with which a world begins (`theorems::sends_the_log`).
//!
//! Inside: `board` (the source's own), `known`, `origin`, `report`, `lines`, `laws`; `course` (a run) over `exchange` (one move) and
//! `watching` (what is noted meanwhile); `sending` (the move of a line, and how a run ends), `turn` (how a turn ends, and how long it waits).
//!
//! Definitions, in reading order: `Reports`, `Origins` (`RestsOnSent`), `Boards` (`IsBelieved`), `Turns` (`IsWait`), `Lines`, `Sendings`
//! (`ClosesSo`, `IsSentLast`), `Heard` (what is heard of what happens), `Tries` (`SendsMove`), `Runs` (`SendsGame`, `OnlySends`), `Laws`.
//! Its tests stand in `checks_io` (`source_tests`).
//!
//! - CLAIM: `send_moves`, clause `made`: all that happens outside is one list of events, in this order. For each move that is acknowledged: a
//!   line of the input is read; its legal move is sent with its number to each recipient in some tries, at most as often as the terms say, each
//!   of which waits as long as they say before the next is made; the line `N acked` is written, and goes out. Then the last line is read, its
//!   move sent, or the last acknowledged one once more, and the stated line is written and goes out. Where the output fails at a line, nothing
//!   is read or heard behind it. Only notes may stand between what is heard, and at the end.
//! - CLAIM: `send_moves`, clause `made`: each datagram that is sent is the move of its number from one list (`OnlySends`). How the run ends is so by
//!   all that was heard: an arbiter counts as silent only when all tries are used up, and then what is known of both is returned.
//! - CLAIM: `send_moves`, clause `made`: a verdict with which the run ends is believed: a mate or a stalemate at a ply that was sent stands on
//!   the source's own board after the last move; one that doesn't is printed as `disagree`.
//! - CLAIM: `send_moves`, clause `made`: whenever nothing came in time, a datagram was awaited as long as the terms say for that try, longer from
//!   try to try; or two milliseconds, where both had acknowledged the move and neither had reported a verdict (`IsWait`, `EachWaits`). That so
//!   much time has passed is left to the system.
//! - CLAIM: `send_moves`, clause `cause`: an error comes only where a write might be refused, or what was written couldn't go out.
//! - CLAIM: `report_of`, clauses `some`, `only`: a datagram is a report of the game exactly where it encodes an acknowledgement
//!   or a verdict with its stamp.
//! - CLAIM: `Known::add`, clauses `added`, `clash`, `same`; `Known::standing`: a report is added to what is known, and a verdict
//!   that differs from a known one is a clash.
//! - CLAIM: `send_moves`, clause `made`; `laws::new_run_rests_on_sent`: of a game that has to be new (`Origin::New`) no acknowledged move,
//!   verdict or open end is printed while an arbiter has reported more moves than were sent; then the run ends as `refused started`, with the
//!   most moves that this arbiter has reported (`IsOwn`, `IsStarted`).
//! - CLAIM: `laws::one_move_sent`: one number never has two moves.
#![tactic(auto)]

mod board;
mod course;
mod exchange;
mod known;
pub mod laws;
mod lines;
mod origin;
mod report;
mod sending;
mod turn;
mod watching;

pub use course::{GameToSend, send_moves};
pub use known::{Clash, Known, Reported, Standing};
pub use lines::{End, Ended, Line};
pub use origin::{Origin, Started};
pub use report::{Report, Ruling, report_of};
pub use turn::SendConfig;
