//! What a server of tables and of games answers to a request of HTTP, over one system with a timeline.
//!
//! `Router::answer` fills the response to a request. A request whose path is one of games goes to the folders of games, if they are named
//! (`Games`), and every other one to the tables (`Answerer`). It is no service of the toolchain's `http_server` itself, as it is lent the
//! timeline: `serve_core` has that service.
//!
//! `Answerer` holds a folder of tables, each of which is read when a position asks for it, and its answers are a function of the request and
//! of this folder.
//!
//! `Games` holds a folder of games, and a second one, if it is named, as `game_reports` reads them, with the records of their stores. What
//! `status` writes of all games is read where none is kept that is less than a second old, by what `Times` says. One game is read at each
//! request, and its plies are asked of the tables; where one of these has no room, tables are read for it alone.
//!
//! Inside: `query` and `lines` (texts of positions in a query and in a body), `asking` (what a request asks for), `filling`, `answerer`,
//! `page`; `times`, `games` (folders of games, and reports), `plies` (the object of a game), `router`, `watch` (a page).
//!
//! Definitions, in reading order: `Queries`, `Places`, `Files`, `Replies`; `Times`, `Games`; `Reads`.
//!
//! - CLAIM: `Router::answer`, clause `answered`: the response is the one that `IsServed` has for the request's method and path, and the folders
//!   stay the same. Of all games it is the report that `status` writes as JSON or as metrics, of one game its object with each ply, by a
//!   reading of the folders (`ReadsReport`, `ReadsGame` of game_reports). A second folder, its comparison and its faults are as `status` has
//!   them. 404 where no folder lists the file of the stamp, and for each path of games where no folder is named.
//! - CLAIM: `Router::answer`, clause `answered`: a report on all games is the one that is kept, where that is less than a second old by the
//!   clock, and else one that is read, which is kept with the time (`IsAged`).
//! - CLAIM: `Router::answer`, clause `answered`: where memory is refused the response is 503, with no field and no body, and all stays
//!   (`IsResponded`).
//! - CLAIM: `Router::answer`, `Answerer::answer`, clause `made`: what is read for a request, also where memory is refused (`ReadsForRequest`,
//!   `ReadsForAsked`). For a position files of tables of the folder, and nothing for a text that is none; for a report or a game what
//!   `read_report` or `read_game` reads, or nothing where a report is answered again; then tables for the plies of a game, and all of that
//!   game once more where a table has no room; for all else nothing. Nothing else comes.
//! - CLAIM: `Answerer::answer`, clauses `replied`, `same`: the response is the reply to the request (`IsReply`), and the folder stays
//!   the same. For a position it is an object of the tablebase API with each legal move, by tables of the folder of which none is missing
//!   at the position and after its moves; or the refusal of the file of one that is needed. For a body it is these of each line, in turn.
//!   For a line of best play each ply is the first root move of its position, by tables of the folder of which none is missing there. What
//!   is at a path, by which methods, and which pages may read it is in three tables (`places`, `methods_of`, `is_shared`).
//! - CLAIM: `asked_text`, clause `text`: the text of the first member `fen` of the query, decoded, with a space for each `_`, and with
//!   both counters.
#![tactic(auto)]

mod answerer;
mod asking;
mod filling;
mod games;
mod lines;
mod page;
mod plies;
mod query;
mod router;
mod times;
mod watch;

pub use answerer::Answerer;
pub use games::{GameFolders, Games, LackedFolder};
pub use page::PAGE;
pub use query::asked_text;
pub use router::Router;
pub use times::{ClockTimes, StatedTime, Times};
pub use watch::WATCH;
