//! Two arbiters of one game, and everything that was ever sent between them and its source.
//!
//! A game, table files and a list of events go in; the world after them comes out: the state of each arbiter, what it keeps, and
//! the log. Two real arbiters go through the schedule over keepers in memory (`replica`, `pair`, `running`). Each step is proved to
//! be the step of the model (`happens`), so that the laws over the model's worlds are laws of these. `schedule` reads the text of
//! a schedule.
//!
//! Inside: `event`, `game`, `world`, `fault`, `gathering` and `listing` (tables and their manifest), `replica` (one arbiter and its
//! keeper), `pair` (both and the log), `running`, `lines` and `fields` (the schedule's text), `file`, `laws`.
//!
//! Definitions, in reading order: `Worlds` (`happens`), `Headline` (`IsFaithful`), `Gathering`, `Runs`, `InOrder`, `NoTables`,
//! `Laws`, `Texts` (`SpellsSchedule`), `FileNames`. Its tests stand in `checks_games` (`world_tests`; `seeded_world_tests`: 300
//! random schedules against a plain model); cases in `schedules.txt` and `recovery.txt` of `rows`.
//!
//! - CLAIM: `run`, clauses `worlds`, `one`: the headline. There are worlds, one more than the events, each next by the step; the
//!   first has nothing kept, the last is what is returned. In each, what an arbiter keeps is the game's first moves, legal in
//!   turn, with the first verdict exactly at its ply, and two kept verdicts are one.
//! - CLAIM: `run`, clauses `worlds`, `faults`: tables are opened place by place, and the first that is none, or is there twice,
//!   is reported; or memory was refused, which has no cause here.
//! - CLAIM: `laws::headline`; `laws::one_list_of_worlds`, clauses `list`, `each`, `last`; `laws::runs_tell_one`: the headline
//!   holds of every world of the model, and the worlds of `run` are these.
//! - CLAIM: `laws::counts_grow`; `laws::acks_are_kept`; `laws::verdicts_are_first`; `laws::verdicts_stay`;
//!   `laws::moves_are_the_games`; `laws::log_is_of_the_game`: along every schedule a kept count never falls, an Ack is at most
//!   its sender's count then and later, a sent verdict is the first one, a kept one stays, and every move in the log is the
//!   game's.
//! - CLAIM: `laws::rising_order`; `laws::progress`, clauses `all`, `one`, `last`; `laws::whole_records_are_one`: an arbiter that
//!   runs and gets all moves in order keeps the game as far as it goes, and two whole records are one.
//! - CLAIM: `laws::no_delay_is_least_ruling`; `laws::no_tables_is_the_board`, clauses `board`, `files`: without delay a verdict
//!   is at the least ply with a ruling; without tables a game ends on the board.
//! - CLAIM: `laws::source_sends_the_game`: what the source of a game sends is the list with which the log begins.
//! - CLAIM: `Game::new`, clauses `ok`, `name`, `moves`, `delay`; `World::state`; `World::bytes`; `World::log`; `World::kept`,
//!   clauses `nothing`, `record`, `some`: a game is made exactly of a good name, at most 4096 moves and a delay of at most 8, and
//!   refused in this order; a world gives its parts.
//! - CLAIM: `schedule::read`, clauses `ok`, `err`, `memory`; `laws::one_bad_line`, clauses `none`, `one`; `laws::one_schedule`,
//!   clauses `one`, `worlds`: a text is read as the schedule that it spells, otherwise the first line at fault is reported, and
//!   one text has one of these.
//! - CLAIM: `laws::file_names_are_those_of_tables`: the file names that a manifest may have are those of the 145 tables.
#![tactic(auto)]

mod event;
mod fault;
mod fields;
mod file;
mod game;
mod gathering;
pub mod laws;
mod lines;
mod listing;
mod pair;
mod replica;
mod running;
pub mod schedule;
mod world;

pub use event::Event;
pub use fault::{GameFault, WorldFault};
pub use game::Game;
pub use running::run;
pub use world::{State, World};
