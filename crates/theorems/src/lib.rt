//! Theorems over the crates: what two arbiters, two servers and a source come to together.
//!
//! Runs go in, each as the contracts of its crate have it, with what is said of the outside; what holds of all of them together comes
//! out, as the contract of a function that does nothing. `arbiter_core` proves what one arbiter does, `game_server` and `served_games` what
//! one server does for each of its games, `source_core` what a source sends, and `relay_world` what holds of each schedule of deliveries,
//! losses, repeats and restarts. Here the first are tied to the last: what they keep and send for a game is what the world of some schedule
//! keeps and has sent.
//!
//! What the outside gives is a premise, act by act, in `specs/Nets.antt` and `specs/Interleavings.antt`; nothing that a contract gives is
//! stated there again. Of two hosts these are: which hosts they are and what their tables mean (`IsHostOf`); that the game found under
//! the stamp is this one, that no message of it is made up, and that keepers keep (`Finds`, `AnswersDatagram`, `Stops`); that a closing, an act
//! of another game and a datagram without a keeper leave what is found (`GivesOwn`, `GivesIf`). That the acts of a run go on from one another
//! (`goes` of `IsRunOfHost`) is proved of each run of a server, wherever it stopped (`served_are_hosted`).
//!
//! Inside: `arbiters`, `hosts`, `served`, `served_stores`, `sources`, `seals`. In `proofs/`: `Netting` (arbiters), `Seeing` (keepers of any type,
//! seen as what they keep), `Weaving` (an act of a host as steps of an arbiter), `Stopping`, `Joining`, `Acking`, `Replying`, `GettingOn`,
//! `Serving` and `ServedWeaving` (servers of games over one timeline), `ServedStoring` (those over stores); `Reporting`, `Believing` and `Ending`
//! (a source).
//!
//! Definitions, in reading order: `Nets`, `Interleavings`, `Progress`, `Served`, `ServedWeaves`, `ServedStores`, `Sources`, `Seals`. A law has no
//! case of its own; `tools/host_games` and `tools/weather` play games between two hosts.
//!
//! - CLAIM: `arbiters_are_worlds`: two arbiters of one game over keepers of any one type, by steps as the contracts of `open` and
//!   `deliver` have them, come to a world, which is faithful to the game.
//! - CLAIM: `hosts_are_worlds`: two hosts that have one game, each over places of its own (`Games` of `game_folder`) and with any number of runs,
//!   their acts in any order and those of other games among them, come to a world. While the game is open, its arbiter runs and its keeper keeps
//!   what is found there.
//! - CLAIM: `acks_are_found`: as many moves as a host ever acknowledged are found there, then and later: the game's first ones.
//! - CLAIM: `hosts_get_on`: as many first moves of the game as such a host took in order are found there, or as many as the game reaches. Where it
//!   took them to the first verdict, the first illegal move or the end, that is the record of the whole game, and of legal moves a report of it was
//!   sent; where both did, one record is found. A move is taken where its datagram was answered, and neither memory was refused for this nor did a
//!   put fail; anything may come between.
//! - CLAIM: `arbiters_tell_the_truth`; `hosts_tell_the_truth`: what such arbiters, and such hosts, tell of the game while it is open is
//!   true: the record is the game's first moves, with the first verdict exactly at its ply.
//! - CLAIM: `served_are_hosted`: what a run of a server of games (`game_server`) does of a game is what a run of a host does, where each opening is
//!   over what was left; so of one that has opened the game unasked, and may have asked for moves, but for the answer by which it was
//!   opened, which nobody gets. `served_game_is_hosted`; `served_folder_is_hosted`: over the file of one game, and over those of a folder, where
//!   they are durable, each opening is so, wherever the run stopped. So the laws of two hosts are laws of two servers.
//! - CLAIM: `served_are_woven`: two servers, each over files, come to a net as `hosts_are_worlds` asks, by where each opening begins: that
//!   keepers keep, and what a closing leaves, are no premises.
//! - CLAIM: `served_stores_are_woven`: two servers, each over a store, or one over a store and one over files, come to a net as `hosts_are_worlds`
//!   asks, by the acts that happened of their runs, wherever each run stopped: of each run over a store those of its first turns, among them
//!   each turn whose answers went out. What a start finds in each store, or file, is kept there; that keepers keep, and what a closing
//!   leaves, are no premises.
//! - CLAIM: `sends_the_log`: each datagram that a run of `send` passes on is a message of the log with which the worlds of its
//!   moves begin.
//! - CLAIM: `sources_tell_the_truth`: what a source goes by is true, where all that came of the game was sent in a world of it: a
//!   verdict that both reported is the first, no two differ, and a move that both acknowledged is kept by both. That it prints
//!   this is `send_moves`, clause `made`.
//! - CLAIM: `sources_get_on`: a run of `send` ends as its game does, where all that came of it was sent in a world of it, and a report of the whole
//!   game came of both arbiters before the end: with the first verdict, or open where the game has none; or by its port or its input.
//! - CLAIM: `no_tag_no_forgery`: where no datagram has a forged tag, a port with keys passes on no forged message.
#![tactic(auto)]

mod arbiters;
mod hosts;
mod seals;
mod served;
mod served_stores;
mod sources;

pub use arbiters::{arbiters_are_worlds, arbiters_tell_the_truth};
pub use hosts::{acks_are_found, hosts_are_worlds, hosts_get_on, hosts_tell_the_truth};
pub use seals::no_tag_no_forgery;
pub use served::{
    served_are_hosted, served_are_woven, served_folder_is_hosted, served_game_is_hosted,
};
pub use served_stores::served_stores_are_woven;
pub use sources::{sends_the_log, sources_get_on, sources_tell_the_truth};
