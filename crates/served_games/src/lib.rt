//! What each game does in a run of a server of games, act by act, and what a start finds of its record behind any runs.
//!
//! A run of `game_server` goes in, as its contract has it (`InTurns`): turns, each with the datagrams of all games. The acts of one game come
//! out, as `arbiter_server` has those of a host (`Goes`), datagram by datagram, over what the timeline says of the game's record
//! (`PlaceKeeper`). A put that failed is the answer of an arbiter whose keeper failed. So the theorems over hosts are theorems over servers.
//!
//! A start finds what was put, committed or found last; behind a put or a commit that failed, that or what was there before (`MayFind`). That
//! each start of the past found such is the one premise on files and stores (`IsDurable`). Of a file it follows from what `System` promises of
//! a start and a put, where nobody else writes the file and the disk keeps what it took (`FilesAreDurable`); so it does of a store
//! (`StoresAreDurable`).
//!
//! Inside: `laws`; `files` and `stores`, what `System` promises of a call at a file or a store, as a step of its history. In `proofs/`: `Carrying`
//! (an answer over a draft as one over what is kept), `Opening`, `Going` (acts behind others), `Playing` (one datagram), `Running` (a run),
//! `Telling` and `Lasting` (what was told, over acts and runs), `Finding` (what may be found behind acts), `Asides` (events that change nothing
//! of it), `Following` (a run), `Enduring` (all runs); `Stamping` (stamps are bytes, and paths of two differ), `AtOnce` (files), `OneGames`,
//! `FolderRuns`, `FileHistories`; `Reaching` and `InTurn` (what a datagram makes of the games), `InOrder` (a store), `Taking` (a run over it);
//! `Choosing` (what was found before, by what is found later), `Noting` (what commits nothing), `Fronts` (which turns of a run count), `StoreRuns`
//! and `FolderStores` (all runs over a store), `StoreHistories`.
//!
//! Definitions, in reading order: `PlaceKeepers`, `ServedGames` (`GoesOn`, `PlaysAll`, `OpenedGame`), `Lasting` (`WhatWasToldLasts`), `Durable`
//! (`MayFind`, `IsDurable`, `KeepsAtOnce`, `RunsLast`), `Unasked` (`Begins`), `OneGames` (`OneGameKeepsWhatItTold`), `FolderRuns`
//! (`FolderGamesKeepWhatTheyTold`), `FileHistories` (`FilesAreDurable`), `InOrder` (`KeepsInOrder`, `GamesAreTaken`, `CommitsAreFound`), `StoreRuns`
//! (`Front`, `StoreRunsAreTold`, `StoreRunsAreLed`), `FolderStores` (`StoreGamesKeepWhatTheyTold`), `StoreHistories` (`StoresAreDurable`).
//!
//! - CLAIM: `laws::games_are_played`; `laws::played_are_hosted`: in a run each game has its own acts, from where it was to where it is; for each
//!   datagram of the game they have its reply, and the events that were made for it. They go on from one another as those of a host, where each
//!   opening is over what was left. A game that memory was refused to keep open was opened, and closed at once; the reply is that of one that
//!   isn't open. `laws::records_go_on`: each delivery leaves the game's record, or adds to it.
//! - CLAIM: `laws::games_are_found`: where records are put at once and are durable, each opening is over what was left, and whatever a start may
//!   find behind a run is what the game keeps or left.
//! - CLAIM: `laws::folder_games_keep_at_once`, `one_game_keeps_at_once`: the games of a folder, and one game, put each record in its file at once;
//!   so each opening in a run is over what was left (`folder_games_are_found`; `one_game_lasts`, clause `found`).
//! - CLAIM: `laws::what_was_told_lasts`; `laws::runs_last`: after runs of one setup, wherever each of them stopped, whatever a start finds of a
//!   game is a record in which all is that each answer told: as many moves as were acknowledged, the same ones, and the verdict at its ply.
//!   The first says so of acts, over records in files and in stores; the second of events, where records are put at once, of runs in which one
//!   game was found under the stamp (`one` of `IsServedRun`).
//! - CLAIM: `laws::one_game_keeps_what_it_told`: what one game told stays, over all runs of new servers of it, each of which opens it unasked,
//!   and wherever each of them stopped, where the file of its record is durable.
//! - CLAIM: `laws::folder_games_keep_what_they_told`: so does what a game of a folder told, over all runs of new servers of the folder, where its
//!   own file has the game's text whenever it is read, and the file of its record is durable.
//! - CLAIM: `laws::files_are_durable`; `files::start`, `files::put`: a file is durable, where each call at it does what `System` promises.
//! - CLAIM: `laws::stores_are_durable`; `stores::open`, `stores::find`, `stores::commit`: so is a store.
//! - CLAIM: `laws::store_games_keep_in_order`; `laws::store_games_are_taken`: records that are noted, and committed to a store, are kept in order,
//!   call by call; so in a run, where the store is durable, each opening is over what was left, and while more can be committed, what a taking
//!   may find is what the game keeps or left, whether or not that is committed.
//! - CLAIM: `laws::store_commits_are_found`: behind a round whose commit to a store succeeded, whatever a start may find of a game is what it keeps
//!   or left.
//! - CLAIM: `laws::store_runs_last`; `laws::store_games_keep_what_they_told`, clauses `told` and `led`: after any runs over a store, wherever each of
//!   them stopped, whatever a start may find of a game is a record in which all is that each answer told that went out. Behind a commit that
//!   was broken off a start finds the whole batch or what was there before, and only what is found later tells which: so it is what the acts
//!   of some first turns of each run lead to, among them each turn whose answers went out. The second says so of new servers of a folder,
//!   where the game's own file has its text whenever it is read, and the store is durable.
#![tactic(auto)]

pub mod files;
pub mod laws;
pub mod stores;
