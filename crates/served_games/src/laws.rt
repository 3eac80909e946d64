//! Laws over the definitions of `game_server`.

ghost use Rattle.arbiter_server.specs.Laws.{RecordsGoOn};
ghost use Rattle.game_folder.specs.FolderGames.{folder_games_facts};
ghost use Rattle.game_folder.specs.OneGame.{one_game_facts};
ghost use Rattle.served_games.specs.Durable.{GamesAreFound, KeepsAtOnce, RunsLast};
ghost use Rattle.served_games.specs.FileHistories.{FilesAreDurable};
ghost use Rattle.served_games.specs.FolderRuns.{FolderGamesKeepWhatTheyTold};
ghost use Rattle.served_games.specs.FolderStores.{StoreGamesAreLed, StoreGamesKeepWhatTheyTold};
ghost use Rattle.served_games.specs.InOrder.{StoreCommitsAreFound, StoreGamesAreTaken, StoreKeepsInOrder};
ghost use Rattle.served_games.specs.Lasting.{EachLasts};
ghost use Rattle.served_games.specs.OneGames.{OneGameKeepsWhatItTold};
ghost use Rattle.served_games.specs.PlaceKeepers.{place_keepers};
ghost use Rattle.served_games.specs.ServedGames.{GamesArePlayed, PlayedAreHosted};
ghost use Rattle.served_games.specs.StoreHistories.{StoresAreDurable};
ghost use Rattle.served_games.specs.StoreRuns.{StoreRunsAreLed, StoreRunsAreTold};

use game_folder::Games;
use timeline::System;

/// In a run of a server each game has its own acts, from where it was to where it is.
pub fn games_are_played<S: System, G: Games<S>>(_system: &S)
    ensures { GamesArePlayed (S.outside _system.now) (G.facts _system.now) }
{}

/// The acts of a game that is played so are those of a host.
pub fn played_are_hosted<S: System, G: Games<S>>(_system: &S)
    ensures { PlayedAreHosted (G.facts _system.now) }
{}

/// At each moment of a game that is played so the next delivery leaves the record as it was, or adds moves to it.
pub fn records_go_on<S: System, G: Games<S>>(_system: &S)
    ensures { (place : (G.facts _system.now).Place) → RecordsGoOn (place_keepers (G.facts _system.now) place) }
{}

/// After any runs of a server, wherever each of them stopped, whatever a start finds of a game is a record in which all is that each answer
/// told: as many moves as were acknowledged, the same ones, and the verdict at its ply.
pub fn what_was_told_lasts<S: System, G: Games<S>>(_system: &S)
    ensures { EachLasts (G.facts _system.now) }
{}

/// Where records are put at once and are durable, each opening of a game in a run is over what it left, and whatever a start may find behind the
/// run is what the game keeps or left.
pub fn games_are_found<S: System, G: Games<S>>(_system: &S)
    ensures { KeepsAtOnce (G.facts _system.now) → GamesAreFound (S.outside _system.now) (G.facts _system.now) }
{}

/// Where records are put at once and are durable, whatever a start may find of a game behind any runs, wherever each of them stopped, is a record
/// in which all is that each answer told.
pub fn runs_last<S: System, G: Games<S>>(_system: &S)
    ensures { KeepsAtOnce (G.facts _system.now) → RunsLast (S.outside _system.now) (G.facts _system.now) }
{}

/// Each record of a folder is put in its own file at once, and is found there.
pub fn folder_games_keep_at_once<S: System>(_system: &S)
    ensures { KeepsAtOnce (folder_games_facts (S.outside _system.now)) }
{}

/// The record of one game is put in its file at once, and is found there; no other game is.
pub fn one_game_keeps_at_once<S: System>(_system: &S)
    ensures { KeepsAtOnce (one_game_facts (S.outside _system.now)) }
{}

/// Of the games of a folder, where their files are durable, each opening of a game in a run is over what it left, and whatever a start may find
/// behind the run is what the game keeps or left.
pub fn folder_games_are_found<S: System>(_system: &S)
    ensures { GamesAreFound (S.outside _system.now) (folder_games_facts (S.outside _system.now)) }
{}

/// What a game of a folder told stays, over all runs of new servers of the folder, wherever each of them stopped. The premises are in the
/// statement (`specs/FolderRuns.antt`): the game has its stamp by the tables of the servers; its own file has the game's text whenever it is
/// read; and the file of its record is durable.
pub fn folder_games_keep_what_they_told<S: System>(_system: &S)
    ensures { FolderGamesKeepWhatTheyTold (S.outside _system.now) }
{}

/// So it is of one game, where its file is durable; and whatever a start may find behind any runs is a record in which all is that each answer
/// told.
pub fn one_game_lasts<S: System>(_system: &S)
    ensures found { GamesAreFound (S.outside _system.now) (one_game_facts (S.outside _system.now)) }
    ensures last { RunsLast (S.outside _system.now) (one_game_facts (S.outside _system.now)) }
{}

/// What one game told stays, over all runs of new servers of it, each of which opens it unasked, and wherever each of them stopped. The premises
/// are in the statement (`specs/OneGames.antt`): the game has its stamp by the tables of its servers; and the file of its record is durable.
pub fn one_game_keeps_what_it_told<S: System>(_system: &S)
    ensures { OneGameKeepsWhatItTold (S.outside _system.now) }
{}

/// The file of a record is durable, where each call at it does what `System` promises (`files::start`, `files::put`), a put in which the process
/// stops leaves what was there or its bytes, and nobody else writes it.
pub fn files_are_durable<S: System>(_system: &S)
    ensures { FilesAreDurable (S.outside _system.now) }
{}

/// A store is durable, where each call at it does what `System` promises (`stores::open`, `stores::find`, `stores::commit`), its disk returned what was
/// written, a commit in which the process stops leaves what was there or the whole batch, and nobody else writes it.
pub fn stores_are_durable<S: System>(_system: &S)
    ensures { StoresAreDurable (S.outside _system.now) }
{}

/// What is noted of games, and committed to a store, is kept in order, call by call: a taking finds what was put last, whether or not that is
/// committed; behind a commit a start finds that too, and behind one that failed that or what it found before.
pub fn store_games_keep_in_order<S: System>(_system: &S)
    ensures { StoreKeepsInOrder (S.outside _system.now) }
{}

/// In a run over a store, where that is durable, each opening of a game is over what it left; and while more can be committed, what a taking may
/// find is what the game keeps or left.
pub fn store_games_are_taken<S: System>(_system: &S)
    ensures { StoreGamesAreTaken (S.outside _system.now) }
{}

/// Behind a round whose commit to a store succeeded, whatever a start may find of a game there is what the game keeps or left.
pub fn store_commits_are_found<S: System>(_system: &S)
    ensures { StoreCommitsAreFound (S.outside _system.now) }
{}

/// Behind any runs over a store, wherever each of them stopped, whatever a start may find of a game is a record in which all is that each answer
/// told that went out: as many moves as were acknowledged, the same ones, and the verdict at its ply. It is what the acts of whole turns lead to,
/// of each run those of its first ones, among them each turn whose answers went out. The premises are in the statement (`specs/StoreRuns.antt`).
pub fn store_runs_last<S: System>(_system: &S)
    ensures told { StoreRunsAreTold (S.outside _system.now) }
    ensures led { StoreRunsAreLed (S.outside _system.now) }
{}

/// What a game of a folder told over a store stays, over all runs of new servers of the folder, wherever each of them stopped. The premises are in
/// the statement (`specs/FolderStores.antt`): the game's own file has its text whenever it is read; and the store is durable.
pub fn store_games_keep_what_they_told<S: System>(_system: &S)
    ensures told { StoreGamesKeepWhatTheyTold (S.outside _system.now) }
    ensures led { StoreGamesAreLed (S.outside _system.now) }
{}
