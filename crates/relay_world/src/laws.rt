//! What holds along every schedule.

ghost use Rattle.std.specs.Prelude.{◌≡◌, ℕ, List, ◌++◌, slice_get, length, Some};
ghost use Rattle.relay_world.specs.declared.event.Event.{Event};
ghost use Rattle.relay_world.specs.Worlds.{Judged, World, world_after_all, worlds, first_world, AreStamped};
ghost use Rattle.relay_world.specs.Headline.{IsFaithful};
ghost use Rattle.relay_world.specs.Laws.{AcksAreKept, CountsGrow, InOrderKeepsAll, InOrderKeepsOne, LastPlyIsOutcome, MovesAreTheGames, NoDelayIsLeastRuling, NoFilesAreNoTables, NoTablesIsTheBoard, ReachedPlies, RisingOrder, RunsTellOne, SourceSendsTheGame, VerdictsAreFirst, VerdictsStay, WholeRecordsAreOne};
ghost use Rattle.relay_world.specs.Runs.{AreWorlds};
ghost use Rattle.relay_world.specs.declared.schedule.Schedule.{Schedule};
ghost use Rattle.relay_world.specs.Texts.{IsFirstBadScheduleLine, IsSameSchedule, SpellsSchedule};
ghost use Rattle.relay_world.specs.FileNames.{FileNamesAreThoseOfTables};

use fen_text::laws::{one_move, one_position};
use judge_core::laws::{first_verdict_in_words, no_delay_is_the_ruling};
use place_index::{few_men_have_tables, tables_are_numbered};

/// In each world of each schedule each kept record is that of the game's first so many moves, with the first verdict exactly at
/// its ply, and two kept verdicts are one.
pub fn headline()
    ensures { (game : Judged) (events : List Event) (i : ℕ) (world : World) → slice_get (worlds game (first_world game) events) i ≡ Some world → IsFaithful game world }
{}

/// The first world and the steps leave one list of worlds, so that these laws are about those of `run`: the world at a place is
/// the one after so many events, and the last is the one after all.
pub fn one_list_of_worlds()
    ensures list { (game : Judged) (events : List Event) (ws : List World) → AreWorlds game events ws → ws ≡ worlds game (first_world game) events }
    ensures each { (game : Judged) (early late : List Event) → slice_get (worlds game (first_world game) (early ++ late)) (length early) ≡ Some (world_after_all game (first_world game) early) }
    ensures last { (game : Judged) (events : List Event) → slice_get (worlds game (first_world game) events) (length events) ≡ Some (world_after_all game (first_world game) events) }
{}

/// A run of a game has one result, by its files and its events alone. Two runs that meet the contract of `run`, at any
/// numbers of blocks, have equal results.
pub fn runs_tell_one()
    ensures { RunsTellOne }
{}

/// A game reaches a ply exactly where its moves up to it are there and legal in turn, and no earlier ply has a verdict.
pub fn reached_plies()
    ensures { ReachedPlies }
{}

/// A kept count never falls.
pub fn counts_grow()
    ensures { CountsGrow }
{}

/// No Ack exceeds what its sender keeps, then and later.
pub fn acks_are_kept()
    ensures { AcksAreKept }
{}

/// Each verdict that is sent is the first of the game, with its ply.
pub fn verdicts_are_first()
    ensures { VerdictsAreFirst }
{}

/// A kept verdict stays, and the record with it.
pub fn verdicts_stay()
    ensures { VerdictsStay }
{}

/// An arbiter that runs through a stretch, in which the moves up to number n came in rising order, keeps n moves, or
/// as many as the game reaches.
pub fn rising_order()
    ensures { RisingOrder }
{}

/// Whatever happened before, an arbiter that runs and then receives the moves in order, with puts that succeed, keeps
/// the record of the game. It goes up to the first verdict, the first illegal move or the end; so two arbiters keep one
/// record. In another order it need not: a move 32 ahead of the count is refused.
pub fn progress()
    ensures all { InOrderKeepsAll }
    ensures one { InOrderKeepsOne }
    ensures last { LastPlyIsOutcome }
{}

/// Two records that have all moves of the game, or its verdict, are equal, whichever arbiter keeps them and whatever happened.
pub fn whole_records_are_one()
    ensures { WholeRecordsAreOne }
{}

/// With a delay of 0 a record has a verdict exactly where its ply is the least of the game whose position has a ruling, and the
/// verdict is that ruling.
pub fn no_delay_is_least_ruling()
    ensures { NoDelayIsLeastRuling }
{
    no_delay_is_the_ruling();
}

/// Without tables a record has a verdict exactly where its ply is the first at which the game ends on the board. It
/// ends by checkmate, by stalemate, or by bare kings, which are a draw once they have stood for as many plies as the
/// delay says. No files give no table.
pub fn no_tables_is_the_board()
    ensures board { NoTablesIsTheBoard }
    ensures files { NoFilesAreNoTables }
{
    first_verdict_in_words();
    few_men_have_tables();
}

/// A list of messages is what the source of a game sends, with which the log begins, exactly where it has these
/// messages alone: message n is the `Move` with number n and the game's move n. So a sender whose datagrams are these
/// messages sends the game of these worlds.
pub fn source_sends_the_game()
    ensures { SourceSendsTheGame }
{}

/// Each move in the log is the game's at its number, whoever sent it.
pub fn moves_are_the_games()
    ensures { MovesAreTheGames }
{}

/// Every message that was ever sent is of the game.
pub fn log_is_of_the_game()
    ensures { (game : Judged) (events : List Event) → AreStamped game (world_after_all game (first_world game) events) }
{}

/// The file names that a manifest may have are those of the 145 tables, each with either ending, and no others.
pub fn file_names_are_those_of_tables()
    ensures { FileNamesAreThoseOfTables }
{
    tables_are_numbered();
}

/// A text with a malformed line spells no schedule, and has one first malformed line.
pub fn one_bad_line()
    ensures none { (text : List ℕ) (k : ℕ) (schedule : Schedule) → IsFirstBadScheduleLine text k → SpellsSchedule text schedule → ⊥ }
    ensures one { (text : List ℕ) (j k : ℕ) → IsFirstBadScheduleLine text j → IsFirstBadScheduleLine text k → j ≡ k }
{}

/// Two schedules of one text have equal names, starts, moves and events, where lists of bytes are compared by their
/// items. Such schedules have the same worlds.
pub fn one_schedule()
    ensures one { (text : List ℕ) (s t : Schedule) → SpellsSchedule text s → SpellsSchedule text t → IsSameSchedule s t }
    ensures worlds { (game : Judged) (s t : Schedule) → IsSameSchedule s t → worlds game (first_world game) s.events.items ≡ worlds game (first_world game) t.events.items }
{
    one_position();
    one_move();
}
