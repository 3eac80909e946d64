//! Laws over the definitions of specs/, for proofs above: each function carries one law, over any disk, and does nothing.

ghost use Rattle.table_folder.specs.Laws.{PositionsInPlayArePlayed, RefusedIsNeeded, SettledGamesAreAsWhole, SettledGamesStay, SettledIsAsWhole, SettledMovesAreAsWhole, WholeIsOne, WholeIsThere};

use crate::files::TableFiles;
use crate::folder::TableFolder;
use board_core::laws::{
    capture_takes_one_man, other_move_keeps_the_men, position_after_is_computed,
};
use judge_core::laws::{
    games_depend_on_rulings, more_tables_answer_the_same, what_is_missing_stays_missing,
};

/// A folder has a set of all its tables where each file of a table says one thing, be it why it is none.
pub fn whole_is_there<F: TableFiles>(_disk: &F)
    ensures { WholeIsThere (F.facts _disk.now) }
{}

/// A folder has one set of all its tables at most.
pub fn whole_is_one<F: TableFiles>(_disk: &F)
    ensures { WholeIsOne (F.facts _disk.now) }
{}

/// Where a position misses no table of the folder, its value, its distance, its verdict and its probes are those by all tables of
/// the folder.
pub fn settled_is_as_whole<F: TableFiles>(_disk: &F)
    ensures { SettledIsAsWhole (F.facts _disk.now) }
{
    more_tables_answer_the_same();
    what_is_missing_stays_missing();
}

/// Where a position in scope and those after its moves miss no table of the folder, its root moves are those by all tables of the
/// folder.
pub fn settled_moves_are_as_whole<F: TableFiles>(_disk: &F)
    ensures { SettledMovesAreAsWhole (F.facts _disk.now) }
{
    position_after_is_computed();
    capture_takes_one_man();
    other_move_keeps_the_men();
    more_tables_answer_the_same();
    what_is_missing_stays_missing();
}

/// Where the positions of a game that are in play miss no table of the folder, its outcome is that by all tables of the folder.
pub fn settled_games_are_as_whole<F: TableFiles>(_disk: &F)
    ensures { SettledGamesAreAsWhole (F.facts _disk.now) }
{
    games_depend_on_rulings();
    more_tables_answer_the_same();
    what_is_missing_stays_missing();
}

/// The positions of a game that are in play are among those of the plies up to that of its outcome.
pub fn positions_in_play_are_played()
    ensures { PositionsInPlayArePlayed }
{}

/// Where the positions of a game miss no table of the folder, its outcome, and where it stands, stay when more tables of the folder are
/// opened; and then its positions miss none.
pub fn settled_games_stay<F: TableFiles>(_folder: &TableFolder<'_, F>)
    ensures { SettledGamesStay (F.facts _folder.now.disk) }
{
    games_depend_on_rulings();
    more_tables_answer_the_same();
    what_is_missing_stays_missing();
}

/// A file that is refused is needed, where each file holds one thing: by all tables of the folder the position misses its table.
pub fn refused_is_needed<F: TableFiles>(_disk: &F)
    ensures { RefusedIsNeeded (F.facts _disk.now) }
{
    more_tables_answer_the_same();
    what_is_missing_stays_missing();
}
