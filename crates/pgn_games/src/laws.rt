//! Laws over the definitions alone, for the layers above.

ghost use Rattle.pgn_games.specs.Laws.{GamesAreOfChess, MovesAreReadBack, NoneIsTheEnd, OneGameIsRead, OneListIsSpelled};
ghost use Rattle.pgn_games.specs.Scores.{OnlyScoresAreRead, ScoresAreReadBack};
ghost use Rattle.pgn_games.specs.ExportFormat.{ExportIsReadBack, ExportSpellsScores, OnlyExportIsRead};

use board_core::laws::{position_after_is_a_position, position_after_is_computed};
use fen_text::laws::{one_position, one_text};
use san_text::laws::{is_read_back, one_thing};

/// A game that is read begins at the position of its FEN tag or at the usual one, and its moves, at most 4,096, are legal in turn.
pub fn games_are_of_chess()
    ensures { GamesAreOfChess }
{}

/// None is told exactly where no token is left.
pub fn none_is_the_end()
    ensures { NoneIsTheEnd }
{}

/// Tokens are read as one game, or as one fault, and leave the same tokens behind it.
pub fn one_game_is_read()
    ensures { OneGameIsRead }
{
    one_text();
    one_position();
    one_thing();
    position_after_is_computed();
}

/// The bytes of a file spell one list of games and of faults.
pub fn one_list_is_spelled()
    ensures { OneListIsSpelled }
{
    one_game_is_read();
    none_is_the_end();
}

/// The tokens of moves that are read in turn, and of a result, are read as the game of these moves.
pub fn moves_are_read_back()
    ensures { MovesAreReadBack }
{}

/// Of the texts of scores, one after another, the games of these scores are read, and no others.
pub fn scores_are_read_back()
    ensures read { ScoresAreReadBack }
    ensures only { OnlyScoresAreRead }
{
    one_list_is_spelled();
}

/// Export format spells the score that is written.
pub fn export_spells_scores()
    ensures { ExportSpellsScores }
{
    is_read_back();
    position_after_is_computed();
    position_after_is_a_position();
}

/// Of a file in export format the games that were written are read, and no others.
pub fn export_is_read_back()
    ensures read { ExportIsReadBack }
    ensures only { OnlyExportIsRead }
{
    position_after_is_computed();
    position_after_is_a_position();
    export_spells_scores();
    scores_are_read_back();
    one_list_is_spelled();
}
