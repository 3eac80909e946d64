//! The games of an input, one at a time.

ghost use Rattle.std.specs.Prelude.{◌≡◌};
ghost use Rattle.board_core.specs.Position.{IsPosition};
ghost use Rattle.fen_text.specs.Written.{fen_of};
ghost use Rattle.pgn_games.specs.Games.{usual_start};
ghost use Rattle.pgn_games.specs.Inside.Lines.{OneLine};

use crate::course::Course;
use crate::cursor::Cursor;
use crate::game::Reading;
use crate::telling::tell_game;
use crate::usual::usual_position;
use board_core::Position;
use std::alloc::Global;
use system_io::ReadFault;
use timeline::System;

/// The games of an input, one at a time. It takes no more memory than its longest line, at most 65,536 bytes, and one game.
#[derive(Drop)]
pub struct PgnReader {
    alloc: Global,
    cursor: Cursor,
    /// Where a game begins that has no FEN tag.
    usual: Position,
    ghost one_line: { OneLine cursor.line.items },
    ghost is_usual: { usual_start ≡ fen_of usual },
    ghost is_position: { IsPosition usual },
}

impl PgnReader {
    ghost use Rattle.std.specs.Prelude.{◌≡◌, IfOk, IsErrOf, List, Option, ℕ, option_map};
    ghost use Rattle.pgn_games.specs.Tokens.{tokens_of};
    ghost use Rattle.pgn_games.specs.LineReads.{ReadsLinesFor};
    ghost use Rattle.pgn_games.specs.Reading.{TellsNextGame, tokens_left};

    /// A reader of an input of which nothing is read yet.
    pub fn new(alloc: Global) -> PgnReader
        ensures { (left : Option (List ℕ)) → tokens_left left result ≡ option_map tokens_of left }
    {
        PgnReader {
            alloc,
            cursor: Cursor::new(alloc),
            usual: usual_position(),
        }
    }

    /// Reads the next game from lines of which the reader has taken those before, or why it isn't read; none at their end.
    ///
    /// Nothing is read behind the line of its result. A game without one ends before a tag pair in the first column of a line
    /// behind its movetext, or at the end of the input. Behind its first fault the tokens of a game are passed over to its end, which is
    /// found in the same way: so no other game is lost, but for one that stands behind a comment that closes in a line of more than
    /// 65,535 bytes. After an error a part of a game may be lost. `OutOfMemory` is also the error
    /// where memory is refused for the game.
    pub fn next_game<S: System>(
        &mut self,
        system: &S,
        timeline: &mut S::Timeline,
        lines: &mut S::Lines,
    ) -> Result<Option<Reading>, ReadFault>
        ensures game { IfOk result (TellsNextGame (S.outside system.now) lines.old lines.new self.old self.new) }
        ensures cause { IsErrOf result ReadFault.Unreadable → ((S.outside system.now).lines lines.old).fails }
        ensures same { ((S.outside system.now).lines lines.new).fails → ((S.outside system.now).lines lines.old).fails }
        ensures made { ReadsLinesFor (S.outside system.now) lines.old lines.new timeline.old timeline.new result }
    {
        let mut course = Course::new(self.alloc, &self.usual);
        tell_game(system, timeline, lines, &mut self.cursor, &mut course)?;
        Ok(course.reading())
    }
}
