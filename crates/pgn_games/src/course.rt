//! What the tokens of a game tell so far.

ghost use Rattle.std.specs.Prelude.{◌≡◌, ◌≤◌, ◌<◌, ◌++◌, ◌∷◌, [], IfOk, OnErr, OnOk, option_map, vec_len};

use crate::fault::{Cause, GameFault};
use crate::game::{Game, GameResult, Reading};
use crate::lexeme::Lexeme;
use crate::phase::{Phase, after, depth_of};
use crate::tag_pair::TagPair;
use crate::tags::{TagName, Tags, name_of, value_of};
use board_core::{Move, Position};
use san_text::read_san;
use std::alloc::{AllocError, Global};

/// How many moves a game has at most, 4,096.
const MOST_MOVES: usize = 4096;

/// What the tokens of a game tell so far.
#[derive(Drop)]
pub(crate) struct Course {
    alloc: Global,
    /// The line of its first token.
    line: Option<u64>,
    /// The line of its last token.
    last: u64,
    tags: Tags,
    start: Position,
    /// The position after its moves.
    position: Position,
    moves: Vec<Move>,
    phase: Phase,
    result: GameResult,
    /// The first fault.
    fault: Option<GameFault>,
    ghost few: { vec_len moves ≤ 4096 },
}

/// Adds an item to a list. It is over any type, since the borrow checker doesn't cover a push of a `Move`.
fn add<T: Copy>(list: &mut Vec<T>, item: T) -> Result<(), AllocError>
    ensures ok { OnOk result (list.new.items ≡ list.old.items ++ item ∷ []) }
    ensures err { OnErr result (list.new.items ≡ list.old.items) }
{
    list.push(item)?;
    Ok(())
}

impl Course {
    ghost use Rattle.board_core.specs.Moves.{IsLegal};
    ghost use Rattle.pgn_games.specs.Tokens.{token};
    ghost use Rattle.pgn_games.specs.Games.{PassesToken, Plays, SetsStart, TakesToken, depth_of, fault_of, no_course, passed, reading_at_end};
    ghost use Rattle.pgn_games.specs.Inside.Scan.{ForTold, IsPlainLexeme};
    ghost use Rattle.pgn_games.specs.Inside.Owned.{SetsTagOf, TakesFirst, TakesMoveOf, TakesOrStays, TakesTagOf, course_of};
    ghost use Rattle.pgn_games.specs.Shown.{reading_of};

    /// Nothing yet.
    pub(crate) fn new(alloc: Global, usual: &Position) -> Course
        ensures { course_of result ≡ no_course usual.now }
    {
        Course {
            alloc,
            line: None,
            last: 0,
            tags: Tags::new(),
            start: *usual,
            position: *usual,
            moves: Vec::new(alloc),
            phase: Phase::Tags,
            result: GameResult::Missing,
            fault: None,
        }
    }

    /// How far the game has come.
    pub(crate) fn phase(&self) -> Phase
        ensures { result ≡ self.now.phase }
    {
        self.phase
    }

    /// Sets the start.
    fn set_start(&mut self, value: Vec<u8>) -> Option<Cause>
        ensures { TakesOrStays (SetsStart (course_of self.old) value.items) (course_of self.old) (course_of self.new) result }
    {
        match fen_text::read(&value) {
            Ok(start) => {
                self.start = start;
                self.position = start;
                self.tags.set(TagName::Fen, value);
                None
            }
            Err(fault) => Some(Cause::BadFen(fault)),
        }
    }

    /// Sets a tag, where it is one that is kept.
    fn set_tag(&mut self, pair: TagPair<'_>) -> Result<Option<Cause>, AllocError>
        ensures { IfOk result (SetsTagOf pair.entry self.old self.new) }
    {
        let Some(name) = name_of(pair.name) else {
            return Ok(None);
        };
        let value = value_of(self.alloc, pair.quoted)?;
        match name {
            TagName::Fen => Ok(self.set_start(value)),
            _ => {
                self.tags.set(name, value);
                Ok(None)
            }
        }
    }

    /// Takes a tag pair, which stands before the movetext.
    fn take_tag(&mut self, pair: TagPair<'_>) -> Result<Option<Cause>, AllocError>
        ensures { IfOk result (TakesTagOf pair.entry self.old self.new) }
    {
        match self.phase {
            Phase::Tags => self.set_tag(pair),
            _ => Ok(Some(Cause::StrayToken)),
        }
    }

    /// Plays a move.
    fn play(&mut self, m: &Move) -> Result<(), AllocError>
        requires few { vec_len self.old.moves < 4096 }
        requires legal { IsLegal self.old.position m.now }
        ensures { OnOk result (Plays (course_of self.old) m.now (course_of self.new)) }
    {
        let Some(after) = self.position.play(*m) else {
            unreachable!()
        };
        add(&mut self.moves, *m)?;
        self.position = after;
        Ok(())
    }

    /// Reads a move and plays it.
    fn take_move(&mut self, text: &[u8]) -> Result<Option<Cause>, AllocError>
        ensures { IfOk result (TakesMoveOf text.now self.old self.new) }
    {
        if self.moves.len() >= MOST_MOVES {
            return Ok(Some(Cause::TooManyMoves));
        }
        match read_san(&self.position, text) {
            Ok(m) => {
                self.play(&m)?;
                Ok(None)
            }
            Err(fault) => Ok(Some(Cause::BadMove(fault))),
        }
    }

    /// Takes what stands outside of variations.
    fn take_main(&mut self, lexeme: Lexeme<'_>) -> Result<Option<Cause>, AllocError>
        requires main { depth_of self.old.phase ≡ 0 }
        requires plain { IsPlainLexeme lexeme }
        ensures { ForTold lexeme.entry (λ told. IfOk result (TakesOrStays (TakesToken (course_of self.old) told) (course_of self.old) (course_of self.new))) }
    {
        match lexeme {
            Lexeme::MoveText(text) => self.take_move(text),
            Lexeme::Told(result) => {
                self.result = result;
                Ok(None)
            }
            Lexeme::Ends | Lexeme::Stray => Ok(Some(Cause::StrayToken)),
            _ => Ok(None),
        }
    }

    /// Takes a token, or tells why it is at fault.
    fn take(&mut self, lexeme: Lexeme<'_>) -> Result<Option<Cause>, AllocError>
        ensures { ForTold lexeme.entry (λ told. IfOk result (TakesOrStays (TakesToken (course_of self.old) told) (course_of self.old) (course_of self.new))) }
    {
        match lexeme {
            Lexeme::Tag(pair) => self.take_tag(pair),
            Lexeme::BadTag => match self.phase {
                Phase::Tags => Ok(Some(Cause::BadTag)),
                _ => Ok(Some(Cause::StrayToken)),
            },
            Lexeme::Endless => Ok(Some(Cause::EndlessComment)),
            Lexeme::TooLong => Ok(Some(Cause::LongLine)),
            _ => {
                if depth_of(self.phase) == 0 {
                    self.take_main(lexeme)
                } else {
                    Ok(None)
                }
            }
        }
    }

    /// The fault of this game on a line.
    fn fault_on(&self, line: u64, cause: Cause) -> GameFault
        ensures { result ≡ fault_of (course_of self.now) line cause }
    {
        GameFault {
            line: self.line.unwrap_or(line),
            at: line,
            plies: self.moves.len() as u16,
            cause,
        }
    }

    /// Takes a token, unless the game is at fault already.
    fn take_first(&mut self, line: u64, lexeme: Lexeme<'_>) -> Result<(), AllocError>
        ensures { ForTold lexeme.entry (λ told. OnOk result (TakesFirst (course_of self.old) line told (course_of self.new))) }
    {
        if let Some(_) = self.fault {
            return Ok(());
        }
        if let Some(cause) = self.take(lexeme)? {
            self.fault = Some(self.fault_on(line, cause));
        }
        Ok(())
    }

    /// Passes a token.
    fn pass(&mut self, line: u64, lexeme: Lexeme<'_>)
        ensures { ForTold lexeme.entry (λ told. course_of self.new ≡ passed (course_of self.old) (token line told)) }
    {
        self.line = Some(self.line.unwrap_or(line));
        self.last = line;
        self.phase = after(self.phase, lexeme);
    }

    /// Goes on over a token.
    pub(crate) fn put(&mut self, line: u64, lexeme: Lexeme<'_>) -> Result<(), AllocError>
        ensures { ForTold lexeme.entry (λ told. OnOk result (PassesToken (course_of self.old) (token line told) (course_of self.new))) }
    {
        self.take_first(line, lexeme)?;
        self.pass(line, lexeme);
        Ok(())
    }

    /// What is told of the game, if it has begun.
    pub(crate) fn reading(self) -> Option<Reading>
        ensures { option_map reading_of result ≡ reading_at_end (course_of self) }
    {
        let line = self.line?;
        if let Some(fault) = self.fault {
            return Some(Reading::Fault(fault));
        }
        if depth_of(self.phase) > 0 {
            return Some(Reading::Fault(self.fault_on(self.last, Cause::OpenVariation)));
        }
        Some(Reading::Game(Game {
            line,
            tags: self.tags,
            start: self.start,
            moves: self.moves,
            result: self.result,
        }))
    }
}
