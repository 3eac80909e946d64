//! The line that is read, and the place in it.

ghost use Rattle.std.specs.Prelude.{◌≡◌, ◌≢◌, [], ◌<◌, ◌≤◌, ◌==◌, Some, Bool, IfOk, IsTrue, IfSome, position, length, vec_len, slice_index, false};
ghost use Rattle.std.specs.List.{All};

use crate::course::Course;
use crate::lexeme::{Lexeme, lex};
use crate::phase::{Phase, goes_on};
use std::alloc::{AllocError, Global};

/// The line that is read, and the place in it.
#[derive(Drop)]
pub struct Cursor {
    pub(crate) line: Vec<u8>,
    pub(crate) place: usize,
    /// The number of the line, from 1; 0 before the first one.
    pub(crate) number: u64,
}

/// Whether a game goes on.
#[derive(Clone, Copy)]
pub(crate) enum Next {
    GoesOn,
    Stops,
}

/// Where a line is left.
#[derive(Clone, Copy)]
pub(crate) enum Left {
    /// At its end.
    AtEnd,
    /// At its end, within a comment.
    InComment,
    /// Where the game is over.
    GameOver,
}

/// The first place of a closing brace.
fn brace_in(text: &[u8]) -> Option<usize>
    ensures is { result ≡ position (λ b. b == 125) text.now }
    ensures within { IfSome result (λ n. n < length text.now) }
    ensures bytes { All (λ b. b < 256) text.now }
{
    text.iter().position(|b| *b == b'}')
}

impl Cursor {
    ghost use Rattle.pgn_games.specs.Inside.Owned.{course_of};
    ghost use Rattle.pgn_games.specs.Inside.Lines.{OneLine};
    ghost use Rattle.pgn_games.specs.Inside.Steps.{ClosesComment, IsOn, LeavesLine, StepsOverLexeme};

    /// Before the first line.
    pub(crate) fn new(alloc: Global) -> Cursor
        ensures line { result.line.items ≡ [] }
        ensures place { result.place ≡ 0 }
        ensures number { result.number ≡ 0 }
    {
        Cursor {
            line: Vec::new(alloc),
            place: 0,
            number: 0,
        }
    }

    /// Goes behind the brace that closes a comment, or to the end of the line where there is none.
    pub(crate) fn close_comment(&mut self) -> bool
        requires within { self.old.place ≤ vec_len self.old.line }
        requires one { OneLine self.old.line.items }
        ensures closes { ClosesComment self.old self.new result }
        ensures end { result ≡ false → vec_len self.new.line ≤ self.new.place }
        ensures further { self.old.place ≤ self.new.place }
        ensures line { self.new.line ≡ self.old.line }
        ensures number { self.new.number ≡ self.old.number }
    {
        match brace_in(&self.line[self.place..]) {
            None => {
                self.place = self.line.len();
                false
            }
            Some(len) => {
                self.place += len + 1;
                true
            }
        }
    }

    /// Passes a lexeme.
    fn tell_lexeme(&mut self, course: &mut Course) -> Result<Next, AllocError>
        requires within { self.old.place < vec_len self.old.line }
        requires one { OneLine self.old.line.items }
        requires on { IsOn course.old.phase }
        requires plain { slice_index self.old.line.items self.old.place ≢ 123 }
        ensures steps { IfOk result (StepsOverLexeme (course_of course.old) self.old (course_of course.new) self.new) }
        ensures further { IfOk result (λ next. next ≡ Next.GoesOn → self.old.place < self.new.place) }
        ensures on { IfOk result (λ next. next ≡ Next.GoesOn → IsOn course.new.phase) }
        ensures line { self.new.line ≡ self.old.line }
        ensures number { self.new.number ≡ self.old.number }
    {
        let (lexeme, len) = lex(&self.line, self.place);
        if let Lexeme::Nothing = lexeme {
            self.place += len;
            return Ok(Next::GoesOn);
        }
        if !goes_on(course.phase(), self.place == 0, lexeme) {
            return Ok(Next::Stops);
        }
        course.put(self.number, lexeme)?;
        self.place += len;
        match course.phase() {
            Phase::Over => Ok(Next::Stops),
            _ => Ok(Next::GoesOn),
        }
    }

    /// Passes the rest of the line.
    pub(crate) fn tell_line(&mut self, course: &mut Course) -> Result<Left, AllocError>
        requires one { OneLine self.old.line.items }
        requires on { IsOn course.old.phase }
        ensures leaves { IfOk result (LeavesLine (course_of course.old) self.old (course_of course.new) self.new) }
        ensures on { IfOk result (λ left. (left ≡ Left.GameOver → ⊥) → IsOn course.new.phase) }
        ensures line { self.new.line ≡ self.old.line }
        ensures number { self.new.number ≡ self.old.number }
    {
        while self.place < self.line.len() {
            if self.line[self.place] == b'{' {
                self.place += 1;
                if !self.close_comment() {
                    return Ok(Left::InComment);
                }
            } else {
                match self.tell_lexeme(course)? {
                    Next::GoesOn => {}
                    Next::Stops => return Ok(Left::GameOver),
                }
            }
        }
        Ok(Left::AtEnd)
    }
}
