//! Telling a game from an input.

ghost use Rattle.std.specs.Prelude.{◌≡◌, ◌≤◌, ◌++◌, IfOk, IsErrOf, OnOk, List, ℕ, vec_len};
ghost use Rattle.pgn_games.specs.LineReads.{ReadsLinesFor};
ghost use Rattle.pgn_games.specs.Tokens.{Token};
ghost use Rattle.pgn_games.specs.Inside.Owned.{course_of};
ghost use Rattle.pgn_games.specs.Inside.Lines.{OneLine};
ghost use Rattle.pgn_games.specs.Inside.Steps.{ClosesIn, Continues, EndsIn, IsOn, PassesIn, TellsOnIn, comment_closed, closing_tokens};

use crate::course::Course;
use crate::cursor::{Cursor, Left, Next};
use crate::lexeme::Lexeme;
use crate::lines::{Taken, take_line};
use std::alloc::AllocError;
use system_io::ReadFault;
use timeline::System;

/// How a comment ends.
#[derive(Clone, Copy)]
pub(crate) enum Closing {
    /// It is closed.
    Whole,
    /// It is closed, and came to a line that is too long.
    WithLongLine,
    /// The input ends in it.
    Never,
}

/// How a comment ends that is closed.
fn closed_with(long: bool) -> Closing
    ensures { (from : ℕ) → closing_tokens from result ≡ comment_closed from long }
{
    if long {
        Closing::WithLongLine
    } else {
        Closing::Whole
    }
}

/// Passes over the rest of a comment, from the end of a line on.
fn close_comment<S: System>(
    system: &S,
    timeline: &mut S::Timeline,
    lines: &mut S::Lines,
    cursor: &mut Cursor,
) -> Result<Closing, ReadFault>
    requires past { vec_len cursor.old.line ≤ cursor.old.place }
    requires one { OneLine cursor.old.line.items }
    ensures closes { IfOk result (ClosesIn (S.outside system.now) lines.old lines.new cursor.old cursor.new) }
    ensures one { OneLine cursor.new.line.items }
    ensures cause { IsErrOf result ReadFault.Unreadable → ((S.outside system.now).lines lines.old).fails }
    ensures same { ((S.outside system.now).lines lines.new).fails → ((S.outside system.now).lines lines.old).fails }
    ensures made { ReadsLinesFor (S.outside system.now) lines.old lines.new timeline.old timeline.new result }
{
    let mut long = false;
    for _ in 0..u64::MAX {
        match take_line(system, timeline, lines, cursor)? {
            Taken::Nothing => return Ok(Closing::Never),
            Taken::LongLine => long = true,
            Taken::Line => {
                if cursor.close_comment() {
                    return Ok(closed_with(long));
                }
            }
        }
    }
    Err(ReadFault::OutOfMemory)
}

/// Puts what a comment tells that began on a line.
fn put_closing(course: &mut Course, from: u64, closing: Closing) -> Result<(), AllocError>
    requires { IsOn course.old.phase }
    ensures told { OnOk result ((us : List Token) → Continues (course_of course.old) (closing_tokens from closing ++ us) (course_of course.new) us) }
    ensures on { OnOk result (IsOn course.new.phase) }
{
    match closing {
        Closing::Whole => Ok(()),
        Closing::WithLongLine => {
            course.put(from, Lexeme::TooLong)?;
            Ok(())
        }
        Closing::Never => {
            course.put(from, Lexeme::Endless)?;
            Ok(())
        }
    }
}

/// Tells the rest of a comment, from the end of a line on.
fn pass_comment<S: System>(
    system: &S,
    timeline: &mut S::Timeline,
    lines: &mut S::Lines,
    cursor: &mut Cursor,
    course: &mut Course,
) -> Result<(), ReadFault>
    requires past { vec_len cursor.old.line ≤ cursor.old.place }
    requires one { OneLine cursor.old.line.items }
    requires on { IsOn course.old.phase }
    ensures told { OnOk result (PassesIn (S.outside system.now) lines.old lines.new cursor.old cursor.new course.old course.new) }
    ensures on { OnOk result (IsOn course.new.phase) }
    ensures one { OneLine cursor.new.line.items }
    ensures cause { IsErrOf result ReadFault.Unreadable → ((S.outside system.now).lines lines.old).fails }
    ensures same { ((S.outside system.now).lines lines.new).fails → ((S.outside system.now).lines lines.old).fails }
    ensures made { ReadsLinesFor (S.outside system.now) lines.old lines.new timeline.old timeline.new result }
{
    let from = cursor.number;
    let closing = close_comment(system, timeline, lines, cursor)?;
    put_closing(course, from, closing)?;
    Ok(())
}

/// Takes the next line behind one that is told.
fn tell_next<S: System>(
    system: &S,
    timeline: &mut S::Timeline,
    lines: &mut S::Lines,
    cursor: &mut Cursor,
    course: &mut Course,
) -> Result<Next, ReadFault>
    requires past { vec_len cursor.old.line ≤ cursor.old.place }
    requires on { IsOn course.old.phase }
    ensures told { IfOk result (TellsOnIn (S.outside system.now) lines.old lines.new cursor.old cursor.new course.old course.new) }
    ensures on { IfOk result (λ next. IsOn course.new.phase) }
    ensures one { OneLine cursor.new.line.items }
    ensures cause { IsErrOf result ReadFault.Unreadable → ((S.outside system.now).lines lines.old).fails }
    ensures same { ((S.outside system.now).lines lines.new).fails → ((S.outside system.now).lines lines.old).fails }
    ensures made { ReadsLinesFor (S.outside system.now) lines.old lines.new timeline.old timeline.new result }
{
    match take_line(system, timeline, lines, cursor)? {
        Taken::Nothing => Ok(Next::Stops),
        Taken::LongLine => {
            course.put(cursor.number, Lexeme::TooLong)?;
            Ok(Next::GoesOn)
        }
        Taken::Line => Ok(Next::GoesOn),
    }
}

/// Tells the rest of a line, and takes the next one unless the game is over.
fn tell_on<S: System>(
    system: &S,
    timeline: &mut S::Timeline,
    lines: &mut S::Lines,
    cursor: &mut Cursor,
    course: &mut Course,
) -> Result<Next, ReadFault>
    requires one { OneLine cursor.old.line.items }
    requires on { IsOn course.old.phase }
    ensures told { IfOk result (TellsOnIn (S.outside system.now) lines.old lines.new cursor.old cursor.new course.old course.new) }
    ensures on { IfOk result (λ next. next ≡ Next.GoesOn → IsOn course.new.phase) }
    ensures one { OneLine cursor.new.line.items }
    ensures cause { IsErrOf result ReadFault.Unreadable → ((S.outside system.now).lines lines.old).fails }
    ensures same { ((S.outside system.now).lines lines.new).fails → ((S.outside system.now).lines lines.old).fails }
    ensures made { ReadsLinesFor (S.outside system.now) lines.old lines.new timeline.old timeline.new result }
{
    match cursor.tell_line(course)? {
        Left::GameOver => Ok(Next::Stops),
        Left::InComment => {
            pass_comment(system, timeline, lines, cursor, course)?;
            Ok(Next::GoesOn)
        }
        Left::AtEnd => {
            let next = tell_next(system, timeline, lines, cursor, course)?;
            Ok(next)
        }
    }
}

/// Tells the tokens of a game to its end.
pub(crate) fn tell_game<S: System>(
    system: &S,
    timeline: &mut S::Timeline,
    lines: &mut S::Lines,
    cursor: &mut Cursor,
    course: &mut Course,
) -> Result<(), ReadFault>
    requires one { OneLine cursor.old.line.items }
    requires on { IsOn course.old.phase }
    ensures told { OnOk result (EndsIn (S.outside system.now) lines.old lines.new cursor.old cursor.new course.old course.new) }
    ensures one { OneLine cursor.new.line.items }
    ensures cause { IsErrOf result ReadFault.Unreadable → ((S.outside system.now).lines lines.old).fails }
    ensures same { ((S.outside system.now).lines lines.new).fails → ((S.outside system.now).lines lines.old).fails }
    ensures made { ReadsLinesFor (S.outside system.now) lines.old lines.new timeline.old timeline.new result }
{
    for _ in 0..u64::MAX {
        match tell_on(system, timeline, lines, cursor, course)? {
            Next::GoesOn => {}
            Next::Stops => return Ok(()),
        }
    }
    Err(ReadFault::OutOfMemory)
}
