//! Taking the lines of an input.

ghost use Rattle.std.specs.Prelude.{◌≡◌, ◌≤◌, [], ◌∷◌, IfOk, IsErrOf, MatchBool, vec_len};
ghost use Rattle.pgn_games.specs.Lines.{is_escaped, text_of_line};
ghost use Rattle.pgn_games.specs.LineReads.{ReadsLinesFor};
ghost use Rattle.pgn_games.specs.Inside.Lines.{OneLine};
ghost use Rattle.pgn_games.specs.Inside.Steps.{BeginsAs, StandsAtLine, TakesIn};

use crate::cursor::Cursor;
use crate::phase::one_more;
use system_io::ReadFault;
use timeline::System;

/// The longest line that is read, 65,535 bytes without its line feed.
const MOST_LINE_BYTES: usize = 65_535;

/// What was taken of an input.
#[derive(Clone, Copy)]
pub(crate) enum Taken {
    /// A line.
    Line,
    /// A line that is too long, of which nothing is read.
    LongLine,
    /// Nothing, since the input is at its end.
    Nothing,
}

/// Whether a line has a percent sign in its first column.
fn is_escaped(line: &[u8]) -> bool
    ensures { result ≡ is_escaped line.now }
{
    match line {
        [first, ..] => *first == b'%',
        [] => false,
    }
}

/// Takes away of a line what isn't read. Returns whether it is too long.
fn cut_line(line: &mut Vec<u8>) -> bool
    ensures text { MatchBool result ((text_of_line line.old.items ≡ 256 ∷ []) × (line.new.items ≡ [])) (line.new.items ≡ text_of_line line.old.items) }
    ensures one { OneLine line.old.items → OneLine line.new.items }
{
    if is_escaped(line) {
        line.clear();
        return false;
    }
    if line.len() > MOST_LINE_BYTES {
        line.clear();
        return true;
    }
    false
}

/// Begins a line that was read.
fn begin_line(cursor: &mut Cursor) -> Taken
    ensures begins { BeginsAs cursor.old.line.items cursor.old.number cursor.new result }
    ensures one { OneLine cursor.old.line.items → OneLine cursor.new.line.items }
{
    let long = cut_line(&mut cursor.line);
    cursor.number = one_more(cursor.number);
    if long {
        cursor.place = 1;
        Taken::LongLine
    } else {
        cursor.place = 0;
        Taken::Line
    }
}

/// Takes the next line, where the one before it is read to its end.
pub(crate) fn take_line<S: System>(
    system: &S,
    timeline: &mut S::Timeline,
    lines: &mut S::Lines,
    cursor: &mut Cursor,
) -> Result<Taken, ReadFault>
    requires { vec_len cursor.old.line ≤ cursor.old.place }
    ensures text { IfOk result (TakesIn (S.outside system.now) lines.old lines.new cursor.old cursor.new) }
    ensures place { IfOk result (StandsAtLine cursor.new) }
    ensures one { OneLine cursor.new.line.items }
    ensures cause { IsErrOf result ReadFault.Unreadable → ((S.outside system.now).lines lines.old).fails }
    ensures same { ((S.outside system.now).lines lines.new).fails → ((S.outside system.now).lines lines.old).fails }
    ensures made { ReadsLinesFor (S.outside system.now) lines.old lines.new timeline.old timeline.new result }
{
    match system.next_line(timeline, lines, &mut cursor.line) {
        Ok(true) => Ok(begin_line(cursor)),
        Ok(false) => {
            cursor.line.clear();
            Ok(Taken::Nothing)
        }
        Err(fault) => {
            cursor.line.clear();
            Err(fault)
        }
    }
}
