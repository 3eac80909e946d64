//! Which lines of a server are written.

ghost use Rattle.std.specs.Prelude.{◌≡◌, ◌<◌, List, ℕ, IfOk, Some, None, option_map};
ghost use Rattle.move_msg.specs.TextLines.{ended};
ghost use Rattle.arbiter_server.specs.LineLogs.{IsLogOf, PicksChange, PicksLine, Remembers, RemembersAll, line_kind};
ghost use Rattle.arbiter_server.specs.Told.{line_words};

use crate::last_lines::{LastLines, LoggedText, counted, logged};
use crate::line::Line;
use std::alloc::{AllocError, Global};

/// Which lines of a server are written.
#[derive(Clone, Copy, PartialEq, Eq, Debug)]
pub enum LogForm {
    /// All of them.
    All,
    /// None of them.
    Nothing,
    /// Those that tell what the last one of the game doesn't, and of lines that strangers cause the first, the second, the fourth, and
    /// so on.
    Changes,
}

/// A log of a server's lines, with what it has to know of earlier ones.
#[derive(Drop)]
pub enum LineLog {
    /// All are written.
    All,
    /// None is.
    Nothing,
    /// Changes are.
    Changes(LastLines),
}

/// What is written of a line that strangers cause: it with its count, where that is a power of two.
fn pick_counted(lines: &mut LastLines, kind: usize, line: Line) -> Option<LoggedText>
    requires of { line_kind (ended (line_words line)) ≡ Some kind }
    requires few { kind < 8 }
    ensures { (before : List (List ℕ)) → RemembersAll lines.old before → PicksChange before lines.new (line_words line) (option_map (λ t. t.items) result) }
{
    let count = lines.count(kind);
    if count.is_power_of_two() {
        Some(counted(&line.text(), count))
    } else {
        None
    }
}

/// What is written of another line: it, where it isn't the last one of its place.
fn pick_new(lines: &mut LastLines, line: Line) -> Option<LoggedText>
    requires { line_kind (ended (line_words line)) ≡ None }
    ensures { (before : List (List ℕ)) → RemembersAll lines.old before → PicksChange before lines.new (line_words line) (option_map (λ t. t.items) result) }
{
    let text = line.text();
    if lines.repeats(&text) {
        None
    } else {
        Some(logged(&text))
    }
}

/// What is written of a line among changes.
fn pick_change(lines: &mut LastLines, line: Line) -> Option<LoggedText>
    ensures { (before : List (List ℕ)) → RemembersAll lines.old before → PicksChange before lines.new (line_words line) (option_map (λ t. t.items) result) }
{
    match line.kind() {
        Some(kind) => pick_counted(lines, kind, line),
        None => pick_new(lines, line),
    }
}

impl LineLog {
    /// A log of this form, which knows of no line yet. The error comes where memory for what it has to remember is refused.
    pub fn new(alloc: Global, form: LogForm) -> Result<LineLog, AllocError>
        ensures { IfOk result (IsLogOf form) }
    {
        match form {
            LogForm::All => Ok(LineLog::All),
            LogForm::Nothing => Ok(LineLog::Nothing),
            LogForm::Changes => match LastLines::new(alloc) {
                Ok(lines) => Ok(LineLog::Changes(lines)),
                Err(refused) => Err(refused),
            },
        }
    }

    /// What is written of a line, with its line feed, where it is one that is written; the line is remembered.
    pub fn pick(&mut self, line: Line) -> Option<LoggedText>
        ensures { (before : List (List ℕ)) → Remembers self.old before → PicksLine before self.old self.new (line_words line) (option_map (λ t. t.items) result) }
    {
        match self {
            LineLog::All => Some(logged(&line.text())),
            LineLog::Nothing => None,
            LineLog::Changes(lines) => pick_change(lines, line),
        }
    }
}
