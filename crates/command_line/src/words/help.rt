//! What help tells: the commands, and the use of one.

use crate::commands::{Form, Group, Name, Stands, Value};
use std::alloc::{AllocError, Global};

/// The commands, in the order in which help lists them.
pub(crate) const COMMANDS: [Name; 22] = [
    Name::Judge,
    Name::Probe,
    Name::Probes,
    Name::Root,
    Name::Moves,
    Name::Serve,
    Name::Game,
    Name::Games,
    Name::Follow,
    Name::Pgn,
    Name::Enter,
    Name::Send,
    Name::Status,
    Name::Record,
    Name::Audit,
    Name::Listen,
    Name::Host,
    Name::Run,
    Name::Show,
    Name::List,
    Name::Check,
    Name::Version,
];

/// How many columns a line of a use has at most.
const COLUMNS: usize = 100;

/// A form of a command's use.
#[derive(Clone, Copy)]
enum UseForm {
    /// The first one, or the only one.
    First,
    /// The second one.
    Second,
}

/// How a value stands in a form.
enum Need {
    /// It has to be there.
    Needed,
    /// It may be left out.
    Optional,
    /// It isn't of this form.
    Absent,
}

/// How a value stands in a form.
fn need_in(stands: Stands, form: UseForm) -> Need {
    match (stands, form) {
        (Stands::Needed, _) => Need::Needed,
        (Stands::Optional, _) => Need::Optional,
        (Stands::NeededInFirst, UseForm::First) => Need::Needed,
        (Stands::OptionalInFirst, UseForm::First) => Need::Optional,
        (Stands::NeededInSecond, UseForm::Second) => Need::Needed,
        (Stands::OptionalInSecond, UseForm::Second) => Need::Optional,
        _ => Need::Absent,
    }
}

/// Whether a value is of the second form alone, or of the first one alone.
fn tells_forms_apart(stands: Stands) -> bool {
    !matches!(stands, Stands::Needed | Stands::Optional)
}

/// Whether a command has two forms.
fn has_two_forms(name: Name) -> bool {
    for value in name.shown() {
        if tells_forms_apart(value.stands) {
            return true;
        }
    }
    false
}

/// Adds a value as it is given: `--tables DIR`, `--json` or `FEN`.
fn push_given(text: &mut String, value: &Value) -> Result<(), AllocError> {
    match value.form {
        Form::Word => text.push_str(value.word),
        Form::Flag => {
            text.push_str("--")?;
            text.push_str(value.name)
        }
        Form::Option => {
            text.push_str("--")?;
            text.push_str(value.name)?;
            text.push_str(" ")?;
            text.push_str(value.word)
        }
    }
}

/// A value as it is given.
fn given(alloc: Global, value: &Value) -> Result<String, AllocError> {
    let mut text = String::new(alloc);
    push_given(&mut text, value)?;
    Ok(text)
}

/// A value as it stands in a use: in brackets where it may be left out.
fn item(alloc: Global, value: &Value, need: Need) -> Result<String, AllocError> {
    let mut text = String::new(alloc);
    match need {
        Need::Needed => push_given(&mut text, value)?,
        Need::Optional => {
            text.push_str("[")?;
            push_given(&mut text, value)?;
            text.push_str("]")?;
        }
        Need::Absent => {}
    }
    Ok(text)
}

/// Adds so many spaces.
fn push_spaces(text: &mut String, count: usize) -> Result<(), AllocError> {
    for _ in 0..count {
        text.push_str(" ")?;
    }
    Ok(())
}

/// The lines of a use.
#[derive(Drop)]
struct UseLines {
    text: String,
    /// The columns before the first value, which further lines leave free.
    indent: usize,
    /// The columns that are left of this line.
    left: usize,
}

impl UseLines {
    /// The line of a command that begins so, before its values.
    fn begin(alloc: Global, front: &str, name: Name) -> Result<UseLines, AllocError> {
        let mut text = String::from_str(alloc, front)?;
        text.push_str(name.word())?;
        let indent = text.len();
        Ok(UseLines {
            text,
            indent,
            left: COLUMNS.saturating_sub(indent),
        })
    }

    /// Adds a value behind a space, on a line of its own where it doesn't fit.
    fn push(&mut self, item: &str) -> Result<(), AllocError> {
        if item.len() >= self.left {
            self.text.push_str("\n")?;
            push_spaces(&mut self.text, self.indent)?;
            self.left = COLUMNS.saturating_sub(self.indent);
        }
        self.text.push_str(" ")?;
        self.text.push_str(item)?;
        self.left = self.left.saturating_sub(item.len()).saturating_sub(1);
        Ok(())
    }

    /// Adds the words of a form, or all else of it.
    fn push_values(
        &mut self,
        alloc: Global,
        name: Name,
        form: UseForm,
        words: bool,
    ) -> Result<(), AllocError> {
        for value in name.shown() {
            let item = item(alloc, value, need_in(value.stands, form))?;
            if matches!(value.form, Form::Word) == words && !item.is_empty() {
                self.push(item.as_str())?;
            }
        }
        Ok(())
    }
}

/// Adds a form of a command's use, which begins so: its options, and behind them its words.
fn push_use(
    alloc: Global,
    text: &mut String,
    front: &str,
    name: Name,
    form: UseForm,
) -> Result<(), AllocError> {
    let mut lines = UseLines::begin(alloc, front, name)?;
    lines.push_values(alloc, name, form, false)?;
    lines.push_values(alloc, name, form, true)?;
    text.push_str(lines.text.as_str())?;
    text.push_str("\n")
}

/// Adds a row of two columns, of which the first is so wide.
fn push_row(text: &mut String, left: &str, width: usize, right: &str) -> Result<(), AllocError> {
    text.push_str("  ")?;
    text.push_str(left)?;
    push_spaces(text, width.saturating_sub(left.len()))?;
    text.push_str("  ")?;
    text.push_str(right)?;
    text.push_str("\n")
}

/// How many columns the widest value has.
fn width_of(alloc: Global, values: &[Value]) -> Result<usize, AllocError> {
    let mut width = 0;
    for value in values {
        let given = given(alloc, value)?;
        if given.len() > width {
            width = given.len();
        }
    }
    Ok(width)
}

/// Adds a row for each value.
fn push_values(alloc: Global, text: &mut String, values: &[Value]) -> Result<(), AllocError> {
    let width = width_of(alloc, values)?;
    for value in values {
        let given = given(alloc, value)?;
        push_row(text, given.as_str(), width, value.about)?;
    }
    Ok(())
}

/// Adds an example, what is to know of the output, and where all of it is told.
fn push_example(text: &mut String, name: Name) -> Result<(), AllocError> {
    let summary = name.summary();
    text.push_str("example:\n  ")?;
    text.push_str(summary.example)?;
    if !summary.output.is_empty() {
        text.push_str("\n\noutput:\n  ")?;
        text.push_str(summary.output)?;
    }
    text.push_str("\n\nman adjudicate-")?;
    text.push_str(name.word())?;
    text.push_str(" has each line and refusal\n")
}

/// What help of a command says behind its name: what the command is for, its use, a row for each of its values, an example, and what is to
/// know of its output.
pub(crate) fn use_of(alloc: Global, name: Name) -> Result<String, AllocError> {
    let summary = name.summary();
    let mut text = String::from_str(alloc, summary.about)?;
    text.push_str("\n\n")?;
    push_use(alloc, &mut text, "usage: adjudicate ", name, UseForm::First)?;
    if has_two_forms(name) {
        push_use(
            alloc,
            &mut text,
            "       adjudicate ",
            name,
            UseForm::Second,
        )?;
    }
    text.push_str("\n")?;
    if !name.shown().is_empty() {
        push_values(alloc, &mut text, name.shown())?;
        text.push_str("\n")?;
    }
    push_example(&mut text, name)?;
    Ok(text)
}

/// Adds the commands of a group, under its heading.
fn push_group(text: &mut String, heading: &str, group: Group) -> Result<(), AllocError> {
    text.push_str("\n")?;
    text.push_str(heading)?;
    text.push_str("\n")?;
    for name in COMMANDS {
        let summary = name.summary();
        if summary.group == group {
            push_row(text, name.word(), 7, summary.about)?;
        }
    }
    Ok(())
}

/// The list of the commands, in four groups, and where more is told.
pub(crate) fn list_of(alloc: Global) -> Result<String, AllocError> {
    let mut text = String::from_str(alloc, "usage: adjudicate COMMAND ..\n")?;
    push_group(&mut text, "positions:", Group::Positions)?;
    push_group(&mut text, "games:", Group::Games)?;
    push_group(&mut text, "arbiters:", Group::Arbiters)?;
    push_group(&mut text, "tables and the program:", Group::Tables)?;
    text.push_str(
        "\nadjudicate help COMMAND tells the use of one, and man adjudicate all of it.\n",
    )?;
    Ok(text)
}
