//! Reports of differences.

use crate::case::Wanted;
use std::alloc::{AllocError, Global};
use std::fmt::Write;

/// The number of the first line in which two texts differ, the first being 1, and that line of each, if it has so many.
fn lines_apart<'a>(wanted: &'a str, got: &'a str) -> (usize, Option<&'a str>, Option<&'a str>) {
    let mut others = got.lines();
    let mut number = 1usize;
    for line in wanted.lines() {
        let other = others.next();
        if other != Some(line) {
            return (number, Some(line), other);
        }
        number = number.saturating_add(1);
    }
    (number, None, others.next())
}

/// A line of a report, or that there is none.
fn shown<'a>(line: Option<&'a str>) -> &'a str {
    line.unwrap_or("(no line, or another line feed)")
}

/// Reports the first line in which two texts differ.
fn note_lines(report: &mut String, what: &str, wanted: &str, got: &str) -> Result<(), AllocError> {
    let (number, line, other) = lines_apart(wanted, got);
    let (line, other) = (shown(line), shown(other));
    writeln!(report, "  {what}, line {number}")?;
    writeln!(report, "    wanted: {line}")?;
    writeln!(report, "    got:    {other}")
}

/// Reports that bytes differ from those that are wanted.
fn note_bytes(
    alloc: Global,
    report: &mut String,
    what: &str,
    wanted: &[u8],
    got: &[u8],
) -> Result<(), AllocError> {
    let wanted = String::from_utf8_lossy(alloc, wanted)?;
    let got = String::from_utf8_lossy(alloc, got)?;
    note_lines(report, what, &wanted, &got)
}

/// Compares the output.
pub(crate) fn check_output(
    alloc: Global,
    report: &mut String,
    wanted: &Wanted,
    output: &[u8],
) -> Result<(), AllocError> {
    let is_right = if wanted.is_front {
        output.starts_with(&wanted.output)
    } else {
        output == wanted.output.as_slice()
    };
    if is_right {
        return Ok(());
    }
    note_bytes(alloc, report, "output", &wanted.output, output)
}

/// Compares standard error. For a misuse it need only begin as it is wanted, where that doesn't end with a line, and not be empty.
pub(crate) fn check_errors(
    alloc: Global,
    report: &mut String,
    wanted: &Wanted,
    errors: &[u8],
) -> Result<(), AllocError> {
    let is_begun = wanted.status == 2 && !wanted.errors.ends_with(b"\n");
    let is_right = if is_begun {
        !errors.is_empty() && errors.starts_with(&wanted.errors)
    } else {
        errors == wanted.errors.as_slice()
    };
    if is_right {
        return Ok(());
    }
    note_bytes(alloc, report, "standard error", &wanted.errors, errors)
}

/// Compares the end.
pub(crate) fn check_end(report: &mut String, wanted: u8, got: u8) -> Result<(), AllocError> {
    if wanted == got {
        return Ok(());
    }
    writeln!(report, "  status: wanted {wanted}, got {got}")
}

/// Compares how many notes there were.
pub(crate) fn check_notes(
    report: &mut String,
    wanted: usize,
    got: usize,
) -> Result<(), AllocError> {
    if wanted == got {
        return Ok(());
    }
    writeln!(report, "  notes: wanted {wanted}, got {got}")
}

/// Compares the end where a write was refused: the status is 1, and that is noted.
pub(crate) fn check_refused(
    report: &mut String,
    number: usize,
    status: u8,
    notes: usize,
) -> Result<(), AllocError> {
    if status == 1 && notes > 0 {
        return Ok(());
    }
    writeln!(
        report,
        "  write {number} is refused: status {status}, {notes} notes"
    )
}

/// Notes that there is no such call, or that it isn't given what it takes.
pub(crate) fn note_call(report: &mut String, name: &str) -> Result<(), AllocError> {
    writeln!(report, "  the call {name} can't be made")
}

/// Compares a word or a text.
pub(crate) fn check_text(
    report: &mut String,
    what: &str,
    wanted: &str,
    got: &str,
) -> Result<(), AllocError> {
    if wanted == got {
        return Ok(());
    }
    note_lines(report, what, wanted, got)
}
