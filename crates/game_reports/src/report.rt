//! What is found of the games of folders, as it is reported to a program.

ghost use Rattle.std.specs.Prelude.{OnErr};
ghost use Rattle.answer_parts.specs.Printing.{OutputFails, Performs};
ghost use Rattle.game_reports.specs.Inside.Opening.{known_folders};
ghost use Rattle.game_reports.specs.Inside.Reporting.{AddsGames, AddsList, AddsObject, AreCounted, Finds, FindsIn, IsText, ReportIn};
ghost use Rattle.game_status.specs.Reports.{form_of, json_form, metrics_form};
ghost use Rattle.timeline.specs.Outsides.{AddsSome};

use crate::folders::GameFolders;
use crate::looking::look_at_game;
use crate::printing::print_text;
use answer_parts::{Refusal, print_refusal};
use game_status::{ReportForm, Totals, add_game, add_sums, line_of, metrics_text};
use json::Writer;
use std::alloc::{AllocError, Global};
use system_io::WriteFault;
use timeline::System;

/// Reads the games of folders in turn, and counts them by what is found of each. The error comes only where memory is refused.
fn count_games<S: System>(
    alloc: Global,
    folders: &GameFolders<'_>,
    system: &S,
    timeline: &mut S::Timeline,
) -> Result<Totals, AllocError>
    ensures { AddsSome (S.outside system.now) timeline.old timeline.new (Finds (S.outside system.now).disk (known_folders folders.now) AreCounted result) }
{
    let mut totals = Totals::none();
    for stamp in &folders.stamps {
        match look_at_game(alloc, system, timeline, folders, *stamp) {
            Ok(look) => totals = totals.with(&look),
            Err(fault) => return Err(fault),
        }
    }
    Ok(totals)
}

/// Reads the games of folders in turn, and returns their metrics.
fn metrics_of<S: System>(
    alloc: Global,
    folders: &GameFolders<'_>,
    system: &S,
    timeline: &mut S::Timeline,
) -> Result<Vec<u8>, AllocError>
    ensures { AddsSome (S.outside system.now) timeline.old timeline.new (FindsIn (S.outside system.now) folders.now (IsText metrics_form) result) }
{
    match count_games(alloc, folders, system, timeline) {
        Ok(totals) => metrics_text(alloc, &totals, folders.other.is_some()),
        Err(fault) => Err(fault),
    }
}

/// Reads the games of folders in turn, adds the object of each, and counts them.
fn add_games<S: System>(
    alloc: Global,
    folders: &GameFolders<'_>,
    text: &mut Writer,
    system: &S,
    timeline: &mut S::Timeline,
) -> Result<Totals, AllocError>
    ensures { AddsSome (S.outside system.now) timeline.old timeline.new (FindsIn (S.outside system.now) folders.now (λ c. AddsGames c text.old text.new) result) }
{
    let mut totals = Totals::none();
    for stamp in &folders.stamps {
        let look = match look_at_game(alloc, system, timeline, folders, *stamp) {
            Ok(look) => look,
            Err(fault) => return Err(fault),
        };
        match add_game(text, *stamp, &look, folders.other.is_some()) {
            Ok(()) => totals = totals.with(&look),
            Err(fault) => return Err(fault),
        }
    }
    Ok(totals)
}

/// Adds the list of the games, which are read meanwhile, and counts them.
fn add_list<S: System>(
    alloc: Global,
    folders: &GameFolders<'_>,
    text: &mut Writer,
    system: &S,
    timeline: &mut S::Timeline,
) -> Result<Totals, AllocError>
    ensures { AddsSome (S.outside system.now) timeline.old timeline.new (FindsIn (S.outside system.now) folders.now (λ c. AddsList c text.old text.new) result) }
{
    match text.key("games") {
        Ok(()) => {}
        Err(fault) => return Err(fault),
    }
    match text.begin_array() {
        Ok(()) => {}
        Err(fault) => return Err(fault),
    }
    let totals = match add_games(alloc, folders, text, system, timeline) {
        Ok(totals) => totals,
        Err(fault) => return Err(fault),
    };
    match text.end_array() {
        Ok(()) => Ok(totals),
        Err(fault) => Err(fault),
    }
}

/// Adds the object of all games, which are read meanwhile.
fn add_status<S: System>(
    alloc: Global,
    folders: &GameFolders<'_>,
    text: &mut Writer,
    system: &S,
    timeline: &mut S::Timeline,
) -> Result<(), AllocError>
    ensures { AddsSome (S.outside system.now) timeline.old timeline.new (FindsIn (S.outside system.now) folders.now (AddsObject text.old text.new) result) }
{
    match text.begin_object() {
        Ok(()) => {}
        Err(fault) => return Err(fault),
    }
    let totals = match add_list(alloc, folders, text, system, timeline) {
        Ok(totals) => totals,
        Err(fault) => return Err(fault),
    };
    match add_sums(text, &totals, folders.other.is_some()) {
        Ok(()) => {}
        Err(fault) => return Err(fault),
    }
    text.end_object()
}

/// Reads the games of folders in turn, and returns their object, on a line.
fn object_of<S: System>(
    alloc: Global,
    folders: &GameFolders<'_>,
    system: &S,
    timeline: &mut S::Timeline,
) -> Result<Vec<u8>, AllocError>
    ensures { AddsSome (S.outside system.now) timeline.old timeline.new (FindsIn (S.outside system.now) folders.now (IsText json_form) result) }
{
    let mut text = Writer::new(Vec::new(alloc));
    match add_status(alloc, folders, &mut text, system, timeline) {
        Ok(()) => line_of(text),
        Err(fault) => Err(fault),
    }
}

/// Reads the games of folders in turn, and returns the text on them in this form.
pub(crate) fn text_of<S: System>(
    alloc: Global,
    folders: &GameFolders<'_>,
    form: ReportForm,
    system: &S,
    timeline: &mut S::Timeline,
) -> Result<Vec<u8>, AllocError>
    ensures { AddsSome (S.outside system.now) timeline.old timeline.new (FindsIn (S.outside system.now) folders.now (IsText (form_of form)) result) }
{
    match form {
        ReportForm::Metrics => metrics_of(alloc, folders, system, timeline),
        ReportForm::Json => object_of(alloc, folders, system, timeline),
    }
}

/// Reads the games of folders in turn, writes the text on them in this form at once, and returns the status, 0 where it is written. Where
/// memory is refused, `refused memory` is written alone.
pub(crate) fn print_report<S: System>(
    alloc: Global,
    folders: &GameFolders<'_>,
    form: ReportForm,
    system: &S,
    timeline: &mut S::Timeline,
) -> Result<u8, WriteFault>
    ensures made { AddsSome (S.outside system.now) timeline.old timeline.new (Performs (ReportIn (S.outside system.now) form folders.now) result) }
    ensures cause { OnErr result (OutputFails (S.outside system.now)) }
{
    match text_of(alloc, folders, form, system, timeline) {
        Ok(text) => print_text(system, timeline, &text),
        Err(_) => print_refusal(system, timeline, Refusal::Memory),
    }
}
