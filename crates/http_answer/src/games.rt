//! Folders of games, of which requests ask.

ghost use Rattle.std.specs.Prelude.{◌≡◌, IfErr, IfNone, IfOk, IfSome, None, Some, is_some, option_map};
ghost use Rattle.game_reports.specs.Asked.{AreBothNamed};
ghost use Rattle.http_answer.specs.Games.{IsGameOrNone, IsReport, LacksGames, fresh_at, games_on, is_fresh, kept_at, kept_by, unread_games, with_kept};
ghost use Rattle.http_answer.specs.Inside.{IsKeptAt, is_lacked, kept_in, report_in};
ghost use Rattle.http_answer.specs.Reads.{ReadsAGame, ReadsAReport, ReadsIn};
ghost use Rattle.http_answer.specs.Times.{nanos};
ghost use Rattle.std.specs.Time.{instant_nanos};

use crate::times::Times;
use answer_parts::Refusal;
use game_reports::{GameFound, read_game, read_report};
use game_status::ReportForm;
use move_msg::Stamp;
use std::alloc::{AllocError, Global};
use std::marker::Model;
use std::time::Instant;
use timeline::System;

/// What is lacking of a folder of games.
#[derive(Clone, Copy, PartialEq, Eq)]
pub enum LackedFolder {
    /// It can't be listed.
    Files,
    /// Its store can't be read.
    Store,
}

/// Folders of games.
#[derive(Clone, Copy)]
pub struct GameFolders<'r, S> {
    /// The system where they are, and where their stores are read.
    pub system: &'r S,
    /// The first one.
    pub games: &'r str,
    /// The second one, with which the first is compared, if it is named.
    pub other: Option<&'r str>,
}

/// What is found in folders of games, or what is lacking of one.
pub(crate) type Found<T> = Result<T, LackedFolder>;

/// A report on all games, or what is lacking of a folder.
pub(crate) type Report = Found<Vec<u8>>;

/// What is lacking of a folder that is refused. The error comes where memory was refused.
fn lacked_by(refusal: Refusal) -> Result<LackedFolder, AllocError>
    ensures { IfOk result (is_lacked refusal) }
{
    match refusal {
        Refusal::Files => Ok(LackedFolder::Files),
        Refusal::Store => Ok(LackedFolder::Store),
        _ => Err(AllocError),
    }
}

impl<'r, S: System> GameFolders<'r, S> {
    /// A report on the games, as it is read now.
    fn report(
        &self,
        alloc: Global,
        timeline: &mut S::Timeline,
        form: ReportForm,
    ) -> Result<Report, AllocError>
        ensures report { IfOk result (λ r. IsReport S.outside (games_on self.now) form (report_in r)) }
        ensures made { ReadsIn S.outside (games_on self.now) timeline.old timeline.new (λ o folders. ReadsAReport o folders form) }
    {
        match read_report(alloc, self.system, timeline, self.games, self.other, form) {
            Ok(Ok(text)) => Ok(Ok(text)),
            Ok(Err(refusal)) => match lacked_by(refusal) {
                Ok(lacked) => Ok(Err(lacked)),
                Err(fault) => Err(fault),
            },
            Err(fault) => Err(fault),
        }
    }

    /// What is found of the game with a stamp.
    fn game(
        &self,
        alloc: Global,
        timeline: &mut S::Timeline,
        stamp: Stamp,
    ) -> Result<Found<Option<GameFound>>, AllocError>
        ensures game { IfOk result (λ r. IfOk r (IsGameOrNone S.outside (games_on self.now) stamp)) }
        ensures lacked { IfOk result (λ r. IfErr r (LacksGames S.outside (games_on self.now))) }
        ensures named { IfOk result (λ r. IfOk r (λ found. IfSome found AreBothNamed)) }
        ensures made { ReadsIn S.outside (games_on self.now) timeline.old timeline.new (λ o folders. ReadsAGame o folders stamp) }
    {
        match read_game(alloc, self.system, timeline, self.games, self.other, stamp) {
            Ok(Ok(found)) => Ok(Ok(found)),
            Ok(Err(refusal)) => match lacked_by(refusal) {
                Ok(lacked) => Ok(Err(lacked)),
                Err(fault) => Err(fault),
            },
            Err(fault) => Err(fault),
        }
    }
}

/// A report that was read, and when that was.
#[derive(Drop)]
struct Kept {
    report: Report,
    since: Instant,
}

/// Whether a report that was read at one time is less than a second old at another.
fn is_fresh(since: Instant, now: Instant) -> bool
    ensures { result ≡ is_fresh (instant_nanos since) (instant_nanos now) }
{
    now.duration_since(since).as_nanos() < 1_000_000_000
}

/// The report that is kept, if it is less than a second old at this time. It counts as old where no time is said.
fn fresh_report(now: Option<Instant>, kept: &Option<Kept>) -> Option<&Report>
    ensures some { IfSome result (λ report. fresh_at (nanos now) (kept_in kept.now) ≡ Some (report_in report.now)) }
    ensures none { IfNone result (fresh_at (nanos now) (kept_in kept.now) ≡ None) }
{
    let Some(now) = now else {
        return None;
    };
    let Some(kept) = kept else {
        return None;
    };
    if is_fresh(kept.since, now) {
        Some(&kept.report)
    } else {
        None
    }
}

/// A report that was read at this time, to be kept. It isn't where no time is said.
fn kept_at(now: Option<Instant>, report: Report) -> Option<Kept>
    ensures { IsKeptAt now report result }
{
    match now {
        Some(since) => Some(Kept { report, since }),
        None => None,
    }
}

/// Keeps a report that was read at this time.
fn keep_at(kept: &mut Option<Kept>, now: Option<Instant>, report: Report)
    ensures { IsKeptAt now report kept.new }
{
    *kept = kept_at(now, report);
}

/// The folders of games of which requests ask, with the reports on them that were read last.
///
/// Contracts see the folders, the clock, and each report that is kept, with its time.
#[derive(Drop)]
pub struct Games<'r, S: System, C: Times> {
    alloc: Global,
    clock: &'r C,
    folders: GameFolders<'r, S>,
    json: Option<Kept>,
    metrics: Option<Kept>,
}

impl<'r, S: System, C: Times> Model for Games<'r, S, C> {
    ghost use Rattle.http_answer.specs.Games.{GamesByClock, games_on};
    ghost use Rattle.http_answer.specs.Inside.{AreKeptReports, kept_in};

    ghost Value = { GamesByClock S C };

    ghost view = { λ g. record { on = games_on g.folders; clock = g.clock.now; json = kept_in g.json; metrics = kept_in g.metrics } };

    ghost invariant = { λ g. AreKeptReports S.outside (games_on g.folders) g.json g.metrics };
}

impl<'r, S: System, C: Times> Games<'r, S, C> {
    /// Of these folders, of which nothing is read yet, by this clock.
    pub fn of(alloc: Global, folders: GameFolders<'r, S>, clock: &'r C) -> Games<'r, S, C>
        ensures { result ≡ unread_games (games_on folders.entry) clock.now }
    {
        Games {
            alloc,
            clock,
            folders,
            json: None,
            metrics: None,
        }
    }

    /// The time, if the clock says it.
    pub(crate) fn time(&self) -> Option<Instant>
        ensures { (C.says self.now.clock) (nanos result) }
    {
        self.clock.time()
    }

    /// The report in a form that is less than a second old at this time, if one is kept.
    pub(crate) fn fresh(&self, form: ReportForm, now: Option<Instant>) -> Option<&Report>
        ensures some { IfSome result (λ r. fresh_at (nanos now) (kept_by form self.now) ≡ Some (report_in r.now)) }
        ensures none { IfNone result (fresh_at (nanos now) (kept_by form self.now) ≡ None) }
        ensures report { IfSome result (λ r. IsReport S.outside self.now.on form (report_in r.now)) }
    {
        match form {
            ReportForm::Json => fresh_report(now, &self.json),
            ReportForm::Metrics => fresh_report(now, &self.metrics),
        }
    }

    /// The report in a form, as it is read now.
    pub(crate) fn read(
        &self,
        timeline: &mut S::Timeline,
        form: ReportForm,
    ) -> Result<Report, AllocError>
        ensures report { IfOk result (λ r. IsReport S.outside self.now.on form (report_in r)) }
        ensures made { ReadsIn S.outside self.now.on timeline.old timeline.new (λ o folders. ReadsAReport o folders form) }
    {
        self.folders.report(self.alloc, timeline, form)
    }

    /// Keeps a report in a form that was read at this time; none is kept where no time is said.
    pub(crate) fn keep(&mut self, form: ReportForm, now: Option<Instant>, report: Report)
        requires { IsReport S.outside self.old.on form (report_in report) }
        ensures kept { self.new ≡ with_kept form (kept_at (nanos now) (report_in report)) self.old }
    {
        match form {
            ReportForm::Json => keep_at(&mut self.json, now, report),
            ReportForm::Metrics => keep_at(&mut self.metrics, now, report),
        }
    }

    /// What is found of the game with a stamp; none where the folders list no file of it.
    pub(crate) fn game(
        &self,
        timeline: &mut S::Timeline,
        stamp: Stamp,
    ) -> Result<Found<Option<GameFound>>, AllocError>
        ensures game { IfOk result (λ r. IfOk r (IsGameOrNone S.outside self.now.on stamp)) }
        ensures lacked { IfOk result (λ r. IfErr r (LacksGames S.outside self.now.on)) }
        ensures named { IfOk result (λ r. IfOk r (λ found. IfSome found AreBothNamed)) }
        ensures made { ReadsIn S.outside self.now.on timeline.old timeline.new (λ o folders. ReadsAGame o folders stamp) }
    {
        self.folders.game(self.alloc, timeline, stamp)
    }

    /// Whether a second folder is named.
    pub(crate) fn compares(&self) -> bool
        ensures { result ≡ is_some self.now.on.other }
    {
        self.folders.other.is_some()
    }
}
