//! Which part answers a request: the tables, or the folders of games.

ghost use Rattle.std.specs.Prelude.{◌≡◌, ◌++◌, ℕ, List, IfNone, IfSome, None, OnErr, OnOk};
ghost use Rattle.http_server.specs.Response.{IsBlank, IsResponse};
ghost use Rattle.game_reports.specs.Asked.{AreBothNamed};
ghost use Rattle.http_answer.specs.Files.{files_of};
ghost use Rattle.http_answer.specs.Games.{AnswersOfGames, AskedOfGames, AsksBelow, AsksByDigits, AsksOfGames, AsksToWatch, AreOfOne, HasGame, HasReport, HasReportText, IsAged, IsByMethod, IsReportAt, MayAnswer, Responds, Routes, fresh_at, fresh_fields, fresh_json, is_games, is_watch, kept_by, lacked_text};
ghost use Rattle.http_answer.specs.Inside.{HasGameText, asked_of_games, report_in};
ghost use Rattle.http_answer.specs.Reads.{ReadsAReport, ReadsForGame, ReadsForGames, ReadsForReport, ReadsForRequest, ReadsIn, ReadsOfGames, ReadsOnceForGame, ReadsOver, ReadsTableFiles, paths_of, paths_on};
ghost use Rattle.http_answer.specs.Times.{nanos};

use crate::answerer::Answerer;
use crate::asking::{Place, Verb, verb_at};
use crate::filling::{
    fill_kept, fill_methods, fill_other_method, fill_page, fill_starved, fill_unknown_method,
};
use crate::games::{Games, LackedFolder};
use crate::plies::game_text;
use crate::times::Times;
use crate::watch::WATCH;
use bumpalo::Bump;
use bytes::Bytes;
use game_reports::GameFound;
use game_status::{ReportForm, stamp_of};
use http::{HeaderValue, Request, StatusCode};
use http_server::Response;
use move_msg::Stamp;
use std::alloc::AllocError;
use std::time::Instant;
use timeline::System;

/// What is asked for of games.
#[derive(Clone, Copy)]
pub(crate) enum GameTopic {
    /// All games, and how many there are of each kind.
    Games,
    /// How many there are of each kind, as metrics.
    Metrics,
    /// The game with this stamp.
    Game(Stamp),
    /// A game, by what is no stamp.
    NoStamp,
    /// The page that follows games.
    Watch,
}

/// The text behind a front, if it has that front.
fn behind<'a>(path: &'a [u8], front: &[u8]) -> Option<&'a [u8]>
    ensures some { IfSome result (λ rest. path.entry.now ≡ front.now ++ rest.now) }
    ensures none { IfNone result ((rest : List ℕ) → path.entry.now ≡ front.now ++ rest → ⊥) }
{
    match path.strip_prefix(front) {
        Some(rest) => Some(rest),
        None => None,
    }
}

/// What the digits behind the path of games ask for.
fn game_of(digits: &[u8]) -> GameTopic
    ensures { AsksByDigits digits.now (asked_of_games result) }
{
    match stamp_of(digits) {
        Some(stamp) => GameTopic::Game(stamp),
        None => GameTopic::NoStamp,
    }
}

/// What the digits behind the path of the page ask for.
fn watch_of(digits: &[u8]) -> GameTopic
    ensures { AsksToWatch digits.now (asked_of_games result) }
{
    match stamp_of(digits) {
        Some(_) => GameTopic::Watch,
        None => GameTopic::NoStamp,
    }
}

/// What a longer path asks for of games, if it does.
fn topic_below(path: &[u8]) -> Option<GameTopic>
    ensures some { IfSome result (λ topic. AsksBelow path.now (asked_of_games topic)) }
    ensures none { IfNone result ((a : AskedOfGames) → AsksBelow path.now a → ⊥) }
{
    if let Some(digits) = behind(path, b"/games/") {
        return Some(game_of(digits));
    }
    match behind(path, b"/watch/") {
        Some(digits) => Some(watch_of(digits)),
        None => None,
    }
}

/// Whether a path is that of all games, with a slash behind or without.
fn is_games(path: &str) -> bool
    ensures { result ≡ is_games path.now }
{
    path == "/games" || path == "/games/"
}

/// Whether a path is that of the page on all games, with a slash behind or without.
fn is_watch(path: &str) -> bool
    ensures { result ≡ is_watch path.now }
{
    path == "/watch" || path == "/watch/"
}

/// What a path asks for of games, if it does.
fn topic_at(path: &str) -> Option<GameTopic>
    ensures some { IfSome result (λ topic. AsksOfGames path.now (asked_of_games topic)) }
    ensures none { IfNone result ((a : AskedOfGames) → AsksOfGames path.now a → ⊥) }
{
    if is_games(path) {
        Some(GameTopic::Games)
    } else if path == "/metrics" {
        Some(GameTopic::Metrics)
    } else if is_watch(path) {
        Some(GameTopic::Watch)
    } else {
        topic_below(path.as_bytes())
    }
}

/// Fills a response that isn't to be kept.
fn fill_fresh(
    response: &mut Response,
    status: StatusCode,
    kind: HeaderValue,
    body: &[u8],
) -> Result<(), AllocError>
    requires { IsBlank response.old }
    ensures { OnOk result (IsResponse status (fresh_fields kind.bytes) body.now response.new) }
{
    fill_kept(
        response,
        status,
        kind,
        HeaderValue::from_static("no-store"),
        body,
    )
}

/// Fills a response that isn't to be kept, with a body as JSON.
fn fill_fresh_json(
    response: &mut Response,
    status: StatusCode,
    body: &[u8],
) -> Result<(), AllocError>
    requires { IsBlank response.old }
    ensures { OnOk result (IsResponse status fresh_json body.now response.new) }
{
    fill_fresh(
        response,
        status,
        HeaderValue::from_static("application/json"),
        body,
    )
}

/// That something is lacking of a folder, as the object of an error.
fn lacked_text(lacked: LackedFolder) -> &'static str
    ensures { result.now ≡ lacked_text lacked }
{
    match lacked {
        LackedFolder::Files => "{\"error\":\"refused files\"}",
        LackedFolder::Store => "{\"error\":\"refused store\"}",
    }
}

/// Fills a response with what is lacking of a folder.
fn fill_lacked(response: &mut Response, lacked: LackedFolder) -> Result<(), AllocError>
    requires { IsBlank response.old }
    ensures { OnOk result (IsResponse 500 fresh_json (lacked_text lacked) response.new) }
{
    fill_fresh_json(
        response,
        StatusCode::INTERNAL_SERVER_ERROR,
        lacked_text(lacked).as_bytes(),
    )
}

/// Fills a response with a report of this type.
fn fill_report(
    response: &mut Response,
    kind: HeaderValue,
    report: &Result<Vec<u8>, LackedFolder>,
) -> Result<(), AllocError>
    requires { IsBlank response.old }
    ensures { OnOk result (HasReportText (report_in report.now) kind.bytes response.new) }
{
    match report {
        Ok(text) => fill_fresh(response, StatusCode::OK, kind, text),
        Err(lacked) => fill_lacked(response, *lacked),
    }
}

/// Fills a response with what is found of a game.
fn fill_game<S: System>(
    answerer: &mut Answerer<'_, '_, S>,
    timeline: &mut S::Timeline,
    stamp: Stamp,
    found: &GameFound,
    compares: bool,
    response: &mut Response,
) -> Result<(), AllocError>
    requires named { AreBothNamed found.now }
    requires blank { IsBlank response.old }
    ensures game { OnOk result (HasGameText (files_of S.outside answerer.old.disk) answerer.old.folder compares stamp found.now response.new) }
    ensures same { answerer.new ≡ answerer.old }
    ensures made { ReadsTableFiles S.outside answerer.old timeline.old timeline.new }
{
    let text = game_text(answerer, timeline, stamp, found, compares)?;
    fill_fresh_json(response, StatusCode::OK, &text)
}

/// Answers by the tables of a folder, and by folders of games, if they are named, all over one system.
#[derive(Drop)]
pub struct Router<'r, 's, S: System, C: Times> {
    /// What answers by the tables.
    pub answerer: Answerer<'r, 's, S>,
    /// The folders of games.
    pub games: Option<Games<'r, S, C>>,
}

/// Fills the response to what is asked for of the game with a stamp.
fn answer_game<S: System, C: Times>(
    answerer: &mut Answerer<'_, '_, S>,
    games: &Games<'_, S, C>,
    timeline: &mut S::Timeline,
    stamp: Stamp,
    response: &mut Response,
) -> Result<(), AllocError>
    requires one { games.now.on.system ≡ answerer.old.disk.system.now }
    requires blank { IsBlank response.old }
    ensures game { OnOk result (HasGame (files_of S.outside answerer.old.disk) answerer.old.folder S.outside games.now.on stamp response.new) }
    ensures same { answerer.new ≡ answerer.old }
    ensures made { ReadsOver S.outside answerer.old timeline.old timeline.new (λ o tables. ReadsOnceForGame o tables (paths_on games.now.on) stamp) }
{
    match games.game(timeline, stamp)? {
        Ok(Some(found)) => {
            fill_game(
                answerer,
                timeline,
                stamp,
                &found,
                games.compares(),
                response,
            )
        }
        Ok(None) => fill_fresh_json(
            response,
            StatusCode::NOT_FOUND,
            b"{\"error\":\"game not found\"}",
        ),
        Err(lacked) => fill_lacked(response, lacked),
    }
}

/// The same, by tables that are read for it alone where one that is needed has no room.
fn answer_game_with_room<S: System, C: Times>(
    answerer: &mut Answerer<'_, '_, S>,
    games: &Games<'_, S, C>,
    timeline: &mut S::Timeline,
    stamp: Stamp,
    response: &mut Response,
) -> Result<(), AllocError>
    requires one { games.now.on.system ≡ answerer.old.disk.system.now }
    requires blank { IsBlank response.old }
    ensures game { OnOk result (HasGame (files_of S.outside answerer.old.disk) answerer.old.folder S.outside games.now.on stamp response.new) }
    ensures same { answerer.new ≡ answerer.old }
    ensures made { ReadsOver S.outside answerer.old timeline.old timeline.new (λ o tables. ReadsForGame o tables (paths_on games.now.on) stamp) }
{
    if answer_game(answerer, games, timeline, stamp, response).is_ok() {
        return Ok(());
    }
    response.clear();
    let arena = Bump::new(answerer.alloc());
    let mut apart = answerer.apart(&arena)?;
    answer_game(&mut apart, games, timeline, stamp, response)
}

/// Fills the response with a report in a form, of this type, that is read at this time, since none is kept that is fresh; and keeps it.
fn answer_anew<S: System, C: Times>(
    games: &mut Games<'_, S, C>,
    timeline: &mut S::Timeline,
    form: ReportForm,
    now: Option<Instant>,
    kind: HeaderValue,
    response: &mut Response,
) -> Result<(), AllocError>
    requires blank { IsBlank response.old }
    requires stale { fresh_at (nanos now) (kept_by form games.old) ≡ None }
    ensures report { OnOk result (HasReport S.outside games.old.on form kind.bytes (IsReportAt (nanos now) form games.old games.new) response.new) }
    ensures same { OnErr result (games.new ≡ games.old) }
    ensures made { ReadsIn S.outside games.old.on timeline.old timeline.new (λ o folders. ReadsAReport o folders form) }
{
    let report = games.read(timeline, form)?;
    fill_report(response, kind, &report)?;
    games.keep(form, now, report);
    Ok(())
}

/// Fills the response with a report in a form, of this type.
fn answer_report<S: System, C: Times>(
    games: &mut Games<'_, S, C>,
    timeline: &mut S::Timeline,
    form: ReportForm,
    kind: HeaderValue,
    response: &mut Response,
) -> Result<(), AllocError>
    requires { IsBlank response.old }
    ensures report { OnOk result (HasReport S.outside games.old.on form kind.bytes (IsAged C.says form games.old games.new) response.new) }
    ensures same { OnErr result (games.new ≡ games.old) }
    ensures made { ReadsIn S.outside games.old.on timeline.old timeline.new (λ o folders. ReadsForReport o folders form) }
{
    let now = games.time();
    match games.fresh(form, now) {
        Some(report) => fill_report(response, kind, report),
        None => answer_anew(games, timeline, form, now, kind, response),
    }
}

/// Fills the response to what is asked for of games.
fn answer<S: System, C: Times>(
    answerer: &mut Answerer<'_, '_, S>,
    games: &mut Games<'_, S, C>,
    timeline: &mut S::Timeline,
    topic: GameTopic,
    response: &mut Response,
) -> Result<(), AllocError>
    requires one { games.old.on.system ≡ answerer.old.disk.system.now }
    requires blank { IsBlank response.old }
    ensures answered { OnOk result (AnswersOfGames S.outside C.says answerer.old games.old games.new (asked_of_games topic) response.new) }
    ensures same { answerer.new ≡ answerer.old }
    ensures same_games { OnErr result (games.new ≡ games.old) }
    ensures made { ReadsOver S.outside answerer.old timeline.old timeline.new (λ o tables. ReadsForGames o tables (paths_on games.old.on) (asked_of_games topic)) }
{
    match topic {
        GameTopic::Games => answer_report(
            games,
            timeline,
            ReportForm::Json,
            HeaderValue::from_static("application/json"),
            response,
        ),
        GameTopic::Metrics => answer_report(
            games,
            timeline,
            ReportForm::Metrics,
            HeaderValue::from_static("text/plain; version=0.0.4"),
            response,
        ),
        GameTopic::Game(stamp) => answer_game_with_room(answerer, games, timeline, stamp, response),
        GameTopic::NoStamp => fill_fresh_json(
            response,
            StatusCode::BAD_REQUEST,
            b"{\"error\":\"no stamp\"}",
        ),
        GameTopic::Watch => fill_page(response, WATCH),
    }
}

/// Fills the response to what is asked for of games by a method.
fn answer_by_method<S: System, C: Times>(
    answerer: &mut Answerer<'_, '_, S>,
    games: &mut Games<'_, S, C>,
    timeline: &mut S::Timeline,
    method: &str,
    topic: GameTopic,
    response: &mut Response,
) -> Result<(), AllocError>
    requires one { games.old.on.system ≡ answerer.old.disk.system.now }
    requires blank { IsBlank response.old }
    ensures answer { OnOk result (IsByMethod method.now (MayAnswer S.outside C.says answerer.old (asked_of_games topic)) games.old games.new response.new) }
    ensures same { answerer.new ≡ answerer.old }
    ensures same_games { OnErr result (games.new ≡ games.old) }
    ensures made { ReadsOver S.outside answerer.old timeline.old timeline.new (ReadsOfGames games.old.on method.now (asked_of_games topic)) }
{
    match verb_at(Place::Games, method) {
        Verb::Read => answer(answerer, games, timeline, topic, response),
        Verb::ListMethods => fill_methods(response, Place::Games),
        Verb::Refuse => fill_other_method(response, Place::Games),
        Verb::Unknown => fill_unknown_method(response),
    }
}

impl<'r, 's, S: System, C: Times> Router<'r, 's, S, C> {
    /// Fills the response to a request, which comes blank. The error comes where memory is refused.
    fn route(
        &mut self,
        timeline: &mut S::Timeline,
        request: &Request<Bytes>,
        response: &mut Response,
    ) -> Result<(), AllocError>
        requires one { AreOfOne self.old.answerer self.old.games }
        requires blank { IsBlank response.old }
        ensures answered { OnOk result (Routes S.outside C.says self.old.answerer self.old.games request.now response.new self.new.answerer self.new.games) }
        ensures same { OnErr result (self.new ≡ self.old) }
        ensures made { ReadsOver S.outside self.old.answerer timeline.old timeline.new (λ o tables. ReadsForRequest o tables (paths_of self.old.games) request.now) }
    {
        let Some(games) = &mut self.games else {
            return self.answerer.answer(timeline, request, response);
        };
        match topic_at(request.uri().path()) {
            Some(topic) => answer_by_method(
                &mut self.answerer,
                games,
                timeline,
                request.method().as_str(),
                topic,
                response,
            ),
            None => self.answerer.answer(timeline, request, response),
        }
    }

    /// Fills the response to a request, which comes blank. Where memory is refused for that, it is 503, with no field and no body.
    pub fn answer(
        &mut self,
        timeline: &mut S::Timeline,
        request: &Request<Bytes>,
        response: &mut Response,
    )
        requires one { AreOfOne self.old.answerer self.old.games }
        requires blank { IsBlank response.old }
        ensures answered { Responds S.outside C.says self.old.answerer self.old.games request.now response.new self.new.answerer self.new.games }
        ensures made { ReadsOver S.outside self.old.answerer timeline.old timeline.new (λ o tables. ReadsForRequest o tables (paths_of self.old.games) request.now) }
    {
        match self.route(timeline, request, response) {
            Ok(()) => {}
            Err(_) => fill_starved(response),
        }
    }
}
