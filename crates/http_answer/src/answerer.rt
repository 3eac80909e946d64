//! The service.

ghost use Rattle.std.specs.Prelude.{◌≡◌, ◌≤◌, ◌++◌, ◌∷◌, [], List, IfErr, IfOk, OnOk};
ghost use Rattle.http_server.specs.Response.{IsBlank};
ghost use Rattle.http_answer.specs.Games.{AnswersAlone};
ghost use Rattle.http_answer.specs.Inside.{AddsObject, AreObjects, HasAnswers, IsOnePly, asked_for};
ghost use Rattle.http_answer.specs.Queries.{asked_lines};
ghost use Rattle.http_answer.specs.Replies.{HasLine, HasLines, IsBestPlay, IsLineOfPlay, IsPlayedOn, IsPositionBy, IsRefusedInLine, IsRefusedLineOf, IsReply, IsReplyTo, RefusesFile, AnswersMainline, AnswersMainlineOf, AnswersEach, AnswersPosition, AnswersText, asked, most_plies, refused_words};
ghost use Rattle.http_answer.specs.Files.{files_of};
ghost use Rattle.http_answer.specs.Reads.{ReadsForAsked, ReadsForText, ReadsOver, ReadsTableFiles};
ghost use Rattle.table_folder.specs.Settled.{IsRefusedAt, IsRefusedFor, IsWithMoves};

use crate::asking::{Topic, topic_of};
use crate::filling::{
    add_object_line, fill_elsewhere, fill_error, fill_line, fill_methods, fill_objects,
    fill_other_method, fill_page, fill_unknown_method,
};
use crate::lines::first_line;
use crate::page::PAGE;
use crate::query::position_text;
use arrayvec::ArrayString;
use board_core::{Position, Side};
use bumpalo::Bump;
use bytes::Bytes;
use fen_text::read;
use http::{Request, StatusCode};
use http_server::Response;
use json_lines::{ApiLine, ApiMove, ApiPosition, Ask, JsonLine};
use judge_core::Set;
use std::alloc::{AllocError, Global};
use std::marker::Model;
use table_folder::{FileRefusal, SystemFiles, TableFiles, TableFolder};
use timeline::System;

/// Answers requests by the tables of a folder, each of which is read when a position asks for it.
///
/// Contracts see the disk and the folder.
#[derive(Drop)]
pub struct Answerer<'r, 's, S: System> {
    alloc: Global,
    folder: TableFolder<'r, SystemFiles<'s, S>>,
    set: Set<'r>,
}

impl<'r, 's, S: System> Model for Answerer<'r, 's, S> {
    ghost use Rattle.table_folder.specs.Folders.{AreOf, FolderOn};
    ghost use Rattle.table_folder.specs.declared.files.SystemFiles.{SystemFiles};

    ghost Value = { FolderOn (SystemFiles S) };

    ghost view = { λ a. a.folder };

    ghost invariant = { λ a. AreOf (S.outside a.folder.disk.system.now).disk a.folder.folder a.set.tables };
}

/// How many plies a line of play has at most.
const MOST_PLIES: usize = 200;

/// Adds an item to a list. It is over any type, since the borrow checker doesn't cover a push of an `ApiMove` (docs/PROVING.md).
fn add<T: Copy>(list: &mut Vec<T>, item: T) -> Result<(), AllocError>
    ensures { OnOk result (list.new.items ≡ list.old.items ++ item ∷ []) }
{
    list.push(item)?;
    Ok(())
}

/// The words that refuse the file of a table: its name and what is wrong with it.
fn refused_words(refusal: &FileRefusal) -> ArrayString<64>
    ensures { result.bytes ≡ refused_words refusal.now }
{
    let mut words = ArrayString::new();
    words.push_str(refusal.name.as_str());
    words.push_str(" ");
    words.push_str(refusal.fault.name());
    words
}

/// The line that refuses the file of a table.
fn refusal_of(refusal: &FileRefusal) -> ApiLine
    ensures { RefusesFile refusal.now result }
{
    ApiLine::Refused(refused_words(refusal))
}

impl<'r, 's, S: System> Answerer<'r, 's, S> {
    /// An answerer by the tables of a folder, none of which is open yet, with a cache of so many blocks. The error comes where memory is
    /// refused.
    pub fn over(
        alloc: Global,
        folder: TableFolder<'r, SystemFiles<'s, S>>,
        cache: usize,
    ) -> Result<Answerer<'r, 's, S>, AllocError>
        requires some { 1 ≤ cache }
        requires most { cache ≤ 4096 }
        ensures { IfOk result (λ a. a ≡ folder.entry) }
    {
        let set = folder.new_set(alloc, cache)?;
        Ok(Answerer { alloc, folder, set })
    }

    /// An answerer by this folder over another arena, with no table open. The error comes where memory is refused.
    pub(crate) fn apart<'b>(&self, arena: &'b Bump) -> Result<Answerer<'b, 's, S>, AllocError>
    where
        'r: 'b,
        ensures { IfOk result (λ a. a ≡ self.now) }
    {
        let folder = self.folder.apart(arena)?;
        Answerer::over(self.alloc, folder, 64)
    }

    /// What tables say of a position and of its legal moves, or the refusal of the file of one that is needed.
    fn line_of(
        &mut self,
        timeline: &mut S::Timeline,
        position: &Position,
    ) -> Result<ApiLine, AllocError>
        ensures answer { IfOk result (AnswersPosition (files_of S.outside self.old.disk) self.old.folder position.now) }
        ensures same { self.new ≡ self.old }
        ensures made { ReadsTableFiles S.outside self.old timeline.old timeline.new }
    {
        if let Err(refusal) = self
            .folder
            .settle_moves(timeline, self.alloc, &mut self.set, position)?
        {
            return Ok(refusal_of(&refusal));
        }
        ApiLine::of_position(self.alloc, &mut self.set, position)
    }

    /// What tables say of a position, or the refusal of the file of one that it needs.
    pub(crate) fn line_alone(
        &mut self,
        timeline: &mut S::Timeline,
        position: &Position,
    ) -> Result<JsonLine, AllocError>
        ensures answer { IfOk result (AnswersAlone (files_of S.outside self.old.disk) self.old.folder position.now) }
        ensures same { self.new ≡ self.old }
        ensures made { ReadsTableFiles S.outside self.old timeline.old timeline.new }
    {
        if let Err(refusal) = self
            .folder
            .settle(timeline, self.alloc, &mut self.set, position)?
        {
            return Ok(JsonLine::Refused(refused_words(&refusal)));
        }
        JsonLine::of_position(self.alloc, &mut self.set, position, Ask::Strict, false)
    }

    /// The answer for a text.
    fn line_for(&mut self, timeline: &mut S::Timeline, text: &[u8]) -> Result<ApiLine, AllocError>
        ensures answer { IfOk result (AnswersText (files_of S.outside self.old.disk) self.old.folder text.now) }
        ensures same { self.new ≡ self.old }
        ensures made { ReadsOver S.outside self.old timeline.old timeline.new (λ o folder. ReadsForText folder text.now) }
    {
        match read(text) {
            Ok(position) => self.line_of(timeline, &position),
            Err(fault) => Ok(ApiLine::Fault(fault)),
        }
    }

    /// What tables say of a position, or the refusal of the file of one that it needs.
    fn position_by(
        &mut self,
        timeline: &mut S::Timeline,
        position: &Position,
    ) -> Result<Result<ApiPosition, FileRefusal>, AllocError>
        ensures answer { IfOk result (λ found. IfOk found (IsPositionBy (files_of S.outside self.old.disk) self.old.folder position.now)) }
        ensures refused { IfOk result (λ found. IfErr found (IsRefusedAt (files_of S.outside self.old.disk) self.old.folder position.now)) }
        ensures same { self.new ≡ self.old }
        ensures made { ReadsTableFiles S.outside self.old timeline.old timeline.new }
    {
        if let Err(refusal) = self
            .folder
            .settle_one(timeline, self.alloc, &mut self.set, position)?
        {
            return Ok(Err(refusal));
        }
        let known = ApiPosition::of(self.alloc, &mut self.set, position)?;
        Ok(Ok(known))
    }

    /// The best move of a position, or the refusal of the file of a table that is needed.
    fn best_move(
        &mut self,
        timeline: &mut S::Timeline,
        position: &Position,
    ) -> Result<Result<Option<ApiMove>, FileRefusal>, AllocError>
        ensures answer { IfOk result (λ found. IfOk found (IsPlayedOn (files_of S.outside self.old.disk) self.old.folder position.now)) }
        ensures refused { IfOk result (λ found. IfErr found (IsRefusedFor (files_of S.outside self.old.disk) self.old.folder (IsWithMoves position.now))) }
        ensures same { self.new ≡ self.old }
        ensures made { ReadsTableFiles S.outside self.old timeline.old timeline.new }
    {
        if let Err(refusal) = self
            .folder
            .settle_moves(timeline, self.alloc, &mut self.set, position)?
        {
            return Ok(Err(refusal));
        }
        let best = ApiMove::best(self.alloc, &mut self.set, position)?;
        Ok(Ok(best))
    }

    /// One ply of a line of best play from a position, added to those before it: whether the line goes on, and from which position.
    fn play_on(
        &mut self,
        timeline: &mut S::Timeline,
        position: &Position,
        plies: &mut Vec<ApiMove>,
    ) -> Result<Result<Option<Position>, FileRefusal>, AllocError>
        ensures played { IfOk result (λ found. IfOk found (IsOnePly (files_of S.outside self.old.disk) self.old.folder position.now plies.old.items plies.new.items)) }
        ensures refused { IfOk result (λ found. IfErr found (IsRefusedFor (files_of S.outside self.old.disk) self.old.folder (IsWithMoves position.now))) }
        ensures same { self.new ≡ self.old }
        ensures made { ReadsTableFiles S.outside self.old timeline.old timeline.new }
    {
        let best = match self.best_move(timeline, position)? {
            Ok(best) => best,
            Err(refusal) => return Ok(Err(refusal)),
        };
        let Some(played) = best else {
            return Ok(Ok(None));
        };
        add(plies, played)?;
        if played.ends_line() {
            return Ok(Ok(None));
        }
        Ok(Ok(Some(played.told.after)))
    }

    /// A line of best play, or the refusal of the file of a table that it comes to.
    fn plies_from(
        &mut self,
        timeline: &mut S::Timeline,
        start: &Position,
    ) -> Result<Result<Vec<ApiMove>, FileRefusal>, AllocError>
        ensures answer { IfOk result (λ found. IfOk found (λ plies. IsBestPlay (files_of S.outside self.old.disk) self.old.folder start.now plies.items)) }
        ensures refused { IfOk result (λ found. IfErr found (IsRefusedInLine (files_of S.outside self.old.disk) self.old.folder most_plies start.now)) }
        ensures same { self.new ≡ self.old }
        ensures made { ReadsTableFiles S.outside self.old timeline.old timeline.new }
    {
        let mut plies = Vec::new(self.alloc);
        let mut position = *start;
        for _ in 0..MOST_PLIES {
            match self.play_on(timeline, &position, &mut plies)? {
                Ok(Some(next)) => position = next,
                Ok(None) => return Ok(Ok(plies)),
                Err(refusal) => return Ok(Err(refusal)),
            }
        }
        Ok(Ok(plies))
    }

    /// A line of best play where a side wins, and else none; or the refusal of the file of a table that it comes to.
    #[tactic(auto, using(crate::proofs::OpenReadLaws::no_reads))]
    fn line_of_play(
        &mut self,
        timeline: &mut S::Timeline,
        winner: Option<Side>,
        start: &Position,
    ) -> Result<Result<Vec<ApiMove>, FileRefusal>, AllocError>
        ensures answer { IfOk result (λ found. IfOk found (λ plies. IsLineOfPlay (files_of S.outside self.old.disk) self.old.folder winner start.now plies.items)) }
        ensures refused { IfOk result (λ found. IfErr found (IsRefusedLineOf (files_of S.outside self.old.disk) self.old.folder winner start.now)) }
        ensures same { self.new ≡ self.old }
        ensures made { ReadsTableFiles S.outside self.old timeline.old timeline.new }
    {
        match winner {
            Some(_) => self.plies_from(timeline, start),
            None => Ok(Ok(Vec::new(self.alloc))),
        }
    }

    /// A position and the line of best play from it, or the refusal of the file of a table that is needed.
    fn mainline_of(
        &mut self,
        timeline: &mut S::Timeline,
        position: &Position,
    ) -> Result<ApiLine, AllocError>
        ensures answer { IfOk result (AnswersMainline (files_of S.outside self.old.disk) self.old.folder position.now) }
        ensures same { self.new ≡ self.old }
        ensures made { ReadsTableFiles S.outside self.old timeline.old timeline.new }
    {
        let known = match self.position_by(timeline, position)? {
            Ok(known) => known,
            Err(refusal) => return Ok(refusal_of(&refusal)),
        };
        match self.line_of_play(timeline, known.winner(), position)? {
            Ok(plies) => Ok(ApiLine::Mainline(known, plies)),
            Err(refusal) => Ok(refusal_of(&refusal)),
        }
    }

    /// The line of best play from the position of a text.
    fn mainline_for(
        &mut self,
        timeline: &mut S::Timeline,
        text: &[u8],
    ) -> Result<ApiLine, AllocError>
        ensures answer { IfOk result (AnswersMainlineOf (files_of S.outside self.old.disk) self.old.folder text.now) }
        ensures same { self.new ≡ self.old }
        ensures made { ReadsOver S.outside self.old timeline.old timeline.new (λ o folder. ReadsForText folder text.now) }
    {
        match read(text) {
            Ok(position) => self.mainline_of(timeline, &position),
            Err(fault) => Ok(ApiLine::Fault(fault)),
        }
    }

    /// Adds the object for a line of a body, and a line feed.
    #[tactic(auto, using(crate::proofs::OpenReadLaws::no_reads))]
    fn add_line(
        &mut self,
        timeline: &mut S::Timeline,
        words: &[u8],
        objects: &mut Vec<u8>,
    ) -> Result<(), AllocError>
        ensures answer { OnOk result (AddsObject (files_of S.outside self.old.disk) self.old.folder words.now objects.old.items objects.new.items) }
        ensures same { self.new ≡ self.old }
        ensures made { ReadsTableFiles S.outside self.old timeline.old timeline.new }
    {
        let text = position_text(self.alloc, words)?;
        let line = self.line_for(timeline, &text)?;
        add_object_line(objects, &line)
    }

    /// The objects for the lines of a body, a line each.
    fn objects_for(
        &mut self,
        timeline: &mut S::Timeline,
        body: &[u8],
    ) -> Result<Vec<u8>, AllocError>
        ensures answer { IfOk result (λ objects. AreObjects (files_of S.outside self.old.disk) self.old.folder body.now objects.items) }
        ensures same { self.new ≡ self.old }
        ensures made { ReadsTableFiles S.outside self.old timeline.old timeline.new }
    {
        let mut objects = Vec::new(self.alloc);
        let mut rest = body;
        while let Some((line, tail)) = first_line(rest) {
            self.add_line(timeline, line, &mut objects)?;
            rest = tail;
        }
        Ok(objects)
    }

    /// Fills the response for the lines of a body.
    fn answer_lines(
        &mut self,
        timeline: &mut S::Timeline,
        body: &[u8],
        response: &mut Response,
    ) -> Result<(), AllocError>
        requires { IsBlank response.old }
        ensures answer { OnOk result (HasAnswers (files_of S.outside self.old.disk) self.old.folder (asked_lines body.now) response.new) }
        ensures same { self.new ≡ self.old }
        ensures made { ReadsTableFiles S.outside self.old timeline.old timeline.new }
    {
        let objects = self.objects_for(timeline, body)?;
        fill_objects(response, &objects)
    }

    /// Fills the response for what is asked for.
    #[tactic(auto, using(crate::proofs::ReadLaws::nothing_asked))]
    fn reply(
        &mut self,
        timeline: &mut S::Timeline,
        topic: &Topic,
        response: &mut Response,
    ) -> Result<(), AllocError>
        requires { IsBlank response.old }
        ensures replied { OnOk result (IsReplyTo (files_of S.outside self.old.disk) self.old.folder (asked_for topic.now) response.new) }
        ensures same { self.new ≡ self.old }
        ensures made { ReadsOver S.outside self.old timeline.old timeline.new (λ o folder. ReadsForAsked folder (asked_for topic.now)) }
    {
        match topic {
            Topic::Page => fill_page(response, PAGE),
            Topic::Values(text) => fill_line(self.alloc, response, &self.line_for(timeline, text)?),
            Topic::Mainline(text) => {
                fill_line(self.alloc, response, &self.mainline_for(timeline, text)?)
            }
            Topic::NoText => fill_error(
                response,
                StatusCode::BAD_REQUEST,
                b"{\"error\":\"FEN missing\"}",
            ),
            Topic::Lines(body) => self.answer_lines(timeline, body.as_slice(), response),
            Topic::TooManyLines => fill_error(
                response,
                StatusCode::PAYLOAD_TOO_LARGE,
                b"{\"error\":\"too many lines\"}",
            ),
            Topic::Methods(place) => fill_methods(response, *place),
            Topic::OtherMethod(place) => fill_other_method(response, *place),
            Topic::UnknownMethod => fill_unknown_method(response),
            Topic::Elsewhere => fill_elsewhere(response),
        }
    }

    /// Fills the response to a request, which comes blank. Where a table that is needed has no room, all that the request needs are read for
    /// it alone. The error comes where memory is refused for that too.
    pub fn answer(
        &mut self,
        timeline: &mut S::Timeline,
        request: &Request<Bytes>,
        response: &mut Response,
    ) -> Result<(), AllocError>
        requires { IsBlank response.old }
        ensures replied { OnOk result (IsReply (files_of S.outside) self.old request.now response.new) }
        ensures same { self.new ≡ self.old }
        ensures made { ReadsOver S.outside self.old timeline.old timeline.new (λ o folder. ReadsForAsked folder (asked request.now)) }
    {
        let topic = topic_of(self.alloc, request)?;
        if self.reply(timeline, &topic, response).is_ok() {
            return Ok(());
        }
        response.clear();
        let arena = Bump::new(self.alloc);
        let mut apart = self.apart(&arena)?;
        apart.reply(timeline, &topic, response)
    }

    /// Where memory comes from.
    pub(crate) fn alloc(&self) -> Global {
        self.alloc
    }
}
