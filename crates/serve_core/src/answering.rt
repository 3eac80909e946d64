//! Requests that are answered over the streams of a listener, by a service over a timeline.

ghost use Rattle.std.specs.Prelude.{◌≡◌};
ghost use Rattle.http_answer.specs.Games.{AreOfOne};
ghost use Rattle.http_loop.specs.Servers.{ServesCalls};
ghost use Rattle.serve_core.specs.Answering.{AddsRequests, AnswersOne};
ghost use Rattle.serve_core.specs.Logging.{NotesRequest, request_line};
ghost use Rattle.serve_core.specs.Streams.{RoutesOver};
ghost use Rattle.timeline.specs.Outsides.{AddsSome};

use crate::logging::request_line;
use bytes::Bytes;
use http::Request;
use http_answer::{Router, Times};
use http_loop::{Listener, Server};
use http_server::{Response, Service};
use std::alloc::{AllocError, Global};
use std::io;
use std::marker::Model;
use std::time::Clock;
use timeline::System;

/// How requests are answered.
#[derive(Clone, Copy)]
pub struct Asked {
    /// Where memory for the lines of a log comes from.
    pub alloc: Global,
    /// Whether a line of each request is noted.
    pub is_logged: bool,
    /// How many of them are answered.
    pub requests: u64,
}

/// A service over a timeline, of which a line of each request is noted, if they are logged. Its requests are counted.
///
/// Contracts see which timeline it has, with its value at the moment, and the folders that requests are answered by.
#[derive(Drop)]
pub struct Answering<'r, 's, 't, S: System, C: Times> {
    asked: Asked,
    system: &'r S,
    timeline: &'t mut S::Timeline,
    router: Router<'r, 's, S, C>,
    answered: u64,
}

impl<'r, 's, 't, S: System, C: Times> Model for Answering<'r, 's, 't, S, C> {
    ghost use Rattle.serve_core.specs.Answering.{AnsweringView, IsGrounded};

    ghost Value = { AnsweringView S C S.Timeline };

    ghost view = { λ a. record { ground = record { timeline = a.timeline.ghost_name; system = a.system.now; is_logged = a.asked.is_logged }; now = a.timeline.now; tables = a.router.answerer; games = a.router.games } };

    ghost invariant = { λ a. IsGrounded a.system.now a.router.answerer a.router.games };
}

/// Notes the line of a request and its response, if requests are logged. One for which memory is refused is left out.
fn note_request<S: System>(
    system: &S,
    timeline: &mut S::Timeline,
    asked: &Asked,
    request: &Request<Bytes>,
    response: &Response,
)
    ensures { AddsSome (S.outside system.now) timeline.old timeline.new (NotesRequest asked.now.is_logged (request_line request.now response.now)) }
{
    if !asked.is_logged {
        return;
    }
    match request_line(asked.alloc, request, response) {
        Ok(line) => system.note(timeline, &[line.as_str()]),
        Err(_) => {}
    }
}

impl<'r, 's, 't, S: System, C: Times> Service for Answering<'r, 's, 't, S, C> {
    ghost use Rattle.serve_core.specs.Answering.{AnswersOne};

    ghost answers = { AnswersOne S.outside C.says };

    fn call(
        &mut self,
        request: &Request<Bytes>,
        response: &mut Response,
    ) -> Result<(), AllocError> {
        self.router.answer(self.timeline, request, response);
        self.answered = self.answered.saturating_add(1);
        note_request(self.system, self.timeline, &self.asked, request, response);
        Ok(())
    }
}

impl<'r, 's, 't, S: System, C: Times> Answering<'r, 's, 't, S, C> {
    /// How many requests it has answered, at most 2^64 - 1.
    fn answered(&self) -> u64 {
        self.answered
    }

    /// Gives its timeline back.
    fn end(self) -> &'t mut S::Timeline
        ensures same { result.ghost_name ≡ self.entry.ground.timeline }
        ensures now { result.now ≡ self.entry.now }
    {
        let Answering {
            asked: _,
            system: _,
            timeline,
            router: _router,
            answered: _,
        } = self;
        timeline
    }
}

/// Has so many requests answered. The error comes where the listener can't wait, or memory is refused.
fn answer_rounds<C: Clock, L: Listener + Drop, S: System, T: Times>(
    server: &mut Server<'_, C, L>,
    service: &mut Answering<'_, '_, '_, S, T>,
    requests: u64,
) -> io::Result<()>
    ensures { ServesCalls L.streams L.Reader.remaining L.Writer.contents (AnswersOne S.outside T.says) service.old service.new server.old server.new }
{
    for _ in 0..u64::MAX {
        if requests <= service.answered() {
            return Ok(());
        }
        match server.round(service) {
            Ok(()) => {}
            Err(error) => return Err(error),
        }
    }
    Ok(())
}

/// Answers so many requests by the tables of a folder and by folders of games, over the streams of a listener, and then closes all of
/// these. The error comes where the listener can't wait, or memory is refused.
pub fn answer_requests<'r, C: Clock, L: Listener + Drop, S: System, T: Times>(
    server: &mut Server<'_, C, L>,
    router: Router<'r, '_, S, T>,
    system: &'r S,
    timeline: &mut S::Timeline,
    asked: Asked,
) -> io::Result<()>
    requires one { AreOfOne router.answerer router.games }
    requires same { system.now ≡ router.answerer.disk.system.now }
    ensures replied { RoutesOver S.outside T.says router.entry.answerer router.entry.games L.streams L.Reader.remaining L.Writer.contents server.old server.new }
    ensures made { AddsRequests (S.outside system.now) timeline.old timeline.new asked.is_logged router.entry.answerer router.entry.games }
{
    let mut service = Answering {
        asked,
        system,
        timeline,
        router,
        answered: 0,
    };
    let answered = answer_rounds(server, &mut service, asked.requests);
    let _timeline = service.end();
    server.close();
    answered
}
