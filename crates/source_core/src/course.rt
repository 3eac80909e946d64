//! A run of a source over a system.

ghost use Rattle.std.specs.Prelude.{◌≡◌, None, IfOk, IfSome, OnErr};
ghost use Rattle.line_teller.specs.ToldLines.{HasFailed};
ghost use Rattle.source_core.specs.Inside.Courses.{ClosesAt, IsBegun, RunsFrom, SendsLast, TakesLineAt, TakesStepAt, nothing_known};
ghost use Rattle.source_core.specs.Lines.{end_words, ended_by};
ghost use Rattle.source_core.specs.Runs.{LineGoesOut, SendsMoves};
ghost use Rattle.source_core.specs.Turns.{HasSpelling};
ghost use Rattle.timeline.specs.Outsides.{AddsSome};
ghost use Rattle.timeline.specs.declared.stream.Stream.TheVariants.{Output};

use crate::board::Board;
use crate::exchange::{Exchange, Sent, Try, receive_all, send, send_move};
use crate::known::Known;
use crate::lines::{End, Ended, Line, print_now};
use crate::sending::{end_at, end_of, move_of};
use crate::turn::{Next, SendConfig, datagram_of};
use crate::watching::Watch;
use board_core::{Move, Position};
use move_msg::{Count, MOST_MOVES, Stamp};
use std::alloc::Global;
use system_io::{ReadFault, WriteFault};
use timeline::System;

/// A game that is sent.
#[derive(Drop)]
pub struct GameToSend<'a> {
    /// The terms on which its moves are sent.
    pub terms: SendConfig,
    /// The position before the first of them.
    pub start: Position,
    /// The addresses to which they are sent, separated by commas, as whoever runs the source knows them.
    pub to: &'a str,
}

/// The progress of a game.
#[derive(Drop)]
pub(crate) struct Course<'w, P: Drop> {
    /// The position after the acknowledged moves.
    position: Position,
    /// The last of these.
    last: Option<Move>,
    /// What goes out and comes in.
    exchange: Exchange<'w, P>,
}

/// Lines of an input, and the one that was read last.
#[derive(Drop)]
struct Reading<L: Drop> {
    lines: L,
    line: Vec<u8>,
}

/// Sends the move of a line that was read. Returns the end of the run, if it ends.
fn send_line<S: System>(
    system: &S,
    timeline: &mut S::Timeline,
    terms: &SendConfig,
    number: Count,
    line: &[u8],
    course: &mut Course<'_, S::Port>,
) -> Option<End>
    ensures { TakesLineAt (S.outside system.now) timeline.old timeline.new course.old course.new terms.now number line.now result }
{
    match &move_of(terms.notation, line, &course.position, number) {
        Err(end) => Some(*end),
        Ok((m, next)) => {
            course.position = *next;
            course.last = Some(*m);
            let number = number.number();
            let board = Board {
                plies: number + 1,
                position: next,
            };
            let sent = Sent {
                number,
                m: *m,
                board,
            };
            end_of(send_move(system, timeline, terms, sent, &mut course.exchange))
        }
    }
}

/// Sends the move with this number to each recipient once, if there is one.
fn send_last<S: System>(
    system: &S,
    timeline: &mut S::Timeline,
    stamp: Stamp,
    number: u32,
    last: Option<Move>,
    exchange: &mut Exchange<'_, S::Port>,
)
    ensures spelling { IfSome last (HasSpelling stamp number) }
    ensures happened { SendsLast (S.outside system.now) timeline.old timeline.new exchange.old exchange.new stamp number last }
    ensures known { exchange.new.known ≡ exchange.old.known }
{
    match last {
        Some(m) => send(system, timeline, exchange, &datagram_of(stamp, number, m)),
        None => {}
    }
}

/// Sends the last acknowledged move once more, which an arbiter answers with its count and its verdict. Receives what still comes in
/// time, and returns the end of the run.
fn close<S: System>(
    system: &S,
    timeline: &mut S::Timeline,
    terms: &SendConfig,
    number: u32,
    course: &mut Course<'_, S::Port>,
) -> End
    ensures { ClosesAt (S.outside system.now) timeline.old timeline.new course.old course.new terms.now number result }
{
    send_last(
        system,
        timeline,
        terms.stamp,
        number.saturating_sub(1),
        course.last,
        &mut course.exchange,
    );
    let at = Try { index: 0, number };
    match receive_all(system, timeline, terms, at, &mut course.exchange) {
        Next::GoesOn | Next::Waited => end_at(
            terms.origin,
            &course.exchange.known,
            number,
            &course.position,
        ),
        Next::Clashed(clash) => End::Clashed(clash),
        Next::PortLost => End::PortLost,
    }
}

/// Reads the next line and sends its move. Returns the end of the run, if it ends.
fn step<S: System>(
    system: &S,
    timeline: &mut S::Timeline,
    terms: &SendConfig,
    number: Count,
    reading: &mut Reading<S::Lines>,
    course: &mut Course<'_, S::Port>,
) -> Option<End>
    ensures steps { TakesStepAt (S.outside system.now) timeline.old timeline.new course.old course.new terms.now number reading.old reading.new result }
    ensures same { ((S.outside system.now).lines reading.new.lines).fails → ((S.outside system.now).lines reading.old.lines).fails }
    ensures room { ((S.outside system.now).lines reading.new.lines).takes_memory → ((S.outside system.now).lines reading.old.lines).takes_memory }
{
    match system.next_line(timeline, &mut reading.lines, &mut reading.line) {
        Ok(read) => {
            if read {
                send_line(system, timeline, terms, number, &reading.line, course)
            } else {
                Some(close(system, timeline, terms, number.number(), course))
            }
        }
        Err(ReadFault::Unreadable) => Some(End::Unread),
        Err(ReadFault::OutOfMemory) => Some(End::OutOfMemory),
    }
}

/// Writes the last line, and returns what the run comes to.
fn finish<S: System>(
    system: &S,
    timeline: &mut S::Timeline,
    end: End,
    known: &Known,
) -> Result<Ended, WriteFault>
    ensures ended { IfOk result (λ ended. ended ≡ ended_by end known.now) }
    ensures made { AddsSome (S.outside system.now) timeline.old timeline.new (LineGoesOut (end_words end) result) }
    ensures cause { OnErr result (HasFailed (λ t. (S.outside system.now).output t Output)) }
{
    match print_now(system, timeline, &Line::Ends(end)) {
        Ok(()) => Ok(end.ended(known)),
        Err(fault) => Err(fault),
    }
}

/// Sends the moves of lines, and returns what that comes to.
fn run<S: System>(
    system: &S,
    timeline: &mut S::Timeline,
    terms: &SendConfig,
    reading: &mut Reading<S::Lines>,
    course: &mut Course<'_, S::Port>,
) -> Result<Ended, WriteFault>
    requires { IsBegun course.old }
    ensures made { AddsSome (S.outside system.now) timeline.old timeline.new (RunsFrom (S.outside system.now) terms.now reading.old course.old result) }
    ensures cause { OnErr result (HasFailed (λ t. (S.outside system.now).output t Output)) }
{
    for number in 0..MOST_MOVES + 1 {
        let Some(count) = Count::new(number) else {
            break;
        };
        match step(system, timeline, terms, count, reading, course) {
            None => match print_now(system, timeline, &Line::Acked(number + 1)) {
                Ok(()) => {}
                Err(fault) => return Err(fault),
            },
            Some(end) => return finish(system, timeline, end, &course.exchange.known),
        }
    }
    unreachable!()
}

/// A game with nothing sent yet.
fn begun_at<'w, P: Drop>(alloc: Global, game: &GameToSend<'w>, port: P) -> Course<'w, P>
    ensures position { result.position ≡ game.now.start }
    ensures port { result.exchange.port ≡ port }
    ensures last { result.last ≡ None }
    ensures known { result.exchange.known ≡ nothing_known }
{
    Course {
        position: game.start,
        last: None,
        exchange: Exchange {
            port,
            known: Known::nothing(),
            watch: Watch::new(alloc, &game.terms, game.to),
        },
    }
}

/// Sends the moves of lines, a line each, to the arbiters of a game as they come, and returns what that comes to: a status and, where
/// an arbiter doesn't answer, what both have reported.
///
/// Each legal move is sent to each recipient of the port, at most as often as the terms say, until both arbiters have acknowledged
/// it. Then the line `2 acked` follows, with how many moves are acknowledged, and when it has gone out the next line is read. Once both
/// have reported the verdict the last line is `verdict 4 BlackMates`, with status 0. At the input's end the last
/// acknowledged move is sent once more, and the last line is `open 2`, with status 0, unless the verdict comes in time.
/// With status 1 it is one of these. `refused move 2`: a line that is no move in the notation of the terms, counted from 0; in
/// algebraic notation also one whose move isn't legal, or is one of two. `illegal 2`: a move in coordinates that isn't legal, which isn't
/// sent. `refused TooLong`: a 4097th move. `refused lost`: an arbiter doesn't answer. `refused port`, `refused memory`, and
/// `refused files`: the input can't be read. `disagree 2 BlackMates 2 Stalemate`: two verdicts that differ. `refused started 3
/// 127.0.0.1:7331`: the game is to be new, and the arbiter at this address has 3 moves of it, more than were sent; where the address isn't
/// known, `-` stands in its place. `disagree 2 BlackMates`: a mate or a stalemate that is reported and that the source's own board doesn't
/// show at that ply. The error comes only where the output failed.
///
/// Meanwhile it is noted which arbiters don't answer, answers from addresses to which nothing is sent, and, where the game need not be new,
/// that an arbiter has more moves than were sent; and arbiters that went back behind what they had acknowledged, once more at the end.
pub fn send_moves<S: System>(
    alloc: Global,
    system: &S,
    timeline: &mut S::Timeline,
    game: &GameToSend<'_>,
    lines: S::Lines,
    port: S::Port,
) -> Result<Ended, WriteFault>
    // There is such a run, and nothing else happens.
    ensures made { AddsSome (S.outside system.now) timeline.old timeline.new (SendsMoves (S.outside system.now) game.now lines port result) }

    // An error comes only where a write might be refused, or what was written couldn't go out.
    ensures cause { OnErr result (HasFailed (λ t. (S.outside system.now).output t Output)) }
{
    let mut reading = Reading {
        lines,
        line: Vec::new(alloc),
    };
    let mut course = begun_at(alloc, game, port);
    match run(system, timeline, &game.terms, &mut reading, &mut course) {
        Ok(ended) => {
            course.exchange.watch.note_end(system, timeline);
            Ok(ended)
        }
        Err(fault) => Err(fault),
    }
}
