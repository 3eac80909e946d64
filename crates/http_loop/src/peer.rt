//! One connection, over a reader and a writer that don't wait.

ghost use Rattle.std.specs.Prelude.{◌≡◌, ◌≤◌, ◌||◌, IsFalse, IsTrue, false, if◌then◌else◌};
ghost use Rattle.http_server.specs.Connection.{config_of, history};
ghost use Rattle.http_server.specs.Exchange.{Calls};
ghost use Rattle.http_server.specs.History.{IsDone, Rests};
ghost use Rattle.http_loop.specs.Turns.{HandsOut, KeepsTime, Receives, SendsSome, StaysIdle, may_go_on};

use http_server::{Connection, Service, State};
use std::io;
use std::io::{ErrorKind, Read, Write};
use std::time::Instant;

/// What becomes of a connection after a turn.
#[derive(Clone, Copy, Debug, PartialEq, Eq)]
pub(crate) enum Fate {
    /// Its socket would wait.
    Waits,
    /// It may go on at once, and others come first.
    GoesOn,
    /// It is done, or its socket has failed.
    Ends,
}

/// What a turn, or a step of it, came to.
#[derive(Clone, Copy, Debug, PartialEq, Eq)]
pub(crate) struct Turn {
    /// What becomes of the connection.
    pub(crate) fate: Fate,
    /// Whether all that waited to be sent went out in it.
    pub(crate) has_sent: bool,
    /// Whether some bytes came in it.
    pub(crate) has_read: bool,
}

/// A connection with the two ends of its stream.
#[derive(Drop)]
pub struct Peer<R: Drop, W: Drop> {
    /// From which it reads.
    pub reader: R,
    /// To which it writes.
    pub writer: W,
    /// Its bytes and its calls.
    pub connection: Connection,
    /// When it came, its last answer had gone out, or the first bytes since then came.
    pub since: Instant,
    /// Whether no byte has come since it came, or its last answer had gone out.
    pub is_idle: bool,
    /// Whether it might have gone on after its last turn.
    pub goes_on: bool,
}

impl<R: Drop, W: Drop> Peer<R, W> {
    /// The ends of its stream.
    pub(crate) fn into_ends(self) -> (R, W)
        ensures reader { result.0 ≡ self.reader }
        ensures writer { result.1 ≡ self.writer }
    {
        let Peer { reader, writer, .. } = self;
        (reader, writer)
    }
}

/// A step in which no byte came, and not all that waited to be sent went out.
fn idle(fate: Fate) -> Turn
    ensures { result ≡ record { fate = fate; has_sent = false; has_read = false } }
{
    Turn {
        fate,
        has_sent: false,
        has_read: false,
    }
}

/// What a call that failed means.
fn failed(error: &io::Error) -> Turn
    ensures { result.has_sent ≡ false }
{
    match error.kind() {
        ErrorKind::WouldBlock => idle(Fate::Waits),
        ErrorKind::Interrupted => idle(Fate::GoesOn),
        _ => idle(Fate::Ends),
    }
}

/// Writes once, or reads once.
fn step<R: Read, W: Write>(connection: &mut Connection, reader: &mut R, writer: &mut W) -> Turn
    ensures read { Receives (R.remaining reader.old) (R.remaining reader.new) (history connection.old) (history connection.new) }
    ensures written { HandsOut (W.contents writer.old) (W.contents writer.new) (history connection.old) (history connection.new) }
    ensures calls { (history connection.new).calls ≡ (history connection.old).calls }
    ensures sends { IsTrue result.has_sent → SendsSome (history connection.old) (history connection.new) }
    ensures reads { IsFalse result.has_read → (history connection.new).received ≡ (history connection.old).received }
    ensures state { (history connection.new).state ≡ (history connection.old).state }
    ensures done { IsDone (history connection.old) → result.fate ≡ Fate.Ends }
    ensures waits { result.fate ≡ Fate.Waits → history connection.new ≡ history connection.old }
    ensures config { config_of connection.new ≡ config_of connection.old }
{
    if connection.is_done() {
        return idle(Fate::Ends);
    }
    if connection.wants_write() {
        return match connection.write_to(writer) {
            Ok(0) => idle(Fate::Ends),
            Ok(_) => Turn {
                fate: Fate::GoesOn,
                has_sent: !connection.wants_write(),
                has_read: false,
            },
            Err(error) => failed(&error),
        };
    }
    match connection.read_from(reader) {
        Ok(count) => Turn {
            fate: Fate::GoesOn,
            has_sent: false,
            has_read: 0 < count,
        },
        Err(error) => failed(&error),
    }
}

/// Answers, reads and writes until the socket would wait or the connection is done, or until what waited to be sent has gone out twice,
/// with at most so many calls of the system. Where memory for an answer is refused the connection ends.
pub(crate) fn take_turn<S: Service, R: Read, W: Write>(
    connection: &mut Connection,
    service: &mut S,
    reader: &mut R,
    writer: &mut W,
    most: usize,
) -> Turn
    ensures read { Receives (R.remaining reader.old) (R.remaining reader.new) (history connection.old) (history connection.new) }
    ensures written { HandsOut (W.contents writer.old) (W.contents writer.new) (history connection.old) (history connection.new) }
    ensures calls { Calls S.answers service.old service.new (history connection.old).calls (history connection.new).calls }
    ensures sends { IsTrue result.has_sent → SendsSome (history connection.old) (history connection.new) }
    ensures reads { IsFalse result.has_read → (history connection.new).received ≡ (history connection.old).received }
    ensures aborted { 1 ≤ most → (history connection.new).state ≡ State.Aborted → result.fate ≡ Fate.Ends }
    ensures rests { result.fate ≡ Fate.Waits → Rests (config_of connection.new) (history connection.new) }
    ensures config { config_of connection.new ≡ config_of connection.old }
{
    let mut has_sent = false;
    let mut has_read = false;
    for _ in 0..most {
        connection.advance(service);
        let turn = step(connection, reader, writer);
        let is_second = has_sent && turn.has_sent;
        has_sent |= turn.has_sent;
        has_read |= turn.has_read;
        match turn.fate {
            Fate::GoesOn if !is_second => {}
            fate => {
                return Turn {
                    fate,
                    has_sent,
                    has_read,
                };
            }
        }
    }
    Turn {
        fate: Fate::GoesOn,
        has_sent,
        has_read,
    }
}

/// From when the time of a connection is counted: from now on where an answer has gone out, or the first bytes came.
fn counted_from(since: Instant, now: Instant, has_sent: bool, has_begun: bool) -> Instant
    ensures { result ≡ (if has_sent || has_begun then now else since) }
{
    if has_sent || has_begun { now } else { since }
}

impl<R: Read + Drop, W: Write + Drop> Peer<R, W> {
    /// A turn of its connection, at this time.
    pub(crate) fn take_turn<S: Service>(
        &mut self,
        service: &mut S,
        most: usize,
        now: Instant,
    ) -> Fate
        ensures read { Receives (R.remaining self.old.reader) (R.remaining self.new.reader)
            (history self.old.connection) (history self.new.connection) }
        ensures written { HandsOut (W.contents self.old.writer) (W.contents self.new.writer)
            (history self.old.connection) (history self.new.connection) }
        ensures calls { Calls S.answers service.old service.new
            (history self.old.connection).calls (history self.new.connection).calls }
        ensures aborted { 1 ≤ most → (history self.new.connection).state ≡ State.Aborted → result ≡ Fate.Ends }
        ensures rests { result ≡ Fate.Waits → Rests (config_of self.new.connection) (history self.new.connection) }
        ensures goes_on { self.new.goes_on ≡ may_go_on result }
        ensures since { KeepsTime now self.old self.new }
        ensures idle { StaysIdle self.old self.new }
        ensures config { config_of self.new.connection ≡ config_of self.old.connection }
    {
        let turn = take_turn(
            &mut self.connection,
            service,
            &mut self.reader,
            &mut self.writer,
            most,
        );
        let has_begun = turn.has_read & self.is_idle;
        self.since = counted_from(self.since, now, turn.has_sent, has_begun);
        self.is_idle = turn.has_sent | (self.is_idle & !turn.has_read);
        self.goes_on = matches!(turn.fate, Fate::GoesOn);
        turn.fate
    }
}
