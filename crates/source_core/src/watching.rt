//! What is noted while a source sends: whoever runs it is told of arbiters that don't answer, or that have had moves before.

ghost use Rattle.source_core.specs.Heard.{OnlyNotes};
ghost use Rattle.timeline.specs.Outsides.{AddsSome};

use crate::origin::Origin;
use crate::report::{Report, report_of};
use crate::turn::SendConfig;
use move_msg::{ArbiterId, Message, Stamp};
use std::alloc::Global;
use std::net::SocketAddr;
use std::time::Duration;
use timeline::System;

/// For how many seconds answers are awaited in vain between two notes that one is missing.
const BETWEEN_NOTES: u64 = 10;

/// The answer of an arbiter to the last move.
#[derive(Clone, Copy)]
enum Answer {
    /// It hasn't come.
    Awaited,
    /// It has come, from this address, where that is known.
    Came(Option<SocketAddr>),
}

/// Whether an arbiter has acknowledged fewer moves than before.
#[derive(Clone, Copy)]
enum Back {
    /// It hasn't, or has made up for them.
    No,
    /// It did so once, when moves had been sent so often. That answer may have been late on its way.
    Once(u32),
    /// It did so again after a further sending, with this number of moves, which is noted.
    Noted(u32),
}

/// What an arbiter has acknowledged in a run of a source.
#[derive(Clone, Copy)]
struct Acknowledged {
    /// The greatest number of moves.
    most: u32,
    /// Whether it was fewer after that.
    back: Back,
    /// The address from which the last acknowledgement came, where that is known.
    from: Option<SocketAddr>,
}

/// What is known of the answers to a run of a source. The first silence is noted, and again after each further ten seconds of it, and
/// answers from addresses to which nothing is sent; once an arbiter that has more moves than were sent, where the game need not be new;
/// and an arbiter that acknowledged fewer moves than before, twice with a sending between: once then, and once at the end.
#[derive(Drop)]
pub(crate) struct Watch<'w> {
    alloc: Global,
    stamp: Stamp,
    /// The addresses to which moves are sent, separated by commas.
    to: &'w str,
    /// How many moves were sent.
    sent: u32,
    /// The answer of the arbiter with the number 1 to the last of them.
    first: Answer,
    /// The answer of the other.
    second: Answer,
    /// What the arbiter with the number 1 has acknowledged.
    by_first: Acknowledged,
    /// What the other has.
    by_second: Acknowledged,
    /// How often moves were sent.
    sendings: u32,
    /// Whether an arbiter with more moves is to be noted.
    notes_started: bool,
    /// How long answers were awaited in vain since the last note of that.
    silent: Duration,
    /// The last address that was noted as none of those to which moves are sent.
    stray: Option<SocketAddr>,
}

/// Whether an answer came from an address.
fn is_from(answer: Answer, address: SocketAddr) -> bool {
    match answer {
        Answer::Came(Some(from)) => from == address,
        Answer::Came(None) | Answer::Awaited => false,
    }
}

/// Whether an answer hasn't come.
fn is_awaited(answer: Answer) -> bool {
    matches!(answer, Answer::Awaited)
}

impl Acknowledged {
    /// Nothing.
    fn nothing() -> Acknowledged {
        Acknowledged {
            most: 0,
            back: Back::No,
            from: None,
        }
    }

    /// With an acknowledgement of so many moves from an address, after so many sendings.
    fn with(self, count: u32, from: Option<SocketAddr>, sendings: u32) -> Acknowledged {
        if count >= self.most {
            return Acknowledged {
                most: count,
                back: Back::No,
                from,
            };
        }
        let back = match self.back {
            Back::No => Back::Once(sendings),
            Back::Once(before) if before < sendings => Back::Noted(count),
            back => back,
        };
        Acknowledged {
            most: self.most,
            back,
            from,
        }
    }

    /// How many moves it has gone back to, where that is noted.
    fn noted(self) -> Option<u32> {
        match self.back {
            Back::Noted(count) => Some(count),
            Back::No | Back::Once(_) => None,
        }
    }
}

/// Whether each of the addresses of a word, separated by commas, is an IP address with a port, and none of them this one.
fn is_none_of(to: &str, address: SocketAddr) -> bool {
    for word in to.split(',') {
        match word.parse::<SocketAddr>() {
            Ok(one) if one != address => {}
            _ => return false,
        }
    }
    true
}

/// Who reports something, and how many moves it has by that.
fn said_in(report: Report) -> (ArbiterId, u32) {
    match report {
        Report::Acknowledges { who, count } => (who, count),
        Report::Rules { who, ruling } => (who, ruling.ply),
    }
}

/// Notes a line.
fn note_line<S: System>(system: &S, timeline: &mut S::Timeline, line: &str)
    ensures { AddsSome (S.outside system.now) timeline.old timeline.new OnlyNotes }
{
    system.note(timeline, &[line]);
}

impl<'w> Watch<'w> {
    /// Nothing is known yet of a game that is sent on these terms to these addresses, separated by commas.
    pub(crate) fn new(alloc: Global, terms: &SendConfig, to: &'w str) -> Watch<'w> {
        Watch {
            alloc,
            stamp: terms.stamp,
            to,
            sent: 0,
            first: Answer::Awaited,
            second: Answer::Awaited,
            by_first: Acknowledged::nothing(),
            by_second: Acknowledged::nothing(),
            sendings: 0,
            notes_started: terms.origin == Origin::Any,
            silent: Duration::from_secs(BETWEEN_NOTES),
            stray: None,
        }
    }

    /// What was sent is a move.
    pub(crate) fn note_sent(&mut self, bytes: &[u8]) {
        let Ok(Message::Move { number, .. }) = Message::decode(bytes) else {
            return;
        };
        self.sendings = self.sendings.saturating_add(1);
        if number >= self.sent {
            self.sent = number.saturating_add(1);
            self.first = Answer::Awaited;
            self.second = Answer::Awaited;
        }
    }

    /// A datagram came.
    pub(crate) fn note_came<S: System>(
        &mut self,
        system: &S,
        timeline: &mut S::Timeline,
        bytes: &[u8],
        from: Option<SocketAddr>,
    )
        ensures { AddsSome (S.outside system.now) timeline.old timeline.new OnlyNotes }
    {
        let Some(report) = report_of(self.stamp, bytes) else {
            return;
        };
        self.note_counted(system, timeline, report, from);
        self.note_from(system, timeline, report, from);
        self.note_more(system, timeline, report, from);
    }

    /// An arbiter reported something: maybe so many moves.
    fn note_counted<S: System>(
        &mut self,
        system: &S,
        timeline: &mut S::Timeline,
        report: Report,
        from: Option<SocketAddr>,
    )
        ensures { AddsSome (S.outside system.now) timeline.old timeline.new OnlyNotes }
    {
        match report {
            Report::Acknowledges { who, count } => {
                let after = self.with_count(who, count, from);
                self.note_if_back(system, timeline, after);
            }
            Report::Rules { .. } => {}
        }
    }

    /// Keeps that an arbiter acknowledged so many moves. Returns what it has acknowledged, where that isn't noted yet.
    fn with_count(
        &mut self,
        who: ArbiterId,
        count: u32,
        from: Option<SocketAddr>,
    ) -> Option<Acknowledged> {
        let before = match who {
            ArbiterId::A => self.by_first,
            ArbiterId::B => self.by_second,
        };
        let after = before.with(count, from, self.sendings);
        match who {
            ArbiterId::A => self.by_first = after,
            ArbiterId::B => self.by_second = after,
        }
        if before.noted().is_none() {
            Some(after)
        } else {
            None
        }
    }

    /// Notes that an arbiter went back, where it did and that isn't noted yet.
    fn note_if_back<S: System>(
        &self,
        system: &S,
        timeline: &mut S::Timeline,
        acknowledged: Option<Acknowledged>,
    )
        ensures { AddsSome (S.outside system.now) timeline.old timeline.new OnlyNotes }
    {
        match acknowledged {
            Some(acknowledged) => self.note_back(system, timeline, acknowledged),
            None => {}
        }
    }

    /// Notes that an arbiter went back, where it did.
    fn note_back<S: System>(
        &self,
        system: &S,
        timeline: &mut S::Timeline,
        acknowledged: Acknowledged,
    )
        ensures { AddsSome (S.outside system.now) timeline.old timeline.new OnlyNotes }
    {
        let (Some(count), Some(address)) = (acknowledged.noted(), acknowledged.from) else {
            return;
        };
        let most = acknowledged.most;
        if let Ok(line) = format!(in self.alloc;
            "the arbiter at {address} went back from {most} to {count} moves"
        ) {
            note_line(system, timeline, line.as_str());
        }
    }

    /// An answer came. Where it came from none of the addresses to which moves are sent, as far as these are known, that is noted.
    fn note_from<S: System>(
        &mut self,
        system: &S,
        timeline: &mut S::Timeline,
        report: Report,
        from: Option<SocketAddr>,
    )
        ensures { AddsSome (S.outside system.now) timeline.old timeline.new OnlyNotes }
    {
        match said_in(report).0 {
            ArbiterId::A => self.first = Answer::Came(from),
            ArbiterId::B => self.second = Answer::Came(from),
        }
        match from {
            Some(address) => self.note_stray(system, timeline, address),
            None => {}
        }
    }

    /// An answer came from an address. Where it is none of those to which moves are sent, as far as these are known, it is noted.
    fn note_stray<S: System>(&mut self, system: &S, timeline: &mut S::Timeline, address: SocketAddr)
        ensures { AddsSome (S.outside system.now) timeline.old timeline.new OnlyNotes }
    {
        if self.stray == Some(address) || !is_none_of(self.to, address) {
            return;
        }
        self.stray = Some(address);
        if let Ok(line) = format!(in self.alloc;
            "answers come from {address}, which isn't among --to"
        ) {
            note_line(system, timeline, line.as_str());
        }
    }

    /// An arbiter reported something: maybe more moves than were sent.
    fn note_more<S: System>(
        &mut self,
        system: &S,
        timeline: &mut S::Timeline,
        report: Report,
        from: Option<SocketAddr>,
    )
        ensures { AddsSome (S.outside system.now) timeline.old timeline.new OnlyNotes }
    {
        let count = said_in(report).1;
        if !self.notes_started || count <= self.sent {
            return;
        }
        self.notes_started = false;
        self.note_started(system, timeline, count, from);
    }

    /// An arbiter had more moves than were sent.
    fn note_started<S: System>(
        &self,
        system: &S,
        timeline: &mut S::Timeline,
        count: u32,
        from: Option<SocketAddr>,
    )
        ensures { AddsSome (S.outside system.now) timeline.old timeline.new OnlyNotes }
    {
        let line = match from {
            Some(address) => {
                format!(in self.alloc; "the arbiter at {address} had {count} moves already")
            }
            None => format!(in self.alloc; "an arbiter had {count} moves already"),
        };
        if let Ok(line) = line {
            note_line(system, timeline, line.as_str());
        }
    }

    /// Nothing came for so long.
    pub(crate) fn note_quiet<S: System>(
        &mut self,
        system: &S,
        timeline: &mut S::Timeline,
        wait: Duration,
    )
        ensures { AddsSome (S.outside system.now) timeline.old timeline.new OnlyNotes }
    {
        if self.is_silent_after(wait) {
            self.note_silent(system, timeline);
        }
    }

    /// Keeps that nothing came for so long. Returns whether a silence is to be noted.
    fn is_silent_after(&mut self, wait: Duration) -> bool {
        if !is_awaited(self.first) && !is_awaited(self.second) {
            return false;
        }
        let is_noted = self.silent >= Duration::from_secs(BETWEEN_NOTES);
        if is_noted {
            self.silent = Duration::ZERO;
        }
        self.silent = self.silent.saturating_add(wait);
        is_noted
    }

    /// Notes from which addresses no answer to the last move came; or, where one came from each that is known, from which arbiters.
    fn note_silent<S: System>(&self, system: &S, timeline: &mut S::Timeline)
        ensures { AddsSome (S.outside system.now) timeline.old timeline.new OnlyNotes }
    {
        if !self.note_silent_addresses(system, timeline) {
            self.note_silent_arbiters(system, timeline);
        }
    }

    /// Notes from which addresses no answer to the last move came, and returns whether there are any.
    fn note_silent_addresses<S: System>(&self, system: &S, timeline: &mut S::Timeline) -> bool
        ensures { AddsSome (S.outside system.now) timeline.old timeline.new OnlyNotes }
    {
        let mut is_noted = false;
        for word in self.to.split(',') {
            is_noted |= self.note_silent_address(system, timeline, word);
        }
        is_noted
    }

    /// Notes that no answer came from an address, where it is one and none came, and returns that.
    fn note_silent_address<S: System>(
        &self,
        system: &S,
        timeline: &mut S::Timeline,
        word: &str,
    ) -> bool
        ensures { AddsSome (S.outside system.now) timeline.old timeline.new OnlyNotes }
    {
        let is_silent = self.is_silent(word);
        if is_silent {
            self.note_no_answer(system, timeline, word);
        }
        is_silent
    }

    /// Notes from which arbiters no answer to the last move came.
    fn note_silent_arbiters<S: System>(&self, system: &S, timeline: &mut S::Timeline)
        ensures { AddsSome (S.outside system.now) timeline.old timeline.new OnlyNotes }
    {
        note_if(
            system,
            timeline,
            is_awaited(self.first),
            "no answer from arbiter 1",
        );
        note_if(
            system,
            timeline,
            is_awaited(self.second),
            "no answer from arbiter 2",
        );
    }

    /// Whether a word is an IP address with a port from which no answer came.
    fn is_silent(&self, word: &str) -> bool {
        match word.parse::<SocketAddr>() {
            Ok(address) => !is_from(self.first, address) && !is_from(self.second, address),
            Err(_) => false,
        }
    }

    /// Notes that no answer came from an address.
    fn note_no_answer<S: System>(&self, system: &S, timeline: &mut S::Timeline, word: &str)
        ensures { AddsSome (S.outside system.now) timeline.old timeline.new OnlyNotes }
    {
        if let Ok(line) = format!(in self.alloc; "no answer from {word}") {
            note_line(system, timeline, line.as_str());
        }
    }

    /// Notes once more which arbiters went back and didn't make up for it.
    pub(crate) fn note_end<S: System>(&self, system: &S, timeline: &mut S::Timeline)
        ensures { AddsSome (S.outside system.now) timeline.old timeline.new OnlyNotes }
    {
        self.note_back(system, timeline, self.by_first);
        self.note_back(system, timeline, self.by_second);
    }
}

/// Notes a line, where that is wanted.
fn note_if<S: System>(system: &S, timeline: &mut S::Timeline, wanted: bool, line: &str)
    ensures { AddsSome (S.outside system.now) timeline.old timeline.new OnlyNotes }
{
    if wanted {
        note_line(system, timeline, line);
    }
}
