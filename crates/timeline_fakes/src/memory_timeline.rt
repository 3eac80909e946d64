//! What happened in memory, in order.

ghost use Rattle.std.specs.Prelude.{◌≡◌, ◌∷◌, [], Some, IfOk};
ghost use Rattle.timeline.specs.Events.{Event, Passes};
ghost use Rattle.timeline.specs.declared.stream.Stream.{Stream};
ghost use Rattle.timeline_fakes.specs.Memories.{event_of, events_in, outlet_of};

use crate::recorded::{Made, Recorded};
use std::alloc::Global;
use timeline::Stream;

/// How far what was written has gone out.
#[derive(Clone, Copy)]
pub enum Outlet {
    /// It waits.
    Waits,
    /// It has gone out.
    Gone,
    /// It can't go out.
    Stuck,
}

/// Which calls fail, of those that may.
#[derive(Clone, Copy, PartialEq, Eq)]
pub enum Failing {
    /// None.
    Nothing,
    /// The one with this number, counted from 0.
    Call(usize),
    /// The write or flush with this number, counted from 0.
    Write(usize),
    /// Each write and flush of standard error.
    Errors,
}

/// All that happened at a system in memory, in order, and how far its output and its errors have gone out.
#[derive(Drop)]
pub struct MemoryTimeline {
    alloc: Global,
    events: Vec<Recorded>,
    is_whole: bool,
    output: Outlet,
    errors: Outlet,
    calls: usize,
    writes: usize,
    failing: Failing,
}

impl MemoryTimeline {
    /// A timeline in which nothing has happened. The call with this number, counted from 0, fails.
    pub fn new(alloc: Global, fails_at: Option<usize>) -> MemoryTimeline
        ensures { events_in result ≡ Some [] }
    {
        match fails_at {
            Some(number) => MemoryTimeline::failing(alloc, Failing::Call(number)),
            None => MemoryTimeline::failing(alloc, Failing::Nothing),
        }
    }

    /// A timeline in which nothing has happened. These calls fail.
    pub fn failing(alloc: Global, failing: Failing) -> MemoryTimeline
        ensures { events_in result ≡ Some [] }
    {
        MemoryTimeline {
            alloc,
            events: Vec::new(alloc),
            is_whole: true,
            output: Outlet::Waits,
            errors: Outlet::Waits,
            calls: 0,
            writes: 0,
            failing,
        }
    }

    /// All that happened; none where memory for it was refused.
    pub fn events(&self) -> Option<&[Recorded]> {
        if self.is_whole {
            Some(&self.events)
        } else {
            None
        }
    }

    /// Where memory for what is recorded comes from.
    pub(crate) fn alloc(&self) -> Global {
        self.alloc
    }

    /// Counts a call, and returns whether it fails.
    pub(crate) fn is_failing(&mut self) -> bool
        ensures events { events_in self.new ≡ events_in self.old }
    {
        let fails = self.failing == Failing::Call(self.calls);
        self.calls = self.calls.saturating_add(1);
        fails
    }

    /// Counts a write or a flush, and returns whether it fails.
    pub(crate) fn is_refusing(&mut self, to: Stream) -> bool
        ensures events { events_in self.new ≡ events_in self.old }
    {
        let is_next = self.failing == Failing::Write(self.writes);
        self.writes = self.writes.saturating_add(1);
        let is_mute = matches!(to, Stream::Errors) && self.failing == Failing::Errors;
        let fails = self.is_failing();
        is_next || is_mute || fails
    }

    /// Records what happened.
    pub(crate) fn keep(&mut self, made: Made)
        ensures events { (e : Event) → IfOk made (λ r. event_of r ≡ e) → Passes (events_in self.old) (events_in self.new) (e ∷ []) }
        ensures outlets { (to : Stream) → outlet_of self.new to ≡ outlet_of self.old to }
    {
        let Ok(recorded) = made else {
            self.is_whole = false;
            return;
        };
        if self.events.push(recorded).is_err() {
            self.is_whole = false;
        }
    }

    /// Sets how far what was written to one of them has gone out.
    pub(crate) fn set_outlet(&mut self, to: Stream, outlet: Outlet)
        ensures events { events_in self.new ≡ events_in self.old }
        ensures outlet { outlet_of self.new to ≡ outlet }
    {
        match to {
            Stream::Output => self.output = outlet,
            Stream::Errors => self.errors = outlet,
        }
    }
}
