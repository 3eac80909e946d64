//! A port in memory that records its traffic, and loses, repeats, reorders and fails on request.

ghost use Rattle.std.specs.Prelude.{◌≡◌, ◌≤◌, ◌∷◌, [], Some, map, take, IfOk, OnErr};
ghost use Rattle.system_io.specs.Failures.{Risen};
ghost use Rattle.system_io.specs.Histories.{Passes};
ghost use Rattle.system_fakes.specs.MemoryPorts.{passed_at, passing, port_facts, turns_of, waiting_at};
ghost use Rattle.system_io.specs.Ports.{Came, Handed, Missed, Passed};

use std::alloc::Global;
use std::net::SocketAddr;
use std::time::Duration;
use system_io::{Port, PortFault};

/// An event at a port.
#[derive(Drop)]
pub enum Passage {
    /// A datagram came, with these first 64 bytes.
    Came(Vec<u8>),
    /// Nothing came in this time.
    Quiet(Duration),
    /// No datagram could be received.
    Missed,
    /// A datagram was sent to the address at this place.
    Handed { to: usize, bytes: Vec<u8> },
}

/// The outcome of a call that receives.
#[derive(Clone, Copy)]
pub enum Turn {
    /// The datagram at this place comes. One that no turn names is lost, and one named twice comes twice.
    Comes(usize),
    /// Nothing comes in time. Without a time limit the call fails.
    Quiet,
    /// The call fails.
    Fails,
}

/// Delivers the datagrams of a list, turn by turn, and records all traffic. A call past the last turn fails, as does a
/// turn for a datagram that isn't there. Failed calls are counted.
#[derive(Drop)]
pub struct MemoryPort<'a> {
    alloc: Global,
    datagrams: &'a [&'a [u8]],
    turns: &'a [Turn],
    addresses: usize,
    passages: Vec<Passage>,
    is_whole: bool,
    failures: u64,
    calls: usize,
    fails_at: Option<usize>,
}

/// Copies the first 64 bytes of a datagram to the front of a buffer, and returns how many they are.
pub(crate) fn fill(buffer: &mut [u8; 64], datagram: &[u8]) -> usize
    ensures { result ≤ 64 }
{
    let length = datagram.len().min(64);
    buffer[..length].copy_from_slice(&datagram[..length]);
    length
}

impl<'a> MemoryPort<'a> {
    /// A port that sends to this many addresses, without traffic yet. The call with this number, counted from 0, fails
    /// too, whether it receives or sends.
    pub fn new(
        alloc: Global,
        addresses: usize,
        datagrams: &'a [&'a [u8]],
        turns: &'a [Turn],
        fails_at: Option<usize>,
    ) -> MemoryPort<'a>
        ensures passed { (port_facts result).passed ≡ Some [] }
        ensures addresses { (port_facts result).addresses ≡ addresses }
        ensures turns { (turns_of result ≡ turns.now) × (waiting_at result ≡ map (λ d. d.now) datagrams.now) }
    {
        MemoryPort {
            alloc,
            datagrams,
            turns,
            addresses,
            passages: Vec::new(alloc),
            is_whole: true,
            failures: 0,
            calls: 0,
            fails_at,
        }
    }

    /// All traffic so far; none where memory for it was refused.
    pub fn passages(&self) -> Option<&[Passage]> {
        if self.is_whole {
            Some(&self.passages)
        } else {
            None
        }
    }

    /// Records an event.
    fn keep(&mut self, passage: Passage)
        ensures passes { Passes (passed_at self.old) (passed_at self.new) (passing passage ∷ []) }
        ensures addresses { self.new.addresses ≡ self.old.addresses }
        ensures failures { self.new.failures ≡ self.old.failures }
    {
        if self.passages.push(passage).is_err() {
            self.is_whole = false;
        }
    }

    /// Records that a datagram came.
    fn keep_came(&mut self, bytes: &[u8])
        ensures passes { Passes (passed_at self.old) (passed_at self.new) (Came bytes.now ∷ []) }
        ensures addresses { self.new.addresses ≡ self.old.addresses }
        ensures failures { self.new.failures ≡ self.old.failures }
    {
        match Vec::from_slice(self.alloc, bytes) {
            Ok(bytes) => self.keep(Passage::Came(bytes)),
            Err(_) => self.is_whole = false,
        }
    }

    /// Records that a datagram is sent to the address at a place.
    fn keep_handed(&mut self, to: usize, bytes: &[u8])
        ensures passes { Passes (passed_at self.old) (passed_at self.new) (Handed to bytes.now ∷ []) }
        ensures addresses { self.new.addresses ≡ self.old.addresses }
        ensures failures { self.new.failures ≡ self.old.failures }
    {
        match Vec::from_slice(self.alloc, bytes) {
            Ok(bytes) => self.keep(Passage::Handed { to, bytes }),
            Err(_) => self.is_whole = false,
        }
    }

    /// Counts a failure.
    fn fail(&mut self) -> PortFault
        ensures passed { passed_at self.new ≡ passed_at self.old }
        ensures addresses { self.new.addresses ≡ self.old.addresses }
        ensures count { self.old.failures ≤ self.new.failures }
        ensures risen { Risen self.old.failures self.new.failures }
    {
        self.failures = self.failures.saturating_add(1);
        PortFault::Failed
    }

    /// Counts a call, and returns whether it fails.
    fn is_failing(&mut self) -> bool
        ensures passed { passed_at self.new ≡ passed_at self.old }
        ensures addresses { self.new.addresses ≡ self.old.addresses }
        ensures failures { self.new.failures ≡ self.old.failures }
    {
        let fails = self.fails_at == Some(self.calls);
        self.calls = self.calls.saturating_add(1);
        fails
    }

    /// The outcome of the next call that receives.
    fn next(&mut self) -> Turn
        ensures passed { passed_at self.new ≡ passed_at self.old }
        ensures addresses { self.new.addresses ≡ self.old.addresses }
        ensures failures { self.new.failures ≡ self.old.failures }
    {
        if self.is_failing() {
            return Turn::Fails;
        }
        match self.turns {
            [] => Turn::Fails,
            [turn, others @ ..] => {
                self.turns = others;
                *turn
            }
        }
    }

    /// Gives the datagram at a place, if there is one.
    fn give(&mut self, place: usize, buffer: &mut [u8; 64]) -> Result<usize, PortFault>
        ensures length { IfOk result (λ n. n ≤ 64) }
        ensures came { IfOk result (λ n. Passed (port_facts self.old) (port_facts self.new) (Came (take n buffer.new) ∷ [])) }
        ensures missed { OnErr result (Passed (port_facts self.old) (port_facts self.new) (Missed ∷ [])) }
        ensures cause { OnErr result (Risen self.old.failures self.new.failures) }
    {
        match self.datagrams.get(place) {
            Some(datagram) => {
                let length = fill(buffer, datagram);
                self.keep_came(&buffer[..length]);
                Ok(length)
            }
            None => Err(self.miss()),
        }
    }

    /// Records that no datagram could be received.
    fn miss(&mut self) -> PortFault
        ensures missed { Passed (port_facts self.old) (port_facts self.new) (Missed ∷ []) }
        ensures cause { Risen self.old.failures self.new.failures }
    {
        self.keep(Passage::Missed);
        self.fail()
    }
}

impl<'a> Port for MemoryPort<'a> {
    ghost use Rattle.system_fakes.specs.MemoryPorts.{port_facts};

    ghost facts = { port_facts };

    fn sender(&self) -> Option<SocketAddr> {
        None
    }

    fn answer(&mut self, _sender: Option<SocketAddr>) {}

    fn receive(&mut self, buffer: &mut [u8; 64]) -> Result<usize, PortFault> {
        match self.next() {
            Turn::Comes(place) => self.give(place, buffer),
            Turn::Quiet | Turn::Fails => Err(self.miss()),
        }
    }

    fn receive_in_time(
        &mut self,
        wait: Duration,
        buffer: &mut [u8; 64],
    ) -> Result<Option<usize>, PortFault> {
        match self.next() {
            Turn::Comes(place) => match self.give(place, buffer) {
                Ok(length) => Ok(Some(length)),
                Err(fault) => Err(fault),
            },
            Turn::Quiet => {
                self.keep(Passage::Quiet(wait));
                Ok(None)
            }
            Turn::Fails => Err(self.miss()),
        }
    }

    fn send(&mut self, bytes: &[u8]) -> Result<(), PortFault> {
        for to in 0..self.addresses {
            self.keep_handed(to, bytes);
        }
        if self.is_failing() {
            return Err(self.fail());
        }
        Ok(())
    }

    fn failures(&self) -> u64 {
        self.failures
    }
}
