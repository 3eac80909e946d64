//! A port in memory, at which datagrams come turn by turn.

ghost use Rattle.std.specs.Prelude.{◌≡◌, ◌≤◌, ℕ, Option, map, IfOk, IfSome};
ghost use Rattle.std.specs.declared.net.socket_addr.SocketAddr.{SocketAddr};
ghost use Rattle.system_io.specs.Failures.{Risen};
ghost use Rattle.system_io.specs.Recipients.{Names, address_named};
ghost use Rattle.timeline.specs.Outsides.{AreNamed};

use std::alloc::{AllocError, Global};
use std::net::SocketAddr;
use system_io::{Recipient, SENDER};

/// What comes of a call that receives.
#[derive(Clone, Copy)]
pub enum Turn<'a> {
    /// A datagram from an address, where that is known.
    Comes(Option<SocketAddr>, &'a [u8]),
    /// Nothing in time. Without a time limit the call fails.
    Quiet,
    /// The call fails.
    Fails,
}

/// What comes of the calls that receive, in order.
#[derive(Clone, Copy)]
pub enum Turns<'a> {
    /// Turn by turn.
    Each(&'a [Turn<'a>]),
    /// These datagrams, from nobody who is known.
    Waiting(&'a [Vec<u8>]),
}

/// A port that was bound to an address, and what comes of its calls that receive. A call past the last turn fails. Failed calls are counted.
#[derive(Drop)]
pub struct MemoryPort<'a> {
    pub(crate) address: Vec<u8>,
    pub(crate) own: Option<SocketAddr>,
    pub(crate) to: Vec<Recipient>,
    pub(crate) sender: Option<SocketAddr>,
    pub(crate) turns: Turns<'a>,
    pub(crate) failures: u64,
}

/// Whom a word names: `sender`, or an IP address and a port; of host names none is known.
fn named(word: &str) -> Recipient
    ensures { (own : Option SocketAddr) → Names own word.now result }
{
    if word == SENDER {
        return Recipient::Sender;
    }
    match word.parse::<SocketAddr>() {
        Ok(address) => Recipient::At(address),
        Err(_) => Recipient::Unknown,
    }
}

/// Those whom some words name, in order.
fn all_named(alloc: Global, words: &[&str]) -> Result<Vec<Recipient>, AllocError>
    ensures { IfOk result (λ all. (own : Option SocketAddr) → AreNamed own (map (λ s. s.now) words.now) all.items) }
{
    let mut all = Vec::new(alloc);
    for word in words {
        all.push(named(word))?;
    }
    Ok(all)
}

/// Copies the first 64 bytes of a datagram to the front of a buffer, and returns how many they are.
pub(crate) fn fill(buffer: &mut [u8; 64], datagram: &[u8]) -> usize
    ensures { result ≤ 64 }
{
    let length = datagram.len().min(64);
    buffer[..length].copy_from_slice(&datagram[..length]);
    length
}

impl<'a> MemoryPort<'a> {
    /// A port that is bound to an address, with this own address, and sends to those whom these words name.
    pub(crate) fn new(
        alloc: Global,
        address: &str,
        own: Option<SocketAddr>,
        to: &[&str],
        turns: Turns<'a>,
    ) -> Result<MemoryPort<'a>, AllocError>
        ensures at { IfOk result (λ port. port.address.items ≡ address.now) }
        ensures own { IfOk result (λ port. port.own ≡ own) }
        ensures to { IfOk result (λ port. AreNamed own (map (λ s. s.now) to.now) port.to.items) }
    {
        let to = all_named(alloc, to)?;
        let address = Vec::from_slice(alloc, address.as_bytes())?;
        Ok(MemoryPort {
            address,
            own,
            to,
            sender: None,
            turns,
            failures: 0,
        })
    }

    /// The outcome of the next call that receives.
    pub(crate) fn next(&mut self) -> Turn<'a>
        ensures to { self.new.to ≡ self.old.to }
        ensures sender { self.new.sender ≡ self.old.sender }
        ensures failures { self.new.failures ≡ self.old.failures }
    {
        match self.turns {
            Turns::Each([turn, others @ ..]) => {
                self.turns = Turns::Each(others);
                *turn
            }
            Turns::Waiting([first, others @ ..]) => {
                self.turns = Turns::Waiting(others);
                Turn::Comes(None, first.as_slice())
            }
            Turns::Each([]) | Turns::Waiting([]) => Turn::Fails,
        }
    }

    /// Counts a failure.
    pub(crate) fn fail(&mut self)
        ensures to { self.new.to ≡ self.old.to }
        ensures sender { self.new.sender ≡ self.old.sender }
        ensures count { self.old.failures ≤ self.new.failures }
        ensures risen { Risen self.old.failures self.new.failures }
    {
        self.failures = self.failures.saturating_add(1);
    }
}

/// The address of a recipient, where the last datagram came from this sender; none where nothing goes out.
pub(crate) fn address_of(sender: Option<SocketAddr>, who: Recipient) -> Option<SocketAddr>
    ensures { result ≡ address_named sender who }
{
    match who {
        Recipient::At(address) => Some(address),
        Recipient::Unknown => None,
        Recipient::Sender => sender,
    }
}
