//! Two replicas and what was sent.

ghost use Rattle.std.specs.Prelude.{◌≡◌, ◌++◌, slice_get, IfOk, OnOk, IsOk, is_ok};
ghost use Rattle.move_msg.specs.declared.arbiter_id.ArbiterId.TheVariants.{A, B};
ghost use Rattle.arbiter_core.specs.Delivers.{heard};
ghost use Rattle.relay_world.specs.Inside.Pairs.{IsAfterAll, IsAsked, IsPairAfter, asks, hears_datagram, restarts};
ghost use Rattle.relay_world.specs.Worlds.{delivered, happens, listed, noised};

use crate::event::Event;
use crate::replica::Replica;
use arbiter_core::{Keep, Outputs};
use move_msg::{ArbiterId, Message, Stamp};
use std::alloc::{AllocError, Global};
use std::vec::Vec;

/// Both replicas, and everything that was sent.
#[derive(Drop)]
pub(crate) struct Pair<'a> {
    /// The game.
    pub stamp: Stamp,
    /// A and its keeper.
    pub first: Replica<'a>,
    /// B and its keeper.
    pub second: Replica<'a>,
    /// Every message that was ever sent, in order.
    pub log: Vec<Message>,
}

/// The outputs go to the log.
fn append(log: &mut Vec<Message>, outputs: &Outputs) -> Result<(), AllocError>
    ensures { OnOk result (log.new.items ≡ log.old.items ++ outputs.now.items) }
{
    for message in outputs.as_slice() {
        if log.push(*message).is_err() {
            return Err(AllocError);
        }
    }
    Ok(())
}

/// A request goes to the log.
fn note(log: &mut Vec<Message>, asked: Option<Message>) -> Result<(), AllocError>
    ensures { OnOk result (log.new.items ≡ log.old.items ++ listed asked) }
{
    if let Some(message) = asked {
        if log.push(message).is_err() {
            return Err(AllocError);
        }
    }
    Ok(())
}

/// Delivers a datagram to A.
fn deliver_first(
    alloc: Global,
    pair: &mut Pair<'_>,
    keep: Keep,
    bytes: &[u8],
) -> Result<(), AllocError>
    ensures { OnOk result (IsPairAfter pair.old (hears_datagram A keep bytes.now) pair.new) }
{
    let outputs = pair.first.deliver(alloc, keep, bytes)?;
    append(&mut pair.log, &outputs)
}

/// Delivers a datagram to B.
fn deliver_second(
    alloc: Global,
    pair: &mut Pair<'_>,
    keep: Keep,
    bytes: &[u8],
) -> Result<(), AllocError>
    ensures { OnOk result (IsPairAfter pair.old (hears_datagram B keep bytes.now) pair.new) }
{
    let outputs = pair.second.deliver(alloc, keep, bytes)?;
    append(&mut pair.log, &outputs)
}

/// Delivers a datagram to one of the two.
fn deliver_to(
    alloc: Global,
    pair: &mut Pair<'_>,
    who: ArbiterId,
    keep: Keep,
    bytes: &[u8],
) -> Result<(), AllocError>
    ensures { OnOk result (IsPairAfter pair.old (hears_datagram who keep bytes.now) pair.new) }
{
    match who {
        ArbiterId::A => deliver_first(alloc, pair, keep, bytes),
        ArbiterId::B => deliver_second(alloc, pair, keep, bytes),
    }
}

/// Opens A again.
fn restart_first<'a>(alloc: Global, pair: Pair<'a>, keep: Keep) -> Result<Pair<'a>, AllocError>
    ensures { IfOk result (IsPairAfter pair.entry (restarts A keep)) }
{
    let Pair {
        stamp,
        first,
        second,
        log,
    } = pair;
    let first = first.restart(alloc, keep)?;
    Ok(Pair {
        stamp,
        first,
        second,
        log,
    })
}

/// Opens B again.
fn restart_second<'a>(alloc: Global, pair: Pair<'a>, keep: Keep) -> Result<Pair<'a>, AllocError>
    ensures { IfOk result (IsPairAfter pair.entry (restarts B keep)) }
{
    let Pair {
        stamp,
        first,
        second,
        log,
    } = pair;
    let second = second.restart(alloc, keep)?;
    Ok(Pair {
        stamp,
        first,
        second,
        log,
    })
}

/// Opens one of the two again.
fn restart_at<'a>(
    alloc: Global,
    pair: Pair<'a>,
    who: ArbiterId,
    keep: Keep,
) -> Result<Pair<'a>, AllocError>
    ensures { IfOk result (IsPairAfter pair.entry (restarts who keep)) }
{
    match who {
        ArbiterId::A => restart_first(alloc, pair, keep),
        ArbiterId::B => restart_second(alloc, pair, keep),
    }
}

/// The request of one of the two.
fn asked_by(pair: &Pair<'_>, who: ArbiterId) -> Option<Message>
    ensures { IsAsked pair.now who (listed result) }
{
    match who {
        ArbiterId::A => pair.first.ask(),
        ArbiterId::B => pair.second.ask(),
    }
}

/// One of the two requests moves.
fn ask_at(pair: &mut Pair<'_>, who: ArbiterId) -> Result<(), AllocError>
    ensures { OnOk result (IsPairAfter pair.old (asks who) pair.new) }
{
    let asked = asked_by(pair, who);
    note(&mut pair.log, asked)
}

/// Whether bytes are a message of the game.
fn is_ours(stamp: Stamp, bytes: &[u8]) -> bool
    ensures { result ≡ is_ok (heard stamp bytes.now) }
{
    match Message::decode(bytes) {
        Ok(message) => message.stamp() == stamp,
        Err(_) => false,
    }
}

/// Delivers a message that was sent before to one of the two.
fn deliver_sent(
    alloc: Global,
    pair: &mut Pair<'_>,
    who: ArbiterId,
    index: usize,
    keep: Keep,
) -> Result<(), AllocError>
    ensures { OnOk result (IsPairAfter pair.old (λ game world. delivered game world who keep (slice_get world.log index)) pair.new) }
{
    if index >= pair.log.len() {
        return Ok(());
    }
    let message = pair.log[index];
    deliver_to(alloc, pair, who, keep, &message.encode())
}

/// Delivers bytes that nobody of the game sent to one of the two.
fn deliver_noise(
    alloc: Global,
    pair: &mut Pair<'_>,
    who: ArbiterId,
    bytes: &[u8],
    keep: Keep,
) -> Result<(), AllocError>
    ensures { OnOk result (IsPairAfter pair.old (λ game world. noised game world who keep (heard game.stamp bytes.now)) pair.new) }
{
    if is_ours(pair.stamp, bytes) {
        return Ok(());
    }
    deliver_to(alloc, pair, who, keep, bytes)
}

/// A pair after an event; none where memory was refused.
fn if_done<'a>(pair: Pair<'a>, done: Result<(), AllocError>) -> Result<Pair<'a>, AllocError>
    ensures pair { IfOk result (λ late. late ≡ pair.entry) }
    ensures done { OnOk result (IsOk done) }
{
    match done {
        Ok(()) => Ok(pair),
        Err(_) => Err(AllocError),
    }
}

/// One event.
fn step<'a>(alloc: Global, pair: Pair<'a>, event: &Event) -> Result<Pair<'a>, AllocError>
    ensures { IfOk result (IsPairAfter pair.entry (λ game world. happens game world event.now)) }
{
    match event {
        Event::Deliver { who, index, keep } => {
            let mut pair = pair;
            let done = deliver_sent(alloc, &mut pair, *who, *index, *keep);
            if_done(pair, done)
        }
        Event::Noise { who, bytes, keep } => {
            let mut pair = pair;
            let done = deliver_noise(alloc, &mut pair, *who, bytes, *keep);
            if_done(pair, done)
        }
        Event::Restart { who, keep } => restart_at(alloc, pair, *who, *keep),
        Event::Ask { who } => {
            let mut pair = pair;
            let done = ask_at(&mut pair, *who);
            if_done(pair, done)
        }
    }
}

/// A whole schedule.
pub(crate) fn run_from<'a>(
    alloc: Global,
    pair: Pair<'a>,
    events: &[Event],
) -> Result<Pair<'a>, AllocError>
    ensures { IfOk result (IsAfterAll pair.entry events.now) }
{
    let mut pair = pair;
    for event in events {
        pair = step(alloc, pair, event)?;
    }
    Ok(pair)
}
