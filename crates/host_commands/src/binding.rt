//! Ports that are bound to the address of one word and send to those of another.

ghost use Rattle.std.specs.Prelude.{◌≡◌, string_bytes, IfOk};
ghost use Rattle.host_commands.specs.Binds.{BindsPort, unbound_line};
ghost use Rattle.host_commands.specs.Inside.Parts.{AsksForPort};
ghost use Rattle.host_commands.specs.Notes.{MayNote, in_words};
ghost use Rattle.timeline.specs.Outsides.{AddsSome};

use crate::noting::note_line;
use answer_parts::Refusal;
use command_line::{addresses_in, is_one};
use std::alloc::{AllocError, Global};
use system_io::BindFault;
use timeline::System;

/// The line that says that an address can't be bound. The error comes only where memory is refused.
fn unbound_words(alloc: Global, address: &str) -> Result<String, AllocError>
    ensures { IfOk result (λ line. string_bytes line ≡ unbound_line address.now) }
{
    format!(in alloc; "{address} can't be bound")
}

/// Notes that an address can't be bound.
fn note_unbound<S: System>(alloc: Global, system: &S, timeline: &mut S::Timeline, address: &str)
    ensures { AddsSome (S.outside system.now) timeline.old timeline.new (MayNote (unbound_line address.now)) }
{
    note_line(system, timeline, unbound_words(alloc, address));
}

/// Asks for a port that sends to the addresses of a word, separated by commas. A single address takes no memory here.
fn ask_for<S: System>(
    alloc: Global,
    system: &S,
    timeline: &mut S::Timeline,
    address: &str,
    to: &str,
) -> Result<S::Port, BindFault>
    ensures { AddsSome (S.outside system.now) timeline.old timeline.new (AsksForPort (S.outside system.now) address.now to.now result) }
{
    if is_one(to) {
        return system.bind(timeline, alloc, address, &[to]);
    }
    let Ok(addresses) = addresses_in(alloc, to) else {
        return Err(BindFault::OutOfMemory);
    };
    system.bind(timeline, alloc, address, &addresses)
}

/// Binds a port to an address that sends to the addresses of a word, separated by commas. The error is `Port` where the address can't be
/// bound, and then a line is noted that says so; it is `Memory` where memory is refused. For a single address none is taken here.
pub fn bind<S: System>(
    alloc: Global,
    system: &S,
    timeline: &mut S::Timeline,
    address: &str,
    to: &str,
) -> Result<S::Port, Refusal>
    ensures { AddsSome (S.outside system.now) timeline.old timeline.new (BindsPort (S.outside system.now) address.now to.now (in_words result)) }
{
    match ask_for(alloc, system, timeline, address, to) {
        Ok(port) => Ok(port),
        Err(BindFault::Unbound) => {
            note_unbound(alloc, system, timeline, address);
            Err(Refusal::Port)
        }
        Err(BindFault::OutOfMemory) => Err(Refusal::Memory),
    }
}
