//! An arbiter that is told what to do line by line.
//!
//! The words are how many blocks its tables may keep, the tables by their paths, the start and the delay; the game is `Test 1`. The
//! lines of the input are: `keep PATH`, what is kept from now on; `next OUTCOME`, how the next put ends; `open`, the arbiter is opened
//! over what is kept, and one that is open is closed before; `ask`; and an outcome (`good`, `old` or `new`, `old` and `new` where the
//! put fails and keeps these bytes) with a datagram in hexadecimal digits, which is delivered.

ghost use Rattle.arbiter_core.specs.Delivers.{IsKept};

use crate::calls::{Fault, Given, parted};
use crate::positions::position_of;
use crate::rounds::{read_tables, set_of};
use crate::tables::small;
use crate::texts::{bytes_of, tell_hex};
use arbiter_core::{
    Arbiter, DeliverFault, Keep, Keeper, MemoryKeeper, OpenFault, Outputs, Setup, name_of,
};
use judge_core::Set;
use std::alloc::{AllocError, Global};
use std::fmt::Write;
use system_io::Disk;

/// What the first arbiter is opened from.
fn setup_of<'a>(given: &Given<'_>, set: Set<'a>) -> Result<Setup<'a>, Fault> {
    let [.., start, delay] = given.words else {
        return Err(Fault::Line);
    };
    Ok(Setup {
        name: name_of(b"Test 1"),
        start: position_of(start)?,
        manifest: b"",
        me: 1,
        delay: small(delay)?,
        set,
    })
}

/// An outcome of a put.
fn keep_of(word: &str) -> Result<Keep, Fault> {
    match word {
        "good" => Ok(Keep::Good),
        "old" => Ok(Keep::FailsOld),
        "new" => Ok(Keep::FailsNew),
        _ => Err(Fault::Line),
    }
}

/// Lets the bytes at a path be kept.
fn keep_file(
    alloc: Global,
    given: &Given<'_>,
    keeper: &mut MemoryKeeper,
    path: &str,
) -> Result<(), Fault> {
    let bytes = given.disk.read(alloc, path).or(Err(Fault::Line))?;
    if bytes.len() > 8217 {
        return Err(Fault::Line);
    }
    keeper.put(&bytes).or(Err(Fault::Line))
}

/// Does what a line in front of an arbiter says.
fn prepare(
    alloc: Global,
    given: &Given<'_>,
    keeper: &mut MemoryKeeper,
    line: &str,
) -> Result<(), Fault> {
    match parted(line) {
        ("keep", path) => keep_file(alloc, given, keeper, path),
        ("next", word) => {
            keeper.set(keep_of(word)?);
            Ok(())
        }
        _ => Err(Fault::Line),
    }
}

/// Does what the lines in front of an arbiter say.
fn prepare_all(
    alloc: Global,
    given: &Given<'_>,
    keeper: &mut MemoryKeeper,
    lines: &str,
) -> Result<(), Fault> {
    for line in lines.lines() {
        prepare(alloc, given, keeper, line)?;
    }
    Ok(())
}

/// Tells the messages that are sent, or the fault.
fn tell_outputs(
    told: &mut String,
    outputs: &Result<Outputs, DeliverFault>,
) -> Result<(), AllocError> {
    match outputs {
        Ok(outputs) => tell_sent(told, outputs),
        Err(DeliverFault::NotAMessage(wrong)) => {
            let name = wrong.name();
            writeln!(told, "NotAMessage {name}")
        }
        Err(fault) => {
            let name = fault.name();
            writeln!(told, "{name}")
        }
    }
}

/// Tells messages.
fn tell_sent(told: &mut String, outputs: &Outputs) -> Result<(), AllocError> {
    for message in outputs.as_slice() {
        writeln!(told, "{message}")?;
    }
    Ok(())
}

/// What is told of a delivery whose put has this outcome.
fn hand(
    alloc: Global,
    arbiter: &mut Arbiter<'_>,
    keeper: &mut MemoryKeeper,
    keep: Keep,
    bytes: &[u8],
) -> Result<Outputs, DeliverFault>
    requires { IsKept keeper.old.kept arbiter.old }
    ensures { IsKept keeper.new.kept arbiter.new }
{
    keeper.set(keep);
    arbiter.deliver(alloc, keeper, bytes)
}

/// Tells how many moves are recorded, the verdict, and whether the arbiter is down.
fn tell_state(told: &mut String, arbiter: &Arbiter<'_>) -> Result<(), AllocError> {
    let (count, verdict, down) = (arbiter.count(), arbiter.verdict(), arbiter.is_down());
    writeln!(told, "count {count}, verdict {verdict:?}, down {down}")
}

/// Tells what is asked for.
fn tell_asked(told: &mut String, arbiter: &Arbiter<'_>) -> Result<(), AllocError> {
    match arbiter.ask() {
        Some(message) => writeln!(told, "asks {message}"),
        None => writeln!(told, "asks nothing"),
    }
}

/// Delivers a datagram, and tells what comes of it.
fn tell_delivery(
    alloc: Global,
    told: &mut String,
    arbiter: &mut Arbiter<'_>,
    keeper: &mut MemoryKeeper,
    keep: Keep,
    bytes: &[u8],
) -> Result<(), AllocError>
    requires { IsKept keeper.old.kept arbiter.old }
    ensures { IsKept keeper.new.kept arbiter.new }
{
    let outputs = hand(alloc, arbiter, keeper, keep, bytes);
    tell_outputs(told, &outputs)?;
    tell_state(told, arbiter)
}

/// What a line has delivered.
fn datagram_of(alloc: Global, line: &str) -> Result<(Keep, Vec<u8>), Fault> {
    let (word, digits) = parted(line);
    Ok((keep_of(word)?, bytes_of(alloc, digits)?))
}

/// Does what a line says to an arbiter.
fn tell_line(
    alloc: Global,
    told: &mut String,
    arbiter: &mut Arbiter<'_>,
    keeper: &mut MemoryKeeper,
    line: &str,
) -> Result<(), Fault>
    requires { IsKept keeper.old.kept arbiter.old }
    ensures { IsKept keeper.new.kept arbiter.new }
{
    if line == "ask" {
        return Ok(tell_asked(told, arbiter)?);
    }
    let (keep, bytes) = datagram_of(alloc, line)?;
    Ok(tell_delivery(alloc, told, arbiter, keeper, keep, &bytes)?)
}

/// Does what lines say to an arbiter.
fn tell_lines(
    alloc: Global,
    told: &mut String,
    arbiter: &mut Arbiter<'_>,
    keeper: &mut MemoryKeeper,
    lines: &str,
) -> Result<(), Fault>
    requires { IsKept keeper.old.kept arbiter.old }
{
    for line in lines.lines() {
        tell_line(alloc, told, arbiter, keeper, line)?;
    }
    Ok(())
}

/// Tells where an arbiter stands, and does what lines say to it.
fn tell_from_state(
    alloc: Global,
    told: &mut String,
    arbiter: &mut Arbiter<'_>,
    keeper: &mut MemoryKeeper,
    lines: &str,
) -> Result<(), Fault>
    requires { IsKept keeper.old.kept arbiter.old }
{
    tell_state(told, arbiter)?;
    tell_lines(alloc, told, arbiter, keeper, lines)
}

/// Tells why no arbiter is opened.
fn tell_refused(told: &mut String, fault: OpenFault) -> Result<(), AllocError> {
    let name = fault.name();
    writeln!(told, "refused {name}")
}

/// Opens an arbiter over what is kept, does what lines say to it, and closes it.
fn tell_opened<'a>(
    alloc: Global,
    told: &mut String,
    keeper: &mut MemoryKeeper,
    setup: Setup<'a>,
    lines: &str,
) -> Result<Setup<'a>, Fault> {
    match Arbiter::open(alloc, keeper, setup) {
        Ok(mut arbiter) => {
            tell_from_state(alloc, told, &mut arbiter, keeper, lines)?;
            Ok(arbiter.close())
        }
        Err(refused) => {
            tell_refused(told, refused.fault)?;
            Ok(refused.setup)
        }
    }
}

/// Tells what is kept, by its digits or by how many bytes it has, and how often the keeper has failed.
fn tell_kept(alloc: Global, told: &mut String, keeper: &MemoryKeeper) -> Result<(), AllocError> {
    let failures = keeper.failures();
    match keeper.kept() {
        Some(bytes) if !bytes.is_empty() && bytes.len() < 100 => tell_hex(
            alloc, told, "keeps", bytes,
        )?,
        Some(bytes) => {
            let length = bytes.len();
            writeln!(told, "keeps {length} bytes")?;
        }
        None => writeln!(told, "keeps nothing")?,
    }
    writeln!(told, "failures {failures}")
}

/// Opens the arbiter again for each part of the lines.
fn tell_parts(
    alloc: Global,
    told: &mut String,
    given: &Given<'_>,
    setup: Setup<'_>,
    lines: &str,
) -> Result<(), Fault> {
    let mut keeper = MemoryKeeper::new(alloc)?;
    let mut setup = setup;
    for (place, part) in lines.split("open\n").enumerate() {
        if place == 0 {
            prepare_all(alloc, given, &mut keeper, part)?;
        } else {
            setup = tell_opened(alloc, told, &mut keeper, setup, part)?;
        }
    }
    Ok(tell_kept(alloc, told, &keeper)?)
}

/// Tells what an arbiter does by the lines of the input.
pub(crate) fn tell_arbiter(
    alloc: Global,
    told: &mut String,
    given: &Given<'_>,
) -> Result<(), Fault> {
    let Ok(lines) = str::from_utf8(given.input) else {
        return Err(Fault::Line);
    };
    let files = read_tables(alloc, given)?;
    let set = set_of(alloc, told, given, &files)?;
    tell_parts(alloc, told, given, setup_of(given, set)?, lines)
}
