//! The adjudicator's program: it passes the system to `adjudicate_core`, and ends with the status.
//!
//! `main` first sees to it that the descriptors 0 to 2 are open. Then it makes the system with its timeline, and the sockets of HTTP, which stand
//! beside it. It calls `run_program` with the words that the program was called with, and ends with its status. Memory that is refused before
//! that is `refused memory`.
//!
//! It is proved safe, and nothing more is proved of it here: what is read, printed and has gone out is the contract of `run_program`. It is
//! `main` alone, since each check of a program links all libraries. Its test is the gate's one run of the
//! program, by two compilers, with the words of `args`; what it prints is compared with `stdout`. To build it proved: `rt run --
//! judge FEN` here, which leaves it in `out/adjudicate`. Unproved, to try something: `rt try -- judge FEN`.
#![tactic(auto)]

use adjudicate_core::{refuse_memory, run_program};
use command_line::WordsFault;
use game_store::MachineStores;
use serve_core::SystemPages;
use std::alloc::AllocError;
use std::env::{Env, FillError};
use std::process::ExitCode;
use std::{env, io};
use system_io::{BufferedOutput, SystemDisk, SystemHost, SystemInput, open_above_standard};
use timeline::{Machine, MachineTimeline};

/// The bytes of the word at a place, its own name being at 0; none where there are fewer words.
fn bytes_of(rt: &HostRuntime, place: usize) -> Result<Option<Vec<u8>>, WordsFault> {
    let mut bytes = vec![in rt.alloc(); 0u8; 4096]?;
    for _ in 0..64 {
        match rt.arg(place, &mut bytes) {
            Ok(length) => {
                bytes.truncate(length);
                return Ok(Some(bytes));
            }
            Err(FillError::NotPresent) => return Ok(None),
            Err(FillError::TooLong) => {
                let more = bytes.len();
                bytes.resize(more.saturating_mul(2), 0)?;
            }
        }
    }
    Ok(None)
}

/// The first word that is not UTF-8.
fn first_invalid_utf8(rt: &HostRuntime) -> Result<Vec<u8>, WordsFault> {
    for place in 0..usize::MAX {
        match bytes_of(rt, place)? {
            Some(bytes) if str::from_utf8(&bytes).is_ok() => {}
            Some(bytes) => return Ok(bytes),
            None => break,
        }
    }
    Ok(Vec::new(rt.alloc()))
}

/// The words that the program was called with, its own name first.
fn words_of(rt: &HostRuntime) -> Result<Vec<String>, WordsFault> {
    match env::args(rt) {
        Ok(words) => Ok(words.collect(rt.alloc())?),
        Err(error) if error.kind() == io::ErrorKind::OutOfMemory => Err(WordsFault::OutOfMemory),
        Err(_) => Err(WordsFault::NoText(first_invalid_utf8(rt)?)),
    }
}

/// Runs the program on its words, and returns its status. Its output and standard error are buffered. The error comes where memory for these
/// buffers is refused.
fn status_of(rt: &HostRuntime) -> Result<u8, AllocError> {
    let alloc = rt.alloc();
    let stores = MachineStores::new(rt);
    let (host, history) = SystemHost::new(rt, rt.stderr(), &stores);
    let machine = Machine::new(SystemDisk::new(rt, rt.stderr()), SystemInput::new(rt), host);
    let mut timeline = MachineTimeline::new(
        history,
        BufferedOutput::new(alloc, io::writer(rt))?,
        BufferedOutput::new(alloc, rt.stderr())?,
    );
    let words = words_of(rt);
    let pages = SystemPages::new(rt);
    Ok(run_program(alloc, &words, &machine, &mut timeline, &pages))
}

/// Runs the program, and ends with its status, 1 where the output can't be written. Nothing that it opens gets a descriptor of standard
/// input, output or errors, also where it was started without one.
fn main(rt: HostRuntime) -> ExitCode {
    if open_above_standard(&rt).is_err() {
        return ExitCode::from(1);
    }
    let status = match status_of(&rt) {
        Ok(status) => status,
        Err(_) => refuse_memory(&mut io::writer(&rt)).unwrap_or(1),
    };
    ExitCode::from(status)
}
