//! A case is run, and what comes of it is compared with what is wanted.

use crate::case::{Call, Case};
use crate::closed::Closed;
use crate::counting::Counting;
use crate::report::{
    check_end, check_errors, check_notes, check_output, check_refused, check_text, note_call,
};
use crate::shelf::parted;
use crate::system::tell_system;
use adjudicate_core::run_program;
use command_line::{Task, Usage, WordsFault, parse};
use line_events::answer_lines;
use row_calls::{Fault, Given, tell_call};
use std::alloc::{AllocError, Global};
use std::net::{IpAddr, Ipv4Addr, SocketAddr};
use system_fakes::MemoryDisk;
use timeline::Stream;
use timeline_fakes::{Failing, MemorySystem, MemoryTimeline, Recorded, Turns};

/// What came of a run.
#[derive(Drop)]
struct Ending {
    /// The program's status.
    status: u8,
    /// How many notes were made.
    notes: usize,
    output: Vec<u8>,
    errors: Vec<u8>,
}

/// The words that the program is called with, its own name first.
fn texts_of(alloc: Global, words: &[&str]) -> Result<Vec<String>, AllocError> {
    let mut called = Vec::new(alloc);
    called.push(String::from_str(alloc, "adjudicate")?)?;
    for word in words {
        called.push(String::from_str(alloc, word)?)?;
    }
    Ok(called)
}

/// These words, or that memory is refused for them.
fn called_by(alloc: Global, words: &[&str]) -> Result<Vec<String>, WordsFault> {
    match texts_of(alloc, words) {
        Ok(called) => Ok(called),
        Err(_) => Err(WordsFault::OutOfMemory),
    }
}

/// The own address of a port.
fn own_address() -> SocketAddr {
    SocketAddr::new(IpAddr::V4(Ipv4Addr::new(127, 0, 0, 1)), 7701)
}

/// All that is outside.
fn outside<'a>(case: &'a Case<'_>, disk: &MemoryDisk<'a>) -> MemorySystem<'a> {
    MemorySystem {
        disk: *disk,
        input: case.input(),
        kept: &[],
        elsewhere: case.elsewhere(),
        binds: case.binds(),
        own: Some(own_address()),
        turns: Turns::Waiting(case.datagrams()),
    }
}

impl Ending {
    /// Adds what happened on a timeline.
    fn add(&mut self, timeline: &MemoryTimeline) -> Result<(), AllocError> {
        let Some(events) = timeline.events() else {
            return Err(AllocError);
        };
        for event in events {
            match event {
                Recorded::Wrote { to, bytes } => match to {
                    Stream::Output => self.output.extend_from_slice(bytes)?,
                    Stream::Errors => self.errors.extend_from_slice(bytes)?,
                },
                Recorded::Noted { .. } => self.notes = self.notes.saturating_add(1),
                _ => {}
            }
        }
        Ok(())
    }
}

/// How the program ends where these calls fail.
fn ended_over<'a>(
    alloc: Global,
    case: &'a Case<'a>,
    disk: &'a MemoryDisk<'a>,
    failing: Failing,
) -> Result<Ending, AllocError> {
    let mut timeline = MemoryTimeline::failing(alloc, failing);
    let status = run_program(
        alloc,
        &called_by(alloc, &case.words),
        &outside(case, disk),
        &mut timeline,
        &Closed::new(),
    );
    let mut ending = Ending {
        status,
        notes: 0,
        output: Vec::new(alloc),
        errors: Vec::new(alloc),
    };
    ending.add(&timeline)?;
    Ok(ending)
}

/// How a case of lines ends, with a note where a write is refused.
fn counted_over(
    alloc: Global,
    case: &Case<'_>,
    disk: &MemoryDisk<'_>,
    failing: Failing,
) -> Result<Ending, AllocError> {
    let mut timeline = MemoryTimeline::failing(alloc, failing);
    let progress = !case.words.is_empty();
    let system = outside(case, disk);
    let answered = answer_lines(alloc, &mut Counting, &system, &mut timeline, progress);
    let (status, notes) = match answered {
        Ok(status) => (status, 0),
        Err(_) => (1, 1),
    };
    let mut ending = Ending {
        status,
        notes,
        output: Vec::new(alloc),
        errors: Vec::new(alloc),
    };
    ending.add(&timeline)?;
    Ok(ending)
}

/// How a case ends.
fn ended(
    alloc: Global,
    case: &Case<'_>,
    disk: &MemoryDisk<'_>,
    failing: Failing,
) -> Result<Ending, AllocError> {
    match case.call {
        Call::Lines => counted_over(alloc, case, disk, failing),
        _ => ended_over(alloc, case, disk, failing),
    }
}

/// The name of a task, and its FEN.
fn name_of<'a>(task: &Task<'a>) -> (&'static str, &'a str) {
    match task {
        Task::Show(_) => ("show", ""),
        Task::Moves(moves) => ("moves", moves.fen),
        Task::Judge(judge) => ("judge", judge.fen),
        _ => ("another", ""),
    }
}

/// What the words are read as.
fn read_as<'a>(alloc: Global, words: &'a [&'a str]) -> (&'static str, &'a str) {
    match parse(alloc, words) {
        Ok(task) => name_of(&task),
        Err(Usage::Misuse(_)) => ("misuse", ""),
        Err(Usage::OutOfMemory) => ("memory", ""),
    }
}

/// Looks at what the words are read as.
fn check_task(
    alloc: Global,
    report: &mut String,
    words: &[&str],
    wanted: &str,
) -> Result<(), AllocError> {
    let (task, fen) = parted(wanted);
    let (read, read_fen) = read_as(alloc, words);
    check_text(report, "task", task, read)?;
    check_text(report, "FEN", fen, read_fen)
}

/// Looks at what the call of a library gives.
fn check_call(
    alloc: Global,
    report: &mut String,
    case: &Case<'_>,
    disk: &MemoryDisk<'_>,
    name: &str,
) -> Result<(), AllocError> {
    let mut told = String::new(alloc);
    let given = Given {
        words: &case.words,
        input: case.input_bytes(),
        disk,
    };
    match tell_call(alloc, &mut told, name, &given) {
        Ok(()) => check_output(alloc, report, &case.wanted, told.as_bytes()),
        Err(Fault::Line) => note_call(report, name),
        Err(Fault::Memory) => Err(AllocError),
    }
}

/// Looks at what paths of the system are read as.
fn check_system(rt: &HostRuntime, report: &mut String, case: &Case<'_>) -> Result<(), AllocError> {
    let mut told = String::new(rt.alloc());
    tell_system(rt, &mut told, &case.words)?;
    check_output(rt.alloc(), report, &case.wanted, told.as_bytes())
}

/// Which calls fail in a case.
fn failing_in(case: &Case<'_>) -> Failing {
    match case.fails_at {
        Some(number) => Failing::Call(number),
        None if case.is_mute => Failing::Errors,
        None => Failing::Nothing,
    }
}

/// Looks at what comes of a run.
fn check_run(
    alloc: Global,
    report: &mut String,
    case: &Case<'_>,
    disk: &MemoryDisk<'_>,
) -> Result<(), AllocError> {
    let got = ended(alloc, case, disk, failing_in(case))?;
    check_end(report, case.wanted.status, got.status)?;
    check_notes(report, case.wanted.notes, got.notes)?;
    check_output(alloc, report, &case.wanted, &got.output)?;
    if case.is_mute {
        return Ok(());
    }
    check_errors(alloc, report, &case.wanted, &got.errors)
}

/// Looks at how a run ends of which this write is refused.
fn check_write(
    alloc: Global,
    report: &mut String,
    case: &Case<'_>,
    disk: &MemoryDisk<'_>,
    number: usize,
) -> Result<(), AllocError> {
    let got = ended(alloc, case, disk, Failing::Write(number))?;
    check_refused(report, number, got.status, got.notes)
}

/// Looks at what comes of a run, and of one more for each write that is refused.
fn check_runs(
    alloc: Global,
    report: &mut String,
    case: &Case<'_>,
    disk: &MemoryDisk<'_>,
) -> Result<(), AllocError> {
    check_run(alloc, report, case, disk)?;
    for number in 0..case.refused_writes {
        check_write(alloc, report, case, disk, number)?;
    }
    Ok(())
}

/// Looks at all that a case wants.
pub(crate) fn check_case(
    rt: &HostRuntime,
    report: &mut String,
    case: &Case<'_>,
    disk: &MemoryDisk<'_>,
) -> Result<(), AllocError> {
    let alloc = rt.alloc();
    match case.call {
        Call::Task(task) => check_task(alloc, report, &case.words, task),
        Call::System => check_system(rt, report, case),
        Call::Library(name) => check_call(alloc, report, case, disk, name),
        Call::Shelf | Call::Lines => check_runs(alloc, report, case, disk),
    }
}
