//! Runs the cases of the files that its words name, and reports where the program does otherwise.
//!
//! A case is the words of a command, what lies in the folder and on standard input, and what must be printed, with which status.
//! `data/README.md` says how one is written. A case is data: it costs no proof. It runs through `adjudicate_core` as the program
//! does, over an outside in memory, or through `row_calls`.
//!
//! To add a case, write it into a file of `data/`. The gate runs the files that `args` names; `rt try -- data/disk.txt` here runs
//! one file without any proof.
//!
//! Inside: `case`, `pieces`, `shelf` (a case, the bytes of its lines, the files and folders), `running`, `report`, `closed` (no address for
//! requests, for `serve`), `counting` (an answerer), `system` (what the system's folders and files are read as). `data/wrong.txt` has cases with a wrong expectation, and is run by hand alone: each must be
//! reported.
//!
//! The last line is `N cases, D differ`. The status is 0 only where there are cases, none differs, and each file can be read.
#![tactic(auto)]

mod case;
mod closed;
mod counting;
mod pieces;
mod report;
mod running;
mod shelf;
mod system;

use crate::case::{Case, is_case};
use crate::pieces::Fault;
use crate::running::check_case;
use crate::shelf::{Shelf, head_of};
use std::alloc::{AllocError, Global};
use std::process::ExitCode;
use std::{env, fs, io};
use system_fakes::MemoryDisk;

/// A file of cases.
#[derive(Drop)]
struct CaseFile {
    name: String,
    text: String,
}

/// How many cases there are, how many of them differ or can't be read, and how many files and folders can't be read.
#[derive(Clone, Copy)]
struct Tally {
    cases: u64,
    differ: u64,
    unread: u64,
}

impl Tally {
    /// None.
    fn new() -> Tally {
        Tally {
            cases: 0,
            differ: 0,
            unread: 0,
        }
    }

    /// Counts a case.
    fn count(&mut self, differs: bool) {
        self.cases = self.cases.saturating_add(1);
        if differs {
            self.differ = self.differ.saturating_add(1);
        }
    }

    /// The status of the program.
    fn status(&self) -> ExitCode {
        if self.cases > 0 && self.differ == 0 && self.unread == 0 {
            ExitCode::SUCCESS
        } else {
            ExitCode::FAILURE
        }
    }
}

/// Reads a file of cases.
fn read_file(rt: &HostRuntime, name: String) -> io::Result<CaseFile> {
    match fs::read_to_string(rt, name.as_str()) {
        Ok(text) => Ok(CaseFile { name, text }),
        Err(error) => {
            println!(rt; "{name} can't be read")?;
            Err(error)
        }
    }
}

/// Reads the files that the words name.
fn read_files(rt: &HostRuntime) -> io::Result<Vec<CaseFile>> {
    let mut files = Vec::new(rt.alloc());
    for name in env::args(rt)?.skip(1) {
        files.push(read_file(rt, name)?)?;
    }
    Ok(files)
}

/// Reports a paragraph that can't be read.
fn tell_unread(rt: &HostRuntime, file: &CaseFile, paragraph: &str, fault: Fault) -> io::Result<()> {
    let (name, head) = (file.name.as_str(), head_of(paragraph));
    let why = match fault {
        Fault::Line => "a line can't be read",
        Fault::Memory => "memory is refused",
    };
    println!(rt; "{name}: {head}\n  {why}")
}

/// Puts the files and folders of a case file on the shelf.
fn add_to_shelf<'t>(
    rt: &HostRuntime,
    shelf: &mut Shelf<'t>,
    file: &'t CaseFile,
    tally: &mut Tally,
) -> io::Result<()> {
    for paragraph in file.text.split("\n\n") {
        if let Err(fault) = shelf.add(rt.alloc(), paragraph) {
            tally.unread = tally.unread.saturating_add(1);
            tell_unread(rt, file, paragraph, fault)?;
        }
    }
    Ok(())
}

/// Runs a case, reports it where it differs, and returns whether it does.
fn run_case(
    rt: &HostRuntime,
    disk: &MemoryDisk<'_>,
    file: &CaseFile,
    case: &Case<'_>,
    head: &str,
) -> io::Result<bool> {
    let mut report = String::new(rt.alloc());
    check_case(rt, &mut report, case, disk)?;
    if report.is_empty() {
        return Ok(false);
    }
    let name = file.name.as_str();
    print!(rt; "{name}: {head}\n{report}")?;
    Ok(true)
}

/// Reads the case of a paragraph and runs it. Returns whether it differs or can't be read.
fn run_paragraph(
    rt: &HostRuntime,
    shelf: &Shelf<'_>,
    disk: &MemoryDisk<'_>,
    file: &CaseFile,
    paragraph: &str,
) -> io::Result<bool> {
    let mut case = Case::new(rt.alloc());
    if let Err(fault) = case.read(rt.alloc(), shelf, paragraph) {
        tell_unread(rt, file, paragraph, fault)?;
        return Ok(true);
    }
    run_case(rt, disk, file, &case, head_of(paragraph))
}

/// Runs the cases of a file.
fn run_file(
    rt: &HostRuntime,
    shelf: &Shelf<'_>,
    disk: &MemoryDisk<'_>,
    file: &CaseFile,
    tally: &mut Tally,
) -> io::Result<()> {
    for paragraph in file.text.split("\n\n") {
        if is_case(paragraph) {
            tally.count(run_paragraph(rt, shelf, disk, file, paragraph)?);
        }
    }
    Ok(())
}

/// Runs the cases of all files over what is on the shelf.
fn run_files(
    rt: &HostRuntime,
    shelf: &Shelf<'_>,
    files: &[CaseFile],
    tally: &mut Tally,
) -> io::Result<()> {
    let on_shelf = shelf.files(rt.alloc())?;
    let folders = shelf.folders(rt.alloc())?;
    let disk = MemoryDisk {
        files: &on_shelf,
        modes: shelf.modes(),
        folders: &folders,
        failing: &[],
    };
    for file in files {
        run_file(rt, shelf, &disk, file, tally)?;
    }
    Ok(())
}

/// Fills the shelf from all files, and runs the cases of all.
fn run_all(rt: &HostRuntime, files: &[CaseFile], tally: &mut Tally) -> io::Result<()> {
    let mut shelf = Shelf::new(rt.alloc());
    for file in files {
        add_to_shelf(rt, &mut shelf, file, tally)?;
    }
    run_files(rt, &shelf, files, tally)
}

/// Runs all cases, and prints how many there are and how many differ.
fn main(rt: HostRuntime) -> io::Result<ExitCode> {
    let files = read_files(&rt)?;
    let mut tally = Tally::new();
    run_all(&rt, &files, &mut tally)?;
    let (cases, differ) = (tally.cases, tally.differ);
    println!(&rt; "{cases} cases, {differ} differ")?;
    Ok(tally.status())
}
