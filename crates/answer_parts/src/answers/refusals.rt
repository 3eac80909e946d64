//! The lines of a list of games, a line a game.

ghost use Rattle.std.specs.Prelude.{◌≡◌, ◌≤◌, ◌++◌, length};
ghost use Rattle.answer_parts.specs.Lines.{entry_fault_words, fault_text, message_fault, refusal_words, refused_entry, refused_fen, refused_file, refused_message};
ghost use Rattle.answer_parts.specs.Refusals.{unread_refusal};
ghost use Rattle.line_teller.specs.ToldLines.{cut_words};
ghost use Rattle.table_folder.specs.Faults.{file_fault_name};
ghost use Rattle.record_audit.specs.Findings.{refused_record};

use crate::answers::line_parts::{add_word, numbered};
use arrayvec::ArrayString;
use fen_text::FenFault;
use game_status::add_refused_record;
use line_teller::LineWords;
use move_msg::{MessageFault, RecordFault};
use system_io::ReadFault;
use table_folder::FileFault;

/// Why the game of a line isn't entered.
#[derive(Clone, Copy)]
pub enum EntryFault {
    /// The line isn't three fields, parted by tabs.
    Fields,
    /// No game may have the name.
    Name,
    /// The start is no position.
    Start(FenFault),
    /// The delay isn't a digit from 0 to 8.
    Delay,
    /// The file of the game can't be read or written.
    Keeper,
    /// The game has to be new, and its file is there.
    Exists,
}

/// Why something is refused.
#[derive(Clone, Copy)]
pub enum Refusal {
    /// A text is no position.
    Fen(FenFault),
    /// The first malformed line of a manifest, by its number, counted from 1.
    Manifest(usize),
    /// The first file that isn't the table that it should be.
    File(ArrayString<16>, FileFault),
    /// A message of a stream, by its number, counted from 1, and its fault; none where it is cut.
    Message(usize, Option<MessageFault>),
    /// The first malformed line of a schedule or of a game's file, by its number, counted from 1.
    Line(usize),
    /// The game of a line of a list, by the line's number, counted from 1.
    Entry(usize, EntryFault),
    /// A word that is no move, by its place, counted from 0.
    Move(usize),
    /// The bytes of a kept file are no record.
    Record(RecordFault),
    /// The port can't be bound.
    Port,
    /// What is kept can't be read or isn't that of the game, or the keeper failed at the start.
    Keeper,
    /// A game has to be new, and its file is there.
    Exists,
    /// Another process has what is kept.
    InUse,
    /// The store of a folder can't be opened, read or written.
    Store,
    /// Something can't be read.
    Files,
    /// The group or others may do anything with the file of keys.
    SharedKey,
    /// The first malformed line of a file of keys, by its number, counted from 1.
    Key(usize),
    /// Memory was refused.
    Memory,
}

/// Adds the fault of a text, and that of the position after it where the text spells its parts.
fn add_text_fault(line: &mut LineWords, fault: FenFault)
    requires { length line.old ≤ 200 }
    ensures { line.new ≡ line.old ++ fault_text fault }
{
    match fault {
        FenFault::BadPosition(fault) => {
            line.add("BadPosition ");
            line.add(fault.name());
        }
        _ => line.add(fault.name()),
    }
}

/// Adds why the game of a line isn't entered.
fn add_entry_fault(line: &mut LineWords, fault: EntryFault)
    requires { length line.old ≤ 200 }
    ensures { line.new ≡ line.old ++ entry_fault_words fault }
{
    match fault {
        EntryFault::Fields => line.add("fields"),
        EntryFault::Name => line.add("name"),
        EntryFault::Start(fault) => add_text_fault(line, fault),
        EntryFault::Delay => line.add("delay"),
        EntryFault::Keeper => line.add("keeper"),
        EntryFault::Exists => line.add("exists"),
    }
}

/// What is wrong with a message, or that it is cut.
fn message_fault(fault: Option<MessageFault>) -> &'static str
    ensures is { result.now ≡ message_fault fault }
    ensures short { length result.now ≤ 9 }
{
    match fault {
        None => "Cut",
        Some(fault) => fault.name(),
    }
}

/// The line of a text that is no position.
fn fen_line(fault: FenFault) -> LineWords
    ensures { result ≡ refused_fen fault }
{
    let mut line = LineWords::of("refused FEN ");
    add_text_fault(&mut line, fault);
    line
}

/// The line of a file that isn't the table that it should be.
fn file_line(name: &ArrayString<16>, fault: FileFault) -> LineWords
    ensures { result ≡ refused_file name.now.bytes (file_fault_name fault) }
{
    let mut line = LineWords::of("refused ");
    line.add(name.as_str());
    add_word(&mut line, fault.name());
    line
}

/// The line of a message.
fn message_line(number: usize, fault: Option<MessageFault>) -> LineWords
    ensures { result ≡ refused_message number (message_fault fault) }
{
    let mut line = numbered("refused message ", number);
    add_word(&mut line, message_fault(fault));
    line
}

/// The line of a game that isn't entered.
fn entry_line(number: usize, fault: EntryFault) -> LineWords
    ensures { result ≡ refused_entry number fault }
{
    let mut line = numbered("refused line ", number);
    line.add(" ");
    add_entry_fault(&mut line, fault);
    line
}

/// The line of bytes that are no record.
fn record_line(fault: RecordFault) -> LineWords
    ensures { result ≡ refused_record fault }
{
    let mut line = LineWords::new();
    add_refused_record(&mut line, fault);
    line
}

impl Refusal {
    /// What a file or an input that wasn't read means.
    pub fn unread(fault: ReadFault) -> Refusal
        ensures is { result ≡ unread_refusal fault }
        ensures words { refusal_words result ≡ cut_words fault }
    {
        match fault {
            ReadFault::Unreadable => Refusal::Files,
            ReadFault::OutOfMemory => Refusal::Memory,
        }
    }

    /// Its line.
    pub fn words(&self) -> LineWords
        ensures { result ≡ refusal_words self.now }
    {
        match self {
            Refusal::Fen(fault) => fen_line(*fault),
            Refusal::Manifest(number) => numbered("refused manifest ", *number),
            Refusal::File(name, fault) => file_line(name, *fault),
            Refusal::Message(number, fault) => message_line(*number, *fault),
            Refusal::Line(number) => numbered("refused line ", *number),
            Refusal::Entry(number, fault) => entry_line(*number, *fault),
            Refusal::Move(place) => numbered("refused move ", *place),
            Refusal::Record(fault) => record_line(*fault),
            Refusal::Port => LineWords::of("refused port"),
            Refusal::Keeper => LineWords::of("refused keeper"),
            Refusal::Exists => LineWords::of("refused exists"),
            Refusal::InUse => LineWords::of("refused in use"),
            Refusal::Store => LineWords::of("refused store"),
            Refusal::Files => LineWords::of("refused files"),
            Refusal::SharedKey => LineWords::of("refused key shared"),
            Refusal::Key(number) => numbered("refused key ", *number),
            Refusal::Memory => LineWords::of("refused memory"),
        }
    }
}
