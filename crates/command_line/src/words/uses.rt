//! What is printed for a misuse.

ghost use Rattle.std.specs.Prelude.{◌≡◌, ◌++◌, [], ◌∷◌, ℕ, List, false, Some, codes};
ghost use Rattle.hex.specs.Hex.{encode_lower};
ghost use Rattle.command_line.specs.Inside.Putting.{IsCommandHint, IsOptionHint, IsRefusedLine, Puts, Tells, hinted, words_behind};
ghost use Rattle.command_line.specs.Misuses.{fault_words};
ghost use Rattle.command_line.specs.Uses.{TellsMisuse, behind_line, help_head, help_line, is_plain_byte, near_line, shown_byte, shown_bytes, shown_line};
ghost use Rattle.timeline.specs.Outsides.{AddsSome};

use crate::commands::Name;
use crate::words::help::{list_of, use_of};
use crate::words::near::{near_command, near_option};
use crate::words::usage::{Misuse, ValueFault};
use clap::error::ErrorKind;
use std::alloc::Global;
use system_io::WriteFault;
use timeline::{Stream, System};

/// Whether a byte is printed as it is.
fn is_plain(byte: u8) -> bool
    ensures { result ≡ is_plain_byte byte }
{
    32 <= byte && byte <= 126 && byte != b'\\'
}

/// Writes bytes to standard error, to their end.
fn put<S: System>(system: &S, timeline: &mut S::Timeline, bytes: &[u8]) -> Result<(), WriteFault>
    ensures { Puts (S.outside system.now) timeline.old timeline.new bytes.now result }
{
    system.write(timeline, Stream::Errors, bytes)
}

/// The number of a byte in hexadecimal digits.
fn digits_of(byte: u8) -> [u8; 2]
    ensures { result ≡ encode_lower (byte ∷ []) }
{
    let bytes = [byte];
    let mut digits = [0; 2];
    hex::encode_to_slice(&bytes, &mut digits).unwrap();
    digits
}

/// Writes a byte by its number.
fn put_number<S: System>(system: &S, timeline: &mut S::Timeline, byte: u8) -> Result<(), WriteFault>
    ensures { is_plain_byte byte ≡ false → Puts (S.outside system.now) timeline.old timeline.new (shown_byte byte) result }
{
    let digits = digits_of(byte);
    match put(system, timeline, b"\\x") {
        Ok(()) => put(system, timeline, &digits),
        Err(fault) => Err(fault),
    }
}

/// Writes a byte as it is printed.
fn put_byte<S: System>(system: &S, timeline: &mut S::Timeline, byte: u8) -> Result<(), WriteFault>
    ensures { Puts (S.outside system.now) timeline.old timeline.new (shown_byte byte) result }
{
    if is_plain(byte) {
        put(system, timeline, &[byte])
    } else {
        put_number(system, timeline, byte)
    }
}

/// Writes words as they are printed.
fn put_shown<S: System>(
    system: &S,
    timeline: &mut S::Timeline,
    words: &[u8],
) -> Result<(), WriteFault>
    ensures { Puts (S.outside system.now) timeline.old timeline.new (shown_bytes words.now) result }
{
    for byte in words {
        match put_byte(system, timeline, *byte) {
            Ok(()) => {}
            Err(fault) => return Err(fault),
        }
    }
    Ok(())
}

/// Writes words of two parts.
fn put_two<S: System>(
    system: &S,
    timeline: &mut S::Timeline,
    front: &[u8],
    rest: &[u8],
) -> Result<(), WriteFault>
    ensures { Puts (S.outside system.now) timeline.old timeline.new (shown_bytes (front.now ++ rest.now)) result }
{
    match put_shown(system, timeline, front) {
        Ok(()) => put_shown(system, timeline, rest),
        Err(fault) => Err(fault),
    }
}

/// Writes words of three parts.
fn put_three<S: System>(
    system: &S,
    timeline: &mut S::Timeline,
    front: &[u8],
    middle: &[u8],
    rest: &[u8],
) -> Result<(), WriteFault>
    ensures { Puts (S.outside system.now) timeline.old timeline.new (shown_bytes (front.now ++ middle.now ++ rest.now)) result }
{
    match put_two(system, timeline, front, middle) {
        Ok(()) => put_shown(system, timeline, rest),
        Err(fault) => Err(fault),
    }
}

/// Writes a line of words of three parts.
fn put_line<S: System>(
    system: &S,
    timeline: &mut S::Timeline,
    front: &[u8],
    middle: &[u8],
    rest: &[u8],
) -> Result<(), WriteFault>
    ensures { Puts (S.outside system.now) timeline.old timeline.new (shown_line (front.now ++ middle.now ++ rest.now)) result }
{
    match put_three(system, timeline, front, middle, rest) {
        Ok(()) => put(system, timeline, b"\n"),
        Err(fault) => Err(fault),
    }
}

/// Writes three texts as they are, one behind the other.
fn put_texts<S: System>(
    system: &S,
    timeline: &mut S::Timeline,
    front: &[u8],
    middle: &[u8],
    rest: &[u8],
) -> Result<(), WriteFault>
    ensures { Puts (S.outside system.now) timeline.old timeline.new (front.now ++ middle.now ++ rest.now) result }
{
    match put(system, timeline, front) {
        Ok(()) => match put(system, timeline, middle) {
            Ok(()) => put(system, timeline, rest),
            Err(fault) => Err(fault),
        },
        Err(fault) => Err(fault),
    }
}

/// A word that may be meant.
#[derive(Clone, Copy)]
pub(crate) enum Hint<'w> {
    /// There is none.
    Nothing,
    /// A command.
    Command(&'w str),
    /// An option or a flag, without `--`.
    Option(&'w str),
}

/// Asks for a word that may be meant, in a line.
fn put_hint<S: System>(
    system: &S,
    timeline: &mut S::Timeline,
    hint: Hint<'_>,
) -> Result<(), WriteFault>
    ensures { Puts (S.outside system.now) timeline.old timeline.new (near_line (hinted hint.entry)) result }
{
    match hint {
        Hint::Nothing => Ok(()),
        Hint::Command(word) => put_texts(
            system,
            timeline,
            b"did you mean ",
            word.as_bytes(),
            b"?\n",
        ),
        Hint::Option(word) => put_texts(
            system,
            timeline,
            b"did you mean --",
            word.as_bytes(),
            b"?\n",
        ),
    }
}

/// Writes the line that names help: of a command, or all of it.
fn put_help<S: System>(
    system: &S,
    timeline: &mut S::Timeline,
    name: Option<Name>,
) -> Result<(), WriteFault>
    ensures { Puts (S.outside system.now) timeline.old timeline.new (help_line name) result }
{
    match name {
        None => put(system, timeline, b"see adjudicate help\n"),
        Some(name) => {
            put_texts(
                system,
                timeline,
                b"see adjudicate help ",
                name.word().as_bytes(),
                b"\n",
            )
        }
    }
}

/// What stands behind the line of a misuse.
#[derive(Clone, Copy)]
pub(crate) struct Behind<'w> {
    /// A word that may be meant.
    hint: Hint<'w>,
    /// The command whose help is named.
    name: Option<Name>,
}

impl<'w> Behind<'w> {
    /// The line that names help of a command, alone.
    fn help_of(name: Name) -> Behind<'w>
        ensures { words_behind result ≡ help_line (Some name) }
    {
        Behind {
            hint: Hint::Nothing,
            name: Some(name),
        }
    }

    /// The line that names all of help, behind a word that may be meant.
    fn all_of_help(hint: Hint<'w>) -> Behind<'w>
        ensures { words_behind result ≡ behind_line (hinted hint.entry) None }
    {
        Behind { hint, name: None }
    }
}

/// Writes what stands behind the line of a misuse.
fn put_behind<S: System>(
    system: &S,
    timeline: &mut S::Timeline,
    behind: Behind<'_>,
) -> Result<(), WriteFault>
    ensures { Puts (S.outside system.now) timeline.old timeline.new (words_behind behind.entry) result }
{
    match put_hint(system, timeline, behind.hint) {
        Ok(()) => put_help(system, timeline, behind.name),
        Err(fault) => Err(fault),
    }
}

/// Writes what stands behind the line of a misuse, and lets it out.
fn tell_behind<S: System>(system: &S, timeline: &mut S::Timeline, behind: Behind<'_>)
    ensures { Tells (S.outside system.now) timeline.old timeline.new (words_behind behind.entry) }
{
    match put_behind(system, timeline, behind) {
        Ok(()) => {
            let _out = system.flush(timeline, Stream::Errors);
        }
        Err(_) => {}
    }
}

/// Writes words of three parts in one line, and what stands behind it.
fn tell_line<S: System>(
    system: &S,
    timeline: &mut S::Timeline,
    front: &str,
    middle: &[u8],
    rest: &str,
    behind: Behind<'_>,
)
    ensures { Tells (S.outside system.now) timeline.old timeline.new (shown_line (front.now ++ middle.now ++ rest.now) ++ words_behind behind.entry) }
{
    match put_line(system, timeline, front.as_bytes(), middle, rest.as_bytes()) {
        Ok(()) => tell_behind(system, timeline, behind),
        Err(_) => {}
    }
}

/// Writes a text, and lets it out.
fn tell_text<S: System>(system: &S, timeline: &mut S::Timeline, text: &str)
    ensures { Tells (S.outside system.now) timeline.old timeline.new text.now }
{
    match put(system, timeline, text.as_bytes()) {
        Ok(()) => {
            let _gone = system.flush(timeline, Stream::Errors);
        }
        Err(_) => {}
    }
}

/// Writes the list of commands, or a line where memory for it is refused.
fn tell_list<S: System>(alloc: Global, system: &S, timeline: &mut S::Timeline)
    ensures { (list : List ℕ) × Tells (S.outside system.now) timeline.old timeline.new list }
{
    match list_of(alloc) {
        Ok(list) => tell_text(system, timeline, list.as_str()),
        Err(_) => tell_text(system, timeline, "refused memory\n"),
    }
}

/// Writes that there is no command, and the list of commands.
fn tell_no_command<S: System>(alloc: Global, system: &S, timeline: &mut S::Timeline)
    ensures { (list : List ℕ) × Tells (S.outside system.now) timeline.old timeline.new (shown_line (codes "no command") ++ list) }
{
    match put_line(system, timeline, b"no command", b"", b"") {
        Ok(()) => tell_list(alloc, system, timeline),
        Err(_) => {}
    }
}

/// Writes what help of a command says behind its name, or a line where memory for it is refused.
fn tell_use<S: System>(alloc: Global, system: &S, timeline: &mut S::Timeline, name: Name)
    ensures { (rest : List ℕ) × Tells (S.outside system.now) timeline.old timeline.new rest }
{
    match use_of(alloc, name) {
        Ok(text) => tell_text(system, timeline, text.as_str()),
        Err(_) => tell_text(system, timeline, "refused memory\n"),
    }
}

/// Writes the help of a command.
fn tell_help_of<S: System>(alloc: Global, system: &S, timeline: &mut S::Timeline, name: Name)
    ensures { (rest : List ℕ) × Tells (S.outside system.now) timeline.old timeline.new (help_head name ++ rest) }
{
    match put_texts(
        system,
        timeline,
        b"adjudicate ",
        name.word().as_bytes(),
        b": ",
    ) {
        Ok(()) => tell_use(alloc, system, timeline, name),
        Err(_) => {}
    }
}

/// The parser's own words, without what it adds to them.
fn first_words(text: &str) -> &str {
    let text = text.strip_prefix("error: ").unwrap_or(text);
    match text.split_once("\n\n") {
        Some((first, _)) => first,
        None => text,
    }
}

/// The option that the parser's words quote, without `--`.
fn quoted_option(text: &str) -> Option<&str> {
    let (_front, quoted) = text.split_once("'--")?;
    let (option, _rest) = quoted.split_once('\'')?;
    Some(option)
}

/// The option of a command that may be meant by one that the parser's words say is unknown.
fn option_hint<'w>(alloc: Global, name: Name, kind: ErrorKind, text: &str) -> Hint<'w>
    ensures { IsOptionHint name result }
{
    match (kind, quoted_option(text)) {
        (ErrorKind::UnknownArgument, Some(option)) => match near_option(alloc, name, option) {
            Some(word) => Hint::Option(word),
            None => Hint::Nothing,
        },
        _ => Hint::Nothing,
    }
}

/// The command that may be meant by a word.
fn command_hint<'w>(alloc: Global, word: &str) -> Hint<'w>
    ensures { IsCommandHint word.now result }
{
    match near_command(alloc, word) {
        Some(word) => Hint::Command(word),
        None => Hint::Nothing,
    }
}

/// Writes why the parser of command lines refuses words: in its own words, or, where memory for these is refused, by
/// its name for the fault.
fn tell_refused<S: System>(
    alloc: Global,
    system: &S,
    timeline: &mut S::Timeline,
    name: Name,
    error: &clap::Error,
)
    ensures { (text : List ℕ) × IsRefusedLine name text × Tells (S.outside system.now) timeline.old timeline.new text }
{
    match format!(in alloc; "{error}") {
        Ok(text) => {
            let words = first_words(text.as_str());
            let behind = Behind {
                hint: option_hint(alloc, name, error.kind(), words),
                name: Some(name),
            };
            tell_line(system, timeline, words, b"", "", behind)
        }
        Err(_) => {
            let words = error.kind().as_str().unwrap_or("");
            tell_line(system, timeline, words, b"", "", Behind::help_of(name))
        }
    }
}

/// Writes a name or a value between words in one line, and where help of a command is.
fn tell_name<S: System>(
    system: &S,
    timeline: &mut S::Timeline,
    front: &str,
    text: &str,
    rest: &str,
    name: Name,
)
    ensures { Tells (S.outside system.now) timeline.old timeline.new (shown_line (front.now ++ text.now ++ rest.now) ++ help_line (Some name)) }
{
    tell_line(
        system,
        timeline,
        front,
        text.as_bytes(),
        rest,
        Behind::help_of(name),
    );
}

/// Writes a fault of the values of a command.
fn tell_fault<S: System>(system: &S, timeline: &mut S::Timeline, fault: &ValueFault<'_>, name: Name)
    ensures { Tells (S.outside system.now) timeline.old timeline.new (shown_line (fault_words fault.now) ++ help_line (Some name)) }
{
    match *fault {
        ValueFault::NoOption(option) => tell_name(
            system,
            timeline,
            "--",
            option,
            " is missing",
            name,
        ),
        ValueFault::NoWord(word) => tell_name(system, timeline, "", word, " is missing", name),
        ValueFault::Unfit(wanted, text) => {
            tell_name(system, timeline, wanted.front(), text, wanted.rest(), name)
        }
        ValueFault::NotWith(instead, option) => {
            tell_name(system, timeline, "--", option, instead.rest(), name)
        }
        ValueFault::WordNotWith(instead, word) => {
            tell_name(system, timeline, "", word, instead.rest(), name)
        }
        ValueFault::Beside(option) => {
            tell_name(
                system,
                timeline,
                "--",
                option,
                " cannot be used with --game",
                name,
            )
        }
        ValueFault::FlagNotWith(instead, flag) => {
            tell_name(system, timeline, "--", flag, instead.rest(), name)
        }
        ValueFault::WithoutGames(option) => {
            tell_name(system, timeline, "--", option, " needs --games", name)
        }
    }
}

/// Writes the fault of the words to standard error in one line; then, where a command's word or an option's is near to one that is unknown, a
/// line that asks whether that is meant; and last the line that names help, of the command where there is one. For a request for help it
/// writes the list of commands, or the use of a command. Where there is no word the list of commands stands behind the line.
///
/// A byte outside those from the space to the tilde is printed by its number, as `\x0a`, and so is a backslash. All of
/// it is flushed. A failure of standard error changes nothing.
pub fn tell_misuse<S: System>(
    alloc: Global,
    system: &S,
    timeline: &mut S::Timeline,
    misuse: &Misuse<'_>,
)
    ensures { AddsSome (S.outside system.now) timeline.old timeline.new (TellsMisuse (S.outside system.now) timeline.new misuse.now) }
{
    match misuse {
        Misuse::NoCommand => tell_no_command(alloc, system, timeline),
        Misuse::Help => tell_list(alloc, system, timeline),
        Misuse::HelpOf(name) => tell_help_of(alloc, system, timeline, *name),
        Misuse::NoText(word) => {
            let behind = Behind::all_of_help(Hint::Nothing);
            tell_line(system, timeline, "no text ", word, "", behind)
        }
        Misuse::UnknownCommand(word) => {
            let behind = Behind::all_of_help(command_hint(alloc, word));
            tell_line(system, timeline, "no command ", word.as_bytes(), "", behind)
        }
        Misuse::Refused(name, error) => match error.kind() {
            ErrorKind::DisplayHelp => tell_help_of(alloc, system, timeline, *name),
            _ => tell_refused(alloc, system, timeline, *name, error),
        },
        Misuse::Value(name, fault) => tell_fault(system, timeline, fault, *name),
    }
}
