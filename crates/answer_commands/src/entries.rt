//! The lines of a list of games, a line a game.

ghost use Rattle.std.specs.Prelude.{◌≡◌, ◌≢◌, ◌<◌, [], ◌∷◌, length, IfErr, IfOk, IfNone, IfSome};
ghost use Rattle.fen_text.specs.Cuts.{cut_at};
ghost use Rattle.move_msg.specs.TextLines.{lines_in};
ghost use Rattle.arbiter_server.specs.GameFiles.{game_as_told};
ghost use Rattle.answer_commands.specs.Entries.{HasThreeFields, IsFirstEntryFault, SpellsEntry};

use answer_parts::EntryFault;
use arbiter_server::delay_of_digit;
use board_core::{Delay, Position};
use fen_text::{cut_first, read};
use move_msg::GameName;

/// A game that a line tells.
#[derive(Drop)]
pub(crate) struct LineGame<'a> {
    /// Its name.
    pub(crate) name: GameName<'a>,
    /// The position before the first move.
    pub(crate) start: Position,
    /// For how many further plies a verdict by tables must hold.
    pub(crate) delay: Delay,
}

/// The three fields of a line.
#[derive(Clone, Copy)]
struct Fields<'a> {
    name: &'a [u8],
    start: &'a [u8],
    delay: &'a [u8],
}

/// The first line of a text, whose line feed may be missing, and the text after it; none where the text is empty.
pub(crate) fn first_line(text: &[u8]) -> Option<(&[u8], &[u8])>
    ensures some { IfSome result (λ x. lines_in text.now ≡ x.0.now ∷ lines_in x.1.now) }
    ensures shorter { IfSome result (λ x. length x.1.now < length text.now) }
    ensures none { IfNone result (lines_in text.now ≡ []) }
{
    if text.is_empty() {
        return None;
    }
    match cut_first(text, b'\n') {
        Some((line, rest)) => Some((line, rest)),
        None => Some((text, &[])),
    }
}

/// The fields of a line, where there are three.
fn fields_of(line: &[u8]) -> Option<Fields<'_>>
    ensures some { IfSome result (λ f. HasThreeFields line.now f.name.now f.start.now f.delay.now) }
    ensures none { IfNone result (length (cut_at 9 line.now) ≢ 3) }
{
    let (name, rest) = cut_first(line, b'\t')?;
    let (start, delay) = cut_first(rest, b'\t')?;
    match cut_first(delay, b'\t') {
        None => Some(Fields { name, start, delay }),
        Some(_) => None,
    }
}

/// The game that a line tells, or the first thing that is wrong with it. It takes no memory.
///
/// The line is the name of the game, the FEN text of its start and its delay, a digit from 0 to 8, with a tab between two of them.
pub(crate) fn read_entry(line: &[u8]) -> Result<LineGame<'_>, EntryFault>
    ensures ok { IfOk result (λ g. SpellsEntry line.entry.now (game_as_told g.name g.start g.delay)) }
    ensures err { IfErr result (IsFirstEntryFault line.entry.now) }
{
    let Some(fields) = fields_of(line) else {
        return Err(EntryFault::Fields);
    };
    let Some(name) = GameName::of(fields.name) else {
        return Err(EntryFault::Name);
    };
    let start = match read(fields.start) {
        Ok(start) => start,
        Err(fault) => return Err(EntryFault::Start(fault)),
    };
    let Some(delay) = delay_of_digit(fields.delay) else {
        return Err(EntryFault::Delay);
    };
    Ok(LineGame { name, start, delay })
}
