//! The file that tells a game: its name, its start and the delay of its verdicts by tables.

ghost use Rattle.std.specs.Prelude.{◌≡◌, ◌≤◌, ◌+◌, ◌++◌, length, IfErr, IfOk};
ghost use Rattle.std.specs.Result.{IsOkAnd};
ghost use Rattle.arrayvec.specs.ArrayVec.{array_vec_len};
ghost use Rattle.arbiter_server.specs.GameFiles.{GameContents, IsFirstGameFault, SpellsGame, game_as_told, game_text};
ghost use Rattle.move_msg.specs.TextLines.{ended};

use crate::game_lines::{GameFileFault, delay_of_digit, delay_text_in, name_in, start_text_in};
use arrayvec::ArrayVec;
use board_core::{Delay, Position};
use fen_text::{read, write};
use move_msg::GameName;

/// How many bytes a game's file has at most: `name ` and 64 bytes, `start ` and 96, `delay ` and a digit, and three line feeds
/// have 181.
pub const MOST_GAME_BYTES: usize = 192;

/// What a game's file tells.
#[derive(Drop)]
pub struct Game {
    /// The name, 1 to 64 bytes from the space to the tilde.
    pub name: ArrayVec<u8, 64>,
    /// The position before the first move.
    pub start: Position,
    /// For how many further plies a verdict by tables must hold.
    pub delay: Delay,
}

/// Adds a line: a word, a value and a line feed.
fn push_line(out: &mut ArrayVec<u8, MOST_GAME_BYTES>, word: &[u8], value: &[u8])
    requires room { array_vec_len out.old + length word.now + length value.now + 1 ≤ 192 }
    ensures items { out.new.items ≡ out.old.items ++ ended (word.now ++ value.now) }
    ensures len { array_vec_len out.new ≡ array_vec_len out.old + length word.now + length value.now + 1 }
{
    out.try_extend_from_slice(word).unwrap();
    out.try_extend_from_slice(value).unwrap();
    out.push(b'\n');
}

/// The text of a game's file: a line each for its name, the FEN text of its start and its delay, each ended by a line feed. It
/// takes no memory.
pub fn write_game(
    name: &GameName<'_>,
    start: &Position,
    delay: Delay,
) -> ArrayVec<u8, MOST_GAME_BYTES>
    ensures text { result.items ≡ game_text (game_as_told name.now start.now delay) }
    ensures spells { SpellsGame result.items (game_as_told name.now start.now delay) }
{
    let _conditions = start.parts();
    let mut text = ArrayVec::new();
    push_line(&mut text, b"name ", name.as_bytes());
    push_line(&mut text, b"start ", write(start).as_str().as_bytes());
    push_line(&mut text, b"delay ", &[b'0' + delay.plies()]);
    text
}

/// A name of its own.
fn owned(name: &[u8]) -> ArrayVec<u8, 64>
    requires { length name.now ≤ 64 }
    ensures { result.items ≡ name.now }
{
    let mut own = ArrayVec::new();
    own.try_extend_from_slice(name).unwrap();
    own
}

/// The game that the bytes of a file tell, or the first line at fault. It takes no memory.
///
/// The file has three lines, each ended by a line feed: `name ` and the name, `start ` and the FEN text of a position as
/// `fen_text::read` reads it, and `delay ` and a digit from 0 to 8. So each game has one text.
pub fn read_game(bytes: &[u8]) -> Result<Game, GameFileFault>
    ensures ok { IfOk result (λ g. SpellsGame bytes.now (game_as_told g.name.items g.start g.delay)) }
    ensures err { IfErr result (IsFirstGameFault bytes.now) }

    // What `write_game` gives is read as the game that it was given.
    ensures only { (g : GameContents) → SpellsGame bytes.now g → IsOkAnd result (λ read. game_as_told read.name.items read.start read.delay ≡ g) }
{
    let Some((name, rest)) = name_in(bytes) else {
        return Err(GameFileFault::Name);
    };
    let Some((fen, rest)) = start_text_in(rest) else {
        return Err(GameFileFault::Start);
    };
    let Ok(start) = read(fen) else {
        return Err(GameFileFault::Start);
    };
    let Some((digit, rest)) = delay_text_in(rest) else {
        return Err(GameFileFault::Delay);
    };
    let Some(delay) = delay_of_digit(digit) else {
        return Err(GameFileFault::Delay);
    };
    if !rest.is_empty() {
        return Err(GameFileFault::More);
    }
    Ok(Game {
        name: owned(name),
        start,
        delay,
    })
}
