//! The lines of games as JSON objects (RFC 8259).

ghost use Rattle.std.specs.Prelude.{◌≡◌, ◌++◌, IfOk, OnOk, Option, List, ℕ, codes, option_map, string_bytes};
ghost use Rattle.std.specs.Io.KnownBytes.{Appends};
ghost use Rattle.json.specs.Json.{object, string};
ghost use Rattle.json_lines.specs.Members.{value_json};
ghost use Rattle.json_lines.specs.Objects.{json_text};
ghost use Rattle.pgn_games.specs.Shown.{game_of, texts_of};
ghost use Rattle.pgn_teller.specs.GameObjects.{cause_json, unread_game_members, finding_or_null, game_members, lossy, refused_game_members, moves_text, ply_or_null, result_or_null, sums_members, text_or_null, ruled_verdict_or_null, with_move};
ghost use Rattle.pgn_teller.specs.Inside.Texts.{AreTextsOf};

use crate::finding::{Finding, result_word};
use crate::rating::Ruled;
use crate::sums::Sums;
use arrayvec::ArrayString;
use board_core::Move;
use fen_text::{FenFault, write, write_move};
use json_lines::{Member, Value, put_object};
use pgn_games::{Cause, Game, GameFault, GameResult, Tags};
use std::alloc::{AllocError, Global};
use std::io::Write;
use system_io::WriteFault;
use table_folder::FileRefusal;

/// The texts of a game's object.
#[derive(Drop)]
pub(crate) struct Texts {
    start: ArrayString<96>,
    event: Option<String>,
    white: Option<String>,
    black: Option<String>,
    round: Option<String>,
    result: Option<String>,
    moves: String,
}

/// A tag's value as text: what is no UTF-8 in it stands as U+FFFD.
fn tag_text(alloc: Global, value: &Option<Vec<u8>>) -> Result<Option<String>, AllocError>
    ensures { IfOk result (λ text. option_map string_bytes text ≡ option_map (λ v. lossy v.items) value.now) }
{
    match value {
        Some(bytes) => Ok(Some(String::from_utf8_lossy(alloc, bytes)?)),
        None => Ok(None),
    }
}

/// Adds a move in coordinates, behind a space where one stands before it.
fn add_move(text: &mut String, m: &Move) -> Result<(), AllocError>
    ensures { OnOk result (string_bytes text.new ≡ with_move (string_bytes text.old) m.now) }
{
    if !text.is_empty() {
        text.push_str(" ")?;
    }
    text.push_str(write_move(m).as_str())
}

/// Moves in coordinates, with spaces between.
fn moves_text(alloc: Global, moves: &[Move]) -> Result<String, AllocError>
    ensures { IfOk result (λ text. string_bytes text ≡ moves_text moves.now) }
{
    let mut text = String::new(alloc);
    for m in moves {
        add_move(&mut text, m)?;
    }
    Ok(text)
}

impl Texts {
    /// The texts of a game's object.
    pub(crate) fn of(alloc: Global, game: &Game) -> Result<Texts, AllocError>
        ensures { IfOk result (AreTextsOf (game_of game.now)) }
    {
        Ok(Texts {
            start: write(&game.start),
            event: tag_text(alloc, &game.tags.event)?,
            white: tag_text(alloc, &game.tags.white)?,
            black: tag_text(alloc, &game.tags.black)?,
            round: tag_text(alloc, &game.tags.round)?,
            result: tag_text(alloc, &game.tags.result)?,
            moves: moves_text(alloc, &game.moves)?,
        })
    }
}

/// A text, or null where there is none.
fn text_or_null(text: &Option<String>) -> Value<'_>
    ensures { value_json result ≡ text_or_null (option_map string_bytes text.now) }
{
    match text {
        Some(text) => Value::Text(text.as_str()),
        None => Value::Null,
    }
}

/// The ply of the first verdict, or null where there is none.
fn ply_or_null<'a>(ruled: Option<Ruled>) -> Value<'a>
    ensures { value_json result ≡ ply_or_null ruled }
{
    match ruled {
        Some(ruled) => Value::Count(ruled.ply as u64),
        None => Value::Null,
    }
}

/// The name of the first verdict, or null where there is none.
fn ruled_verdict_or_null<'a>(ruled: Option<Ruled>) -> Value<'a>
    ensures { value_json result ≡ ruled_verdict_or_null ruled }
{
    match ruled {
        Some(ruled) => Value::Text(ruled.verdict.name()),
        None => Value::Null,
    }
}

/// The result that stands in the file, or null where none does.
fn result_or_null<'a>(stands: GameResult) -> Value<'a>
    ensures { value_json result ≡ result_or_null stands }
{
    match stands {
        GameResult::Missing => Value::Null,
        _ => Value::Text(result_word(stands)),
    }
}

/// What that is beside the verdict, or null where they aren't compared.
fn finding_or_null<'a>(finding: Finding) -> Value<'a>
    ensures { value_json result ≡ finding_or_null finding }
{
    match finding {
        Finding::Uncompared => Value::Null,
        _ => Value::Text(finding.word()),
    }
}

/// Writes the object of a game, whose texts these are.
pub(crate) fn put_game<W: Write>(
    out: &mut W,
    number: u64,
    game: &Game,
    texts: &Texts,
    ruled: Option<Ruled>,
) -> Result<(), WriteFault>
    requires { AreTextsOf (game_of game.now) texts.now }
    ensures { OnOk result (Appends (W.contents out.old) (W.contents out.new) (json_text (object (game_members number (game_of game.now) ruled)))) }
{
    let members = [
        member("game", Value::Count(number)),
        member("line", Value::Count(game.line)),
        member("event", text_or_null(&texts.event)),
        member("white", text_or_null(&texts.white)),
        member("black", text_or_null(&texts.black)),
        member("round", text_or_null(&texts.round)),
        member("result_tag", text_or_null(&texts.result)),
        member("start", Value::Text(texts.start.as_str())),
        member("moves", Value::Text(texts.moves.as_str())),
        member("ply", ply_or_null(ruled)),
        member("verdict", ruled_verdict_or_null(ruled)),
        member("result", result_or_null(game.result)),
        member("finding", finding_or_null(Finding::of(ruled, game.result))),
    ];
    put_object(out, &members)
}

/// A member with this name and this value.
fn member<'a>(name: &'static str, value: Value<'a>) -> Member<'a>
    ensures { result ≡ record { name = name.entry; value = value.entry } }
{
    Member { name, value }
}

/// Why a game isn't read, as a value.
fn cause_of<'a>(cause: Cause) -> Value<'a>
    ensures { value_json result ≡ cause_json cause }
{
    match cause {
        Cause::BadTag => Value::Text("BadTag"),
        Cause::BadFen(FenFault::BadPosition(fault)) => Value::Words(
            "BadFen BadPosition ",
            fault.name(),
        ),
        Cause::BadFen(fault) => Value::Words("BadFen ", fault.name()),
        Cause::BadMove(fault) => Value::Words("BadMove ", fault.name()),
        Cause::TooManyMoves => Value::Text("TooManyMoves"),
        Cause::StrayToken => Value::Text("StrayToken"),
        Cause::OpenVariation => Value::Text("OpenVariation"),
        Cause::EndlessComment => Value::Text("EndlessComment"),
        Cause::LongLine => Value::Text("LongLine"),
    }
}

/// Writes the object of a game that isn't read.
pub(crate) fn put_fault<W: Write>(
    out: &mut W,
    number: u64,
    fault: &GameFault,
) -> Result<(), WriteFault>
    ensures { OnOk result (Appends (W.contents out.old) (W.contents out.new) (json_text (object (unread_game_members number fault.now)))) }
{
    let members = [
        member("game", Value::Count(number)),
        member("line", Value::Count(fault.line)),
        member("error", cause_of(fault.cause)),
        member("at", Value::Count(fault.at)),
        member("ply", Value::Count(fault.plies as u64)),
    ];
    put_object(out, &members)
}

/// The name of a file and a space behind it.
fn name_of(refusal: &FileRefusal) -> ArrayString<32>
    ensures { result.bytes ≡ refusal.now.name.bytes ++ codes " " }
{
    let mut name = ArrayString::new();
    name.push_str(refusal.name.as_str());
    name.push_str(" ");
    name
}

/// Writes the object of a game that begins on this line of the file and needs a table whose file is refused.
pub(crate) fn put_refused<W: Write>(
    out: &mut W,
    number: u64,
    line: u64,
    refusal: &FileRefusal,
) -> Result<(), WriteFault>
    ensures { OnOk result (Appends (W.contents out.old) (W.contents out.new) (json_text (object (refused_game_members number line refusal.now)))) }
{
    let name = name_of(refusal);
    let members = [
        member("game", Value::Count(number)),
        member("line", Value::Count(line)),
        member("error", Value::Words(name.as_str(), refusal.fault.name())),
    ];
    put_object(out, &members)
}

/// Writes the object of the sums.
pub(crate) fn put_sums<W: Write>(out: &mut W, sums: &Sums) -> Result<(), WriteFault>
    ensures { OnOk result (Appends (W.contents out.old) (W.contents out.new) (json_text (object (sums_members sums.now)))) }
{
    let members = [
        member("games", Value::Count(sums.games)),
        member("ruled", Value::Count(sums.ruled)),
        member("faults", Value::Count(sums.faults)),
        member("agree", Value::Count(sums.agree)),
        member("differ", Value::Count(sums.differ)),
    ];
    put_object(out, &members)
}
