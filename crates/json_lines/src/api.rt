//! The objects of the tablebase API.

ghost use Rattle.std.specs.Prelude.{◌≡◌, ◌∷◌, Bool, Some, OnOk, false, true};
ghost use Rattle.std.specs.Io.KnownBytes.{Appends};
ghost use Rattle.json.specs.Json.{document};
ghost use Rattle.json.specs.Token.{begin_object, key};
ghost use Rattle.json.specs.Tree.{json_tokens};
ghost use Rattle.json_lines.specs.Api.{api_json, api_move_json, api_move_members, api_position_members, api_standing_members, api_values_json, list_json, list_name, mainline_json, mainline_members, ply_members, precise_or_null, side_or_null, told_members};
ghost use Rattle.json_lines.specs.Inside.Members.{Writes, open_items, open_tokens, value_json};
ghost use Rattle.json_lines.specs.Objects.{json_text, moves_items};

use crate::api_told::{ApiLine, ApiMove, ApiPosition};
use crate::members::{Value, put_key, put_members};
use crate::writing::{
    fen_error, is_stalemate, member, number_or_null, put_begin, put_begin_list, put_end,
    put_end_list, put_error_alone, put_facts, put_san, put_told, put_uci, verdict_or_null,
};
use board_core::Side;
use judge_core::{BoardState, Category, ProbeFault};
use std::io::Write;
use system_io::WriteFault;

/// What is written of a move.
#[derive(Clone, Copy)]
pub(crate) enum MoveForm {
    /// What is told of a legal move of a position.
    Legal,
    /// The distance alone, as of a ply of a line.
    Ply,
}

/// A distance where it is precise, and else null.
fn precise_or_null<'a>(precise: bool, dtz: &Result<i32, ProbeFault>) -> Value<'a>
    ensures { value_json result ≡ precise_or_null precise dtz.now }
{
    if precise {
        number_or_null(dtz)
    } else {
        Value::Null
    }
}

/// The letter of the side that wins, and null where neither does.
fn side_or_null<'a>(winner: Option<Side>) -> Value<'a>
    ensures { value_json result ≡ side_or_null winner }
{
    match winner {
        None => Value::Null,
        Some(Side::White) => Value::Text("w"),
        Some(Side::Black) => Value::Text("b"),
    }
}

/// Writes the object of a position but for its closing brace.
fn put_api_position<W: Write>(out: &mut W, position: &ApiPosition) -> Result<(), WriteFault>
    ensures { OnOk result (Writes false (begin_object ∷ open_tokens (api_position_members position.now)) (W.contents out.old) (W.contents out.new)) }
{
    let told = &position.told;
    let precise = position.precise;
    let state = BoardState::of(&told.position);
    let probed = &told.columns.probed;
    let category = Category::of(state, told.position.halfmove(), probed, precise);
    let members = [
        member("category", Value::Text(category.name())),
        member("dtz", number_or_null(&probed.dtz)),
        member("precise_dtz", precise_or_null(precise, &probed.dtz)),
        member("dtm", Value::Null),
        member("checkmate", Value::Boolean(state.is_checkmate())),
        member("stalemate", Value::Boolean(is_stalemate(state))),
        member("variant_win", Value::Boolean(false)),
        member("variant_loss", Value::Boolean(false)),
        member(
            "insufficient_material",
            Value::Boolean(told.position.has_insufficient_material()),
        ),
        member("wdl", number_or_null(&probed.wdl)),
        member("verdict", verdict_or_null(told.columns.verdict)),
    ];
    put_facts(out, &members, probed)
}

/// Writes how the position after a move stands, behind the move, and why a value of it is missing, where one is.
fn put_api_standing<W: Write>(out: &mut W, played: &ApiMove) -> Result<(), WriteFault>
    ensures { OnOk result (Writes true (open_tokens (api_standing_members played.now)) (W.contents out.old) (W.contents out.new)) }
{
    let told = &played.told;
    let precise = played.precise;
    let state = told.state;
    let category = Category::of(state, told.after.halfmove(), &told.probed, precise);
    let members = [
        member("zeroing", Value::Boolean(told.effect.zeroes_clock())),
        member("category", Value::Text(category.name())),
        member("dtz", number_or_null(&told.probed.dtz)),
        member("precise_dtz", precise_or_null(precise, &told.probed.dtz)),
        member("dtm", Value::Null),
        member("checkmate", Value::Boolean(state.is_checkmate())),
        member("stalemate", Value::Boolean(is_stalemate(state))),
        member("variant_win", Value::Boolean(false)),
        member("variant_loss", Value::Boolean(false)),
        member(
            "insufficient_material",
            Value::Boolean(told.after.has_insufficient_material()),
        ),
        member("wdl", number_or_null(&told.probed.wdl)),
    ];
    put_told(out, true, &members, &told.probed)
}

/// Writes the distance after a move, behind the move.
fn put_distance<W: Write>(out: &mut W, played: &ApiMove) -> Result<(), WriteFault>
    ensures { OnOk result (Writes true (open_tokens (ply_members played.now)) (W.contents out.old) (W.contents out.new)) }
{
    let dtz = &played.told.probed.dtz;
    let members = [
        member("dtz", number_or_null(dtz)),
        member("precise_dtz", precise_or_null(played.precise, dtz)),
    ];
    put_members(out, true, &members)
}

/// Writes what is told of a move in this form, behind its notations.
fn put_told_in<W: Write>(out: &mut W, form: MoveForm, played: &ApiMove) -> Result<(), WriteFault>
    ensures { OnOk result (Writes true (open_tokens (told_members form played.now)) (W.contents out.old) (W.contents out.new)) }
{
    match form {
        MoveForm::Legal => put_api_standing(out, played),
        MoveForm::Ply => put_distance(out, played),
    }
}

/// Writes the members of a move, behind the opening brace.
fn put_api_after<W: Write>(out: &mut W, form: MoveForm, played: &ApiMove) -> Result<(), WriteFault>
    ensures { OnOk result (Writes false (open_tokens (api_move_members form played.now)) (W.contents out.old) (W.contents out.new)) }
{
    put_uci(out, &played.told)?;
    put_san(out, &played.told)?;
    put_told_in(out, form, played)
}

/// Writes the object of a move.
fn put_api_move<W: Write>(
    out: &mut W,
    later: bool,
    form: MoveForm,
    played: &ApiMove,
) -> Result<(), WriteFault>
    ensures { OnOk result (Writes later (json_tokens (api_move_json form played.now)) (W.contents out.old) (W.contents out.new)) }
{
    put_begin(out, later)?;
    put_api_after(out, form, played)?;
    put_end(out)
}

/// Writes the objects of moves, with commas between.
fn put_api_moves<W: Write>(
    out: &mut W,
    later: bool,
    form: MoveForm,
    moves: &[ApiMove],
) -> Result<(), WriteFault>
    ensures { OnOk result (Writes later (open_items (moves_items (api_move_json form) moves.now)) (W.contents out.old) (W.contents out.new)) }
{
    match moves.split_first() {
        None => Ok(()),
        Some((played, rest)) => match put_api_move(out, later, form, played) {
            Ok(()) => put_api_moves(out, true, form, rest),
            Err(fault) => Err(fault),
        },
    }
}

/// Writes the list of moves.
fn put_api_list<W: Write>(out: &mut W, form: MoveForm, moves: &[ApiMove]) -> Result<(), WriteFault>
    ensures { OnOk result (Writes false (json_tokens (list_json form moves.now)) (W.contents out.old) (W.contents out.new)) }
{
    put_begin_list(out)?;
    put_api_moves(out, false, form, moves)?;
    put_end_list(out)
}

/// The name of a list.
fn list_name(form: MoveForm) -> &'static str
    ensures { result.now ≡ list_name form }
{
    match form {
        MoveForm::Legal => "moves",
        MoveForm::Ply => "mainline",
    }
}

/// Writes the member that has the moves.
fn put_list_member<W: Write>(
    out: &mut W,
    form: MoveForm,
    moves: &[ApiMove],
) -> Result<(), WriteFault>
    ensures { OnOk result (Writes true (key (list_name form) ∷ json_tokens (list_json form moves.now)) (W.contents out.old) (W.contents out.new)) }
{
    match put_key(out, true, list_name(form)) {
        Ok(()) => put_api_list(out, form, moves),
        Err(fault) => Err(fault),
    }
}

/// Writes a position and its moves.
fn put_api_values<W: Write>(
    out: &mut W,
    position: &ApiPosition,
    moves: &[ApiMove],
) -> Result<(), WriteFault>
    ensures { OnOk result (Writes false (json_tokens (api_values_json position.now moves.now)) (W.contents out.old) (W.contents out.new)) }
{
    put_api_position(out, position)?;
    put_list_member(out, MoveForm::Legal, moves)?;
    put_end(out)
}

/// Writes the object of a line of play but for its list and its closing brace.
fn put_line_facts<W: Write>(out: &mut W, position: &ApiPosition) -> Result<(), WriteFault>
    ensures { OnOk result (Writes false (begin_object ∷ open_tokens (mainline_members position.now)) (W.contents out.old) (W.contents out.new)) }
{
    let probed = &position.told.columns.probed;
    let members = [
        member("dtz", number_or_null(&probed.dtz)),
        member(
            "precise_dtz",
            precise_or_null(position.precise, &probed.dtz),
        ),
        member("winner", side_or_null(position.winner())),
    ];
    put_facts(out, &members, probed)
}

/// Writes a line of play.
fn put_mainline<W: Write>(
    out: &mut W,
    position: &ApiPosition,
    plies: &[ApiMove],
) -> Result<(), WriteFault>
    ensures { OnOk result (Writes false (json_tokens (mainline_json position.now plies.now)) (W.contents out.old) (W.contents out.new)) }
{
    put_line_facts(out, position)?;
    put_list_member(out, MoveForm::Ply, plies)?;
    put_end(out)
}

/// Writes a line as one object of the tablebase API of Lichess (RFC 8259), without spaces and without a line feed.
///
/// The categories count the clock of the fifty-move rule (`Category::of` of judge_core). `precise_dtz` is the distance where that is
/// precise, and else null. What was written reads back as the value that it stands for: `Value::parse` of the crate `json` gives it.
/// After an error a part of the line may be written.
pub fn put_api_line<W: Write>(out: &mut W, line: &ApiLine) -> Result<(), WriteFault>
    ensures written { OnOk result (Appends (W.contents out.old) (W.contents out.new) (json_text (api_json line.now))) }
    ensures reads_back { OnOk result (document (json_text (api_json line.now)) ≡ Some (api_json line.now)) }
{
    match line {
        ApiLine::Fault(fault) => put_error_alone(out, fen_error(fault)),
        ApiLine::Refused(words) => put_error_alone(out, Value::Text(words.as_str())),
        ApiLine::Values(position, moves) => put_api_values(out, position, moves),
        ApiLine::Mainline(position, plies) => put_mainline(out, position, plies),
    }
}
