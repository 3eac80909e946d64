//! The line of a position, written.

ghost use Rattle.std.specs.Prelude.{◌≡◌, ◌++◌, ◌∷◌, ◌<◌, [], Bool, false, true, codes, length, Some, OnOk};
ghost use Rattle.std.specs.Io.KnownBytes.{Appends};
ghost use Rattle.json.specs.Json.{array, document, member, object, string};
ghost use Rattle.json.specs.Token.{begin_array, begin_object, end_array, end_object, key};
ghost use Rattle.json.specs.Tree.{json_tokens};
ghost use Rattle.json_lines.specs.Inside.Members.{Writes, error_object, error_tokens, members_of, open_items, open_object, open_tokens, value_json};
ghost use Rattle.fen_text.specs.Coordinates.{move_text};
ghost use Rattle.judge_core.specs.Words.{probe_fault_words};
ghost use Rattle.place_index.specs.Material.{men_of, name_of};
ghost use Rattle.json_lines.specs.Objects.{after_members, category, category_of, error_members, fen_error, first_probe_fault, followed_by, is_stalemate, json_text, line_json, members_told, move_json, move_members, moves_items, number_or_null, position_json, root_json, standing_with_error, value_members, verdict_or_null};

use crate::members::{Member, Value, put_comma, put_key, put_member, put_members};
use crate::text::put;
use crate::told::{JsonLine, MoveTold, PositionTold};
use board_core::Verdict;
use fen_text::{FenFault, write, write_move};
use judge_core::{BoardState, ProbeFault, ProbeResult};
use place_index::Material;
use std::io::Write;
use system_io::WriteFault;

/// A number of the tables, or null where there is none.
pub(crate) fn number_or_null<'a>(told: &Result<i32, ProbeFault>) -> Value<'a>
    ensures { value_json result ≡ number_or_null told.now }
{
    match told {
        Ok(number) => Value::Number(*number),
        Err(_) => Value::Null,
    }
}

/// The verdict's name, or null where the game goes on.
pub(crate) fn verdict_or_null<'a>(verdict: Option<Verdict>) -> Value<'a>
    ensures { value_json result ≡ verdict_or_null verdict }
{
    match verdict {
        Some(verdict) => Value::Text(verdict.name()),
        None => Value::Null,
    }
}

/// The WDL value in a word.
fn category<'a>(wdl: &Result<i32, ProbeFault>) -> &'a str
    ensures { result.now ≡ category wdl.now }
{
    match wdl {
        Err(_) => "unknown",
        Ok(number) => {
            if *number == 2 {
                "win"
            } else if *number == 1 {
                "cursed-win"
            } else if *number == 0 {
                "draw"
            } else if *number == -1 {
                "blessed-loss"
            } else {
                "loss"
            }
        }
    }
}

/// How the game ends for a side without a legal move, in a word, or else the WDL value.
fn category_of<'a>(state: BoardState, wdl: &Result<i32, ProbeFault>) -> &'a str
    ensures { result.now ≡ category_of state wdl.now }
{
    match state {
        BoardState::Checkmate => "loss",
        BoardState::Stalemate => "draw",
        BoardState::Open | BoardState::Check => category(wdl),
    }
}

/// Whether the side to move is stalemated.
pub(crate) fn is_stalemate(state: BoardState) -> bool
    ensures { result ≡ is_stalemate state }
{
    match state {
        BoardState::Stalemate => true,
        BoardState::Open | BoardState::Check | BoardState::Checkmate => false,
    }
}

/// Why a value is missing, the WDL value's fault first.
fn first_fault(probed: &ProbeResult) -> Option<ProbeFault>
    ensures { result ≡ first_probe_fault probed.now.wdl probed.now.dtz }
{
    match (probed.wdl, probed.dtz) {
        (Err(fault), _) => Some(fault),
        (Ok(_), Err(fault)) => Some(fault),
        (Ok(_), Ok(_)) => None,
    }
}

/// Writes a fault and its table as a member.
fn put_fault_of_table<W: Write>(
    out: &mut W,
    name: &str,
    material: Material,
) -> Result<(), WriteFault>
    ensures { OnOk result (Writes true (error_tokens (name.now ++ name_of (men_of material))) (W.contents out.old) (W.contents out.new)) }
{
    let table = material.name();
    let member = Member {
        name: "error",
        value: Value::Words(name, table.as_str()),
    };
    put_member(out, true, &member)
}

/// Writes a fault as a member.
fn put_fault<W: Write>(out: &mut W, fault: ProbeFault) -> Result<(), WriteFault>
    ensures { OnOk result (Writes true (key (codes "error") ∷ json_tokens (string (probe_fault_words fault))) (W.contents out.old) (W.contents out.new)) }
{
    match fault {
        ProbeFault::NotCovered(material) => put_fault_of_table(out, "NotCovered ", material),
        ProbeFault::Damaged(material) => put_fault_of_table(out, "Damaged ", material),
        ProbeFault::OutOfScope | ProbeFault::OutOfMemory => {
            let member = Member {
                name: "error",
                value: Value::Text(fault.name()),
            };
            put_member(out, true, &member)
        }
    }
}

/// Writes why a value is missing, where one is.
fn put_error<W: Write>(out: &mut W, probed: &ProbeResult) -> Result<(), WriteFault>
    ensures { OnOk result (Writes true (open_tokens (error_members probed.now)) (W.contents out.old) (W.contents out.new)) }
{
    match first_fault(probed) {
        None => Ok(()),
        Some(fault) => put_fault(out, fault),
    }
}

/// Writes an opening brace.
pub(crate) fn put_begin<W: Write>(out: &mut W, later: bool) -> Result<(), WriteFault>
    ensures { OnOk result (Writes later (begin_object ∷ []) (W.contents out.old) (W.contents out.new)) }
{
    match put_comma(out, later) {
        Ok(()) => put(out, b"{"),
        Err(fault) => Err(fault),
    }
}

/// Writes a closing brace.
pub(crate) fn put_end<W: Write>(out: &mut W) -> Result<(), WriteFault>
    ensures { OnOk result (Writes true (end_object ∷ []) (W.contents out.old) (W.contents out.new)) }
{
    put(out, b"}")
}

/// Writes members, and why a value is missing, where one is.
pub(crate) fn put_told<W: Write>(
    out: &mut W,
    later: bool,
    members: &[Member<'_>],
    probed: &ProbeResult,
) -> Result<(), WriteFault>
    requires { 0 < length members.now }
    ensures { OnOk result (Writes later (open_tokens (followed_by (members_of members.now) (error_members probed.now))) (W.contents out.old) (W.contents out.new)) }
{
    match put_members(out, later, members) {
        Ok(()) => put_error(out, probed),
        Err(fault) => Err(fault),
    }
}

/// Writes an object but for its closing brace: members, and why a value is missing, where one is.
pub(crate) fn put_facts<W: Write>(
    out: &mut W,
    members: &[Member<'_>],
    probed: &ProbeResult,
) -> Result<(), WriteFault>
    requires { 0 < length members.now }
    ensures { OnOk result (Writes false (open_object (followed_by (members_of members.now) (error_members probed.now))) (W.contents out.old) (W.contents out.new)) }
{
    match put_begin(out, false) {
        Ok(()) => put_told(out, false, members, probed),
        Err(fault) => Err(fault),
    }
}

/// A member with this name and this value.
pub(crate) fn member<'a>(name: &'static str, value: Value<'a>) -> Member<'a>
    ensures { result ≡ record { name = name.entry; value = value.entry } }
{
    Member { name, value }
}

/// Writes the object of a position but for its closing brace.
fn put_position<W: Write>(out: &mut W, told: &PositionTold) -> Result<(), WriteFault>
    ensures { OnOk result (Writes false (open_object (members_told told.now)) (W.contents out.old) (W.contents out.new)) }
{
    let fen = write(&told.position);
    let state = BoardState::of(&told.position);
    let probed = &told.columns.probed;
    let members = [
        member("fen", Value::Text(fen.as_str())),
        member("wdl", number_or_null(&probed.wdl)),
        member("dtz", number_or_null(&probed.dtz)),
        member("verdict", verdict_or_null(told.columns.verdict)),
        member("category", Value::Text(category_of(state, &probed.wdl))),
        member("checkmate", Value::Boolean(state.is_checkmate())),
        member("stalemate", Value::Boolean(is_stalemate(state))),
        member(
            "insufficient_material",
            Value::Boolean(told.position.has_insufficient_material()),
        ),
    ];
    put_facts(out, &members, probed)
}

/// Writes the member that has a move.
pub(crate) fn put_uci<W: Write>(out: &mut W, told: &MoveTold) -> Result<(), WriteFault>
    ensures { OnOk result (Writes false (key (codes "uci") ∷ json_tokens (string (move_text told.now.played))) (W.contents out.old) (W.contents out.new)) }
{
    let played = write_move(&told.played);
    let member = Member {
        name: "uci",
        value: Value::Text(played.as_str()),
    };
    put_member(out, false, &member)
}

/// Writes the position after a move, behind the move, with its values and what the move comes to.
fn put_values<W: Write>(out: &mut W, told: &MoveTold) -> Result<(), WriteFault>
    ensures { OnOk result (Writes true (open_tokens (value_members told.now)) (W.contents out.old) (W.contents out.new)) }
{
    let fen = write(&told.after);
    let state = told.state;
    let members = [
        member("fen", Value::Text(fen.as_str())),
        member("wdl", number_or_null(&told.probed.wdl)),
        member("dtz", number_or_null(&told.probed.dtz)),
        member(
            "category",
            Value::Text(category_of(state, &told.probed.wdl)),
        ),
        member("zeroing", Value::Boolean(told.effect.zeroes_clock())),
        member("checkmate", Value::Boolean(state.is_checkmate())),
        member("stalemate", Value::Boolean(is_stalemate(state))),
    ];
    put_members(out, true, &members)
}

/// Writes the member that has a move in standard algebraic notation.
pub(crate) fn put_san<W: Write>(out: &mut W, told: &MoveTold) -> Result<(), WriteFault>
    ensures { OnOk result (Writes true (key (codes "san") ∷ json_tokens (string told.now.san.bytes)) (W.contents out.old) (W.contents out.new)) }
{
    let member = Member {
        name: "san",
        value: Value::Text(told.san.as_str()),
    };
    put_member(out, true, &member)
}

/// Writes how the position after a move stands on the board, and why a value of it is missing, where one is.
fn put_standing<W: Write>(out: &mut W, told: &MoveTold) -> Result<(), WriteFault>
    ensures { OnOk result (Writes true (open_tokens (standing_with_error told.now)) (W.contents out.old) (W.contents out.new)) }
{
    let members = [
        member("check", Value::Boolean(told.after.in_check())),
        member(
            "insufficient_material",
            Value::Boolean(told.after.has_insufficient_material()),
        ),
    ];
    put_told(out, true, &members, &told.probed)
}

/// Writes what is told of a move and of the position after it, behind the move.
fn put_after<W: Write>(out: &mut W, told: &MoveTold) -> Result<(), WriteFault>
    ensures { OnOk result (Writes true (open_tokens (after_members told.now)) (W.contents out.old) (W.contents out.new)) }
{
    put_values(out, told)?;
    put_san(out, told)?;
    put_standing(out, told)
}

/// Writes the object of a move but for its closing brace.
fn put_move_facts<W: Write>(out: &mut W, later: bool, told: &MoveTold) -> Result<(), WriteFault>
    ensures { OnOk result (Writes later (begin_object ∷ open_tokens (move_members told.now)) (W.contents out.old) (W.contents out.new)) }
{
    put_begin(out, later)?;
    put_uci(out, told)?;
    put_after(out, told)
}

/// Writes the object of a move.
fn put_move<W: Write>(out: &mut W, later: bool, told: &MoveTold) -> Result<(), WriteFault>
    ensures { OnOk result (Writes later (json_tokens (move_json told.now)) (W.contents out.old) (W.contents out.new)) }
{
    match put_move_facts(out, later, told) {
        Ok(()) => put_end(out),
        Err(fault) => Err(fault),
    }
}

/// Writes the objects of moves, with commas between.
fn put_moves<W: Write>(out: &mut W, later: bool, moves: &[MoveTold]) -> Result<(), WriteFault>
    ensures { OnOk result (Writes later (open_items (moves_items move_json moves.now)) (W.contents out.old) (W.contents out.new)) }
{
    match moves.split_first() {
        None => Ok(()),
        Some((told, rest)) => match put_move(out, later, told) {
            Ok(()) => put_moves(out, true, rest),
            Err(fault) => Err(fault),
        },
    }
}

/// Writes the opening bracket of a list.
pub(crate) fn put_begin_list<W: Write>(out: &mut W) -> Result<(), WriteFault>
    ensures { OnOk result (Writes false (begin_array ∷ []) (W.contents out.old) (W.contents out.new)) }
{
    put(out, b"[")
}

/// Writes the closing bracket of a list.
pub(crate) fn put_end_list<W: Write>(out: &mut W) -> Result<(), WriteFault>
    ensures { OnOk result ((later : Bool) → Writes later (end_array ∷ []) (W.contents out.old) (W.contents out.new)) }
{
    put(out, b"]")
}

/// Writes the list of moves.
fn put_list<W: Write>(out: &mut W, moves: &[MoveTold]) -> Result<(), WriteFault>
    ensures { OnOk result (Writes false (json_tokens (array (moves_items move_json moves.now))) (W.contents out.old) (W.contents out.new)) }
{
    put_begin_list(out)?;
    put_moves(out, false, moves)?;
    put_end_list(out)
}

/// Writes the member that has the moves.
fn put_moves_member<W: Write>(out: &mut W, moves: &[MoveTold]) -> Result<(), WriteFault>
    ensures { OnOk result (Writes true (key (codes "moves") ∷ json_tokens (array (moves_items move_json moves.now))) (W.contents out.old) (W.contents out.new)) }
{
    match put_key(out, true, "moves") {
        Ok(()) => put_list(out, moves),
        Err(fault) => Err(fault),
    }
}

/// Writes a position and its moves.
fn put_root<W: Write>(
    out: &mut W,
    told: &PositionTold,
    moves: &[MoveTold],
) -> Result<(), WriteFault>
    ensures { OnOk result (Writes false (json_tokens (root_json told.now moves.now)) (W.contents out.old) (W.contents out.new)) }
{
    put_position(out, told)?;
    put_moves_member(out, moves)?;
    put_end(out)
}

/// Writes a position without its moves.
fn put_alone<W: Write>(out: &mut W, told: &PositionTold) -> Result<(), WriteFault>
    ensures { OnOk result (Writes false (json_tokens (position_json told.now)) (W.contents out.old) (W.contents out.new)) }
{
    match put_position(out, told) {
        Ok(()) => put_end(out),
        Err(fault) => Err(fault),
    }
}

/// Why a text is no position, as a value.
pub(crate) fn fen_error<'a>(fault: &FenFault) -> Value<'a>
    ensures { value_json result ≡ string (fen_error fault.now) }
{
    match fault {
        FenFault::BadPosition(position) => Value::Words("FEN BadPosition ", position.name()),
        _ => Value::Words("FEN ", fault.name()),
    }
}

/// Writes an object that says why there is no answer.
pub(crate) fn put_error_alone<W: Write>(out: &mut W, value: Value<'_>) -> Result<(), WriteFault>
    ensures { OnOk result (Writes false (json_tokens (error_object (value_json value.entry))) (W.contents out.old) (W.contents out.new)) }
{
    let member = Member {
        name: "error",
        value,
    };
    put_begin(out, false)?;
    put_member(out, false, &member)?;
    put_end(out)
}

/// Writes a line as one JSON object (RFC 8259), without spaces and without a line feed.
///
/// What was written reads back as the value that it stands for: `Value::parse` of the crate `json` gives it. After an
/// error a part of the line may be written.
pub fn put_json_line<W: Write>(out: &mut W, line: &JsonLine) -> Result<(), WriteFault>
    ensures written { OnOk result (Appends (W.contents out.old) (W.contents out.new) (json_text (line_json line.now))) }
    ensures reads_back { OnOk result (document (json_text (line_json line.now)) ≡ Some (line_json line.now)) }
{
    match line {
        JsonLine::Fault(fault) => put_error_alone(out, fen_error(fault)),
        JsonLine::Refused(words) => put_error_alone(out, Value::Text(words.as_str())),
        JsonLine::Position(told) => put_alone(out, told),
        JsonLine::Root(told, moves) => put_root(out, told, moves),
    }
}
