//! What is found of games, as one JSON object (RFC 8259).

ghost use Rattle.std.specs.Prelude.{◌≡◌, ◌++◌, IfOk, IsUtf8, OnOk, Some, codes, option_map, true};
ghost use Rattle.board_core.specs.Verdicts.{verdict_name};
ghost use Rattle.hex.specs.Hex.{encode_lower};
ghost use Rattle.json.specs.Json.{member, no_members, object, string};
ghost use Rattle.json.specs.Lex.{tokens};
ghost use Rattle.json.specs.Print.{print};
ghost use Rattle.json.specs.Tree.{json_tokens};
ghost use Rattle.move_msg.specs.TextLines.{ended};
ghost use Rattle.game_status.specs.Entries.{fault_words};
ghost use Rattle.game_status.specs.StatusObjects.{compared_members, compared_totals, comparison_members, count_or_null, first_members, game_json, kept_members, members_if, record_members, second_members, side_members, text_or_null, totals_json, totals_members, truth_or_null, unknown_members, unlooked_members};
ghost use Rattle.game_status.specs.StatusObjects.{AddsMembers, AddsTokens, AreNamed, IsNamed};

use crate::comparing::Compared;
use crate::entry::EntryFault;
use crate::side::Side;
use crate::status_lines::{Look, fault_words};
use crate::totals::Totals;
use board_core::Verdict;
use fen_text::write;
use json::Writer;
use move_msg::{Record, Stamp};
use std::alloc::AllocError;

/// Adds a member to an object whose value is a text, or null.
pub fn add_text(text: &mut Writer, name: &str, value: Option<&str>) -> Result<(), AllocError>
    ensures { OnOk result (AddsMembers text.old text.new (member name.now (text_or_null (option_map (λ s. s.now) value.entry)))) }
{
    text.key(name)?;
    match value {
        Some(value) => text.string(value),
        None => text.null(),
    }
}

/// Adds a member to an object whose value is a number, or null.
pub fn add_count(text: &mut Writer, name: &str, value: Option<u64>) -> Result<(), AllocError>
    ensures { OnOk result (AddsMembers text.old text.new (member name.now (count_or_null value))) }
{
    text.key(name)?;
    match value {
        Some(value) => text.u64(value),
        None => text.null(),
    }
}

/// Adds a member whose value is `true`, `false` or null.
fn add_truth(text: &mut Writer, name: &str, value: Option<bool>) -> Result<(), AllocError>
    ensures { OnOk result (AddsMembers text.old text.new (member name.now (truth_or_null value))) }
{
    text.key(name)?;
    match value {
        Some(value) => text.boolean(value),
        None => text.null(),
    }
}

/// The verdict's name, if there is one.
fn verdict_word<'a>(verdict: Option<Verdict>) -> Option<&'a str>
    ensures { option_map (λ s. s.now) result ≡ option_map verdict_name verdict }
{
    match verdict {
        Some(verdict) => Some(verdict.name()),
        None => None,
    }
}

/// What is at fault, in words, if something is.
fn fault_word<'a>(fault: Option<EntryFault>) -> Option<&'a str>
    ensures { option_map (λ s. s.now) result ≡ option_map fault_words fault }
{
    match fault {
        Some(fault) => Some(fault_words(fault)),
        None => None,
    }
}

/// Adds how many moves are kept, the verdict after them, and what is at fault.
fn add_kept(
    text: &mut Writer,
    moves: Option<u64>,
    verdict: Option<Verdict>,
    fault: Option<EntryFault>,
) -> Result<(), AllocError>
    ensures { OnOk result (AddsMembers text.old text.new (kept_members moves verdict fault)) }
{
    add_count(text, "moves", moves)?;
    add_text(text, "verdict", verdict_word(verdict))?;
    add_text(text, "fault", fault_word(fault))
}

/// Adds what is kept.
fn add_record(text: &mut Writer, kept: &Option<Record>) -> Result<(), AllocError>
    ensures { OnOk result (AddsMembers text.old text.new (record_members kept.now)) }
{
    match kept {
        Some(record) => add_kept(
            text,
            Some(record.moves.as_slice().len() as u64),
            record.verdict,
            None,
        ),
        None => add_kept(text, None, None, None),
    }
}

/// Bytes that are UTF-8, as text.
fn utf8_text(bytes: &[u8]) -> &str
    requires { IsUtf8 bytes.now }
    ensures { result.now ≡ bytes.now }
{
    str::from_utf8(bytes).unwrap()
}

/// Adds what a folder has of a game.
fn add_side(text: &mut Writer, side: &Side) -> Result<(), AllocError>
    requires { IsNamed side.now }
    ensures { OnOk result (AddsMembers text.old text.new (side_members side.now)) }
{
    add_text(text, "name", Some(utf8_text(side.game.name.as_slice())))?;
    add_text(text, "start", Some(write(&side.game.start).as_str()))?;
    add_record(text, &side.kept)
}

/// Adds that nothing is known of a folder's game, and why, where that is the folder's fault.
fn add_unknown(text: &mut Writer, fault: Option<EntryFault>) -> Result<(), AllocError>
    ensures { OnOk result (AddsMembers text.old text.new (unknown_members fault)) }
{
    add_text(text, "name", None)?;
    add_text(text, "start", None)?;
    add_kept(text, None, None, fault)
}

/// Adds what is found of a game in the first folder, to an object.
pub fn add_first(text: &mut Writer, look: &Look) -> Result<(), AllocError>
    requires { AreNamed look.now }
    ensures { OnOk result (AddsMembers text.old text.new (first_members look.now)) }
{
    match look {
        Look::One(side) => add_side(text, side),
        Look::Both(side, _, _) => add_side(text, side),
        Look::AtFault(fault) => add_unknown(text, Some(*fault)),
        Look::OtherAtFault(_) => add_unknown(text, None),
    }
}

/// Adds whether both records are equal, by how many moves one is behind, and the first ply at which they part.
fn add_comparison(
    text: &mut Writer,
    agree: Option<bool>,
    behind: Option<u64>,
    differ: Option<u64>,
) -> Result<(), AllocError>
    ensures { OnOk result (AddsMembers text.old text.new (comparison_members agree behind differ)) }
{
    add_truth(text, "agree", agree)?;
    add_count(text, "behind", behind)?;
    add_count(text, "differ", differ)
}

/// Adds what comes of comparing two records.
fn add_compared(text: &mut Writer, compared: Compared) -> Result<(), AllocError>
    ensures { OnOk result (AddsMembers text.old text.new (compared_members compared)) }
{
    match compared {
        Compared::Agree => add_comparison(text, Some(true), None, None),
        Compared::Behind(moves) => add_comparison(text, Some(false), Some(moves as u64), None),
        Compared::Unopened => add_comparison(text, Some(false), None, None),
        Compared::Differ(ply) => add_comparison(text, Some(false), None, Some(ply as u64)),
    }
}

/// Adds what the second folder has.
fn add_other(text: &mut Writer, other: &Side) -> Result<(), AllocError>
    requires { IsNamed other.now }
    ensures { OnOk result (AddsMembers text.old text.new (member (codes "other") (object (side_members other.now no_members)))) }
{
    text.key("other")?;
    text.begin_object()?;
    add_side(text, other)?;
    text.end_object()
}

/// Adds what is at fault in the second folder.
fn add_other_fault(text: &mut Writer, fault: EntryFault) -> Result<(), AllocError>
    ensures { OnOk result (AddsMembers text.old text.new (member (codes "other") (object (unknown_members (Some fault) no_members)))) }
{
    text.key("other")?;
    text.begin_object()?;
    add_unknown(text, Some(fault))?;
    text.end_object()
}

/// Adds that the second folder isn't looked at.
fn add_unlooked(text: &mut Writer) -> Result<(), AllocError>
    ensures { OnOk result (AddsMembers text.old text.new unlooked_members) }
{
    add_text(text, "other", None)?;
    add_comparison(text, None, None, None)
}

/// Adds what is found in the second folder, and what comes of comparing both.
fn add_second(text: &mut Writer, look: &Look) -> Result<(), AllocError>
    requires { AreNamed look.now }
    ensures { OnOk result (AddsMembers text.old text.new (second_members look.now)) }
{
    match look {
        Look::Both(_, other, compared) => {
            add_other(text, other)?;
            add_compared(text, *compared)
        }
        Look::OtherAtFault(fault) => {
            add_other_fault(text, *fault)?;
            add_comparison(text, None, None, None)
        }
        Look::One(_) => add_unlooked(text),
        Look::AtFault(_) => add_unlooked(text),
    }
}

/// Adds what is found of a game in the second folder, and what comes of comparing both, to an object, where there are two folders.
pub fn add_second_if(text: &mut Writer, look: &Look, compares: bool) -> Result<(), AllocError>
    requires { AreNamed look.now }
    ensures { OnOk result (AddsMembers text.old text.new (members_if compares (second_members look.now))) }
{
    if compares {
        add_second(text, look)
    } else {
        Ok(())
    }
}

/// A stamp in lower-case hexadecimal digits.
fn stamp_digits(stamp: Stamp) -> [u8; 32]
    ensures { result ≡ encode_lower stamp }
{
    let mut digits = [0; 32];
    hex::encode_to_slice(stamp.as_bytes(), &mut digits).unwrap();
    digits
}

/// Adds the stamp of a game to an object.
pub fn add_stamp(text: &mut Writer, stamp: Stamp) -> Result<(), AllocError>
    ensures { OnOk result (AddsMembers text.old text.new (member (codes "stamp") (string (encode_lower stamp)))) }
{
    let digits = stamp_digits(stamp);
    add_text(text, "stamp", Some(utf8_text(&digits)))
}

/// Adds the object of a game, of which this is found. The error comes only where memory is refused.
pub fn add_game(
    text: &mut Writer,
    stamp: Stamp,
    look: &Look,
    compares: bool,
) -> Result<(), AllocError>
    requires { AreNamed look.now }
    ensures { OnOk result (AddsTokens text.old text.new (json_tokens (game_json compares (record { stamp = stamp; look = look.now })))) }
{
    text.begin_object()?;
    add_stamp(text, stamp)?;
    add_first(text, look)?;
    add_second_if(text, look, compares)?;
    text.end_object()
}

/// Adds how many games there are, those of each state, and the moves of the first folder's records.
fn add_totals(text: &mut Writer, totals: &Totals) -> Result<(), AllocError>
    ensures { OnOk result (AddsMembers text.old text.new (totals_members totals.now)) }
{
    add_count(text, "games", Some(totals.sums.games))?;
    add_count(text, "open", Some(totals.open_games))?;
    add_count(text, "with_verdict", Some(totals.sums.ruled))?;
    add_count(text, "at_fault", Some(totals.sums.faults))?;
    add_count(text, "moves", Some(totals.moves))
}

/// Adds how many games differ, and how many are behind.
fn add_compared_totals(text: &mut Writer, totals: &Totals) -> Result<(), AllocError>
    ensures { OnOk result (AddsMembers text.old text.new (compared_totals totals.now)) }
{
    add_count(text, "differ", Some(totals.sums.differ))?;
    add_count(text, "behind", Some(totals.behind))
}

/// Adds how many games differ, and how many are behind, where two folders are compared.
fn add_compared_totals_if(
    text: &mut Writer,
    totals: &Totals,
    compares: bool,
) -> Result<(), AllocError>
    ensures { OnOk result (AddsMembers text.old text.new (members_if compares (compared_totals totals.now))) }
{
    if compares {
        add_compared_totals(text, totals)
    } else {
        Ok(())
    }
}

/// Adds the sums to an object. The error comes only where memory is refused.
pub fn add_sums(text: &mut Writer, totals: &Totals, compares: bool) -> Result<(), AllocError>
    ensures { OnOk result (AddsMembers text.old text.new (member (codes "sums") (totals_json compares totals.now))) }
{
    text.key("sums")?;
    text.begin_object()?;
    add_totals(text, totals)?;
    add_compared_totals_if(text, totals, compares)?;
    text.end_object()
}

/// The text of a line with what was written. The error comes only where memory is refused.
pub fn line_of(text: Writer) -> Result<Vec<u8>, AllocError>
    ensures line { IfOk result (λ line. line.items ≡ text.before ++ ended (print text.tokens)) }
    ensures reads_back { tokens (print text.tokens) ≡ text.tokens }
{
    let mut line = text.into_inner();
    line.push(b'\n')?;
    Ok(line)
}
