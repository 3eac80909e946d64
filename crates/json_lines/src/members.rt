//! Members of JSON objects (RFC 8259, sections 3 to 6).

ghost use Rattle.std.specs.Prelude.{◌∷◌, [], cond, false, OnOk};
ghost use Rattle.std.specs.Io.KnownBytes.{Appends};
ghost use Rattle.json.specs.Token.{key};
ghost use Rattle.json.specs.Tree.{json_tokens};
ghost use Rattle.json_lines.specs.declared.members.Value.TheVariants.{Boolean, Count, Number};
ghost use Rattle.json_lines.specs.Inside.Members.{Writes, members_of, open_tokens, value_json};

use crate::text::{put, put_string, put_text};
use std::io::Write;
use system_io::WriteFault;

/// A value that is neither a list nor an object.
#[derive(Clone, Copy)]
pub enum Value<'a> {
    /// `null`.
    Null,
    /// `true` or `false`.
    Boolean(bool),
    /// A whole number.
    Number(i32),
    /// A number that counts.
    Count(u64),
    /// A string.
    Text(&'a str),
    /// A string of two parts.
    Words(&'a str, &'a str),
}

/// A member of an object.
#[derive(Clone, Copy)]
pub struct Member<'a> {
    /// Its name.
    pub name: &'static str,
    /// Its value.
    pub value: Value<'a>,
}

/// Writes a whole number.
fn put_number<W: Write>(out: &mut W, number: i32) -> Result<(), WriteFault>
    ensures { OnOk result (Writes false (json_tokens (value_json (Number number))) (W.contents out.old) (W.contents out.new)) }
{
    match write!(out, "{number}") {
        Ok(()) => Ok(()),
        Err(_) => Err(WriteFault::Io),
    }
}

/// Writes a number that counts.
fn put_count<W: Write>(out: &mut W, count: u64) -> Result<(), WriteFault>
    ensures { OnOk result (Writes false (json_tokens (value_json (Count count))) (W.contents out.old) (W.contents out.new)) }
{
    match write!(out, "{count}") {
        Ok(()) => Ok(()),
        Err(_) => Err(WriteFault::Io),
    }
}

/// Writes `true` or `false`.
fn put_boolean<W: Write>(out: &mut W, value: bool) -> Result<(), WriteFault>
    ensures { OnOk result (Writes false (json_tokens (value_json (Boolean value))) (W.contents out.old) (W.contents out.new)) }
{
    if value {
        put(out, b"true")
    } else {
        put(out, b"false")
    }
}

/// Writes a value.
fn put_value<W: Write>(out: &mut W, value: &Value<'_>) -> Result<(), WriteFault>
    ensures { OnOk result (Writes false (json_tokens (value_json value.now)) (W.contents out.old) (W.contents out.new)) }
{
    match value {
        Value::Null => put(out, b"null"),
        Value::Boolean(value) => put_boolean(out, *value),
        Value::Number(number) => put_number(out, *number),
        Value::Count(count) => put_count(out, *count),
        Value::Text(text) => put_text(out, text),
        Value::Words(front, rest) => put_string(out, front, rest),
    }
}

/// Writes the comma between two items or two members, where one stands before.
pub(crate) fn put_comma<W: Write>(out: &mut W, later: bool) -> Result<(), WriteFault>
    ensures { OnOk result (Appends (W.contents out.old) (W.contents out.new) (cond later (44 ∷ []) [])) }
{
    if later { put(out, b",") } else { Ok(()) }
}

/// Writes the name of a member and its colon.
pub(crate) fn put_key<W: Write>(out: &mut W, later: bool, name: &str) -> Result<(), WriteFault>
    ensures { OnOk result (Writes later (key name.now ∷ []) (W.contents out.old) (W.contents out.new)) }
{
    put_comma(out, later)?;
    put_text(out, name)?;
    put(out, b":")
}

/// Writes a member.
pub(crate) fn put_member<W: Write>(
    out: &mut W,
    later: bool,
    member: &Member<'_>,
) -> Result<(), WriteFault>
    ensures { OnOk result (Writes later (key member.now.name.now ∷ json_tokens (value_json member.now.value)) (W.contents out.old) (W.contents out.new)) }
{
    match put_key(out, later, member.name) {
        Ok(()) => put_value(out, &member.value),
        Err(fault) => Err(fault),
    }
}

/// Writes members, with commas between.
pub(crate) fn put_members<W: Write>(
    out: &mut W,
    later: bool,
    members: &[Member<'_>],
) -> Result<(), WriteFault>
    ensures { OnOk result (Writes later (open_tokens (members_of members.now)) (W.contents out.old) (W.contents out.new)) }
{
    match members.split_first() {
        None => Ok(()),
        Some((member, rest)) => match put_member(out, later, member) {
            Ok(()) => put_members(out, true, rest),
            Err(fault) => Err(fault),
        },
    }
}
