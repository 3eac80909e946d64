//! Strings of JSON, byte by byte (RFC 8259, section 7).

ghost use Rattle.std.specs.Prelude.{◌≡◌, ◌++◌, ◌<◌, IsTrue, OnOk};
ghost use Rattle.std.specs.Char.{digit_char};
ghost use Rattle.std.specs.Io.KnownBytes.{Appends};
ghost use Rattle.json.specs.Print.{escape, escape_byte, escape_letter, quoted};

use std::io::Write;
use system_io::WriteFault;

/// Writes bytes.
pub(crate) fn put<W: Write>(out: &mut W, bytes: &[u8]) -> Result<(), WriteFault>
    ensures { OnOk result (Appends (W.contents out.old) (W.contents out.new) bytes.now) }
{
    match out.write_all(bytes) {
        Ok(()) => Ok(()),
        Err(_) => Err(WriteFault::Io),
    }
}

/// The hexadecimal digit of a number below 16.
fn digit_of(number: u8) -> u8
    requires { number < 16 }
    ensures { result ≡ digit_char number }
{
    if number < 10 {
        48 + number
    } else {
        87 + number
    }
}

/// The letter of a byte's short escape, and 0 where it has none.
fn escape_letter(byte: u8) -> u8
    ensures { result ≡ escape_letter byte }
{
    if byte == b'"' || byte == b'\\' {
        byte
    } else if byte == 8 {
        b'b'
    } else if byte == 12 {
        b'f'
    } else if byte == b'\n' {
        b'n'
    } else if byte == b'\r' {
        b'r'
    } else if byte == b'\t' {
        b't'
    } else {
        0
    }
}

/// Writes what stands in a string for a byte.
#[tactic(auto, unfolding(json::specs::Print::escape_byte))]
fn put_escaped<W: Write>(out: &mut W, byte: u8) -> Result<(), WriteFault>
    ensures { OnOk result (Appends (W.contents out.old) (W.contents out.new) (escape_byte byte)) }
{
    let letter = escape_letter(byte);
    if 0 < letter {
        put(out, &[b'\\', letter])
    } else if byte < 32 {
        put(
            out,
            &[
                b'\\',
                b'u',
                b'0',
                b'0',
                digit_of(byte / 16),
                digit_of(byte % 16),
            ],
        )
    } else {
        put(out, &[byte])
    }
}

/// Whether the bytes stand for themselves in a string.
fn are_plain(text: &[u8]) -> bool
    ensures { IsTrue result → escape text.now ≡ text.now }
{
    for byte in text {
        if *byte == b'"' || *byte == b'\\' || *byte < 32 {
            return false;
        }
    }
    true
}

/// Writes what stands in a string for these bytes.
fn put_content<W: Write>(out: &mut W, text: &[u8]) -> Result<(), WriteFault>
    ensures { OnOk result (Appends (W.contents out.old) (W.contents out.new) (escape text.now)) }
{
    if are_plain(text) {
        return put(out, text);
    }
    for byte in text {
        match put_escaped(out, *byte) {
            Ok(()) => {}
            Err(fault) => return Err(fault),
        }
    }
    Ok(())
}

/// Writes what stands in a string for a text of two parts.
fn put_parts<W: Write>(out: &mut W, front: &str, rest: &str) -> Result<(), WriteFault>
    ensures { OnOk result (Appends (W.contents out.old) (W.contents out.new) (escape (front.now ++ rest.now))) }
{
    match put_content(out, front.as_bytes()) {
        Ok(()) => put_content(out, rest.as_bytes()),
        Err(fault) => Err(fault),
    }
}

/// Writes a text of two parts as a string.
pub(crate) fn put_string<W: Write>(out: &mut W, front: &str, rest: &str) -> Result<(), WriteFault>
    ensures { OnOk result (Appends (W.contents out.old) (W.contents out.new) (quoted (front.now ++ rest.now))) }
{
    put(out, b"\"")?;
    put_parts(out, front, rest)?;
    put(out, b"\"")
}

/// Writes a text as a string.
pub(crate) fn put_text<W: Write>(out: &mut W, text: &str) -> Result<(), WriteFault>
    ensures { OnOk result (Appends (W.contents out.old) (W.contents out.new) (quoted text.now)) }
{
    put_string(out, text, "")
}
