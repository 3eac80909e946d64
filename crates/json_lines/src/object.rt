//! An object of flat members.

ghost use Rattle.std.specs.Prelude.{◌<◌, length, OnOk};
ghost use Rattle.std.specs.Io.KnownBytes.{Appends};
ghost use Rattle.json.specs.Json.{object};
ghost use Rattle.json_lines.specs.Members.{members_of};
ghost use Rattle.json_lines.specs.Objects.{json_text};

use crate::members::{Member, put_members};
use crate::writing::{put_begin, put_end};
use std::io::Write;
use system_io::WriteFault;

/// Writes an object of these members (RFC 8259, section 4), in their order, without spaces and without a line feed.
///
/// After an error a part of it may be written.
pub fn put_object<W: Write>(out: &mut W, members: &[Member<'_>]) -> Result<(), WriteFault>
    requires { 0 < length members.now }
    ensures { OnOk result (Appends (W.contents out.old) (W.contents out.new) (json_text (object (members_of members.now)))) }
{
    put_begin(out, false)?;
    put_members(out, false, members)?;
    put_end(out)
}
