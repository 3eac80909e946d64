//! Texts that are put into a caller's room.

ghost use Rattle.std.specs.Prelude.{◌≡◌};
ghost use Rattle.probe_api.specs.Texts.{PutsText};

/// Puts a text and a byte 0 after it at the front of the room, where both fit; otherwise it writes nothing. It tells the length of
/// the text.
pub fn put_text(text: &[u8], room: &mut [u8]) -> usize
    ensures { PutsText text.now room.old result room.new }
{
    let length = text.len();
    if length < room.len() {
        room[..length].copy_from_slice(text);
        room[length] = 0;
    }
    length
}
