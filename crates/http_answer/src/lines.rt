//! The lines of a body.

ghost use Rattle.std.specs.Prelude.{◌≡◌, ◌∷◌, [], IfNone, IfSome, length, nat_le};
ghost use Rattle.move_msg.specs.TextLines.{lines_in};

use fen_text::cut_first;

/// How many lines a body may have. All of them are answered in one turn of a connection, and others wait as long.
const MOST: usize = 16;

/// The first line of a text, whose line feed may be missing, and the text after it; none where the text is empty.
pub(crate) fn first_line(text: &[u8]) -> Option<(&[u8], &[u8])>
    ensures some { IfSome result (λ x. lines_in text.now ≡ x.0.now ∷ lines_in x.1.now) }
    ensures none { IfNone result (lines_in text.now ≡ []) }
{
    if text.is_empty() {
        return None;
    }
    match cut_first(text, b'\n') {
        Some((line, rest)) => Some((line, rest)),
        None => Some((text, &[])),
    }
}

/// Whether a body has no more lines than it may have.
pub(crate) fn is_list(body: &[u8]) -> bool
    ensures { result ≡ nat_le (length (lines_in body.now)) 16 }
{
    let mut rest = body;
    let mut before: usize = 0;
    while let Some((_, tail)) = first_line(rest) {
        if before == MOST {
            return false;
        }
        before += 1;
        rest = tail;
    }
    true
}
