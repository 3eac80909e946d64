//! A text cut at each place of a byte.

ghost use Rattle.std.specs.Prelude.{◌≡◌, ◌≢◌, ◌==◌, [], ◌∷◌, length, position, IfSome, IfNone};
ghost use Rattle.fen_text.specs.Cuts.{cut_at};

/// The first place of a byte.
fn place_of(text: &[u8], separator: u8) -> Option<usize>
    ensures { result ≡ position (λ b. b == separator) text.now }
{
    text.iter().position(|b| *b == separator)
}

/// The first piece of a text that is cut at each place of a byte, and the text after the byte that ends it; none where the byte
/// isn't there. It takes no memory.
pub fn cut_first(text: &[u8], separator: u8) -> Option<(&[u8], &[u8])>
    ensures some { IfSome result
        (λ x. cut_at separator text.now ≡ x.0.now ∷ cut_at separator x.1.now) }
    ensures none { IfNone result (cut_at separator text.now ≡ text.now ∷ []) }
{
    match place_of(text, separator) {
        None => None,
        Some(i) => Some((&text[..i], &text[i + 1..])),
    }
}

/// The six pieces of a text that is cut at each space.
#[derive(Clone, Copy)]
pub(crate) struct Fields<'a> {
    pub(crate) placement: &'a [u8],
    pub(crate) side: &'a [u8],
    pub(crate) castling: &'a [u8],
    pub(crate) en_passant: &'a [u8],
    pub(crate) halfmove: &'a [u8],
    pub(crate) fullmove: &'a [u8],
}

/// The six pieces, where there are six.
pub(crate) fn six_fields(text: &[u8]) -> Option<Fields<'_>>
    ensures some { IfSome result (λ f. cut_at 32 text.now ≡ f.placement.now ∷ f.side.now
        ∷ f.castling.now ∷ f.en_passant.now ∷ f.halfmove.now ∷ f.fullmove.now ∷ []) }
    ensures none { IfNone result (length (cut_at 32 text.now) ≢ 6) }
{
    let (placement, text) = cut_first(text, b' ')?;
    let (side, text) = cut_first(text, b' ')?;
    let (castling, text) = cut_first(text, b' ')?;
    let (en_passant, text) = cut_first(text, b' ')?;
    let (halfmove, fullmove) = cut_first(text, b' ')?;
    match cut_first(fullmove, b' ') {
        None => Some(Fields {
            placement,
            side,
            castling,
            en_passant,
            halfmove,
            fullmove,
        }),
        Some(_) => None,
    }
}
