//! The stamps whose files a folder lists.

ghost use Rattle.std.specs.Prelude.{◌≡◌, List, ℕ, map, string_bytes, [], ◌∷◌, IfSome, IfNone, IfOk, OnOk};
ghost use Rattle.std.specs.Cmp.Lexicographic.{slice_cmp};
ghost use Rattle.std.specs.List.Sorted.{IsStrictlySortedBy};
ghost use Rattle.std.specs.Ordering.{nat_cmp};
ghost use Rattle.hex.specs.Hex.{encode_lower};
ghost use Rattle.move_msg.specs.Stamps.{IsStamp};
ghost use Rattle.game_status.specs.Listings.{AddsStamps, stamp_file_name};

use move_msg::Stamp;
use std::alloc::{AllocError, Global};
use std::collections::BTreeSet;

/// The stamp with these 32 lower-case hexadecimal digits; none where they are no such digits.
pub fn stamp_of(digits: &[u8]) -> Option<Stamp>
    ensures some { IfSome result (λ stamp. IsStamp stamp × (digits.now ≡ encode_lower stamp)) }
    ensures none { IfNone result ((stamp : List ℕ) → IsStamp stamp → digits.now ≡ encode_lower stamp → ⊥) }
{
    let mut stamp = [0; 16];
    if hex::decode_to_slice(digits, &mut stamp).is_err() {
        return None;
    }
    let mut again = [0; 32];
    if hex::encode_to_slice(&stamp, &mut again).is_err() {
        return None;
    }
    if again.as_slice() != digits {
        return None;
    }
    Some(Stamp(stamp))
}

/// The stamp whose file with this ending has the name.
fn stamp_in(name: &[u8], ending: &[u8]) -> Option<Stamp>
    ensures some { IfSome result (λ stamp. IsStamp stamp × (name.now ≡ stamp_file_name stamp ending.now)) }
    ensures none { IfNone result ((stamp : List ℕ) → IsStamp stamp → name.now ≡ stamp_file_name stamp ending.now → ⊥) }
{
    match name.strip_suffix(ending) {
        Some(digits) => stamp_of(digits),
        None => None,
    }
}

/// Adds the stamp whose file with this ending has the name, if it is such a name.
fn add_stamp(name: &[u8], ending: &[u8], stamps: &mut BTreeSet<Stamp>) -> Result<(), AllocError>
    ensures { OnOk result (AddsStamps (name.now ∷ []) ending.now stamps.old.keys stamps.new.keys) }
{
    let Some(stamp) = stamp_in(name, ending) else {
        return Ok(());
    };
    match stamps.insert(stamp) {
        Ok(_) => Ok(()),
        Err(_) => Err(AllocError),
    }
}

/// Adds the stamps whose files with this ending have the names. The error comes only where memory is refused.
pub fn add_stamps(
    names: &[String],
    ending: &[u8],
    stamps: &mut BTreeSet<Stamp>,
) -> Result<(), AllocError>
    ensures { OnOk result (AddsStamps (map string_bytes names.now) ending.now stamps.old.keys stamps.new.keys) }
{
    for name in names {
        add_stamp(name.as_str().as_bytes(), ending, stamps)?;
    }
    Ok(())
}

/// The stamps in rising order. The error comes only where memory is refused.
pub fn rising(alloc: Global, stamps: &BTreeSet<Stamp>) -> Result<Vec<Stamp>, AllocError>
    ensures all { IfOk result (λ all. all.items ≡ stamps.now.keys) }
    ensures rising { OnOk result (IsStrictlySortedBy (slice_cmp nat_cmp) stamps.now.keys) }
{
    let mut all = Vec::new(alloc);
    for stamp in stamps {
        all.push(*stamp)?;
    }
    Ok(all)
}
