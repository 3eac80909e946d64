//! Owned copies of texts.

ghost use Rattle.std.specs.Prelude.{◌≡◌, map, string_bytes, IfOk};

use std::alloc::{AllocError, Global};

/// Owned copies of texts.
pub(crate) fn owned(alloc: Global, texts: &[&str]) -> Result<Vec<String>, AllocError>
    ensures { IfOk result (λ all. map string_bytes all.items ≡ map (λ s. s.now) texts.now) }
{
    let mut all = Vec::new(alloc);
    for text in texts {
        all.push(String::from_str(alloc, text)?)?;
    }
    Ok(all)
}
