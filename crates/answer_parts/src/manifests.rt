//! The manifest by which a game is stamped.

ghost use Rattle.std.specs.Prelude.{IfOk};
ghost use Rattle.move_msg.specs.Files.{entries_of};
ghost use Rattle.move_msg.specs.Manifests.{SpellsManifest};

use move_msg::manifest_of;
use std::alloc::{AllocError, Global};
use task_files::Inputs;

/// The manifest of the tables.
pub fn manifest_of_sources(alloc: Global, sources: &Inputs) -> Result<Vec<u8>, AllocError>
    ensures { IfOk result (λ text. SpellsManifest text.items (entries_of sources.now.files)) }
{
    manifest_of(alloc, sources.files())
}
