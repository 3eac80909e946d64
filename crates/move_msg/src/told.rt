//! Manifests that were read.

ghost use Rattle.std.specs.Prelude.{◌≡◌, Some, IfOk};
ghost use Rattle.move_msg.specs.ToldManifests.{ToldManifest, TellsManifest};
ghost use Rattle.move_msg.specs.ToldBy.{told_by};

use crate::manifest::{Line, ManifestFault, manifest_read};
use std::alloc::{AllocError, Global};

/// The contents of a manifest, if one is named.
#[derive(Drop)]
pub enum Manifest {
    /// None is named.
    Unnamed,
    /// Its lines.
    Lines(Vec<Line>),
    /// The number of its first malformed line, counted from 1.
    BadLine(usize),
}

impl Manifest {
    /// Reads a manifest. The error comes only where memory is refused.
    pub fn of(alloc: Global, text: &[u8]) -> Result<Manifest, AllocError>
        ensures { IfOk result (λ manifest. (told : ToldManifest) × TellsManifest text.now told × (told_by manifest ≡ Some told)) }
    {
        match manifest_read(alloc, text) {
            Ok(lines) => Ok(Manifest::Lines(lines)),
            Err(ManifestFault::BadLine(number)) => Ok(Manifest::BadLine(number)),
            Err(ManifestFault::OutOfMemory) => Err(AllocError),
        }
    }
}
