//! The tables that were read, and their manifest.

ghost use Rattle.std.specs.Prelude.{[]};
ghost use Rattle.host_commands.specs.Inside.Parts.{manifest_taken};
ghost use Rattle.host_commands.specs.Notes.{in_words};
ghost use Rattle.host_commands.specs.Tables.{GathersTables, MakesManifest};

use answer_parts::{Refusal, gather, manifest_of_sources};
use command_line::CacheSize;
use judge_core::Set;
use std::alloc::Global;
use task_files::Inputs;

/// The tables of what was read, in a set that keeps so many decoded blocks; or their refusal.
pub(crate) fn tables_of<'s>(
    alloc: Global,
    sources: &'s Inputs,
    cache: CacheSize,
) -> Result<Set<'s>, Refusal>
    ensures { GathersTables sources.now cache (in_words result) [] }
{
    match gather(alloc, sources, cache) {
        Ok(Ok(set)) => Ok(set),
        Ok(Err(refusal)) => Err(refusal),
        Err(_) => Err(Refusal::Memory),
    }
}

/// Their manifest.
pub(crate) fn make_manifest(alloc: Global, sources: &Inputs) -> Result<Vec<u8>, Refusal>
    ensures { MakesManifest sources.now (manifest_taken result) [] }
{
    match manifest_of_sources(alloc, sources) {
        Ok(manifest) => Ok(manifest),
        Err(_) => Err(Refusal::Memory),
    }
}
