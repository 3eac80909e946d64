//! Kinds of table files, and their names.

ghost use Rattle.std.specs.Prelude.{◌≡◌, ◌≢◌, IfErr, IfSome, IfNone};
ghost use Rattle.table_file.specs.declared.fault.TableFault.TheVariants.{OutOfMemory};
ghost use Rattle.table_file.specs.declared.kind.TableKind.{TableKind};
ghost use Rattle.table_file.specs.Names.{ending, file_name, title_of};
ghost use Rattle.table_file.specs.Reading.{Gives};

use crate::fault::TableFault;
use arrayvec::ArrayString;
use place_index::{Material, tables_are_numbered};

/// What the values of a table file mean.
#[derive(Clone, Copy, Debug, PartialEq, Eq)]
pub enum TableKind {
    /// Win, draw or loss, with the halfmove clock at 0.
    Wdl,
    /// The distance to the next move that sets the halfmove clock to 0.
    Dtz,
}

/// How many bytes an ending has.
const ENDING: usize = 5;

/// The kind of table whose file names end so: `.rtbw` or `.rtbz`.
fn kind_of(text: &[u8]) -> Option<TableKind>
    ensures found { IfSome result (λ kind. text.now ≡ ending kind) }
    ensures none { IfNone result ((kind : TableKind) → text.now ≡ ending kind → ⊥) }
{
    match text {
        [b'.', b'r', b't', b'b', b'w'] => Some(TableKind::Wdl),
        [b'.', b'r', b't', b'b', b'z'] => Some(TableKind::Dtz),
        _ => None,
    }
}

/// The kind and the material that a file name gives: the name of the men, and an ending.
pub(crate) fn title(name: &[u8]) -> Result<(TableKind, Material), TableFault>
    ensures is { Gives (λ x. (x.0, x.1)) result (title_of name.now) }
    ensures no_memory { IfErr result (λ e. e ≢ OutOfMemory) }
{
    tables_are_numbered();
    if name.len() < ENDING {
        return Err(TableFault::BadName);
    }
    let (men, ending) = name.split_at(name.len() - ENDING);
    let Some(kind) = kind_of(ending) else {
        return Err(TableFault::BadName);
    };
    let Some(material) = Material::from_name(men) else {
        return Err(TableFault::BadName);
    };
    let _ = material.key();
    Ok((kind, material))
}

/// The ending of the file names of a kind: `.rtbw` or `.rtbz`.
fn ending_of(kind: TableKind) -> &'static str
    ensures { result.now ≡ ending kind }
{
    match kind {
        TableKind::Wdl => ".rtbw",
        TableKind::Dtz => ".rtbz",
    }
}

/// The name of the file of a kind for a material, as `KQvK.rtbw`: the name of the men, and the ending. It has 9 to 11 bytes.
/// `open` takes a file of that name for the table of this kind and this material.
pub fn file_name(kind: TableKind, material: &Material) -> ArrayString<16>
    ensures { result.bytes ≡ file_name kind material.now }
{
    let men = material.name();
    let mut name = ArrayString::<16>::new();
    name.push_str(men.as_str());
    name.push_str(ending_of(kind));
    name
}
