//! Which folder of tables is read before all answers, and which when a position asks for a table.

ghost use Rattle.std.specs.Prelude.{◌≡◌};
ghost use Rattle.command_line.specs.LazyFolders.{read_at_once, read_when_asked};

/// The folder whose tables are read before all answers, if one is.
pub(crate) fn read_at_once(lazy: bool, folder: Option<&str>) -> Option<&str>
    ensures { result ≡ read_at_once lazy folder.entry }
{
    if lazy { None } else { folder }
}

/// The folder whose tables are read when a position asks for them, if one is.
pub fn read_when_asked(lazy: bool, folder: Option<&str>) -> Option<&str>
    ensures { result ≡ read_when_asked lazy folder.entry }
{
    if lazy { folder } else { None }
}
