//! Laws that the definitions keep.

ghost use Rattle.table_file.specs.Layouts.{ReadsWhatIsLaidOut};
ghost use Rattle.table_file.specs.FirstFaults.{TellsFirstFault};
ghost use Rattle.table_file.specs.Distances.{ASideIsStored};
ghost use Rattle.table_file.specs.Names.{NamesDiffer};

use pair_dict::reads_what_is_spelled;
use place_index::tables_are_numbered;

/// Reading gives the parts of a file exactly where the file has them by its layout.
pub fn reads_what_is_laid_out()
    ensures { ReadsWhatIsLaidOut }
{
    reads_what_is_spelled();
    tables_are_numbered();
}

/// Reading reports a fault exactly where it is the file's first one: the parts before it are well formed, and the part
/// at fault is not.
pub fn tells_first_fault()
    ensures { TellsFirstFault }
{
    reads_what_is_spelled();
    tables_are_numbered();
}

/// A DTZ table stores distances for at least one side to move, in each file of the leading pawn.
pub fn a_side_is_stored()
    ensures { ASideIsStored }
{}

/// Two tables, of two kinds or of two materials, have two file names.
pub fn names_differ()
    ensures { NamesDiffer }
{
    tables_are_numbered();
}
