//! Why a store at a path wasn't opened, as the calls that failed have told it.

ghost use Rattle.std.specs.Prelude.{◌≡◌};
ghost use Rattle.game_store.specs.declared.fault.DatabaseFault.TheVariants.{Sqlite};

use crate::fault::DatabaseFault;
use sqlite::Error;

/// Why a store at a path wasn't opened. It is made of what a failed call returned, and of nothing else.
#[derive(Clone, Copy)]
pub struct OpenFault {
    fault: DatabaseFault,
}

impl OpenFault {
    /// What an opening of a connection told, less what is left of the files.
    pub(crate) fn of_opening<L: Drop>(why: (Error, L)) -> OpenFault
        ensures { result.fault ≡ Sqlite why.0 }
    {
        let (error, _left) = why;
        OpenFault {
            fault: DatabaseFault::Sqlite(error),
        }
    }

    /// What a reading of the games told, less the connection.
    pub(crate) fn of_reading<L: Drop>(why: (DatabaseFault, L)) -> OpenFault
        ensures { result.fault ≡ why.0 }
    {
        let (fault, _conn) = why;
        OpenFault { fault }
    }

    /// The fault.
    pub fn cause(self) -> DatabaseFault
        ensures { result ≡ self.fault }
    {
        self.fault
    }
}
