//! Laws over what the commands tell: each function carries one law and does nothing.

ghost use Rattle.record_commands.specs.AuditAgreements.{TellsAsAudit};

/// What `audit --games` tells of a game whose record a folder keeps is what `audit` tells of that record, behind the game's stamp.
pub fn games_are_audited_alike()
    ensures { TellsAsAudit }
{}
