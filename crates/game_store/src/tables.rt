//! The tables of a database.

ghost use Rattle.std.specs.Prelude.{◌≡◌, ◌↔◌, [], IsTrue};
ghost use Rattle.game_store.specs.Rows.{column_of, columns, game_schema, no_schema, table};
ghost use Rattle.game_store.specs.Tables.{HasNoRules};

use sqlite_schema::code::Terms;
use sqlite_schema::schema::{Column, Kind, Schema, Stamps, Table};
use sqlite_value::keys::Collation;
use sqlite_value::value::Value;

/// What tables a database has.
#[derive(Clone, Copy, PartialEq, Eq)]
pub(crate) enum Tables {
    /// That of the games alone.
    Games,
    /// None, nor anything else.
    Nothing,
    Others,
}

/// Whether a column is one of this name and kind, strict, with no default and compared by its bytes.
fn is_column(column: &Column, name: &[u8], kind: Kind, not_null: bool) -> bool
    ensures { IsTrue result ↔ (column.now ≡ column_of name.now kind not_null) }
{
    let is_null = matches!(column.default, Value::Null);
    let is_binary = column.collation == Collation::Binary;
    column.name.as_slice() == name
        && column.kind == kind
        && column.is_strict
        && column.not_null == not_null
        && is_null
        && is_binary
}

/// Whether the columns are those of the games.
fn are_columns(all: &[Column]) -> bool
    ensures { IsTrue result ↔ (all.now ≡ columns) }
{
    let [id, stamp, count, record] = all else {
        return false;
    };
    is_column(id, b"id", Kind::Integer, false)
        && is_column(stamp, b"stamp", Kind::Blob, true)
        && is_column(count, b"count", Kind::Integer, true)
        && is_column(record, b"record", Kind::Blob, true)
}

/// Whether there is no expression.
fn are_none(terms: &Terms) -> bool
    ensures { IsTrue result ↔ (terms.now ≡ []) }
{
    terms.roots.is_empty()
}

/// Whether no default reads the time.
fn are_no_stamps(stamps: &Stamps) -> bool
    ensures { IsTrue result ↔ (stamps.now ≡ record { places = []; terms = []; formats = [] }) }
{
    stamps.places.is_empty() && are_none(&stamps.terms) && stamps.formats.is_empty()
}

/// Whether a table has no rule but those of its columns and its key.
fn is_plain(table: &Table) -> bool
    ensures { IsTrue result ↔ HasNoRules table.now }
{
    table.uniques.is_empty()
        && table.orders.is_empty()
        && are_none(&table.checks)
        && table.references.is_empty()
        && table.computed.is_empty()
        && are_no_stamps(&table.stamps)
        && !table.is_counted
}

/// Whether a table is that of the games.
fn is_games(found: &Table) -> bool
    ensures { IsTrue result ↔ (found.now ≡ table) }
{
    found.name.as_slice() == b"game".as_slice()
        && found.tree == 0
        && found.key == Some(0)
        && found.primary.as_slice() == [0].as_slice()
        && are_columns(found.columns.as_slice())
        && is_plain(found)
}

/// What tables a schema has.
pub(crate) fn tables_of(schema: &Schema) -> Tables
    ensures games { (result ≡ Tables.Games) ↔ (schema.now ≡ game_schema) }
    ensures nothing { (result ≡ Tables.Nothing) ↔ (schema.now ≡ no_schema) }
{
    if !schema.indexes.is_empty() || !schema.views.is_empty() {
        return Tables::Others;
    }
    match schema.tables.as_slice() {
        [] => Tables::Nothing,
        [table] if is_games(table) => Tables::Games,
        _ => Tables::Others,
    }
}
