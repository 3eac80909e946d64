//! Slots for tables, which may have other holders.

ghost use Rattle.std.specs.Prelude.{◌≡◌, None, Some, IfNone, IfSome, is_some};
ghost use Rattle.std.specs.Arc.{arc_value};
ghost use Rattle.judge_core.specs.Inside.Kept.{table_in};

use std::alloc::Global;
use std::sync::Arc;
use table_file::Table;

/// A slot of a set for one table.
#[derive(Drop)]
pub(crate) enum TableSlot<'a> {
    /// No table.
    Empty,
    /// A table that no other slot has.
    Own(Table<'a>),
    /// A table that slots of other sets may have too. It is freed with the last of them.
    Shared(Arc<Table<'a>>),
}

/// A slot, and another one with its table.
#[derive(Drop)]
pub(crate) struct SlotPair<'a> {
    /// The slot.
    pub(crate) kept: TableSlot<'a>,
    /// The other one; none where memory for it was refused.
    pub(crate) given: Option<TableSlot<'a>>,
}

impl<'a> TableSlot<'a> {
    /// The table.
    pub(crate) fn table(&self) -> Option<&Table<'a>>
        ensures some { IfSome result (λ table. table_in self.now ≡ Some table.now) }
        ensures none { IfNone result (table_in self.now ≡ None) }
    {
        match self {
            TableSlot::Empty => None,
            TableSlot::Own(table) => Some(table),
            TableSlot::Shared(table) => Some(&**table),
        }
    }

    /// Whether there is a table.
    pub(crate) fn is_some(&self) -> bool
        ensures { result ≡ is_some (table_in self.now) }
    {
        self.table().is_some()
    }

    /// A table that is shared, for its slot and for another one.
    fn shared_twice(table: Arc<Table<'a>>) -> SlotPair<'a>
        ensures kept { table_in result.kept ≡ Some (arc_value table.entry) }
        ensures given { IfSome result.given (λ given. table_in given ≡ Some (arc_value table.entry)) }
    {
        let given = match Arc::try_clone(&table) {
            Ok(other) => Some(TableSlot::Shared(other)),
            Err(_) => None,
        };
        SlotPair {
            kept: TableSlot::Shared(table),
            given,
        }
    }

    /// A table that no other slot has, for its slot and for another one.
    fn own_twice(alloc: Global, table: Table<'a>) -> SlotPair<'a>
        ensures kept { table_in result.kept ≡ Some table.entry }
        ensures given { IfSome result.given (λ given. table_in given ≡ Some table.entry) }
    {
        match Arc::new(alloc, table) {
            Ok(table) => TableSlot::shared_twice(table),
            Err(refused) => SlotPair {
                kept: TableSlot::Own(refused.value),
                given: None,
            },
        }
    }

    /// This slot, and another one with its table; none where memory is refused, or the table has 2^63 holders.
    pub(crate) fn twice(self, alloc: Global) -> SlotPair<'a>
        ensures kept { table_in result.kept ≡ table_in self.entry }
        ensures given { IfSome result.given (λ given. table_in given ≡ table_in self.entry) }
    {
        match self {
            TableSlot::Empty => SlotPair {
                kept: TableSlot::Empty,
                given: Some(TableSlot::Empty),
            },
            TableSlot::Own(table) => TableSlot::own_twice(alloc, table),
            TableSlot::Shared(table) => TableSlot::shared_twice(table),
        }
    }
}
