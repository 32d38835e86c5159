//! Values by name.
ghost use Rattle.std.specs.Prelude.{◌≡◌, [], OnOk, IfOk, map, option_copied};
ghost use Rattle.indexmap.specs.IndexMap.{values};
ghost use Rattle.qpu_expr.specs.Tables.{found, put_in};

use indexmap::IndexMap;
use std::alloc::{AllocError, Global};
use std::marker::Model;

/// Values, each under a name, in the order in which they were put. Contracts see the list of the names
/// with their values.
#[derive(Drop)]
pub struct Table<V: Drop> {
    entries: IndexMap<Vec<u8>, V>,
}

impl<V: Drop> Model for Table<V> {
    ghost use Rattle.std.specs.Prelude.{ℕ, List, map};

    ghost Value = { List (List ℕ × V) };

    ghost view = { λ t. map (λ e. (e.0.items, e.1)) t.entries.entries };
}

impl<V: Drop> Table<V> {
    /// No value.
    pub fn new(alloc: Global) -> Table<V>
        ensures { result ≡ [] }
    {
        Table {
            entries: IndexMap::new(alloc),
        }
    }

    /// The value under a name.
    pub fn get(&self, name: &[u8]) -> Option<&V>
        ensures { option_copied result ≡ found name.now self.now }
    {
        self.entries.get(name)
    }

    /// Puts a value under a name.
    pub fn put(&mut self, alloc: Global, name: &[u8], value: V) -> Result<(), AllocError>
        ensures { OnOk result (self.new ≡ put_in name.now value self.old) }
    {
        let name = Vec::from_slice(alloc, name)?;
        let _ = self.entries.insert(name, value)?;
        Ok(())
    }

    /// The values, in order.
    pub fn into_values(self, alloc: Global) -> Result<Vec<V>, AllocError>
        ensures { IfOk result (λ values. values.items ≡ map (λ e. e.1) self) }
    {
        all_values(alloc, self.entries)
    }
}

/// The values of a map, in order.
fn all_values<V: Drop>(alloc: Global, entries: IndexMap<Vec<u8>, V>) -> Result<Vec<V>, AllocError>
    ensures { IfOk result (λ all. all.items ≡ values entries) }
{
    entries.into_values().collect(alloc)
}
