ghost use Rattle.std.specs.Prelude.{◌↔◌, ◌≤◌, IsTrue};
ghost use Rattle.std.specs.List.{All};
ghost use Rattle.meaning.specs.execution.Modules.{IsWithinLimits};
ghost use Rattle.store.specs.Contents.{store_of};

use core_types::{Limits, Module, TableType};
use store::Store;

// Returns whether no table has more than this many entries at first.
fn have_few_entries(tables: &[TableType], entries: u32) -> bool
    ensures { IsTrue result ↔ All (λ t. t.limits.min ≤ entries) tables.now }
{
    for k in 0..tables.len() {
        if tables[k].limits.min > entries {
            return false;
        }
    }
    true
}

// Returns whether no memory has more than this many pages at first.
fn have_few_pages(memories: &[Limits], pages: u32) -> bool
    ensures { IsTrue result ↔ All (λ l. l.min ≤ pages) memories.now }
{
    for k in 0..memories.len() {
        if memories[k].min > pages {
            return false;
        }
    }
    true
}

/// Returns whether the objects of a module are within the limits of the embedding. The limits are for the entries of tables, the
/// pages of memories, and the addresses of all objects.
pub fn is_within_limits(store: &Store, wanted: &Module) -> bool
    ensures { IsTrue result ↔ IsWithinLimits (store_of store.now) wanted.now }
{
    have_few_entries(wanted.tables.as_slice(), store.state().entries())
        && have_few_pages(wanted.memories.as_slice(), store.state().pages())
        && store.has_room_for(wanted)
}
