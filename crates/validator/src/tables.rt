ghost use Rattle.std.specs.Prelude.{All, IsTrue, ◌↔◌};
ghost use Rattle.core_types.specs.declared.types.TableType.{TableType as Table};
ghost use Rattle.meaning.specs.validation.Types.{AreOrdered};

use crate::types::are_ordered;
use core_types::TableType;

// Returns whether the bounds of each table are valid (Validation, Table Types).
pub fn are_valid_tables(tables: &[TableType]) -> bool
    ensures { IsTrue result ↔ All (λ (table : Table). AreOrdered table.limits) tables.now }
{
    tables.iter().all(|table| are_ordered(table.limits))
}
