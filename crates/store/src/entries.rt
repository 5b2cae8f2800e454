ghost use Rattle.std.specs.Prelude.{◌≡◌, ◌++◌, OnOk, OnErr};
ghost use Rattle.meaning.specs.execution.Modules.{consecutive};
ghost use Rattle.store.specs.Contents.{entries_of};

use crate::instances::FunctionInstance;
use std::alloc::AllocError;

/// Appends an entry for each of the functions of an instance. If memory runs out, the list is unchanged.
pub fn push_entries(
    functions: &mut Vec<FunctionInstance>,
    instance: u32,
    count: u32,
) -> Result<(), AllocError>
    ensures pushed { OnOk result (functions.new.items ≡ functions.old.items ++ entries_of instance
        (consecutive 0 count)) }
    ensures unchanged { OnErr result (functions.new.items ≡ functions.old.items) }
{
    let before = functions.len();
    for index in 0..count {
        match functions.push(FunctionInstance::InModule { instance, index }) {
            Ok(()) => {}
            Err(_) => {
                functions.truncate(before);
                return Err(AllocError);
            }
        }
    }
    Ok(())
}
