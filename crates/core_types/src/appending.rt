ghost use Rattle.std.specs.Prelude.{◌≡◌, ◌<◌, ◌∷◌, [], ◌++◌, length, OnErr, OnOk};
ghost use Rattle.std.specs.Vec.{vec_capacity};

use std::alloc::AllocError;

// Reserves room for more elements.
#[cold]
#[inline(never)]
fn grow<T>(items: &mut Vec<T>) -> Result<(), AllocError>
    ensures same { items.new.items ≡ items.old.items }
    ensures room { OnOk result (length items.new.items < vec_capacity items.new) }
{
    items.reserve(1)
}

/// Appends an element. If memory runs out, the elements are unchanged. The rare path that reserves room is a separate function.
#[inline(always)]
pub fn append<T: Drop>(items: &mut Vec<T>, x: T) -> Result<(), AllocError>
    ensures ok { OnOk result (items.new.items ≡ items.old.items ++ x ∷ []) }
    ensures err { OnErr result (items.new.items ≡ items.old.items) }
{
    if items.len() == items.capacity() {
        grow(items)?;
    }
    items.push_reserved(x);
    Ok(())
}
