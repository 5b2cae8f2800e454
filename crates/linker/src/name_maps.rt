ghost use Rattle.std.specs.Prelude.{◌≡◌, IfOk, OnOk, OnErr, [], ◌∷◌, unwrap_or};
ghost use Rattle.meaning.specs.embedding.Names.{put_under, under};
ghost use Rattle.linker.specs.Contents.{maps_in, numbers_in};

use indexmap::IndexMap;
use std::alloc::{AllocError, Global};

/// Numbers, by name.
pub type Numbers = IndexMap<String, u32>;

/// Stores a number under a name, and replaces the number that is there. If memory runs out, the numbers are unchanged.
pub fn put_number(
    alloc: Global,
    numbers: &mut Numbers,
    name: &str,
    number: u32,
) -> Result<(), AllocError>
    ensures put { OnOk result
        (numbers_in numbers.new ≡ put_under (numbers_in numbers.old) name.now number) }
    ensures unchanged { OnErr result (numbers_in numbers.new ≡ numbers_in numbers.old) }
{
    let key = String::from_str(alloc, name)?;
    numbers.insert(key, number)?;
    Ok(())
}

// Returns a map with this number alone.
fn one_number(alloc: Global, name: &str, number: u32) -> Result<Numbers, AllocError>
    ensures { IfOk result (λ numbers. numbers_in numbers ≡ (name.now, number) ∷ []) }
{
    let mut numbers = IndexMap::new(alloc);
    put_number(alloc, &mut numbers, name, number)?;
    Ok(numbers)
}

// Adds a number under two names, of which the first has no map yet. If memory runs out, the maps are unchanged.
fn add_map(
    alloc: Global,
    maps: &mut IndexMap<String, Numbers>,
    first: &str,
    second: &str,
    number: u32,
) -> Result<(), AllocError>
    ensures put { OnOk result (maps_in maps.new ≡ put_under (maps_in maps.old) first.now
        ((second.now, number) ∷ [])) }
    ensures unchanged { OnErr result (maps_in maps.new ≡ maps_in maps.old) }
{
    let numbers = one_number(alloc, second, number)?;
    let key = String::from_str(alloc, first)?;
    maps.insert(key, numbers)?;
    Ok(())
}

/// Stores a number under two names. If memory runs out, the maps are unchanged.
pub fn put_under_both(
    alloc: Global,
    maps: &mut IndexMap<String, Numbers>,
    first: &str,
    second: &str,
    number: u32,
) -> Result<(), AllocError>
    ensures put { OnOk result (maps_in maps.new ≡ put_under (maps_in maps.old) first.now
        (put_under (unwrap_or (under (maps_in maps.old) first.now) []) second.now number)) }
    ensures unchanged { OnErr result (maps_in maps.new ≡ maps_in maps.old) }
{
    match maps.get_mut(first) {
        Some(numbers) => put_number(alloc, numbers, second, number),
        None => add_map(alloc, maps, first, second, number),
    }
}
