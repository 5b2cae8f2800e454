ghost use Rattle.std.specs.Prelude.{◌≡◌};
ghost use Rattle.bulkops.specs.Growth.{size_to_grow as size_by};

use core_types::Limits;

/// Returns the present size under these limits, if they allow `more` in addition. The bounds are that of the embedding, the most
/// that any memory or table may have, and the declared maximum.
pub fn size_to_grow(bound: u32, most: u32, limits: Limits, more: u32) -> Option<u32>
    ensures { result ≡ size_by bound most limits more }
{
    let wanted = limits.min as u64 + more as u64;
    let declared = match limits.max {
        Some(max) => wanted <= max as u64,
        None => true,
    };
    if wanted <= bound as u64 && wanted <= most as u64 && declared {
        Some(limits.min)
    } else {
        None
    }
}
