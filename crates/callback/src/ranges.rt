ghost use Rattle.std.specs.Prelude.{◌≡◌, ◌+◌, ◌<◌, ◌≤◌, IfSome, IsNone};

/// Returns the start and the end of the range of `count` bytes from `first` on. Returns none if the range is not within `size`.
pub fn range_within(first: u64, count: u64, size: usize) -> Option<(usize, usize)>
    ensures start { IfSome result (λ r. r.0 ≡ first) }
    ensures end { IfSome result (λ r. r.1 ≡ first + count) }
    ensures within { IfSome result (λ r. r.1 ≤ size) }
    ensures none { IsNone result → size < first + count }
{
    let end = first.checked_add(count)?;
    if end > size as u64 {
        return None;
    }
    Some((first as usize, end as usize))
}
