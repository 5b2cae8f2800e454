ghost use Rattle.std.specs.Prelude.{◌≡◌, ◌+◌, nat_le};
ghost use Rattle.meaning.specs.execution.Memories.{copy_bytes as copy_of, fill_bytes as fill_of};
ghost use Rattle.bulkops.specs.Accesses.{Wrote};

use copying::copy_within;
use core_types::Trap;

/// Returns whether `count` bytes from an offset on are within `length` bytes.
pub fn is_within(length: usize, offset: u32, count: u32) -> bool
    ensures { result ≡ nat_le (offset + count) length }
{
    offset as u64 + count as u64 <= length as u64
}

/// Fills `count` bytes from an offset on with the low byte of a value, or traps and writes nothing (memory.fill).
pub fn fill_bytes(bytes: &mut [u8], offset: u32, value: u32, count: u32) -> Result<(), Trap>
    ensures { Wrote result bytes.old bytes.new (fill_of bytes.old offset value count) }
{
    if !is_within(bytes.len(), offset, count) {
        return Err(Trap::MemoryBounds);
    }
    let from = offset as usize;
    bytes[from..from + count as usize].fill((value % 0x100) as u8);
    Ok(())
}

/// Copies `count` bytes within a memory, as if all were read before any is written, or traps and writes nothing (memory.copy).
pub fn copy_bytes(bytes: &mut [u8], target: u32, from: u32, count: u32) -> Result<(), Trap>
    ensures { Wrote result bytes.old bytes.new (copy_of bytes.old bytes.old target from count) }
{
    if !is_within(bytes.len(), from, count) {
        return Err(Trap::MemoryBounds);
    }
    if !is_within(bytes.len(), target, count) {
        return Err(Trap::MemoryBounds);
    }
    copy_within(bytes, target as usize, from as usize, count as usize);
    Ok(())
}

/// Copies `count` bytes of a data segment into a memory, or traps and writes nothing (memory.init).
pub fn init_bytes(
    bytes: &mut [u8],
    segment: &[u8],
    target: u32,
    from: u32,
    count: u32,
) -> Result<(), Trap>
    ensures { Wrote result bytes.old bytes.new (copy_of bytes.old segment.now target from count) }
{
    if !is_within(segment.len(), from, count) {
        return Err(Trap::MemoryBounds);
    }
    if !is_within(bytes.len(), target, count) {
        return Err(Trap::MemoryBounds);
    }
    let start = from as usize;
    let offset = target as usize;
    let source = &segment[start..start + count as usize];
    bytes[offset..offset + count as usize].copy_from_slice(source);
    Ok(())
}
