//! Copies within a slice, at the speed of the C library if the ranges do not overlap.
#![tactic(auto)]

ghost use Rattle.std.specs.Prelude.{◌≡◌, ◌+◌, ◌≤◌, length};
ghost use Rattle.meaning.specs.execution.Storage.{items_at, overwrite};

// Copies `count` items to a place after them.
fn copy_up<T: Copy>(items: &mut [T], target: usize, from: usize, count: usize)
    requires apart { from + count ≤ target }
    requires inside { target + count ≤ length items.old }
    ensures { items.new ≡ overwrite items.old target (items_at items.old from count) }
{
    let (front, back) = items.split_at_mut(target);
    back[..count].copy_from_slice(&front[from..from + count]);
}

// Copies `count` items to a place before them.
fn copy_down<T: Copy>(items: &mut [T], target: usize, from: usize, count: usize)
    requires apart { target + count ≤ from }
    requires inside { from + count ≤ length items.old }
    ensures { items.new ≡ overwrite items.old target (items_at items.old from count) }
{
    let (front, back) = items.split_at_mut(from);
    front[target..target + count].copy_from_slice(&back[..count]);
}

/// Copies `count` items of a slice to another place in it, as if all were read before any is written.
pub fn copy_within<T: Copy>(items: &mut [T], target: usize, from: usize, count: usize)
    requires source { from + count ≤ length items.old }
    requires target { target + count ≤ length items.old }
    ensures { items.new ≡ overwrite items.old target (items_at items.old from count) }
{
    if from + count <= target {
        copy_up(items, target, from, count);
    } else if target + count <= from {
        copy_down(items, target, from, count);
    } else {
        items.copy_within(from..from + count, target);
    }
}
