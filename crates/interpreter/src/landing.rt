ghost use Rattle.std.specs.Prelude.{◌≡◌, ◌+◌, ◌≤◌, ◌<◌, ◌++◌, length, take, drop, get_or, replicate};
ghost use Rattle.interpreter.specs.Layout.{AreMoved};

/// Moves cells down.
#[cold]
#[inline(never)]
pub fn move_down(cells: &mut [u64], from: usize, to: usize, count: usize)
    requires low { to ≤ from }
    requires within { from + count ≤ length cells.old }
    ensures moved { take (to + count) cells.new ≡ take to cells.old ++ take count
        (drop from cells.old) }
    ensures size { length cells.new ≡ length cells.old }
{
    cells.copy_within(from..from + count, to);
}

/// Moves the topmost operands down over the cell `to`, and returns the topmost one then. The last of them is at the top and is
/// `operand`.
#[inline(always)]
pub fn land(cells: &mut [u64], top: usize, to: usize, kept: usize, operand: u64) -> u64
    requires low { to + kept ≤ top }
    requires within { top < length cells.old }
    requires there { get_or cells.old top 0 ≡ operand }
    ensures { AreMoved cells.old top to kept cells.new result }
{
    if kept == 0 {
        return cells[to];
    }
    if kept > 1 {
        move_down(cells, top + 1 - kept, to + 1, kept - 1);
    }
    operand
}

/// Like `land`, for results, of which there is usually one.
#[inline(always)]
pub fn land_results(cells: &mut [u64], top: usize, to: usize, kept: usize, operand: u64) -> u64
    requires low { to + kept ≤ top }
    requires within { top < length cells.old }
    requires there { get_or cells.old top 0 ≡ operand }
    ensures { AreMoved cells.old top to kept cells.new result }
{
    if kept == 1 {
        return operand;
    }
    land(cells, top, to, kept, operand)
}

// Clears any number of cells.
#[cold]
#[inline(never)]
fn clear_many(cells: &mut [u64], from: usize, count: usize)
    requires { from + count ≤ length cells.old }
    ensures cleared { take (from + count) cells.new ≡ take from cells.old ++ replicate count 0 }
    ensures size { length cells.new ≡ length cells.old }
{
    cells[from..from + count].fill(0);
}

// Clears at least one cell. The first two are cleared by two writes.
#[inline(always)]
fn clear_more(cells: &mut [u64], from: usize, count: usize)
    requires some { 1 ≤ count }
    requires within { from + count < length cells.old }
    ensures cleared { take (from + count) cells.new ≡ take from cells.old ++ replicate count 0 }
    ensures size { length cells.new ≡ length cells.old }
{
    cells[from] = 0;
    cells[from + 1] = 0;
    if count > 2 {
        clear_many(cells, from + 2, count - 2);
    }
}

/// Clears cells, and may clear the cell after them. A few cells are cleared two at a time.
#[inline(always)]
pub fn clear(cells: &mut [u64], from: usize, count: usize)
    requires { from + count < length cells.old }
    ensures cleared { take (from + count) cells.new ≡ take from cells.old ++ replicate count 0 }
    ensures size { length cells.new ≡ length cells.old }
{
    if count > 0 {
        cells[from] = 0;
        cells[from + 1] = 0;
        if count > 2 {
            clear_more(cells, from + 2, count - 2);
        }
    }
}
