ghost use Rattle.std.specs.Prelude.{◌<◌, ◌≤◌, length, slice_get, IfSome};
ghost use Rattle.core_types.specs.LocalRuns.{start_of};

use crate::locals::LocalRun;

// At most this many runs are tried in turn, which is faster.
const FEW_RUNS: usize = 8;

// Returns the index of the first run that ends after the index of a local. The runs begin at `start`.
#[inline(never)]
pub fn run_at(runs: &[LocalRun], start: u32, index: u32) -> usize
    requires { start ≤ index }
    ensures within { result ≤ length runs.now }
    ensures begins { start_of start runs.now result ≤ index }
    ensures ends { IfSome (slice_get runs.now result) (λ run. index < run.end) }
{
    if runs.len() <= FEW_RUNS {
        run_in_turn(runs, start, index)
    } else {
        run_by_halving(runs, start, index)
    }
}

// Like `run_at`, by trying each run from the first one on.
fn run_in_turn(runs: &[LocalRun], start: u32, index: u32) -> usize
    requires { start ≤ index }
    ensures within { result ≤ length runs.now }
    ensures begins { start_of start runs.now result ≤ index }
    ensures ends { IfSome (slice_get runs.now result) (λ run. index < run.end) }
{
    let mut found = 0;
    while found < runs.len() {
        if index < runs[found].end {
            return found;
        }
        found += 1;
    }
    found
}

// Like `run_at`, by binary search.
fn run_by_halving(runs: &[LocalRun], start: u32, index: u32) -> usize
    requires { start ≤ index }
    ensures within { result ≤ length runs.now }
    ensures begins { start_of start runs.now result ≤ index }
    ensures ends { IfSome (slice_get runs.now result) (λ run. index < run.end) }
{
    let mut low = 0;
    let mut high = runs.len();
    while low < high {
        let middle = low + (high - low) / 2;
        let run = runs[middle];
        if run.end <= index {
            low = middle + 1;
        } else {
            high = middle;
        }
    }
    low
}
