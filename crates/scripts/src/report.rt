ghost use Rattle.std.specs.Prelude.{◌≡◌, ◌+◌, ◌<◌, ◌^◌, OnOk};

use std::alloc::AllocError;

/// The result of a script.
#[derive(Drop)]
pub struct Report {
    /// How many commands passed.
    pub passed: u64,
    /// How many commands failed.
    pub failed: u64,
    /// How many commands were skipped.
    pub skipped: u64,
    /// The lines of the commands that failed, in order.
    pub failures: Vec<u64>,
}

impl Report {
    ghost use Rattle.meaning.specs.scripts.Runner.{counted, with_skipped, with_tried};
    ghost use Rattle.scripts.specs.Runs.{report_view};

    // Counts a skipped command.
    pub(crate) fn skip(&mut self)
        requires { counted (report_view self.old) + 1 < 2 ^ 64 }
        ensures { report_view self.new ≡ with_skipped (report_view self.old) }
    {
        self.skipped += 1;
    }

    // Counts a command of a line that passed or failed.
    pub(crate) fn count(&mut self, line: u64, passed: bool) -> Result<(), AllocError>
        requires { counted (report_view self.old) + 1 < 2 ^ 64 }
        ensures { OnOk result (report_view self.new ≡
            with_tried (report_view self.old) line passed) }
    {
        if passed {
            self.passed += 1;
        } else {
            self.failures.push(line)?;
            self.failed += 1;
        }
        Ok(())
    }
}
