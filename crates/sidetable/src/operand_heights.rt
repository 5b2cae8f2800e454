ghost use Rattle.std.specs.Prelude.{◌≡◌, ◌<◌, ◌≤◌, ◌+◌, ◌-◌, ◌^◌, Some, IfOk, OnOk};
ghost use Rattle.sidetable.specs.Counts.{GoesOnAt, behind as behind_counts, changed as changed_height, height_or_zero as known_or_zero, less as less_by};

use crate::counts::Counts;
use std::alloc::AllocError;
use std::marker::Model;

// From here on, heights are refused. So each sum has 64 bits.
const BOUND: u64 = 0x4000_0000_0000_0000;

/// The height of the operands at a place, or none if the place is never reached.
#[derive(Clone, Copy)]
pub struct Height {
    // one more than the height, or 0 for none
    above: u64,
}

impl Model for Height {
    ghost use Rattle.std.specs.Prelude.{Option, ℕ};
    ghost use Rattle.sidetable.specs.Counts.{height_below, number_above};

    ghost Value = { Option ℕ };

    ghost view = { λ h. height_below h.above };

    ghost inverse = { λ h. record { above = number_above h } };
}

/// The height here, and the greatest one so far.
#[derive(Drop)]
pub struct Heights {
    // one more than each height, or 0 if the place is never reached
    here: u64,
    greatest: u64,
}

impl Model for Heights {
    ghost use Rattle.std.specs.Prelude.{◌-◌, ◌<◌, ◌≤◌, ◌^◌};
    ghost use Rattle.sidetable.specs.Counts.{HeightsSoFar, height_below};

    ghost Value = { HeightsSoFar };

    ghost view = { λ h. record { here = height_below h.here; greatest = h.greatest - 1 } };

    ghost invariant = { λ h. (0 < h.greatest) × (h.greatest ≤ 2 ^ 62) × (h.here ≤ h.greatest) };
}

impl Heights {
    /// Creates the heights of a body that begins: with its locals, and with its results above them.
    pub fn new(locals: u64, results: u64) -> Heights
        requires { locals + results < 2 ^ 62 }
        ensures here { result.here ≡ Some locals }
        ensures greatest { result.greatest ≡ locals + results }
    {
        Heights {
            here: locals + 1,
            greatest: locals + results + 1,
        }
    }

    /// Returns the height here.
    pub fn here(&self) -> Height
        ensures { result ≡ self.now.here }
    {
        Height { above: self.here }
    }

    /// Returns the greatest height so far.
    pub fn greatest(&self) -> u64
        ensures greatest { result ≡ self.now.greatest }
        ensures within { known_or_zero self.now.here ≤ self.now.greatest }
    {
        self.greatest - 1
    }

    /// Goes on at this height.
    #[inline(always)]
    pub fn set(&mut self, height: Height) -> Result<(), AllocError>
        ensures { OnOk result (GoesOnAt self.old height self.new) }
    {
        if height.above > self.greatest {
            if height.above > BOUND {
                return Err(AllocError);
            }
            self.greatest = height.above;
        }
        self.here = height.above;
        Ok(())
    }

    // Goes on behind an instruction with these counts, whatever the height is.
    #[cold]
    #[inline(never)]
    fn pass_any(&mut self, c: Counts) -> Result<(), AllocError>
        ensures { OnOk result
            (GoesOnAt self.old (changed_height c self.old.here) self.new) }
    {
        let after = changed(c, self.here())?;
        self.set(after)
    }

    /// Goes on behind an instruction with these counts.
    #[inline(always)]
    pub fn pass(&mut self, c: Option<Counts>) -> Result<(), AllocError>
        ensures { OnOk result
            (GoesOnAt self.old (behind_counts c self.old.here) self.new) }
    {
        let Some(c) = c else {
            self.here = 0;
            return Ok(());
        };
        let here = self.here;
        if here <= c.takes as u64 || c.gives as u64 >= BOUND {
            return self.pass_any(c);
        }
        let after = here - c.takes as u64 + c.gives as u64;
        if c.gives > c.takes && after > self.greatest {
            if after > BOUND {
                return Err(AllocError);
            }
            self.greatest = after;
        }
        self.here = after;
        Ok(())
    }
}

/// Returns the height with one operand less.
pub fn less_one(height: Height) -> Height
    ensures { result ≡ less_by 1 height }
{
    if height.above <= 1 {
        return height;
    }
    Height {
        above: height.above - 1,
    }
}

/// Returns the height after an instruction with these counts.
pub fn changed(c: Counts, height: Height) -> Result<Height, AllocError>
    ensures { IfOk result (λ h. h ≡ changed_height c height) }
{
    if height.above == 0 {
        return Ok(height);
    }
    let left = (height.above - 1).saturating_sub(c.takes as u64);
    if left >= BOUND || c.gives as u64 >= BOUND {
        return Err(AllocError);
    }
    Ok(Height {
        above: left + c.gives as u64 + 1,
    })
}

/// Returns the height, or 0 if the place is never reached.
pub fn known(height: Height) -> u64
    ensures { result ≡ known_or_zero height }
{
    height.above.saturating_sub(1)
}

/// Returns the height below the parameters of a block.
pub fn base(c: Counts, inside: Height) -> u64
    ensures { result ≡ known_or_zero inside - c.takes }
{
    known(inside).saturating_sub(c.takes as u64)
}
