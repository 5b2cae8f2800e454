ghost use Rattle.std.specs.Prelude.{◌≡◌, ◌+◌, ◌-◌, ◌<◌, ◌≤◌, OnOk, OnErr};
ghost use Rattle.quota.specs.Counting.{counted, left_of};

use std::alloc::AllocError;
use std::marker::Model;

/// The most bytes that may be held, and how many are: those that stay, and those that the running call has borrowed.
#[derive(Clone, Copy)]
pub struct Quota {
    most: u64,
    kept: u64,
    borrowed: u64,
}

impl Model for Quota {
    ghost use Rattle.std.specs.Prelude.{◌+◌, ◌≤◌};
    ghost use Rattle.quota.specs.Counting.{Counted, counted};

    ghost Value = { Counted };

    ghost view = { λ q. counted q.most q.kept q.borrowed };

    ghost inverse = { λ q. record { most = q.most; kept = q.kept; borrowed = q.borrowed } };

    ghost invariant = { λ q. q.kept + q.borrowed ≤ q.most };
}

impl Quota {
    /// Creates a quota of that many bytes, of which none is held. Allocates nothing.
    pub fn new(most: u64) -> Quota
        ensures { result ≡ counted most 0 0 }
    {
        Quota {
            most,
            kept: 0,
            borrowed: 0,
        }
    }

    /// Returns how many more bytes may be held.
    pub fn left(&self) -> u64
        ensures left { result ≡ left_of self.now }
        ensures within { self.now.kept + self.now.borrowed ≤ self.now.most }
    {
        self.most - self.kept - self.borrowed
    }

    /// Counts bytes that stay.
    ///
    /// # Errors
    ///
    /// Fails if fewer are left, and counts nothing.
    pub fn keep(&mut self, bytes: u64) -> Result<(), AllocError>
        ensures enough { OnOk result (bytes ≤ left_of self.old) }
        ensures counted { OnOk result (self.new ≡
            counted self.old.most (self.old.kept + bytes) self.old.borrowed) }
        ensures too_few { OnErr result (left_of self.old < bytes) }
        ensures unchanged { OnErr result (self.new ≡ self.old) }
    {
        if bytes > self.left() {
            return Err(AllocError);
        }
        self.kept += bytes;
        Ok(())
    }

    /// Counts bytes that the running call borrows.
    ///
    /// # Errors
    ///
    /// Fails if fewer are left, and counts nothing.
    pub fn borrow(&mut self, bytes: u64) -> Result<(), AllocError>
        ensures enough { OnOk result (bytes ≤ left_of self.old) }
        ensures counted { OnOk result (self.new ≡
            counted self.old.most self.old.kept (self.old.borrowed + bytes)) }
        ensures too_few { OnErr result (left_of self.old < bytes) }
        ensures unchanged { OnErr result (self.new ≡ self.old) }
    {
        if bytes > self.left() {
            return Err(AllocError);
        }
        self.borrowed += bytes;
        Ok(())
    }

    /// Returns the quota after a call: what stays of a later count is kept, at most all of it, and what was borrowed is free.
    pub fn after(self, later: Quota) -> Quota
        ensures most { result.most ≡ self.most }
        ensures returned { result.borrowed ≡ 0 }
        ensures kept { later.kept ≤ self.most → result.kept ≡ later.kept }
    {
        Quota {
            most: self.most,
            kept: if later.kept < self.most {
                later.kept
            } else {
                self.most
            },
            borrowed: 0,
        }
    }
}
