ghost use Rattle.std.specs.Prelude.{◌≡◌, ◌+◌, ◌-◌, ◌<◌, ◌≤◌, ◌↔◌, IsTrue};
ghost use Rattle.std.specs.Bool.{OnTrue, OnFalse};
ghost use Rattle.fuel.specs.Metering.{metered};

use std::marker::Model;

/// The fuel left, and the number of open frames under a bound.
#[derive(Drop)]
pub struct Meter {
    left: u64,
    bound: u32,
    frames: u32,
}

impl Model for Meter {
    ghost use Rattle.fuel.specs.Metering.{Metered, metered};

    ghost Value = { Metered };

    ghost view = { λ m. metered m.left m.bound m.frames };
}

impl Meter {
    /// Creates a meter with this fuel and no open frame. Allocates nothing.
    pub fn new(fuel: u64, depth_bound: u32) -> Meter
        ensures { result ≡ metered fuel depth_bound 0 }
    {
        Meter {
            left: fuel,
            bound: depth_bound,
            frames: 0,
        }
    }

    /// Returns the fuel left.
    pub fn left(&self) -> u64
        ensures { result ≡ self.now.left }
    {
        self.left
    }

    /// Returns the most frames that may be open.
    pub fn bound(&self) -> u32
        ensures { result ≡ self.now.bound }
    {
        self.bound
    }

    /// Sets the fuel.
    pub fn set(&mut self, fuel: u64)
        ensures { self.new ≡ metered fuel self.old.bound self.old.frames }
    {
        self.left = fuel;
    }

    /// Spends `cost` if that much fuel is left. Otherwise returns false and changes nothing.
    pub fn try_spend(&mut self, cost: u64) -> bool
        ensures enough { IsTrue result ↔ (cost ≤ self.old.left) }
        ensures spent { OnTrue result (self.new ≡ metered (self.old.left - cost) self.old.bound
            self.old.frames) }
        ensures unchanged { OnFalse result (self.new ≡ self.old) }
    {
        if cost <= self.left {
            self.left -= cost;
            true
        } else {
            false
        }
    }

    /// Opens a frame if fewer are open than the bound allows. Otherwise returns false and changes nothing.
    pub fn enter(&mut self) -> bool
        ensures within { IsTrue result ↔ (self.old.frames < self.old.bound) }
        ensures opened { OnTrue result (self.new ≡ metered self.old.left self.old.bound
            (self.old.frames + 1)) }
        ensures unchanged { OnFalse result (self.new ≡ self.old) }
    {
        if self.frames < self.bound {
            self.frames += 1;
            true
        } else {
            false
        }
    }

    /// Closes a frame. One must be open.
    pub fn leave(&mut self)
        requires { 0 < self.old.frames }
        ensures { self.new ≡ metered self.old.left self.old.bound (self.old.frames - 1) }
    {
        self.frames -= 1;
    }
}
