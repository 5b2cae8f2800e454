ghost use Rattle.std.specs.Prelude.{◌≡◌, ◌↔◌, IsSome, IfSome};
ghost use Rattle.embed.specs.Setups.{IsInRange};

use core_types::MAX_PAGES;
use std::marker::Model;

// The bounds of a setup.
const MAX_DEPTH: u32 = 65_535;

const MAX_ENTRIES: u32 = 10_000_000;

/// The setup of an embedding.
#[derive(Drop)]
pub struct Config {
    fuel: u64,
    depth: u32,
    pages: u32,
    entries: u32,
    ghost in_range: { IsInRange (record {
      fuel = fuel;
      depth = depth;
      pages = pages;
      entries = entries;
    }) },
}

impl Model for Config {
    ghost use Rattle.meaning.specs.embedding.Machine.{Setup};

    ghost Value = { Setup };

    ghost view = { λ c. record {
      fuel = c.fuel;
      depth = c.depth;
      pages = c.pages;
      entries = c.entries;
    } };
}

impl Config {
    /// Creates a setup with the initial fuel, the most open frames, the most pages of one memory, and the most entries of one
    /// table.
    ///
    /// The depth is 1 to 65,535, the pages are 0 to 65,536, and the entries are 0 to 10,000,000. Returns none if one is out of
    /// its range.
    pub fn new(fuel: u64, depth: u32, pages: u32, entries: u32) -> Option<Config>
        ensures in_range { IsSome result ↔ IsInRange
            (record { fuel = fuel; depth = depth; pages = pages; entries = entries }) }
        ensures same { IfSome result
            (λ c. c ≡ record { fuel = fuel; depth = depth; pages = pages; entries = entries }) }
    {
        if depth == 0 || depth > MAX_DEPTH || pages > MAX_PAGES || entries > MAX_ENTRIES {
            return None;
        }
        Some(Config {
            fuel,
            depth,
            pages,
            entries,
        })
    }

    /// Returns the initial fuel.
    pub fn fuel(&self) -> u64
        ensures { result ≡ self.now.fuel }
    {
        self.fuel
    }

    /// Returns the most frames that may be open.
    pub fn depth(&self) -> u32
        ensures { result ≡ self.now.depth }
    {
        self.depth
    }

    /// Returns the most pages that a memory may have.
    pub fn pages(&self) -> u32
        ensures { result ≡ self.now.pages }
    {
        self.pages
    }

    /// Returns the most entries that a table may have.
    pub fn entries(&self) -> u32
        ensures { result ≡ self.now.entries }
    {
        self.entries
    }
}
