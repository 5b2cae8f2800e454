//! Modules and instances by numbers that count up from 0.

use crate::steps::Kind;

// The most modules, or instances, that there may be.
const MOST: usize = 8;

/// The kinds of modules, or of instances, by number.
#[derive(Clone, Copy)]
pub struct Numbered {
    kinds: [Option<Kind>; MOST],
    count: usize,
}

impl Numbered {
    /// Creates an empty list of kinds.
    pub fn new() -> Numbered {
        Numbered {
            kinds: [None; MOST],
            count: 0,
        }
    }

    /// Returns the kind with this number, if there is one.
    pub fn get(&self, number: u64) -> Option<Kind> {
        self.kinds.get(number as usize).copied().flatten()
    }

    /// Appends a kind, and returns its number, the next one.
    pub fn append(&mut self, kind: Kind) -> u64 {
        let number = self.count;
        if number < MOST {
            self.kinds[number] = Some(kind);
            self.count = number + 1;
        }
        number as u64
    }
}
