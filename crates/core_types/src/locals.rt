ghost use Rattle.std.specs.Prelude.{◌≡◌, ◌+◌, ◌<◌, ◌^◌, ◌++◌, [], length, replicate, slice_get, OnOk, OnErr};

use crate::halving::run_at;
use crate::types::ValType;
use std::alloc::{AllocError, Global};
use std::marker::Model;

/// Consecutive locals of one type, up to the index `end`.
#[derive(Clone, Copy)]
pub struct LocalRun {
    pub end: u32,
    pub ty: ValType,
}

/// The types of a function's locals, kept as runs of one type. Contracts see the list of the types.
#[derive(Drop)]
pub struct Locals {
    // The first run, which is empty if there are no locals. Most functions have no other.
    first: LocalRun,
    others: Vec<LocalRun>,
}

impl Model for Locals {
    ghost use Rattle.std.specs.Prelude.{List, ◌∷◌};
    ghost use Rattle.core_types.specs.declared.types.ValType.{ValType};

    ghost Value = { List ValType };

    ghost use Rattle.core_types.specs.LocalRuns.{expanded, IsAscending};

    ghost view = { λ a. expanded 0 (a.first ∷ a.others.items) };

    ghost invariant = { λ a. IsAscending 0 (a.first ∷ a.others.items) };
}

impl Locals {
    /// Creates an empty list of locals.
    pub fn new(alloc: Global) -> Locals
        ensures { result ≡ [] }
    {
        Locals {
            first: LocalRun {
                end: 0,
                ty: ValType::I32,
            },
            others: Vec::new(alloc),
        }
    }

    /// Returns the number of locals.
    pub fn len(&self) -> u32
        ensures { result ≡ length self.now }
    {
        match self.others.last() {
            Some(run) => run.end,
            None => self.first.end,
        }
    }

    /// Appends `count` locals of one type. If memory runs out, the locals are unchanged.
    pub fn push(&mut self, count: u32, ty: ValType) -> Result<(), AllocError>
        requires { length self.old + count < 2 ^ 32 }
        ensures ok { OnOk result (self.new ≡ self.old ++ replicate count ty) }
        ensures err { OnErr result (self.new ≡ self.old) }
    {
        if self.others.is_empty() && self.first.end == 0 {
            self.first = LocalRun { end: count, ty };
            return Ok(());
        }
        let end = self.len() + count;
        self.others.push(LocalRun { end, ty })?;
        Ok(())
    }

    /// Returns the type of the local at this index. Most locals are in the first run; another run is found by halving.
    #[inline(always)]
    pub fn get(&self, index: u32) -> Option<ValType>
        ensures { result ≡ slice_get self.now index }
    {
        if index < self.first.end {
            return Some(self.first.ty);
        }
        let found = run_at(&self.others, self.first.end, index);
        if found < self.others.len() {
            Some(self.others[found].ty)
        } else {
            None
        }
    }
}
