ghost use Rattle.std.specs.Bool.{OnFalse, OnTrue};
ghost use Rattle.std.specs.Prelude.{IfNone, IfSome, IsTrue, OnOk, [], length, option_to_list, take, ◌++◌, ◌<◌, ◌↔◌, ◌∷◌, ◌≡◌, ◌≤◌};
ghost use Rattle.meaning.specs.validation.Instructions.{known};
ghost use Rattle.validator.specs.OperandStack.{AreEntries, EndEach, EndIn, EndsWith, IsRunOnTop, each_of, operands_in, runs_in, types_of};
ghost use Rattle.validator.specs.Operands.{DropsTop, ReplacesTop};

use crate::entries::{Entry, PackedEntry};
use crate::types::are_equal;
use core_types::{OperandType, ValType};
use std::alloc::{AllocError, Global};
use std::marker::Model;

// From how many types on a list takes one entry.
pub const LEAST_RUN: usize = 16;

// How many operands more than entries there may be, so that the number of operands has 64 bits.
const MOST_MORE: usize = 0x4000_0000_0000_0000;

/// The operands of a body, the topmost last. A long list of types that was pushed at once is a run: it takes one entry, and its
/// types are borrowed.
#[derive(Drop)]
pub struct OperandStack<'a> {
    entries: Vec<PackedEntry>,
    // The types of each run, in order. None is empty.
    runs: Vec<&'a [ValType]>,
    // How many operands there are more than entries.
    more: usize,
}

impl<'a> Model for OperandStack<'a> {
    ghost use Rattle.std.specs.Prelude.{List};
    ghost use Rattle.core_types.specs.declared.types.OperandType.{OperandType};
    ghost use Rattle.validator.specs.OperandStack.{AreEntries, operands_in, types_of};

    ghost Value = { List OperandType };

    ghost view = { λ s. operands_in s.entries.items (types_of s.runs.items) };

    ghost invariant = { λ s. AreEntries s.entries.items (types_of s.runs.items) s.more };
}

impl<'a> OperandStack<'a> {
    // Creates a stack without operands. Allocates nothing.
    pub fn new(alloc: Global) -> OperandStack<'a>
        ensures { result ≡ [] }
    {
        OperandStack {
            entries: Vec::new(alloc),
            runs: Vec::new(alloc),
            more: 0,
        }
    }

    // Removes all operands. The stack keeps its room.
    pub fn clear(&mut self)
        ensures { self.new ≡ [] }
    {
        self.entries.clear();
        self.runs.clear();
        self.more = 0;
    }

    #[inline(always)]
    pub fn len(&self) -> usize
        ensures { result ≡ length self.now }
    {
        self.entries.len() + self.more
    }

    // Returns whether there are more operands than that. Mostly, there are more entries.
    #[inline(always)]
    pub fn is_above(&self, height: usize) -> bool
        ensures { IsTrue result ↔ (height < length self.now) }
    {
        self.entries.len() > height || self.len() > height
    }

    #[inline(always)]
    pub fn push(&mut self, operand: OperandType) -> Result<(), AllocError>
        ensures { OnOk result (self.new ≡ self.old ++ operand ∷ []) }
    {
        self.entries.push(PackedEntry::of(operand))?;
        Ok(())
    }

    // Pushes operands of these types, one by one.
    #[inline(always)]
    fn push_each(&mut self, types: &[ValType]) -> Result<(), AllocError>
        ensures { OnOk result (self.new ≡ self.old ++ known types.now) }
    {
        for ty in types {
            self.push(OperandType::Known(*ty))?;
        }
        Ok(())
    }

    // Pushes operands of these types as a run, if there are any and their number has room.
    #[inline(never)]
    fn push_run(&mut self, types: &'a [ValType]) -> Result<(), AllocError>
        ensures { OnOk result (self.new ≡ self.old ++ known types.now) }
    {
        let room = MOST_MORE - self.more;
        if types.is_empty() || types.len() > room {
            return self.push_each(types);
        }
        let more = self.more + (types.len() - 1);
        let count = self.runs.len();
        self.runs.push(types)?;
        match self.entries.push(PackedEntry::run()) {
            Ok(()) => {
                self.more = more;
                Ok(())
            }
            Err(_) => {
                self.runs.truncate(count);
                Err(AllocError)
            }
        }
    }

    // Pushes operands of these types.
    #[inline(always)]
    pub fn push_types(&mut self, types: &'a [ValType]) -> Result<(), AllocError>
        ensures { OnOk result (self.new ≡ self.old ++ known types.now) }
    {
        if types.len() < LEAST_RUN {
            self.push_each(types)
        } else {
            self.push_run(types)
        }
    }

    // Returns whether the topmost operands above a height have these types, if they are of one run or have entries of their own.
    // Otherwise returns false.
    #[inline(never)]
    pub fn ends_with(&self, height: usize, types: &[ValType]) -> bool
        ensures { OnTrue result (EndsWith height self.now types.now) }
    {
        let len = self.entries.len() + self.more;
        if len < types.len() {
            return false;
        }
        if len - types.len() < height {
            return false;
        }
        if end_with_each(&self.entries, types) {
            return true;
        }
        if !end_with_run(&self.entries, &self.runs, types) {
            return false;
        }
        true
    }

    // Removes operands of the topmost entry, at most that many, if it is a run. Returns their types.
    #[inline(never)]
    pub fn pop_run(&mut self, most: usize) -> Option<&'a [ValType]>
        requires { 0 < most }
        ensures popped { IfSome result (λ types. self.old ≡ self.new ++ known types.now) }
        ensures some { IfSome result (λ types. 0 < length types.now) }
        ensures bound { IfSome result (λ types. length types.now ≤ most) }
        ensures kept { IfNone result (self.new ≡ self.old) }
    {
        let count = self.entries.len();
        if count == 0 || !self.entries[count - 1].is_run() {
            return None;
        }
        Some(cut_run(&mut self.entries, &mut self.runs, &mut self.more, most))
    }

    // Removes the topmost operand, and returns it.
    #[inline(always)]
    pub fn pop(&mut self) -> Option<OperandType>
        ensures popped { self.old ≡ self.new ++ option_to_list result }
        ensures none { IfNone result (self.old ≡ []) }
    {
        let count = self.entries.len();
        if count == 0 {
            return None;
        }
        match self.entries[count - 1].get() {
            Entry::Known(ty) => {
                self.entries.truncate(count - 1);
                Some(OperandType::Known(ty))
            }
            Entry::Unknown => {
                self.entries.truncate(count - 1);
                Some(OperandType::Unknown)
            }
            Entry::Run => {
                let types = cut_run(&mut self.entries, &mut self.runs, &mut self.more, 1);
                Some(OperandType::Known(types[0]))
            }
        }
    }

    // Removes all operands from a number on.
    #[inline(always)]
    pub fn truncate(&mut self, len: usize)
        ensures { self.new ≡ take len self.old }
    {
        if self.runs.is_empty() {
            self.entries.truncate(len);
        } else {
            self.truncate_runs(len);
        }
    }

    // Like `truncate`, entry by entry.
    #[cold]
    #[inline(never)]
    fn truncate_runs(&mut self, len: usize)
        ensures { self.new ≡ take len self.old }
    {
        while self.len() > len {
            let most = self.len() - len;
            match self.pop_run(most) {
                Some(_) => {}
                None => {
                    let _ = self.pop();
                }
            }
        }
    }

    // Removes the topmost operand, if there is an entry for it above a height, and its type is known and is this one. Returns whether
    // it did.
    #[inline(always)]
    pub fn drop_top(&mut self, height: usize, takes: ValType) -> bool
        ensures dropped { OnTrue result (DropsTop height self.old (takes ∷ []) self.new) }
        ensures kept { OnFalse result (self.new ≡ self.old) }
    {
        let count = self.entries.len();
        if count <= height || !self.entries[count - 1].is_known(takes) {
            return false;
        }
        self.entries.truncate(count - 1);
        true
    }

    // Removes the two topmost operands, if there are entries for them above a height, and their types are known and are these. Returns
    // whether it did.
    #[inline(always)]
    pub fn drop_top_two(&mut self, height: usize, under: ValType, top: ValType) -> bool
        ensures dropped { OnTrue result (DropsTop height self.old (under ∷ top ∷ []) self.new) }
        ensures kept { OnFalse result (self.new ≡ self.old) }
    {
        let count = self.entries.len();
        if count < 2 || count - 2 < height {
            return false;
        }
        if !self.entries[count - 1].is_known(top) || !self.entries[count - 2].is_known(under) {
            return false;
        }
        self.entries.truncate(count - 2);
        true
    }

    // Replaces the topmost operand with one of another type, if there is an entry for it above a height, and its type is known and
    // is this one. Returns whether it did.
    #[inline(always)]
    pub fn replace_top(&mut self, height: usize, takes: ValType, gives: ValType) -> bool
        ensures replaced { OnTrue result (ReplacesTop height self.old (takes ∷ []) gives self.new) }
        ensures kept { OnFalse result (self.new ≡ self.old) }
    {
        let count = self.entries.len();
        if count <= height || !self.entries[count - 1].is_known(takes) {
            return false;
        }
        self.entries[count - 1] = PackedEntry::known(gives);
        true
    }

    // Replaces the two topmost operands with one of another type, if there are entries for them above a height, and their types are
    // known and are both this one. Returns whether it did.
    #[inline(always)]
    pub fn replace_top_two(&mut self, height: usize, takes: ValType, gives: ValType) -> bool
        ensures replaced { OnTrue result
            (ReplacesTop height self.old (takes ∷ takes ∷ []) gives self.new) }
        ensures kept { OnFalse result (self.new ≡ self.old) }
    {
        let count = self.entries.len();
        if count < 2 || count - 2 < height {
            return false;
        }
        if !self.entries[count - 1].is_known(takes) || !self.entries[count - 2].is_known(takes) {
            return false;
        }
        self.entries.truncate(count - 1);
        self.entries[count - 2] = PackedEntry::known(gives);
        true
    }
}

// Returns whether entries are operands of these types, one each.
fn are_each(entries: &[PackedEntry], types: &[ValType]) -> bool
    ensures { IsTrue result ↔ (entries.now ≡ each_of types.now) }
{
    if entries.len() != types.len() {
        return false;
    }
    let mut equal = true;
    for i in 0..entries.len() {
        equal &= entries[i].is_known(types[i]);
    }
    equal
}

// Returns whether the last operands have these types, if the last entry is a run and they are of it.
fn end_with_run(entries: &[PackedEntry], runs: &[&[ValType]], types: &[ValType]) -> bool
    requires { runs_in entries.now ≡ length runs.now }
    ensures { OnTrue result (EndIn (operands_in entries.now (types_of runs.now)) types.now) }
{
    let count = entries.len();
    if count == 0 || !entries[count - 1].is_run() {
        return false;
    }
    let Some(run) = runs.last() else {
        return false;
    };
    if run.len() < types.len() {
        return false;
    }
    if !are_equal(&run[run.len() - types.len()..], types) {
        return false;
    }
    true
}

// Returns whether the last operands have these types, if they have entries of their own.
fn end_with_each(entries: &[PackedEntry], types: &[ValType]) -> bool
    ensures { OnTrue result (EndEach entries.now types.now) }
{
    let count = entries.len();
    if count < types.len() {
        return false;
    }
    if !are_each(&entries[count - types.len()..], types) {
        return false;
    }
    true
}

// Removes operands of the topmost entry, which is a run, at most that many. Returns their types.
#[cold]
#[inline(never)]
fn cut_run<'a>(
    entries: &mut Vec<PackedEntry>,
    runs: &mut Vec<&'a [ValType]>,
    more: &mut usize,
    most: usize,
) -> &'a [ValType]
    requires some { 0 < most }
    requires entries { AreEntries entries.old.items (types_of runs.old.items) more.old }
    requires top { IsRunOnTop entries.old.items }
    ensures entries { AreEntries entries.new.items (types_of runs.new.items) more.new }
    ensures popped { operands_in entries.old.items (types_of runs.old.items)
        ≡ operands_in entries.new.items (types_of runs.new.items) ++ known result.now }
    ensures some { 0 < length result.now }
    ensures bound { length result.now ≤ most }
{
    let index = runs.len() - 1;
    let run = runs[index];
    if run.len() <= most {
        runs.truncate(index);
        entries.truncate(entries.len() - 1);
        *more -= run.len() - 1;
        return run;
    }
    let left = run.len() - most;
    runs[index] = &run[..left];
    *more -= most;
    &run[left..]
}
