ghost use Rattle.std.specs.Prelude.{◌≡◌, List, [], ◌∷◌, length, reverse, slice_get, OnOk, OnErr, MatchOption};

use crate::appending::append;
use std::alloc::{AllocError, Global};
use std::marker::Model;

/// A stack. Contracts see it as the list of its elements, from the top.
#[derive(Drop)]
pub struct Stack<T> {
    items: Vec<T>,
}

impl<T> Model for Stack<T> {
    ghost Value = { List T };

    ghost view = { λ s. reverse s.items.items };
}

impl<T> Stack<T> {
    /// Creates an empty stack. Allocates nothing.
    pub fn new(alloc: Global) -> Stack<T>
        ensures { result ≡ [] }
    {
        Stack {
            items: Vec::new(alloc),
        }
    }

    /// Returns the number of elements.
    #[inline(always)]
    pub fn len(&self) -> usize
        ensures { result ≡ length self.now }
    {
        self.items.len()
    }

    /// Pops the topmost element. Allocates nothing.
    #[inline(always)]
    pub fn pop(&mut self) -> Option<T>
        ensures { MatchOption result ((self.old ≡ []) × (self.new ≡ []))
            (λ x. self.old ≡ x ∷ self.new) }
    {
        self.items.pop()
    }
}

impl<T: Drop> Stack<T> {
    /// Pushes an element. If memory runs out, the stack is unchanged.
    #[inline(always)]
    pub fn push(&mut self, x: T) -> Result<(), AllocError>
        ensures ok { OnOk result (self.new ≡ x ∷ self.old) }
        ensures err { OnErr result (self.new ≡ self.old) }
    {
        append(&mut self.items, x)
    }

    /// Pops all elements. Allocates nothing, and keeps the room.
    pub fn clear(&mut self)
        ensures { self.new ≡ [] }
    {
        self.items.clear();
    }
}

impl<T: Copy> Stack<T> {
    /// Returns the topmost element without popping it.
    pub fn top(&self) -> Option<T>
        ensures { result ≡ slice_get self.now 0 }
    {
        self.items.last().copied()
    }

    /// Returns the element at a depth below the topmost one, without popping it.
    pub fn get(&self, depth: usize) -> Option<T>
        ensures { result ≡ slice_get self.now depth }
    {
        if depth < self.items.len() {
            Some(self.items[self.items.len() - 1 - depth])
        } else {
            None
        }
    }
}
