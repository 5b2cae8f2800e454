use std::alloc::{AllocFailed, Global};
use std::marker::Model;

/// A value behind a pointer. Contracts see it as the value.
#[derive(Drop)]
pub struct Boxed<T> {
    inner: Box<T>,
}

impl<T> Model for Boxed<T> {
    ghost Value = { T };

    ghost view = { λ a. a.inner.value };
}

impl<T> Boxed<T> {
    ghost use Rattle.std.specs.Prelude.{◌≡◌, IfOk, IfErr};

    /// Moves a value to the heap. If the allocation fails, the value is returned in the error.
    pub fn new(alloc: Global, value: T) -> Result<Boxed<T>, AllocFailed<T>>
        ensures kept { IfOk result (λ boxed. boxed ≡ value) }
        ensures back { IfErr result (λ failed. failed.value ≡ value) }
    {
        let inner = Box::new(alloc, value)?;
        Ok(Boxed { inner })
    }

    /// Returns a reference to the value.
    pub fn get(&self) -> &T
        ensures { result.now ≡ self.now }
    {
        self.inner.as_ref()
    }
}
