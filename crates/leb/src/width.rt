use std::marker::PhantomData;

// One bit, for the last byte.
pub struct One;

// Four bits, for the last byte.
pub struct Four;

// Five bits, for the last byte.
pub struct Five;

// Seven bits for a byte that is not the last, and those of the rest.
pub struct More<R>(PhantomData<R>);
