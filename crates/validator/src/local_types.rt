//! The types of the locals of a function, parameters first.

ghost use Rattle.std.specs.Bool.{OnTrue};
ghost use Rattle.std.specs.Prelude.{length, slice_get, ◌++◌, ◌<◌, ◌≡◌};

use core_types::{Locals, ValType};
use std::marker::Model;

// How many locals have their types in a list of their own.
const MOST_FIRST: usize = 32;

/// The types of the locals of a function, parameters first. Contracts see the list of the types.
#[derive(Drop)]
pub struct LocalTypes<'a> {
    // The types of the first locals, which most code names. Those from `count` on are not the types of locals.
    first: [ValType; MOST_FIRST],
    count: u32,
    params: &'a [ValType],
    locals: &'a Locals,
}

impl<'a> Model for LocalTypes<'a> {
    ghost use Rattle.std.specs.Prelude.{List, ◌++◌, ◌≤◌};
    ghost use Rattle.core_types.specs.declared.types.ValType.{ValType};
    ghost use Rattle.validator.specs.LocalTypes.{HasFirst};

    ghost Value = { List ValType };

    ghost view = { λ l. l.params.now ++ l.locals.now };

    ghost invariant = { λ l. (l.count ≤ 32)
        × HasFirst (l.params.now ++ l.locals.now) l.count l.first };
}

// Returns the type of a local, if it exists.
fn type_of_local(params: &[ValType], locals: &Locals, index: u32) -> Option<ValType>
    ensures { result ≡ slice_get (params.now ++ locals.now) index }
{
    match params.get(index as usize) {
        Some(ty) => Some(*ty),
        None => locals.get(index - params.len() as u32),
    }
}

impl<'a> LocalTypes<'a> {
    /// Returns the types of the parameters, and of the locals behind them.
    pub fn new(params: &'a [ValType], locals: &'a Locals) -> LocalTypes<'a>
        ensures { result ≡ params.now ++ locals.now }
    {
        let most = usize::min(
            MOST_FIRST,
            params.len().saturating_add(locals.len() as usize),
        );
        let mut first = [ValType::I32; MOST_FIRST];
        let mut count: u32 = 0;
        while (count as usize) < most {
            let Some(ty) = type_of_local(params, locals, count) else {
                break;
            };
            first[count as usize] = ty;
            count += 1;
        }
        LocalTypes {
            first,
            count,
            params,
            locals,
        }
    }

    /// Returns whether the local at this index is one of the first, whose types are found at once.
    #[inline(always)]
    pub fn is_first(&self, index: u32) -> bool
        ensures { OnTrue result (index < length self.now) }
    {
        index < self.count
    }

    #[inline(never)]
    fn get_any(&self, index: u32) -> Option<ValType>
        ensures { result ≡ slice_get self.now index }
    {
        type_of_local(self.params, self.locals, index)
    }

    /// Returns the type of the local at this index.
    #[inline(always)]
    pub fn get(&self, index: u32) -> Option<ValType>
        ensures { result ≡ slice_get self.now index }
    {
        if index < self.count {
            return Some(self.first[index as usize]);
        }
        self.get_any(index)
    }
}
