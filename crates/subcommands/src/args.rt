//! The arguments of a function, from the command line.

ghost use Rattle.std.specs.Prelude.{IfOk, IfSome};
ghost use Rattle.subcommands.specs.Arguments.{AreArguments, IsArgument};

use command_line::{number, short_number};
use core_types::{Val, ValType};
use std::alloc::{AllocFailed, Global};

/// Why the arguments of a function were not read.
#[derive(Clone, Copy)]
pub enum ArgsFault {
    /// There are too many or too few, or one does not represent a value of its type.
    Unreadable,
    /// An allocation for the values failed.
    Memory,
}

impl<T: Drop> From<AllocFailed<T>> for ArgsFault {
    fn from(_error: AllocFailed<T>) -> ArgsFault {
        ArgsFault::Memory
    }
}

// Returns the external reference that a text represents, if it represents one: null, or the reference with a number.
fn external(word: &str) -> Option<Val>
    ensures { IfSome result (IsArgument word.now) }
{
    if word == "null" {
        return Some(Val::ExternRef(None));
    }
    Some(Val::ExternRef(Some(short_number(word)?)))
}

// Returns the value of this type that a text represents, if it represents one.
fn value(ty: ValType, word: &str) -> Option<Val>
    ensures { IfSome result (IsArgument word.now) }
{
    match ty {
        ValType::I32 => Some(Val::I32(short_number(word)?)),
        ValType::I64 => Some(Val::I64(number(word)?)),
        ValType::FuncRef => (word == "null").then_some(Val::FuncRef(None)),
        ValType::ExternRef => external(word),
    }
}

/// Returns the values that the texts represent, one for each parameter.
///
/// # Errors
///
/// Fails with `Unreadable` if there are too many or too few texts, or if one does not represent a value of its type. Fails with
/// `Memory` if an allocation fails.
pub fn read_args(alloc: Global, params: &[ValType], words: &[&str]) -> Result<Vec<Val>, ArgsFault>
    ensures { IfOk result (λ values. AreArguments words.now values.items) }
{
    if params.len() != words.len() {
        return Err(ArgsFault::Unreadable);
    }
    let mut values = Vec::new(alloc);
    for i in 0..words.len() {
        let Some(read) = value(params[i], words[i]) else {
            return Err(ArgsFault::Unreadable);
        };
        values.push(read)?;
    }
    Ok(values)
}
