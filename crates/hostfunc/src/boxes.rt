ghost use Rattle.std.specs.Prelude.{◌≡◌, IfOk, Err, map};
ghost use Rattle.meaning.specs.execution.Storage.{AreBytes};
ghost use Rattle.meaning.specs.execution.Values.{FitsWidth, type_of};
ghost use Rattle.std.specs.List.{All};
ghost use Rattle.hostfunc.specs.Faults.{IfAnswered};
ghost use Rattle.hostfunc.specs.declared.host_function.HostFault.TheVariants.{Memory as MemoryFault};

use crate::host_function::{HostFault, HostFn};
use core_types::{FuncType, Val};

// The functions named `show_` do nothing. They state what the types of numbers guarantee.

// The number of a value has the width of its type.
fn show_width(value: Val)
    ensures { FitsWidth value }
{}

// The numbers of a list of values have the widths of their types.
fn show_widths(values: &[Val])
    ensures { All FitsWidth values.now }
{
    for i in 0..values.len() {
        show_width(values[i]);
    }
}

// The numbers of the results, if there are any, have the widths of their types.
fn show_answer_fits(answer: &Result<Vec<Val>, HostFault>)
    ensures { IfOk answer.now (λ values. All FitsWidth values.items) }
{
    if let Ok(values) = answer {
        show_widths(values);
    }
}

/// Each byte is below 256.
pub fn show_bytes(bytes: &[u8])
    ensures { AreBytes bytes.now }
{}

// Calls an object that is borrowed.
fn call_lent(
    object: &mut dyn HostFn,
    args: &[Val],
    memory: &mut [u8],
) -> Result<Vec<Val>, HostFault>
    requires arguments { map type_of args.now ≡ (declared object.old).params }
    ensures same_type { declared object.new ≡ declared object.old }
    ensures typed { IfOk result (λ values. map type_of values.items ≡
        (declared object.old).results) }
    ensures answered { IfAnswered result (λ answer. (w : _) × (object.new ≡ (object.old.0, w))
        × Answers object.old args.now memory.old answer memory.new w) }
    ensures unchanged { result ≡ Err MemoryFault
        → (object.new ≡ object.old) × (memory.new ≡ memory.old) }
{
    object.call(args, memory)
}

/// Returns the declared type of an object.
pub fn object_type(object: &Box<dyn HostFn>) -> &FuncType
    ensures { result.now ≡ declared object.now }
{
    let lent = object.as_ref();
    lent.ty()
}

/// Calls an object.
pub fn call_object(
    object: &mut Box<dyn HostFn>,
    args: &[Val],
    memory: &mut [u8],
) -> Result<Vec<Val>, HostFault>
    requires arguments { map type_of args.now ≡ (declared object.old).params }
    ensures same_type { declared object.new ≡ declared object.old }
    ensures typed { IfOk result (λ values. map type_of values.items ≡
        (declared object.old).results) }
    ensures answered { IfAnswered result
        (λ answer. (w : _) × (object.new ≡ record object.old { value = w })
        × Answers object.old args.now memory.old answer memory.new w) }
    ensures unchanged { result ≡ Err MemoryFault
        → (object.new ≡ object.old) × (memory.new ≡ memory.old) }
    ensures fits { IfOk result (λ values. All FitsWidth values.items) }
    ensures are_bytes { AreBytes memory.new }
{
    let answer = call_lent(object.as_mut(), args, memory);
    show_answer_fits(&answer);
    show_bytes(memory);
    answer
}
