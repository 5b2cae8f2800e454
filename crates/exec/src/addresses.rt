ghost use Rattle.std.specs.Prelude.{◌≡◌, slice_get, Some};
ghost use Rattle.exec.specs.Instructions.{IsNamed, instance_in};

use crate::call::Call;
use store::Code;

/// Returns the address of the table that the innermost frame's instance has under an index.
pub fn table_at(code: &Code, call: &Call, x: u32) -> u32
    requires { IsNamed (slice_get (instance_in code.now call.now).tables x) }
    ensures { slice_get (instance_in code.now call.now).tables x ≡ Some result }
{
    match code.table_address(call.position.instance, x) {
        Some(address) => address,
        None => unreachable!(),
    }
}

/// Returns the address of the memory of the innermost frame's instance.
pub fn memory_at(code: &Code, call: &Call) -> u32
    requires { IsNamed (slice_get (instance_in code.now call.now).memories 0) }
    ensures { slice_get (instance_in code.now call.now).memories 0 ≡ Some result }
{
    match code.memory_address(call.position.instance, 0) {
        Some(address) => address,
        None => unreachable!(),
    }
}

/// Returns the address of the element segment that the innermost frame's instance has under an index.
pub fn elements_at(code: &Code, call: &Call, x: u32) -> u32
    requires { IsNamed (slice_get (instance_in code.now call.now).elements x) }
    ensures { slice_get (instance_in code.now call.now).elements x ≡ Some result }
{
    match code.element_address(call.position.instance, x) {
        Some(address) => address,
        None => unreachable!(),
    }
}

/// Returns the address of the data segment that the innermost frame's instance has under an index.
pub fn data_at(code: &Code, call: &Call, x: u32) -> u32
    requires { IsNamed (slice_get (instance_in code.now call.now).datas x) }
    ensures { slice_get (instance_in code.now call.now).datas x ≡ Some result }
{
    match code.data_address(call.position.instance, x) {
        Some(address) => address,
        None => unreachable!(),
    }
}
