ghost use Rattle.std.specs.Prelude.{◌≡◌, ◌++◌, ◌+◌, ◌*◌, ◌<◌, ◌^◌, IfOk, length};
ghost use Rattle.callback.specs.Requests.{request_bytes};

use core_types::Val;
use messages::{push_message, push_number, push_values};
use std::alloc::{AllocError, Global};

// The kind of the message that is a request.
const CALL: u64 = 10;

// The sizes in bytes of an encoded number and of an encoded value.
const NUMBER: usize = 8;

const VALUE: usize = 16;

/// Returns the message that requests a call of the host function with this number. It has the number of bytes that the host
/// function borrows, and the arguments. Fails if an allocation fails.
pub fn make_request(
    alloc: Global,
    number: u32,
    lent: usize,
    args: &[Val],
) -> Result<Vec<u8>, AllocError>
    ensures { IfOk result (λ request. request.items ≡ request_bytes number lent args.now) }
{
    let size = args.len().saturating_mul(VALUE).saturating_add(2 * NUMBER);
    let mut fields = Vec::with_capacity(alloc, size)?;
    push_number(&mut fields, u64::from(number))?;
    push_number(&mut fields, lent as u64)?;
    push_values(&mut fields, args)?;
    let mut request = Vec::with_capacity(alloc, size.saturating_add(2 * NUMBER))?;
    push_message(&mut request, CALL, fields.as_slice())?;
    Ok(request)
}
