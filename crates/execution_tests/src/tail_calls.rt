//! Tail calls of functions: how they end, and the fuel left.

use crate::runs::{first_row_at_fault, runs_so};
use core_types::Val;
use std::alloc::{AllocError, Global};

// Each row has the columns of the rows of `runs`, for tail calls of functions by their indices.
const TAIL_CALLS: &str = "\
down from 100000 | i32 100000 | 1000000 | 1 | values i32 9 | 399997 | (func (param i32) (result i32) local.get 0 if local.get 0 i32.const 1 i32.sub return_call 0 end i32.const 9)
down from 100000, one fuel short | i32 100000 | 600002 | 1 | exhausted fuel | 0 | (func (param i32) (result i32) local.get 0 if local.get 0 i32.const 1 i32.sub return_call 0 end i32.const 9)
down from 100000, with fuel for it | i32 100000 | 600003 | 1 | values i32 9 | 0 | (func (param i32) (result i32) local.get 0 if local.get 0 i32.const 1 i32.sub return_call 0 end i32.const 9)
down from 0 | i32 0 | 10 | 1 | values i32 9 | 7 | (func (param i32) (result i32) local.get 0 if local.get 0 i32.const 1 i32.sub return_call 0 end i32.const 9)
down from 1, without fuel | i32 1 | 0 | 1 | exhausted fuel | 0 | (func (param i32) (result i32) local.get 0 if local.get 0 i32.const 1 i32.sub return_call 0 end i32.const 9)
down from 1, with fuel up to the tail call | i32 1 | 5 | 1 | exhausted fuel | 0 | (func (param i32) (result i32) local.get 0 if local.get 0 i32.const 1 i32.sub return_call 0 end i32.const 9)
down from 1, with fuel for the tail call | i32 1 | 6 | 1 | exhausted fuel | 0 | (func (param i32) (result i32) local.get 0 if local.get 0 i32.const 1 i32.sub return_call 0 end i32.const 9)
down from 1, one fuel short | i32 1 | 8 | 1 | exhausted fuel | 0 | (func (param i32) (result i32) local.get 0 if local.get 0 i32.const 1 i32.sub return_call 0 end i32.const 9)
down from 1, with fuel for it | i32 1 | 9 | 1 | values i32 9 | 0 | (func (param i32) (result i32) local.get 0 if local.get 0 i32.const 1 i32.sub return_call 0 end i32.const 9)
down from 1 at depth 0 | i32 1 | 9 | 0 | exhausted depth | 9 | (func (param i32) (result i32) local.get 0 if local.get 0 i32.const 1 i32.sub return_call 0 end i32.const 9)
a tail call alone | | 1 | 1 | values | 0 | (func return_call 1) (func)
a tail call alone, without fuel | | 0 | 1 | exhausted fuel | 0 | (func return_call 1) (func)
a tail call at the depth bound | | 9 | 2 | values | 7 | (func call 1) (func return_call 2) (func)
a call past the depth, of a function with a tail call | | 9 | 1 | exhausted depth | 9 | (func call 1) (func return_call 2) (func)
a call past the depth, behind a tail call | | 9 | 1 | exhausted depth | 8 | (func return_call 1) (func call 2) (func)
a call at the depth bound, behind a tail call | | 9 | 2 | values | 7 | (func return_call 1) (func call 2) (func)
calls and tail calls in turn, past the depth | | 1000 | 10 | exhausted depth | 982 | (func call 1) (func return_call 0)
a tail call of itself without end | | 1000 | 1 | exhausted fuel | 0 | (func return_call 0)
two tail calls of one another without end | | 1000000 | 1 | exhausted fuel | 0 | (func return_call 1) (func return_call 0)
a tail call of itself from a loop without end | | 1000 | 1 | exhausted fuel | 0 | (func loop return_call 0 end)
whether 10 is even | i32 10 | 75 | 1 | values i32 1 | 0 | (func (param i32) (result i32) local.get 0 i32.eqz if i32.const 1 return end \
    local.get 0 i32.const 1 i32.sub return_call 1) (func (param i32) (result i32) local.get 0 i32.eqz if i32.const 0 return end local.get \
    0 i32.const 1 i32.sub return_call 0)
whether 10 is even, one fuel short | i32 10 | 74 | 1 | exhausted fuel | 0 | \
    (func (param i32) (result i32) local.get 0 i32.eqz if i32.const 1 return end local.get 0 i32.const 1 i32.sub return_call 1) \
    (func (param i32) (result i32) local.get 0 i32.eqz if i32.const 0 return end local.get 0 i32.const 1 i32.sub return_call 0)
whether 7 is even | i32 7 | 60 | 1 | values i32 0 | 6 | (func (param i32) (result i32) local.get 0 i32.eqz if i32.const 1 return end \
    local.get 0 i32.const 1 i32.sub return_call 1) (func (param i32) (result i32) local.get 0 i32.eqz if i32.const 0 return end local.get \
    0 i32.const 1 i32.sub return_call 0)
the greatest common divisor of 1071 and 462 | i32 1071 i32 462 | 24 | 1 | values i32 21 | 0 | \
    (func (param i32 i32) (result i32) local.get 1 if local.get 1 local.get 0 local.get 1 i32.rem_u return_call 0 end local.get 0)
factorial of 20 by tail calls | i64 20 i64 1 | 205 | 1 | values i64 2432902008176640000 | 0 | \
    (func (param i64 i64) (result i64) local.get 0 i64.eqz if local.get 1 return end local.get 0 i64.const 1 i64.sub local.get 0 \
    local.get 1 i64.mul return_call 0)
fibonacci of 90 by tail calls | i32 90 i64 0 i64 1 | 995 | 1 | values i64 2880067194370816120 | 0 | \
    (func (param i32 i64 i64) (result i64) local.get 0 i32.eqz if local.get 1 return end local.get 0 i32.const 1 i32.sub local.get 2 \
    local.get 1 local.get 2 i64.add return_call 0)
ackermann of 2 and 3 | i32 2 i32 3 | 480 | 8 | values i32 9 | 0 | (func (param i32 i32) (result i32) local.get 0 i32.eqz if local.get 1 \
    i32.const 1 i32.add return end local.get 1 i32.eqz if local.get 0 i32.const 1 i32.sub i32.const 1 return_call 0 end local.get 0 \
    i32.const 1 i32.sub local.get 0 local.get 1 i32.const 1 i32.sub call 0 return_call 0)
ackermann of 2 and 3 past the depth | i32 2 i32 3 | 1000 | 7 | exhausted depth | 595 | \
    (func (param i32 i32) (result i32) local.get 0 i32.eqz if local.get 1 i32.const 1 i32.add return end local.get 1 i32.eqz if local.get \
    0 i32.const 1 i32.sub i32.const 1 return_call 0 end local.get 0 i32.const 1 i32.sub local.get 0 local.get 1 i32.const 1 i32.sub call \
    0 return_call 0)
two arguments in the other order | i32 7 i32 2 | 6 | 1 | values i32 4294967291 | 0 | \
    (func (param i32 i32) (result i32) local.get 1 local.get 0 return_call 1) \
    (func (param i32 i32) (result i32) local.get 0 local.get 1 i32.sub)
five arguments that rotate seven times | i32 7 i32 1 i32 2 i32 3 i32 4 i32 5 | 93 | 1 | values i32 3 i32 4 i32 5 i32 1 i32 2 | 0 | \
    (func (param i32 i32 i32 i32 i32 i32) (result i32 i32 i32 i32 i32) local.get 0 i32.eqz if local.get 1 local.get 2 local.get 3 \
    local.get 4 local.get 5 return end local.get 0 i32.const 1 i32.sub local.get 2 local.get 3 local.get 4 local.get 5 local.get 1 \
    return_call 0)
four arguments in the place of no local | | 9 | 1 | values i32 4 i32 3 i32 2 i32 1 | 0 | \
    (func (result i32 i32 i32 i32) i32.const 1 i32.const 2 i32.const 3 i32.const 4 return_call 1) \
    (func (param i32 i32 i32 i32) (result i32 i32 i32 i32) local.get 3 local.get 2 local.get 1 local.get 0)
no argument in the place of six locals | i32 1 i32 2 i32 3 i32 4 | 2 | 1 | values i32 5 | 0 | (func (param i32 i32 i32 i32) (result i32) (local i64 i64) return_call 1) (func (result i32) i32.const 5)
ten arguments above one local | i32 77 | 21 | 1 | values i32 1 i32 2 i32 3 i32 4 i32 5 i32 6 i32 7 i32 8 i32 9 i32 10 | 0 | \
    (func (param i32) (result i32 i32 i32 i32 i32 i32 i32 i32 i32 i32) i32.const 1 i32.const 2 i32.const 3 i32.const 4 i32.const 5 \
    i32.const 6 i32.const 7 i32.const 8 i32.const 9 i32.const 10 return_call 1) (func (param i32 i32 i32 i32 i32 i32 i32 i32 i32 i32) \
    (result i32 i32 i32 i32 i32 i32 i32 i32 i32 i32) local.get 0 local.get 1 local.get 2 local.get 3 local.get 4 local.get 5 local.get 6 \
    local.get 7 local.get 8 local.get 9)
ten arguments above two operands | | 23 | 1 | values i32 1 i32 2 i32 3 i32 4 i32 5 i32 6 i32 7 i32 8 i32 9 i32 10 | 0 | \
    (func (result i32 i32 i32 i32 i32 i32 i32 i32 i32 i32) i32.const 98 i32.const 99 i32.const 1 i32.const 2 i32.const 3 i32.const 4 \
    i32.const 5 i32.const 6 i32.const 7 i32.const 8 i32.const 9 i32.const 10 return_call 1) (func \
    (param i32 i32 i32 i32 i32 i32 i32 i32 i32 i32) (result i32 i32 i32 i32 i32 i32 i32 i32 i32 i32) local.get 0 local.get 1 local.get 2 \
    local.get 3 local.get 4 local.get 5 local.get 6 local.get 7 local.get 8 local.get 9)
two arguments above eight locals | i32 1 i32 2 | 7 | 1 | values i32 2 i32 1 | 0 | \
    (func (param i32 i32) (result i32 i32) (local i64 i64 i64 i64 i64 i64) i64.const 9 local.set 2 local.get 1 local.get 0 return_call 1) \
    (func (param i32 i32) (result i32 i32) local.get 0 local.get 1)
one argument of five operands | | 7 | 1 | values i32 5 | 0 | (func (result i32) i32.const 1 i32.const 2 i32.const 3 i32.const 4 i32.const 5 return_call 1) (func (param i32) (result i32) local.get 0)
an argument that a local keeps too | i32 3 | 4 | 1 | values i32 8 | 0 | (func (param i32) (result i32) i32.const 8 local.tee 0 return_call 1) (func (param i32) (result i32) local.get 0)
arguments of 64 bits | i64 1 i64 0 | 6 | 1 | values i64 18446744073709551615 | 0 | \
    (func (param i64 i64) (result i64) local.get 1 local.get 0 return_call 1) \
    (func (param i64 i64) (result i64) local.get 0 local.get 1 i64.sub)
references as arguments and results | externref 4 funcref 1 | 5 | 1 | values funcref 1 externref 4 | 0 | \
    (func (param externref funcref) (result funcref externref) local.get 0 local.get 1 return_call 1) \
    (func (param externref funcref) (result funcref externref) local.get 1 local.get 0)
nulls as arguments and results | externref null funcref null | 5 | 1 | values funcref null externref null | 0 | \
    (func (param externref funcref) (result funcref externref) local.get 0 local.get 1 return_call 1) \
    (func (param externref funcref) (result funcref externref) local.get 1 local.get 0)
a reference to a function and an i64 | | 5 | 1 | values funcref 1 i64 18446744073709551615 | 0 | (elem declare func 1) \
    (func (result funcref i64) ref.func 1 i64.const 18446744073709551615 return_call 1) \
    (func (param funcref i64) (result funcref i64) local.get 0 local.get 1)
first values of locals in the place of parameters and operands | i32 7 i64 8 externref 4 | 9 | 1 | values i32 0 i64 0 funcref null \
    externref null | 0 | (func (param i32 i64 externref) (result i32 i64 funcref externref) i32.const 1 i64.const 2 i32.const 3 i64.const \
    4 return_call 1) (func (result i32 i64 funcref externref) (local i32 i64 funcref externref) local.get 0 local.get 1 local.get 2 \
    local.get 3)
first values of locals behind an argument | i32 5 i32 6 i32 7 | 7 | 1 | values i32 7 i32 0 i32 0 | 0 | \
    (func (param i32 i32 i32) (result i32 i32 i32) local.get 0 local.get 1 local.get 2 return_call 1) \
    (func (param i32) (result i32 i32 i32) (local i32 i32) local.get 0 local.get 1 local.get 2)
a local that was set is 0 again | i32 3 | 32 | 1 | values i32 0 | 0 | \
    (func (param i32) (result i32) (local i32) local.get 0 i32.eqz if local.get 1 return end i32.const 9 local.set 1 local.get 0 \
    i32.const 1 i32.sub return_call 0)
twelve locals in the place of none | | 2 | 1 | values i64 0 | 0 | (func (result i64) return_call 1) (func (result i64) (local i64 i64 i64 i64 i64 i64 i64 i64 i64 i64 i64 i64) local.get 11)
no result, with operands below | | 4 | 1 | values | 0 | (func i32.const 1 i64.const 2 return_call 1) (func nop)
three results | | 4 | 1 | values i32 1 i64 2 i32 3 | 0 | (func (result i32 i64 i32) return_call 1) (func (result i32 i64 i32) i32.const 1 i64.const 2 i32.const 3)
a return behind a tail call, each with operands below | | 6 | 1 | values i32 7 | 0 | (func (result i32) i32.const 1 return_call 1) (func (result i32) i32.const 5 i32.const 6 i32.const 7 return)
nothing behind a tail call is done | | 2 | 1 | values i32 4 | 0 | (func (result i32) return_call 1 unreachable) (func (result i32) i32.const 4)
four results above an operand of the caller that waits | | 7 | 2 | values i32 9 i32 1 i32 2 i32 3 i32 4 | 0 | \
    (func (result i32 i32 i32 i32 i32) i32.const 9 call 1) (func (result i32 i32 i32 i32) return_call 2) \
    (func (result i32 i32 i32 i32) i32.const 1 i32.const 2 i32.const 3 i32.const 4)
a caller that waits has its operands | | 9 | 2 | values i32 123 | 0 | \
    (func (result i32) i32.const 100 i32.const 20 call 1 i32.add i32.add) (func (result i32) i32.const 7 i32.const 8 return_call 2) \
    (func (result i32) (local i32 i32 i32 i32) i32.const 3)
a caller that waits has its locals | i32 1000 | 24 | 2 | values i32 1119 | 0 | \
    (func (param i32) (result i32) (local i32) i32.const 5 local.set 1 i32.const 100 call 1 i32.add local.get 0 i32.add local.get 1 \
    i32.add) (func (result i32) i32.const 1 i32.const 2 i32.const 3 i32.const 4 i32.const 5 return_call 2) (func (param i32 i32 i32 i32) \
    (result i32) (local i32 i32 i32) local.get 0 local.get 1 i32.add local.get 2 i32.add local.get 3 i32.add local.get 6 i32.add)
two tail calls in a row, and a caller that waits | | 13 | 2 | values i32 62 | 0 | (func (result i32) i32.const 50 call 1 i32.add) \
    (func (result i32) i32.const 1 return_call 2) (func (param i32) (result i32) (local i64 i64) local.get 0 i32.const 2 return_call 3) \
    (func (param i32 i32) (result i32) local.get 0 i32.const 10 i32.mul local.get 1 i32.add)
a caller that waits twice | | 15 | 2 | values i32 99 | 0 | (func (result i32) call 1 call 1 i32.const 10 i32.mul i32.add) \
    (func (result i32) i32.const 8 return_call 2) (func (param i32) (result i32) local.get 0 i32.const 1 i32.add)
two callers that wait | | 11 | 3 | values i32 9 | 0 | (func (result i32) i32.const 1 call 1 i32.add) \
    (func (result i32) i32.const 2 call 2 i32.add) (func (result i32) i32.const 3 return_call 3) \
    (func (param i32) (result i32) (local i32 i32 i32) local.get 0 local.get 0 i32.add)
a tail call behind a call | | 10 | 3 | values i32 6 | 0 | (func (result i32) i32.const 4 call 1 i32.add) \
    (func (result i32) i32.const 7 call 2 return_call 3) (func (result i32) i32.const 5) \
    (func (param i32 i32) (result i32) local.get 0 local.get 1 i32.sub)
a tail call behind a call past the depth | | 10 | 2 | exhausted depth | 7 | (func (result i32) i32.const 4 call 1 i32.add) \
    (func (result i32) i32.const 7 call 2 return_call 3) (func (result i32) i32.const 5) \
    (func (param i32 i32) (result i32) local.get 0 local.get 1 i32.sub)
a call behind a tail call | | 10 | 2 | values i32 19 | 0 | (func (result i32) i32.const 100 i32.const 3 return_call 1) \
    (func (param i32) (result i32) i32.const 10 local.get 0 call 2 i32.add) (func (param i32) (result i32) local.get 0 local.get 0 i32.mul)
a tail call inside of three blocks and a loop | | 14 | 1 | values i32 7 i32 6 | 0 | \
    (func (result i32 i32) i32.const 1 block i64.const 2 block i32.const 3 block i64.const 4 loop i32.const 5 i32.const 6 i32.const 7 \
    return_call 1 end drop end drop end drop end i32.const 9) (func (param i32 i32) (result i32 i32) local.get 1 local.get 0)
a tail call inside of three blocks and a loop, and a caller that waits | | 16 | 2 | values i32 50 i32 7 i32 6 | 0 | \
    (func (result i32 i32 i32) i32.const 50 call 1) (func (result i32 i32) i32.const 1 block i64.const 2 block i32.const 3 block \
    i64.const 4 loop i32.const 5 i32.const 6 i32.const 7 return_call 2 end drop end drop end drop end i32.const 9) (func (param i32 i32) \
    (result i32 i32) local.get 1 local.get 0)
a tail call from an if | i32 1 | 7 | 1 | values i32 11 | 0 | (func (param i32) (result i32) local.get 0 if (result i32) i32.const 1 \
    return_call 1 else i32.const 2 return_call 2 end) (func (param i32) (result i32) local.get 0 i32.const 10 i32.add) (func (param i32) \
    (result i32) local.get 0 i32.const 10 i32.mul)
a tail call from an else | i32 0 | 7 | 1 | values i32 20 | 0 | (func (param i32) (result i32) local.get 0 if (result i32) i32.const 1 \
    return_call 1 else i32.const 2 return_call 2 end) (func (param i32) (result i32) local.get 0 i32.const 10 i32.add) (func (param i32) \
    (result i32) local.get 0 i32.const 10 i32.mul)
a tail call behind br_table, argument 0 | i32 0 | 7 | 1 | values i32 11 | 0 | \
    (func (param i32) (result i32) block block block local.get 0 br_table 0 1 2 end return_call 1 end return_call 2 end return_call 3) \
    (func (result i32) i32.const 11) (func (result i32) i32.const 12) (func (result i32) i32.const 13)
a tail call behind br_table, argument 1 | i32 1 | 7 | 1 | values i32 12 | 0 | \
    (func (param i32) (result i32) block block block local.get 0 br_table 0 1 2 end return_call 1 end return_call 2 end return_call 3) \
    (func (result i32) i32.const 11) (func (result i32) i32.const 12) (func (result i32) i32.const 13)
a tail call behind br_table, argument 4294967295 | i32 4294967295 | 7 | 1 | values i32 13 | 0 | \
    (func (param i32) (result i32) block block block local.get 0 br_table 0 1 2 end return_call 1 end return_call 2 end return_call 3) \
    (func (result i32) i32.const 11) (func (result i32) i32.const 12) (func (result i32) i32.const 13)
a tail call that a branch leaves out | i32 1 | 4 | 1 | values i32 5 | 0 | (func (param i32) (result i32) block local.get 0 br_if 0 return_call 1 end i32.const 5) (func (result i32) i32.const 6)
a tail call that no branch leaves out | i32 0 | 5 | 1 | values i32 6 | 0 | (func (param i32) (result i32) block local.get 0 br_if 0 return_call 1 end i32.const 5) (func (result i32) i32.const 6)
a tail call behind three rounds of a loop | i32 3 | 29 | 1 | values i32 7 | 0 | \
    (func (param i32) (result i32) i32.const 0 loop (param i32) (result i32) i32.const 2 i32.add local.get 0 i32.const 1 i32.sub \
    local.tee 0 br_if 0 return_call 1 end) (func (param i32) (result i32) local.get 0 i32.const 1 i32.add)
a tail call with the parameters of a block | | 7 | 1 | values i32 38 | 0 | \
    (func (result i32) i32.const 40 i32.const 2 block (param i32 i32) (result i32) return_call 1 end) \
    (func (param i32 i32) (result i32) local.get 0 local.get 1 i32.sub)
a branch to the function that took the place of a block | | 5 | 1 | values i32 3 | 0 | \
    (func (result i32) block (result i32) i32.const 1 return_call 1 end i32.const 100 i32.add) (func (result i32) i32.const 3 br 0)
a trap behind a tail call | | 10 | 1 | trap integer divide by zero | 6 | (func (result i32) return_call 1) (func (result i32) i32.const 1 i32.const 0 i32.div_u)
a trap behind a tail call, and a caller that waits | | 10 | 2 | trap unreachable | 6 | (func (result i32) i32.const 1 call 1 i32.add) (func (result i32) return_call 2) (func (result i32) unreachable)
a trap behind a tail call, one fuel short | | 3 | 1 | exhausted fuel | 0 | (func (result i32) return_call 1) (func (result i32) i32.const 1 i32.const 0 i32.div_u)
memory.grow behind a tail call | | 1029 | 1 | values i32 3 | 0 | (memory 1 5) (func (result i32) return_call 1) (func (result i32) i32.const 1 memory.grow memory.size i32.add)
memory.grow behind a tail call, one fuel short | | 1026 | 1 | exhausted fuel | 1024 | (memory 1 5) (func (result i32) return_call 1) (func (result i32) i32.const 1 memory.grow memory.size i32.add)
global.set behind a tail call | | 7 | 1 | values i32 6 | 0 | (global (mut i32) i32.const 1) \
    (func (result i32) global.get 0 return_call 1) (func (param i32) (result i32) i32.const 5 global.set 0 global.get 0 local.get 0 \
    i32.add)";

// Each row has the same columns, for tail calls through tables.
const TAIL_CALLS_THROUGH_TABLES: &str = "\
an entry | i32 4 | 6 | 1 | values i32 5 | 0 | (type (func (param i32) (result i32))) (table 2 funcref) (elem (offset i32.const 1) func 1) \
    (func (type 0) local.get 0 i32.const 1 return_call_indirect (type 0)) (func (type 0) local.get 0 i32.const 1 i32.add)
an entry, one fuel short | i32 4 | 5 | 1 | exhausted fuel | 0 | (type (func (param i32) (result i32))) (table 2 funcref) \
    (elem (offset i32.const 1) func 1) (func (type 0) local.get 0 i32.const 1 return_call_indirect (type 0)) \
    (func (type 0) local.get 0 i32.const 1 i32.add)
an entry, with fuel up to the tail call | i32 4 | 2 | 1 | exhausted fuel | 0 | (type (func (param i32) (result i32))) (table 2 funcref) \
    (elem (offset i32.const 1) func 1) (func (type 0) local.get 0 i32.const 1 return_call_indirect (type 0)) \
    (func (type 0) local.get 0 i32.const 1 i32.add)
an entry, with fuel for the tail call | i32 4 | 3 | 1 | exhausted fuel | 0 | (type (func (param i32) (result i32))) (table 2 funcref) \
    (elem (offset i32.const 1) func 1) (func (type 0) local.get 0 i32.const 1 return_call_indirect (type 0)) \
    (func (type 0) local.get 0 i32.const 1 i32.add)
an entry at depth 0 | i32 4 | 6 | 0 | exhausted depth | 6 | (type (func (param i32) (result i32))) (table 2 funcref) \
    (elem (offset i32.const 1) func 1) (func (type 0) local.get 0 i32.const 1 return_call_indirect (type 0)) \
    (func (type 0) local.get 0 i32.const 1 i32.add)
one of four entries | i32 0 | 3 | 1 | values i32 10 | 0 | (type (func (result i32))) (table 4 funcref) \
    (elem (offset i32.const 0) func 1 2) (func (param i32) (result i32) local.get 0 return_call_indirect (type 0)) \
    (func (result i32) i32.const 10) (func)
a function of another type | i32 1 | 9 | 1 | trap indirect call type mismatch | 7 | (type (func (result i32))) (table 4 funcref) \
    (elem (offset i32.const 0) func 1 2) (func (param i32) (result i32) local.get 0 return_call_indirect (type 0)) \
    (func (result i32) i32.const 10) (func)
a null entry | i32 2 | 9 | 1 | trap uninitialized element | 7 | (type (func (result i32))) (table 4 funcref) \
    (elem (offset i32.const 0) func 1 2) (func (param i32) (result i32) local.get 0 return_call_indirect (type 0)) \
    (func (result i32) i32.const 10) (func)
no entry | i32 4 | 9 | 1 | trap undefined element | 7 | (type (func (result i32))) (table 4 funcref) (elem (offset i32.const 0) func 1 2) \
    (func (param i32) (result i32) local.get 0 return_call_indirect (type 0)) (func (result i32) i32.const 10) (func)
no entry, with the greatest offset | i32 4294967295 | 9 | 1 | trap undefined element | 7 | (type (func (result i32))) (table 4 funcref) \
    (elem (offset i32.const 0) func 1 2) (func (param i32) (result i32) local.get 0 return_call_indirect (type 0)) \
    (func (result i32) i32.const 10) (func)
a function of another type, with fuel for it | i32 1 | 2 | 1 | trap indirect call type mismatch | 0 | (type (func (result i32))) \
    (table 4 funcref) (elem (offset i32.const 0) func 1 2) (func (param i32) (result i32) local.get 0 return_call_indirect (type 0)) \
    (func (result i32) i32.const 10) (func)
a function of another type, one fuel short | i32 1 | 1 | 1 | exhausted fuel | 0 | (type (func (result i32))) (table 4 funcref) \
    (elem (offset i32.const 0) func 1 2) (func (param i32) (result i32) local.get 0 return_call_indirect (type 0)) \
    (func (result i32) i32.const 10) (func)
a null entry, with fuel for it | i32 2 | 2 | 1 | trap uninitialized element | 0 | (type (func (result i32))) (table 4 funcref) \
    (elem (offset i32.const 0) func 1 2) (func (param i32) (result i32) local.get 0 return_call_indirect (type 0)) \
    (func (result i32) i32.const 10) (func)
a null entry, one fuel short | i32 2 | 1 | 1 | exhausted fuel | 0 | (type (func (result i32))) (table 4 funcref) \
    (elem (offset i32.const 0) func 1 2) (func (param i32) (result i32) local.get 0 return_call_indirect (type 0)) \
    (func (result i32) i32.const 10) (func)
no entry, with fuel for it | i32 4 | 2 | 1 | trap undefined element | 0 | (type (func (result i32))) (table 4 funcref) \
    (elem (offset i32.const 0) func 1 2) (func (param i32) (result i32) local.get 0 return_call_indirect (type 0)) \
    (func (result i32) i32.const 10) (func)
no entry, one fuel short | i32 4 | 1 | 1 | exhausted fuel | 0 | (type (func (result i32))) (table 4 funcref) \
    (elem (offset i32.const 0) func 1 2) (func (param i32) (result i32) local.get 0 return_call_indirect (type 0)) \
    (func (result i32) i32.const 10) (func)
no entry of an empty table | | 9 | 1 | trap undefined element | 7 | (type (func)) (table 0 funcref) (func i32.const 0 return_call_indirect (type 0))
a function with another type of its parameter | i32 4 | 9 | 1 | trap indirect call type mismatch | 6 | \
    (type (func (param i32) (result i32))) (table 1 funcref) (elem (offset i32.const 0) func 1) \
    (func (type 0) local.get 0 i32.const 0 return_call_indirect (type 0)) (func (param i64) (result i32) i32.const 1)
a function with another type of its result | i32 4 | 9 | 1 | trap indirect call type mismatch | 6 | \
    (type (func (param i32) (result i32))) (table 1 funcref) (elem (offset i32.const 0) func 1) \
    (func (type 0) local.get 0 i32.const 0 return_call_indirect (type 0)) (func (param i32) (result i64) i64.const 1)
a function with one parameter more | i32 4 | 9 | 1 | trap indirect call type mismatch | 6 | (type (func (param i32) (result i32))) \
    (table 1 funcref) (elem (offset i32.const 0) func 1) (func (type 0) local.get 0 i32.const 0 return_call_indirect (type 0)) \
    (func (param i32 i32) (result i32) i32.const 1)
a function without parameters | i32 4 | 9 | 1 | trap indirect call type mismatch | 6 | (type (func (param i32) (result i32))) \
    (table 1 funcref) (elem (offset i32.const 0) func 1) (func (type 0) local.get 0 i32.const 0 return_call_indirect (type 0)) \
    (func (result i32) i32.const 1)
a function without results | i32 4 | 9 | 1 | trap indirect call type mismatch | 6 | (type (func (param i32) (result i32))) \
    (table 1 funcref) (elem (offset i32.const 0) func 1) (func (type 0) local.get 0 i32.const 0 return_call_indirect (type 0)) \
    (func (param i32))
a function of an equal type of another index | i32 5 | 4 | 1 | values i32 5 | 0 | (type (func (param i32) (result i32))) \
    (type (func (param i32) (result i32))) (table 1 funcref) (elem (offset i32.const 0) func 1) \
    (func (type 0) local.get 0 i32.const 0 return_call_indirect (type 0)) (func (type 1) local.get 0)
an entry of the second table | | 3 | 1 | values i32 5 | 0 | (type (func (result i32))) (table 1 externref) (table 2 funcref) \
    (elem (table 1) (offset i32.const 1) func 1) (func (result i32) i32.const 1 return_call_indirect 1 (type 0)) \
    (func (result i32) i32.const 5)
an entry that was set | | 6 | 1 | values i32 5 | 0 | (type (func (result i32))) (table 1 funcref) (elem declare func 1) \
    (func (result i32) i32.const 0 ref.func 1 table.set i32.const 0 return_call_indirect (type 0)) (func (result i32) i32.const 5)
an entry that was set to null | | 9 | 1 | trap uninitialized element | 4 | (type (func (result i32))) (table 1 funcref) \
    (elem (offset i32.const 0) func 1) (func (result i32) i32.const 0 ref.null func table.set i32.const 0 return_call_indirect (type 0)) \
    (func (result i32) i32.const 5)
whether 1000 is even | i32 1000 | 8005 | 1 | values i32 1 | 0 | (type (func (param i32) (result i32))) (table 2 funcref) \
    (elem (offset i32.const 0) func 0 1) (func (type 0) local.get 0 i32.eqz if i32.const 1 return end local.get 0 i32.const 1 i32.sub \
    i32.const 1 return_call_indirect (type 0)) (func (type 0) local.get 0 i32.eqz if i32.const 0 return end local.get 0 i32.const 1 \
    i32.sub i32.const 0 return_call_indirect (type 0))
whether 1000 is even, one fuel short | i32 1000 | 8004 | 1 | exhausted fuel | 0 | (type (func (param i32) (result i32))) \
    (table 2 funcref) (elem (offset i32.const 0) func 0 1) (func (type 0) local.get 0 i32.eqz if i32.const 1 return end local.get 0 \
    i32.const 1 i32.sub i32.const 1 return_call_indirect (type 0)) (func \
    (type 0) local.get 0 i32.eqz if i32.const 0 return end local.get 0 i32.const 1 i32.sub i32.const 0 return_call_indirect (type 0))
down from 1000 | i32 1000 | 7003 | 1 | values i32 9 | 0 | (type (func (param i32) (result i32))) (table 1 funcref) \
    (elem (offset i32.const 0) func 0) (func (type 0) local.get 0 if local.get 0 i32.const 1 i32.sub i32.const 0 return_call_indirect \
    (type 0) end i32.const 9)
two arguments above two operands | i32 7 i32 2 | 9 | 1 | values i32 5 | 0 | (type (func (param i32 i32) (result i32))) (table 1 funcref) \
    (elem (offset i32.const 0) func 1) (func (type 0) i64.const 1 i32.const 2 local.get 0 local.get 1 i32.const 0 return_call_indirect \
    (type 0)) (func (type 0) local.get 0 local.get 1 i32.sub)
no argument and no result | | 3 | 1 | values | 0 | (type (func)) (table 1 funcref) (elem (offset i32.const 0) func 1) (func i32.const 0 return_call_indirect (type 0)) (func nop)
a reference and an i64 | externref 4 i64 9 | 6 | 1 | values i64 9 externref 4 | 0 | \
    (type (func (param externref i64) (result i64 externref))) (table 1 funcref) (elem (offset i32.const 0) func 1) \
    (func (type 0) local.get 0 local.get 1 i32.const 0 return_call_indirect (type 0)) (func (type 0) local.get 1 local.get 0)
first values of locals in the place of operands | i32 3 | 7 | 1 | values i32 3 i64 0 | 0 | (type (func (param i32) (result i32 i64))) \
    (table 1 funcref) (elem (offset i32.const 0) func 1) (func (type 0) i64.const 5 i64.const 6 local.get 0 i32.const 0 \
    return_call_indirect (type 0)) (func (type 0) (local i64 i64) local.get 0 local.get 2)
inside of two blocks and a loop | | 12 | 1 | values i32 40 | 0 | (type (func (param i32) (result i32))) (table 1 funcref) \
    (elem (offset i32.const 0) func 1) (func (result i32) i32.const 1 block i64.const 2 block i32.const 3 loop i32.const 4 i32.const 0 \
    return_call_indirect (type 0) end drop end drop end) (func (type 0) local.get 0 i32.const 10 i32.mul)
a caller that waits | | 9 | 2 | values i32 108 | 0 | (type (func (param i32) (result i32))) (table 1 funcref) \
    (elem (offset i32.const 0) func 2) (func (result i32) i32.const 100 call 1 i32.add) \
    (func (result i32) i32.const 7 i32.const 0 return_call_indirect (type 0)) \
    (func (type 0) (local i64 i64) local.get 0 i32.const 1 i32.add)
no entry, and a caller that waits | | 10 | 2 | trap undefined element | 5 | (type (func (param i32) (result i32))) (table 1 funcref) \
    (elem (offset i32.const 0) func 2) (func (result i32) i32.const 100 call 1 i32.add) \
    (func (result i32) i32.const 7 i32.const 1 return_call_indirect (type 0)) \
    (func (type 0) (local i64 i64) local.get 0 i32.const 1 i32.add)
a trap in the function | | 9 | 1 | trap unreachable | 6 | (type (func)) (table 1 funcref) (elem (offset i32.const 0) func 1) (func i32.const 0 return_call_indirect (type 0)) (func unreachable)";

fn rows_by_index() -> &'static str {
    TAIL_CALLS
}

fn rows_through_tables() -> &'static str {
    TAIL_CALLS_THROUGH_TABLES
}

#[test]
fn runs_tail_calls(rt: HostRuntime) {
    let first = first_row_at_fault(rt.alloc(), rows_by_index(), 76);
    assert!(rt; first.is_none(), "{first:?}");
}

#[test]
fn runs_tail_calls_through_tables(rt: HostRuntime) {
    let first = first_row_at_fault(rt.alloc(), rows_through_tables(), 37);
    assert!(rt; first.is_none(), "{first:?}");
}

// A module in pieces, each of which is repeated that often. A call of its first function has this argument, fuel and depth
// bound, this end, and this fuel left.
struct LongRow {
    name: &'static str,
    pieces: &'static [(&'static str, usize)],
    argument: u32,
    bounds: (u64, u32),
    ends: &'static str,
    left: u64,
}

// Tail calls with many locals and many arguments.
#[rattlefmt::skip]
static LONG_ROWS: [LongRow; 7] = [
    LongRow { name: "10,000 tail calls between no locals and 40,000", pieces: &[
        ("(func (param i32) (result i32) local.get 0 i32.eqz if i32.const 7 return end local.get 0 i32.const 1 i32.sub return_call 1) \
            (func (param i32) (result i32) (local ", 1),
        ("i32 ", 40_000),
        (") local.get 40000 if unreachable end i32.const 1 local.set 40000 local.get 0 i32.const 1 i32.sub return_call 0)", 1),
    ], argument: 10_000, bounds: (75_005, 1), ends: "values i32 7", left: 0 },
    LongRow { name: "40,000 locals in the place of one, and a caller that waits", pieces: &[
        ("(func (param i32) (result i32) i32.const 100 local.get 0 call 1 i32.add) \
            (func (param i32) (result i32) i32.const 1 local.get 0 return_call 2) (func (param i32) (result i32) (local ", 1),
        ("i32 ", 40_000),
        (") local.get 0 local.get 40000 i32.add)", 1),
    ], argument: 3, bounds: (10, 2), ends: "values i32 103", left: 0 },
    LongRow { name: "40,000 locals, one fuel short", pieces: &[
        ("(func (param i32) (result i32) local.get 0 return_call 1) (func (param i32) (result i32) (local ", 1),
        ("i32 ", 40_000),
        (") local.get 0 local.get 40000 i32.add)", 1),
    ], argument: 3, bounds: (1, 1), ends: "exhausted fuel", left: 0 },
    LongRow { name: "one local in the place of 40,000", pieces: &[
        ("(func (param i32) (result i32) (local ", 1),
        ("i32 ", 40_000),
        (") i32.const 5 local.set 40000 local.get 0 return_call 1) (func (param i32) (result i32) (local i32) local.get 0 local.get 1 i32.add)", 1),
    ], argument: 3, bounds: (7, 1), ends: "values i32 3", left: 0 },
    LongRow { name: "40,000 locals through a table", pieces: &[
        ("(type (func (param i32) (result i32))) (table 1 funcref) (elem (offset i32.const 0) func 1) \
            (func (type 0) local.get 0 i32.const 0 return_call_indirect (type 0)) (func (type 0) (local ", 1),
        ("i32 ", 40_000),
        (") local.get 0 local.get 40000 i32.add)", 1),
    ], argument: 3, bounds: (6, 1), ends: "values i32 3", left: 0 },
    LongRow { name: "1,000 arguments above one local", pieces: &[
        ("(func (param i32) (result i32 i32 i32) ", 1),
        ("local.get 0 i32.const 1 i32.add local.tee 0 ", 1_000),
        ("return_call 1) (func (param ", 1),
        ("i32 ", 1_000),
        (") (result i32 i32 i32) local.get 0 local.get 500 local.get 999)", 1),
    ], argument: 5, bounds: (4_004, 1), ends: "values i32 6 i32 506 i32 1005", left: 0 },
    LongRow { name: "1,000 arguments above 100 operands", pieces: &[
        ("(func (param i32) (result i32 i32 i32) ", 1),
        ("i64.const 9 ", 100),
        ("local.get 0 i32.const 1 i32.add local.tee 0 ", 1_000),
        ("return_call 1) (func (param ", 1),
        ("i32 ", 1_000),
        (") (result i32 i32 i32) local.get 0 local.get 500 local.get 999)", 1),
    ], argument: 5, bounds: (4_104, 1), ends: "values i32 6 i32 506 i32 1005", left: 0 },
];

fn text_of(alloc: Global, pieces: &[(&str, usize)]) -> Result<String, AllocError> {
    let mut text = String::new(alloc);
    for (piece, count) in pieces {
        text.push_str(&piece.repeat(alloc, *count)?)?;
    }
    Ok(text)
}

// Returns whether a run of the first function of a module in pieces ends as its row states.
fn pieces_agree(alloc: Global, row: &LongRow) -> bool {
    match text_of(alloc, row.pieces) {
        Ok(text) => runs_so(
            alloc,
            text.as_str(),
            &[Val::I32(row.argument)],
            row.bounds,
            (row.ends, row.left),
        ),
        Err(_) => false,
    }
}

#[test]
fn runs_tail_calls_of_large_frames(rt: HostRuntime) {
    for row in &LONG_ROWS {
        assert!(rt; pieces_agree(rt.alloc(), row), "{}", row.name);
    }
}
