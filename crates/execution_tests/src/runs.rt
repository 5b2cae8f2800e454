//! Calls of functions: how they end, and the fuel left.

use crate::modules::store_with;
use core_types::{Exhaustion, Trap, Val};
use exec::{Outcome, have_hosts, invoke};
use fuel::Meter;
use hostfunc::HostTable;
use std::alloc::{AllocError, Global};
use store::{Store, accepts};

// Each row has a name, arguments, fuel, a depth bound, how a call of the first function ends, the fuel left, and the module.
const ROWS: &str = "\
i32.div_s of 4294967289 and 2 | | 3 | 1 | values i32 4294967293 | 0 | (func (result i32) i32.const 4294967289 i32.const 2 i32.div_s)
i32.rem_s of 4294967289 and 2 | | 3 | 1 | values i32 4294967295 | 0 | (func (result i32) i32.const 4294967289 i32.const 2 i32.rem_s)
i32.rem_s of 2147483648 and 4294967295 | | 3 | 1 | values i32 0 | 0 | (func (result i32) i32.const 2147483648 i32.const 4294967295 i32.rem_s)
i32.rotl of 2147483649 and 33 | | 3 | 1 | values i32 3 | 0 | (func (result i32) i32.const 2147483649 i32.const 33 i32.rotl)
i32.shr_s of 2147483648 and 31 | | 3 | 1 | values i32 4294967295 | 0 | (func (result i32) i32.const 2147483648 i32.const 31 i32.shr_s)
i32.extend8_s of 128 | | 2 | 1 | values i32 4294967168 | 0 | (func (result i32) i32.const 128 i32.extend8_s)
i32.wrap_i64 of 4294967301 | | 2 | 1 | values i32 5 | 0 | (func (result i32) i64.const 4294967301 i32.wrap_i64)
i32.clz of 0 | | 2 | 1 | values i32 32 | 0 | (func (result i32) i32.const 0 i32.clz)
i64.ctz of 0 | | 2 | 1 | values i64 64 | 0 | (func (result i64) i64.const 0 i64.ctz)
i32.div_s that traps, fuel 10 | | 10 | 1 | trap integer overflow | 7 | (func (result i32) i32.const 2147483648 i32.const 4294967295 i32.div_s)
i32.div_s that traps, fuel 3 | | 3 | 1 | trap integer overflow | 0 | (func (result i32) i32.const 2147483648 i32.const 4294967295 i32.div_s)
i32.div_s that traps, fuel 2 | | 2 | 1 | exhausted fuel | 0 | (func (result i32) i32.const 2147483648 i32.const 4294967295 i32.div_s)
i32.div_u that traps, fuel 10 | | 10 | 1 | trap integer divide by zero | 7 | (func (result i32) i32.const 1 i32.const 0 i32.div_u)
i32.div_u that traps, fuel 3 | | 3 | 1 | trap integer divide by zero | 0 | (func (result i32) i32.const 1 i32.const 0 i32.div_u)
i32.div_u that traps, fuel 2 | | 2 | 1 | exhausted fuel | 0 | (func (result i32) i32.const 1 i32.const 0 i32.div_u)
drop | | 3 | 1 | values i64 1 | 0 | (func (result i64) i64.const 1 i64.const 2 drop)
nop | | 2 | 1 | values i32 4 | 0 | (func (result i32) i32.const 4 nop)
ref.null func | | 1 | 1 | values funcref null | 0 | (func (result funcref) ref.null func)
ref.null extern | | 1 | 1 | values externref null | 0 | (func (result externref) ref.null extern)
ref.is_null of null | funcref null | 2 | 1 | values i32 1 | 0 | (func (param funcref) (result i32) local.get 0 ref.is_null)
ref.is_null of function 0 | funcref 0 | 2 | 1 | values i32 0 | 0 | (func (param funcref) (result i32) local.get 0 ref.is_null)
ref.is_null of an external null | externref null | 2 | 1 | values i32 1 | 0 | (func (param externref) (result i32) local.get 0 ref.is_null)
ref.is_null of an external 0 | externref 0 | 2 | 1 | values i32 0 | 0 | (func (param externref) (result i32) local.get 0 ref.is_null)
select by 7 | i32 7 | 4 | 1 | values i32 10 | 0 | (func (param i32) (result i32) i32.const 10 i32.const 20 local.get 0 select)
select by 0 | i32 0 | 4 | 1 | values i32 20 | 0 | (func (param i32) (result i32) i32.const 10 i32.const 20 local.get 0 select)
select (result i32) by 7 | i32 7 | 4 | 1 | values i32 10 | 0 | (func (param i32) (result i32) i32.const 10 i32.const 20 local.get 0 select (result i32))
select (result i32) by 0 | i32 0 | 4 | 1 | values i32 20 | 0 | (func (param i32) (result i32) i32.const 10 i32.const 20 local.get 0 select (result i32))
local.get 1 | i32 7 i32 8 | 1 | 1 | values i32 8 | 0 | (func (param i32 i32) (result i32) local.get 1)
local.set 1 | i32 7 i32 8 | 4 | 1 | values i32 7 i32 6 | 0 | (func (param i32 i32) (result i32 i32) i32.const 6 local.set 1 local.get 0 local.get 1)
local.tee 0 | i32 7 i32 8 | 4 | 1 | values i32 6 i32 6 i32 8 | 0 | (func (param i32 i32) (result i32 i32 i32) i32.const 6 local.tee 0 local.get 0 local.get 1)
unreachable that traps, fuel 10 | | 10 | 1 | trap unreachable | 7 | (func (result i32) nop nop unreachable)
unreachable that traps, fuel 3 | | 3 | 1 | trap unreachable | 0 | (func (result i32) nop nop unreachable)
unreachable that traps, fuel 2 | | 2 | 1 | exhausted fuel | 0 | (func (result i32) nop nop unreachable)
a sum, with fuel for it | i32 3 | 31 | 1 | values i32 6 | 0 | (func (param i32) (result i32) (local i32) loop local.get 1 local.get 0 \
    i32.add local.set 1 local.get 0 i32.const 1 i32.sub local.tee 0 br_if 0 end local.get 1)
a sum, one fuel short | i32 3 | 30 | 1 | exhausted fuel | 0 | (func (param i32) (result i32) (local i32) loop local.get 1 local.get 0 \
    i32.add local.set 1 local.get 0 i32.const 1 i32.sub local.tee 0 br_if 0 end local.get 1)
a sum, argument 1 | i32 1 | 11 | 9 | values i32 1 | 0 | (func (param i32) (result i32) (local i32) loop local.get 1 local.get 0 i32.add \
    local.set 1 local.get 0 i32.const 1 i32.sub local.tee 0 br_if 0 end local.get 1)
a sum, argument 4 | i32 4 | 41 | 9 | values i32 10 | 0 | (func (param i32) (result i32) (local i32) loop local.get 1 local.get 0 i32.add \
    local.set 1 local.get 0 i32.const 1 i32.sub local.tee 0 br_if 0 end local.get 1)
a call past the depth | | 10 | 1 | exhausted depth | 10 | (func call 1) (func)
a call past the depth without fuel | | 0 | 1 | exhausted fuel | 0 | (func call 1) (func)
a call without fuel | | 0 | 2 | exhausted fuel | 0 | (func call 1) (func)
a call | | 1 | 2 | values | 0 | (func call 1) (func)
a function that calls itself | | 1000 | 100 | exhausted depth | 901 | (func call 0)
a loop without end | | 1000 | 1 | exhausted fuel | 0 | (func loop br 0 end)
an empty body without fuel | | 0 | 1 | values | 0 | (func)
an empty body at depth 0 | | 5 | 0 | exhausted depth | 5 | (func)
an empty body at depth 0 without fuel | | 0 | 0 | exhausted depth | 0 | (func)
nested bodies | | 3 | 1 | values | 0 | (func block loop block end end end)
nested bodies, one fuel short | | 2 | 1 | exhausted fuel | 0 | (func block loop block end end end)
1 and 2, fuel 10 | i32 1 i32 2 | 10 | 1 | values i32 3 | 7 | (func (param i32 i32) (result i32) local.get 0 local.get 1 i32.add)
1 and 2, fuel 3 | i32 1 i32 2 | 3 | 1 | values i32 3 | 0 | (func (param i32 i32) (result i32) local.get 0 local.get 1 i32.add)
4294967295 and 1, fuel 1000000000 | i32 4294967295 i32 1 | 1000000000 | 1 | values i32 0 | 999999997 | (func (param i32 i32) (result i32) local.get 0 local.get 1 i32.add)
1 and 2, fuel 2 | i32 1 i32 2 | 2 | 1 | exhausted fuel | 0 | (func (param i32 i32) (result i32) local.get 0 local.get 1 i32.add)
results in order | | 2 | 1 | values i32 1 i64 2 | 0 | (func (result i32 i64) i32.const 1 i64.const 2)
first values of locals | | 4 | 1 | values i32 0 i64 0 funcref null externref null | 0 | \
    (func (result i32 i64 funcref externref) (local i32 i64 funcref externref) local.get 0 local.get 1 local.get 2 local.get 3)
a sum of 64 bits that wraps | | 9 | 1 | values i64 2 | 6 | (func (result i64) i64.const 18446744073709551615 i64.const 3 i64.add)
a branch keeps the topmost operand | | 10 | 1 | values i32 3 | 5 | (func (result i32) block (result i32) i32.const 1 i32.const 2 i32.const 3 br 0 end)
a branch to the function keeps two | | 10 | 1 | values i32 2 i32 3 | 6 | (func (result i32 i32) i32.const 1 i32.const 2 i32.const 3 br 0)
a branch out of three | | 20 | 1 | values i32 105 | 9 | (func (result i32) i32.const 100 block (result i32) i32.const 1 i32.const 2 loop \
    i32.const 3 block i32.const 4 i32.const 5 br 2 end drop end drop end i32.add)
br_if, argument 0 | i32 0 | 8 | 9 | values i32 13 | 0 | (func (param i32) (result i32) (local i32) i32.const 5 block (result i32) i32.const 7 local.get 0 br_if 0 i32.const 1 i32.add end i32.add)
br_if, argument 1 | i32 1 | 6 | 9 | values i32 12 | 0 | (func (param i32) (result i32) (local i32) i32.const 5 block (result i32) i32.const 7 local.get 0 br_if 0 i32.const 1 i32.add end i32.add)
br_if, argument 2147483648 | i32 2147483648 | 6 | 9 | values i32 12 | 0 | \
    (func (param i32) (result i32) (local i32) i32.const 5 block (result i32) i32.const 7 local.get 0 br_if 0 i32.const 1 i32.add end \
    i32.add)
br_table, argument 0 | i32 0 | 8 | 9 | values i32 10 | 0 | (func (param i32) (result i32) (local i32) block block block block local.get 0 \
    br_table 0 1 2 3 end i32.const 10 return end i32.const 11 return end i32.const 12 return end i32.const 13)
br_table, argument 1 | i32 1 | 8 | 9 | values i32 11 | 0 | (func (param i32) (result i32) (local i32) block block block block local.get 0 \
    br_table 0 1 2 3 end i32.const 10 return end i32.const 11 return end i32.const 12 return end i32.const 13)
br_table, argument 2 | i32 2 | 8 | 9 | values i32 12 | 0 | (func (param i32) (result i32) (local i32) block block block block local.get 0 \
    br_table 0 1 2 3 end i32.const 10 return end i32.const 11 return end i32.const 12 return end i32.const 13)
br_table, argument 3 | i32 3 | 7 | 9 | values i32 13 | 0 | (func (param i32) (result i32) (local i32) block block block block local.get 0 \
    br_table 0 1 2 3 end i32.const 10 return end i32.const 11 return end i32.const 12 return end i32.const 13)
br_table, argument 4 | i32 4 | 7 | 9 | values i32 13 | 0 | (func (param i32) (result i32) (local i32) block block block block local.get 0 \
    br_table 0 1 2 3 end i32.const 10 return end i32.const 11 return end i32.const 12 return end i32.const 13)
br_table, argument 4294967295 | i32 4294967295 | 7 | 9 | values i32 13 | 0 | \
    (func (param i32) (result i32) (local i32) block block block block local.get 0 br_table 0 1 2 3 end i32.const 10 return end i32.const \
    11 return end i32.const 12 return end i32.const 13)
br_table with operands, argument 0 | i32 0 | 8 | 9 | values i32 102 | 0 | \
    (func (param i32) (result i32) (local i32) i32.const 100 block (result i32) block (result i32) i32.const 1 i32.const 2 local.get 0 \
    br_table 1 0 1 0 end i32.const 10 i32.mul end i32.add)
br_table with operands, argument 1 | i32 1 | 10 | 9 | values i32 120 | 0 | \
    (func (param i32) (result i32) (local i32) i32.const 100 block (result i32) block (result i32) i32.const 1 i32.const 2 local.get 0 \
    br_table 1 0 1 0 end i32.const 10 i32.mul end i32.add)
br_table with operands, argument 2 | i32 2 | 8 | 9 | values i32 102 | 0 | \
    (func (param i32) (result i32) (local i32) i32.const 100 block (result i32) block (result i32) i32.const 1 i32.const 2 local.get 0 \
    br_table 1 0 1 0 end i32.const 10 i32.mul end i32.add)
br_table with operands, argument 3 | i32 3 | 10 | 9 | values i32 120 | 0 | \
    (func (param i32) (result i32) (local i32) i32.const 100 block (result i32) block (result i32) i32.const 1 i32.const 2 local.get 0 \
    br_table 1 0 1 0 end i32.const 10 i32.mul end i32.add)
a block takes and gives by a type | | 9 | 1 | values i32 105 | 3 | (func (result i32) i32.const 100 i32.const 9 i32.const 4 block (param i32 i32) (result i32) i32.sub end i32.add)
a branch out of such a block | | 9 | 1 | values i32 91 | 2 | (func (result i32) i32.const 100 i32.const 9 i32.const 4 block (param i32 i32) (result i32) i32.const 9 br 0 end i32.sub)
a loop with a parameter, argument 1 | i32 1 | 11 | 9 | values i32 102 | 0 | \
    (func (param i32) (result i32) (local i32) i32.const 100 i32.const 1 loop (param i32) (result i32) i32.const 2 i32.mul local.get 0 \
    i32.const 1 i32.sub local.tee 0 br_if 0 end i32.add)
a loop with a parameter, argument 3 | i32 3 | 27 | 9 | values i32 108 | 0 | \
    (func (param i32) (result i32) (local i32) i32.const 100 i32.const 1 loop (param i32) (result i32) i32.const 2 i32.mul local.get 0 \
    i32.const 1 i32.sub local.tee 0 br_if 0 end i32.add)
a loop with a parameter, argument 10 | i32 10 | 83 | 9 | values i32 1124 | 0 | \
    (func (param i32) (result i32) (local i32) i32.const 100 i32.const 1 loop (param i32) (result i32) i32.const 2 i32.mul local.get 0 \
    i32.const 1 i32.sub local.tee 0 br_if 0 end i32.add)
a branch to a loop, argument 1 | i32 1 | 11 | 9 | values i32 102 | 0 | \
    (func (param i32) (result i32) (local i32) i32.const 100 i32.const 1 loop (param i32) (result i32) i32.const 2 i32.mul local.get 0 \
    i32.const 1 i32.sub local.tee 0 if i32.const 7 i32.const 3 br 1 end end i32.add)
a branch to a loop, argument 2 | i32 2 | 22 | 9 | values i32 106 | 0 | \
    (func (param i32) (result i32) (local i32) i32.const 100 i32.const 1 loop (param i32) (result i32) i32.const 2 i32.mul local.get 0 \
    i32.const 1 i32.sub local.tee 0 if i32.const 7 i32.const 3 br 1 end end i32.add)
if, condition 1 | i32 1 | 3 | 1 | values i32 7 | 0 | (func (param i32) (result i32) (local i32) local.get 0 if (result i32) i32.const 7 else i32.const 8 end)
if, condition 0 | i32 0 | 3 | 1 | values i32 8 | 0 | (func (param i32) (result i32) (local i32) local.get 0 if (result i32) i32.const 7 else i32.const 8 end)
a branch out of an if and a block, argument 0 | i32 0 | 5 | 9 | values i32 2 | 0 | \
    (func (param i32) (result i32) (local i32) block (result i32) local.get 0 if i32.const 1 br 1 else nop end i32.const 2 end)
a branch out of an if and a block, argument 1 | i32 1 | 5 | 9 | values i32 1 | 0 | \
    (func (param i32) (result i32) (local i32) block (result i32) local.get 0 if i32.const 1 br 1 else nop end i32.const 2 end)
a branch out of an if and a block, argument 4294967295 | i32 4294967295 | 5 | 9 | values i32 1 | 0 | \
    (func (param i32) (result i32) (local i32) block (result i32) local.get 0 if i32.const 1 br 1 else nop end i32.const 2 end)
a branch to the end of an if, argument 0 | i32 0 | 3 | 9 | values i32 8 | 0 | (func (param i32) (result i32) (local i32) local.get 0 if (result i32) i32.const 6 i32.const 7 br 0 else i32.const 8 end)
a branch to the end of an if, argument 1 | i32 1 | 5 | 9 | values i32 7 | 0 | (func (param i32) (result i32) (local i32) local.get 0 if (result i32) i32.const 6 i32.const 7 br 0 else i32.const 8 end)
an if without else, argument 0 | i32 0 | 3 | 9 | values i32 0 | 0 | (func (param i32) (result i32) (local i32) local.get 0 if i32.const 7 local.set 1 end local.get 1)
an if without else, argument 1 | i32 1 | 5 | 9 | values i32 7 | 0 | (func (param i32) (result i32) (local i32) local.get 0 if i32.const 7 local.set 1 end local.get 1)
an if without else, argument 2 | i32 2 | 5 | 9 | values i32 7 | 0 | (func (param i32) (result i32) (local i32) local.get 0 if i32.const 7 local.set 1 end local.get 1)
an if with a parameter and without else, argument 0 | i32 0 | 3 | 9 | values i32 20 | 0 | \
    (func (param i32) (result i32) (local i32) i32.const 20 local.get 0 if (param i32) (result i32) i32.const 1 i32.add end)
an if with a parameter and without else, argument 1 | i32 1 | 5 | 9 | values i32 21 | 0 | \
    (func (param i32) (result i32) (local i32) i32.const 20 local.get 0 if (param i32) (result i32) i32.const 1 i32.add end)
a return from two labels | | 9 | 1 | values i32 4 | 2 | (func (result i32) i32.const 1 block i32.const 2 block i32.const 3 i32.const 4 return end drop end)
a return, with fuel for it | | 7 | 1 | values i32 4 | 0 | (func (result i32) i32.const 1 block i32.const 2 block i32.const 3 i32.const 4 return end drop end)
a return, one fuel short | | 6 | 1 | exhausted fuel | 0 | (func (result i32) i32.const 1 block i32.const 2 block i32.const 3 i32.const 4 return end drop end)
a return to a caller | | 10 | 2 | values i32 104 | 0 | (func (result i32) i32.const 100 call 1 i32.add) \
    (func (result i32) i32.const 1 block i32.const 2 block i32.const 3 i32.const 4 return end drop end)
a return to a caller, fuel short | | 8 | 2 | exhausted fuel | 0 | (func (result i32) i32.const 100 call 1 i32.add) \
    (func (result i32) i32.const 1 block i32.const 2 block i32.const 3 i32.const 4 return end drop end)
arguments and results in order | | 8 | 2 | values i32 7 i32 5 i32 4 | 0 | \
    (func (result i32 i32 i32) i32.const 7 i32.const 9 i32.const 4 call 1) \
    (func (param i32 i32) (result i32 i32) local.get 0 local.get 1 i32.sub local.get 1)
locals of a callee begin at zero | | 10 | 2 | values i32 5 i32 5 | 0 | (func (result i32 i32) call 1 call 1) (func (result i32) (local i32) local.get 0 i32.const 5 i32.add local.tee 0)
locals stay over a call, argument 40 | i32 40 | 11 | 9 | values i32 48 | 0 | \
    (func (param i32) (result i32) (local i32) i32.const 3 local.set 1 call 1 local.get 0 i32.add local.get 1 i32.add) \
    (func (result i32) (local i32) local.get 0 i32.const 5 i32.add local.tee 0)
factorial of 0 | i64 0 | 4 | 1 | values i64 1 | 0 | (func (param i64) (result i64) local.get 0 i64.eqz if (result i64) i64.const 1 else local.get 0 local.get 0 i64.const 1 i64.sub call 0 i64.mul end)
factorial of 5 | i64 5 | 50 | 6 | values i64 120 | 1 | (func (param i64) (result i64) local.get 0 i64.eqz if (result i64) i64.const 1 \
    else local.get 0 local.get 0 i64.const 1 i64.sub call 0 i64.mul end)
factorial of 20 | i64 20 | 184 | 21 | values i64 2432902008176640000 | 0 | \
    (func (param i64) (result i64) local.get 0 i64.eqz if (result i64) i64.const 1 else local.get 0 local.get 0 i64.const 1 i64.sub call \
    0 i64.mul end)
factorial of 5 past the depth | i64 5 | 100 | 5 | exhausted depth | 61 | \
    (func (param i64) (result i64) local.get 0 i64.eqz if (result i64) i64.const 1 else local.get 0 local.get 0 i64.const 1 i64.sub call \
    0 i64.mul end)
fibonacci of 10 | i32 10 | 1589 | 10 | values i32 55 | 0 | (func (param i32) (result i32) (local i32) local.get 0 i32.const 2 i32.lt_u if \
    (result i32) local.get 0 else local.get 0 i32.const 1 i32.sub call 0 local.get 0 i32.const 2 i32.sub call 0 i32.add end)
a trap in a callee | | 10 | 2 | trap integer divide by zero | 5 | (func (result i32) i32.const 1 call 1 i32.add) (func (result i32) i32.const 1 i32.const 0 i32.div_u)
a callee without fuel | | 4 | 2 | exhausted fuel | 0 | (func (result i32) i32.const 1 call 1 i32.add) (func (result i32) i32.const 1 i32.const 0 i32.div_u)
block br 0 end, one fuel short | | 1 | 2 | exhausted fuel | 0 | (func block br 0 end) (func)
block br 0 end, with fuel for it | | 2 | 2 | values | 0 | (func block br 0 end) (func)
block i32.const 1 br_if 0 end, one fuel short | | 2 | 2 | exhausted fuel | 0 | (func block i32.const 1 br_if 0 end) (func)
block i32.const 1 br_if 0 end, with fuel for it | | 3 | 2 | values | 0 | (func block i32.const 1 br_if 0 end) (func)
block i32.const 0 br_if 0 end, one fuel short | | 2 | 2 | exhausted fuel | 0 | (func block i32.const 0 br_if 0 end) (func)
block i32.const 0 br_if 0 end, with fuel for it | | 3 | 2 | values | 0 | (func block i32.const 0 br_if 0 end) (func)
i32.const 9 br_table 0 0 0 0, one fuel short | | 1 | 2 | exhausted fuel | 0 | (func i32.const 9 br_table 0 0 0 0) (func)
i32.const 9 br_table 0 0 0 0, with fuel for it | | 2 | 2 | values | 0 | (func i32.const 9 br_table 0 0 0 0) (func)
i32.const 1 if end, one fuel short | | 1 | 2 | exhausted fuel | 0 | (func i32.const 1 if end) (func)
i32.const 1 if end, with fuel for it | | 2 | 2 | values | 0 | (func i32.const 1 if end) (func)
nop return, one fuel short | | 1 | 2 | exhausted fuel | 0 | (func nop return) (func)
nop return, with fuel for it | | 2 | 2 | values | 0 | (func nop return) (func)
nop nop call 1, one fuel short | | 2 | 2 | exhausted fuel | 0 | (func nop nop call 1) (func)
nop nop call 1, with fuel for it | | 3 | 2 | values | 0 | (func nop nop call 1) (func)
memory.fill, one fuel short | | 5 | 1 | exhausted fuel | 2 | (memory 1) (func i32.const 0 i32.const 7 i32.const 128 memory.fill)
memory.fill | | 6 | 1 | values | 0 | (memory 1) (func i32.const 0 i32.const 7 i32.const 128 memory.fill)
memory.fill past the end | | 10 | 1 | trap out of bounds memory access | 6 | (memory 1) (func i32.const 65535 i32.const 7 i32.const 128 memory.fill)
memory.fill and i32.load8_u | | 20 | 1 | values i32 7 | 14 | (memory 1) (func (result i32) i32.const 0 i32.const 263 i32.const 1 memory.fill i32.const 0 i32.load8_u)
i32.load8_u with an offset that does not wrap | | 20 | 1 | trap out of bounds memory access | 18 | (memory 1) (func (result i32) i32.const 1 i32.load8_u offset=4294967295)
a store and loads | | 20 | 1 | values i32 4294967168 i64 18446744073709551488 | 13 | (memory 1) \
    (func (result i32 i64) i32.const 0 i32.const 65408 i32.store16 i32.const 0 i32.load8_s i32.const 0 i64.load16_s)
a store past the end | | 20 | 1 | trap out of bounds memory access | 17 | (memory 1) (func i32.const 65533 i32.const 1 i32.store)
a store of an i64 | | 20 | 1 | values i64 258 | 15 | (memory 1) (func (result i64) i32.const 8 i64.const 258 i64.store offset=8 i32.const 0 i64.load offset=16)
memory.copy | | 20 | 1 | values i32 50462977 | 11 | (memory 1) (func (result i32) i32.const 0 i32.const 67305985 i32.store i32.const 1 i32.const 0 i32.const 3 memory.copy i32.const 0 i32.load)
memory.init and data.drop | | 20 | 1 | values i32 2049 | 13 | (memory 1) (data \"\\01\\08\") (func (result i32) i32.const 0 i32.const 0 i32.const 2 memory.init 0 data.drop 0 i32.const 0 i32.load16_u)
memory.init of a dropped segment | | 20 | 1 | trap out of bounds memory access | 15 | (memory 1) (data \"\\01\\08\") (func data.drop 0 i32.const 0 i32.const 0 i32.const 1 memory.init 0)
memory.init of nothing of a dropped segment | | 20 | 1 | values | 15 | (memory 1) (data \"\\01\\08\") (func data.drop 0 i32.const 0 i32.const 0 i32.const 0 memory.init 0)
memory.grow past the maximum | i32 4294967295 | 10000 | 1 | values i32 4294967295 | 9998 | (memory 1 5) (func (param i32) (result i32) local.get 0 memory.grow)
memory.grow up to the maximum | i32 4 | 9998 | 1 | values i32 1 | 5900 | (memory 1 5) (func (param i32) (result i32) local.get 0 memory.grow)
memory.grow, one fuel short | i32 4 | 4097 | 1 | exhausted fuel | 4096 | (memory 1 5) (func (param i32) (result i32) local.get 0 memory.grow)
memory.grow twice and memory.size | | 20000 | 1 | values i32 1 i32 5 i32 5 | 15899 | (memory 1 5) (func (result i32 i32 i32) i32.const 4 memory.grow i32.const 0 memory.grow memory.size)
memory.grow past the bound on pages | i32 1024 | 10 | 1 | values i32 4294967295 | 8 | (memory 1) (func (param i32) (result i32) local.get 0 memory.grow)
memory.grow up to the bound on pages | i32 1023 | 1047555 | 1 | values i32 1 | 1 | (memory 1) (func (param i32) (result i32) local.get 0 memory.grow)
global.get of a constant | | 5 | 1 | values i64 7 | 4 | (global i64 i64.const 7) (func (result i64) global.get 0)
global.set and global.get | | 9 | 1 | values i32 5 i32 6 | 5 | (global (mut i32) i32.const 5) (func (result i32 i32) global.get 0 i32.const 6 global.set 0 global.get 0)
global.set, one fuel short | | 1 | 1 | exhausted fuel | 0 | (global (mut i32) i32.const 5) (func i32.const 6 global.set 0)
global.get without fuel | | 0 | 1 | exhausted fuel | 0 | (global i64 i64.const 7) (func (result i64) global.get 0)
table.fill of 16 entries | | 6 | 1 | values | 0 | (table 16 funcref) (func i32.const 0 ref.null func i32.const 16 table.fill)
table.fill of 17 entries | | 6 | 1 | trap out of bounds table access | 2 | (table 16 funcref) (func i32.const 0 ref.null func i32.const 17 table.fill)
table.fill, one fuel short | | 5 | 1 | exhausted fuel | 2 | (table 16 funcref) (func i32.const 0 ref.null func i32.const 16 table.fill)
table.fill of 15 entries | | 5 | 1 | values | 0 | (table 16 funcref) (func i32.const 1 ref.null func i32.const 15 table.fill)
nothing is filled at the end | | 4 | 1 | values | 0 | (table 16 funcref) (func i32.const 16 ref.null func i32.const 0 table.fill)
nothing is filled past the end | | 4 | 1 | trap out of bounds table access | 0 | (table 16 funcref) (func i32.const 17 ref.null func i32.const 0 table.fill)
table.set and table.get | externref 4 | 9 | 1 | values externref 4 | 4 | (table 2 externref) (func (param externref) (result externref) i32.const 1 local.get 0 table.set i32.const 1 table.get)
table.get past the end | externref 4 | 9 | 1 | trap out of bounds table access | 7 | (table 2 externref) (func (param externref) (result externref) i32.const 2 table.get)
table.get without fuel | externref 4 | 1 | 1 | exhausted fuel | 0 | (table 2 externref) (func (param externref) (result externref) i32.const 1 table.get)
table.set past the end | externref 4 | 9 | 1 | trap out of bounds table access | 6 | (table 2 externref) (func (param externref) i32.const 2 local.get 0 table.set)
table.get of a null | | 9 | 1 | values externref null | 7 | (table 2 externref) (func (result externref) i32.const 0 table.get)
ref.func and ref.is_null | | 9 | 1 | values funcref 1 i32 0 i32 1 | 4 | (elem declare func 1) (func (result funcref i32 i32) ref.func 1 ref.func 1 ref.is_null ref.null func ref.is_null) (func)
table.size | | 9 | 1 | values i32 3 i32 5 | 7 | (table 3 funcref) (table 5 externref) (func (result i32 i32) table.size 0 table.size 1)
table.grow up to the maximum, and past it | | 9 | 1 | values i32 2 i32 4294967295 i32 10 | 1 | (table 2 10 funcref) \
    (func (result i32 i32 i32) ref.null func i32.const 8 table.grow ref.null func i32.const 1 table.grow table.size)
table.grow, one fuel short | | 3 | 1 | exhausted fuel | 1 | (table 2 10 funcref) (func (result i32) ref.null func i32.const 8 table.grow)
table.grow up to the bound on entries | | 20 | 1 | values i32 98 | 17 | (table 98 funcref) (func (result i32) ref.null func i32.const 2 table.grow)
table.grow past the bound on entries | | 20 | 1 | values i32 4294967295 | 17 | (table 98 funcref) (func (result i32) ref.null func i32.const 3 table.grow)
table.grow with a value | externref 7 | 20 | 1 | values i32 1 externref 7 | 15 | (table 1 externref) \
    (func (param externref) (result i32 externref) local.get 0 i32.const 1 table.grow i32.const 1 table.get)
a call through a null entry | | 9 | 2 | trap uninitialized element | 7 | (type (func (result i32))) (table 2 funcref) (func (result i32) i32.const 1 call_indirect (type 0))
a call through no entry | | 9 | 2 | trap undefined element | 7 | (type (func (result i32))) (table 2 funcref) (func (result i32) i32.const 2 call_indirect (type 0))
a call through no entry, without fuel | | 1 | 2 | exhausted fuel | 0 | (type (func (result i32))) (table 2 funcref) (func (result i32) i32.const 2 call_indirect (type 0))
a call of a function of another type | | 9 | 2 | trap indirect call type mismatch | 4 | (type (func (result i32))) (table 2 funcref) \
    (elem declare func 1) (func (result i32) i32.const 0 ref.func 1 table.set i32.const 0 call_indirect (type 0)) (func)
a call of a function with another type of its parameter | | 9 | 2 | trap indirect call type mismatch | 3 | \
    (type (func (param i32) (result i32))) (table 2 funcref) (elem declare func 1) \
    (func (result i32) i32.const 0 ref.func 1 table.set i32.const 7 i32.const 0 call_indirect (type 0)) \
    (func (param i64) (result i32) i32.const 1)
a call of a function of an equal type of another index | | 9 | 2 | values i32 5 | 2 | (type (func (param i32) (result i32))) \
    (type (func (param i32) (result i32))) (table 2 funcref) (elem declare func 1) \
    (func (result i32) i32.const 0 ref.func 1 table.set i32.const 5 i32.const 0 call_indirect (type 0)) (func (type 1) local.get 0)
a call through an entry, one fuel short | | 5 | 2 | exhausted fuel | 0 | (type (func (param i32) (result i32))) (table 2 funcref) \
    (elem declare func 1) (func (result i32) i32.const 0 ref.func 1 table.set i32.const 5 i32.const 0 call_indirect (type 0)) \
    (func (type 0) local.get 0)
a call through an entry past the depth bound | | 9 | 1 | exhausted depth | 4 | (type (func (param i32) (result i32))) (table 2 funcref) \
    (elem declare func 1) (func (result i32) i32.const 0 ref.func 1 table.set i32.const 5 i32.const 0 call_indirect (type 0)) \
    (func (type 0) local.get 0)
a call through the second table | | 9 | 2 | values i32 5 | 3 | (type (func (result i32))) (table 1 externref) (table 1 funcref) \
    (elem declare func 1) (func (result i32) i32.const 0 ref.func 1 table.set 1 i32.const 0 call_indirect 1 (type 0)) \
    (func (result i32) i32.const 5)
table.init of some references | | 20 | 1 | values i32 1 i32 0 i32 0 | 7 | (table 3 funcref) (elem func 0 0 0) \
    (func (result i32 i32 i32) i32.const 1 i32.const 0 i32.const 2 table.init 0 i32.const 0 table.get ref.is_null i32.const 1 table.get \
    ref.is_null i32.const 2 table.get ref.is_null)
table.init past the references | | 20 | 1 | trap out of bounds table access | 16 | (table 3 funcref) (elem func 0 0) (func i32.const 0 i32.const 0 i32.const 3 table.init 0)
table.init past the entries | | 20 | 1 | trap out of bounds table access | 16 | (table 3 funcref) (elem func 0 0) (func i32.const 2 i32.const 0 i32.const 2 table.init 0)
elem.drop | | 20 | 1 | trap out of bounds table access | 11 | (table 3 funcref) (elem func 0 0) \
    (func elem.drop 0 i32.const 0 i32.const 0 i32.const 0 table.init 0 i32.const 0 i32.const 0 i32.const 1 table.init 0)
elem.drop without fuel | | 0 | 1 | exhausted fuel | 0 | (table 3 funcref) (elem func 0 0) (func elem.drop 0)
table.init of 8 references | | 4 | 1 | exhausted fuel | 1 | (table 8 funcref) (elem func 0 0 0 0 0 0 0 0) (func i32.const 0 i32.const 0 i32.const 8 table.init 0)
table.copy of 8 entries | | 5 | 1 | values | 0 | (table 8 funcref) (table 8 funcref) (func i32.const 0 i32.const 0 i32.const 8 table.copy 0 1)
table.copy of 8 entries, one fuel short | | 4 | 1 | exhausted fuel | 1 | (table 8 funcref) (table 8 funcref) (func i32.const 0 i32.const 0 i32.const 8 table.copy 0 1)
table.copy past the source | | 9 | 1 | trap out of bounds table access | 5 | (table 8 funcref) (table 7 funcref) (func i32.const 0 i32.const 0 i32.const 8 table.copy 0 1)
table.copy past the target | | 9 | 1 | trap out of bounds table access | 5 | (table 8 funcref) (table 9 funcref) (func i32.const 0 i32.const 0 i32.const 9 table.copy 0 1)";

// Returns the value of a type that a word represents.
fn value(ty: &str, word: &str) -> Option<Val> {
    match (ty, word) {
        ("i32", _) => Some(Val::I32(word.parse().ok()?)),
        ("i64", _) => Some(Val::I64(word.parse().ok()?)),
        ("funcref", "null") => Some(Val::FuncRef(None)),
        ("funcref", _) => Some(Val::FuncRef(Some(word.parse().ok()?))),
        ("externref", "null") => Some(Val::ExternRef(None)),
        ("externref", _) => Some(Val::ExternRef(Some(word.parse().ok()?))),
        _ => None,
    }
}

// Returns the values of a text, each as its type and a word.
fn values(alloc: Global, text: &str) -> Result<Vec<Val>, AllocError> {
    let words: Vec<&str> = text.split_whitespace().collect(alloc)?;
    words
        .chunks(2)
        .filter_map(|pair| match pair {
            [ty, word] => value(ty, word),
            _ => None,
        })
        .collect(alloc)
}

fn trap_text(trap: Trap) -> &'static str {
    match trap {
        Trap::Unreachable => "unreachable",
        Trap::DivideByZero => "integer divide by zero",
        Trap::IntegerOverflow => "integer overflow",
        Trap::MemoryBounds => "out of bounds memory access",
        Trap::TableBounds => "out of bounds table access",
        Trap::UndefinedElement => "undefined element",
        Trap::UninitializedElement => "uninitialized element",
        Trap::IndirectType => "indirect call type mismatch",
        Trap::Host(5) => "host trap 5",
        Trap::Host(_) => "host trap",
    }
}

fn exhaustion_text(what: Exhaustion) -> &'static str {
    match what {
        Exhaustion::Fuel => "fuel",
        Exhaustion::Depth => "depth",
        Exhaustion::Memory => "memory",
    }
}

fn are_values(alloc: Global, found: &[Val], text: &str) -> bool {
    match values(alloc, text) {
        Ok(wanted) => found == wanted.as_slice(),
        Err(_) => false,
    }
}

// Returns whether a call ends as a text states.
fn ends_so(alloc: Global, outcome: &Outcome, text: &str) -> bool {
    let (how, what) = text.split_once(' ').unwrap_or((text, ""));
    match outcome {
        Outcome::Values(found) => how == "values" && are_values(alloc, found.as_slice(), what),
        Outcome::Trap(trap) => how == "trap" && trap_text(*trap) == what,
        Outcome::Exhausted(found) => how == "exhausted" && exhaustion_text(*found) == what,
    }
}

/// Returns whether a call of the function at an address, with this fuel and depth bound, ends as expected and leaves this fuel.
pub fn calls_so(
    alloc: Global,
    store: &mut Store,
    hosts: &mut HostTable,
    (address, args): (u32, &[Val]),
    (fuel, depth): (u64, u32),
    (ends, left): (&str, u64),
) -> bool {
    if !accepts(store, address, args) || !have_hosts(store, hosts) {
        return false;
    }
    let mut meter = Meter::new(fuel, depth);
    let outcome = invoke(alloc, store, hosts, &mut meter, address, args);
    ends_so(alloc, &outcome, ends) && meter.left() == left
}

/// Returns whether a run of the first function of a module ends as expected.
pub fn runs_so(
    alloc: Global,
    text: &str,
    args: &[Val],
    bounds: (u64, u32),
    wanted: (&str, u64),
) -> bool {
    let mut hosts = HostTable::new(alloc);
    match store_with(alloc, &[text]) {
        Some(mut store) => calls_so(alloc, &mut store, &mut hosts, (0, args), bounds, wanted),
        None => false,
    }
}

// Returns the parts of a row.
fn parts_of(alloc: Global, line: &str) -> Result<Vec<&str>, AllocError> {
    line.split('|').map(|part| part.trim()).collect(alloc)
}

// Returns whether a run of the first function of a module ends as the parts of a row state.
fn parts_agree(alloc: Global, parts: &[&str]) -> bool {
    let [_, args, fuel, depth, ends, left, text] = parts else {
        return false;
    };
    let (Ok(fuel), Ok(depth), Ok(left)) = (fuel.parse(), depth.parse(), left.parse()) else {
        return false;
    };
    match values(alloc, args) {
        Ok(args) => runs_so(alloc, text, &args, (fuel, depth), (ends, left)),
        Err(_) => false,
    }
}

// Returns whether a row holds.
fn agrees(alloc: Global, line: &str) -> bool {
    match parts_of(alloc, line) {
        Ok(parts) => parts_agree(alloc, &parts),
        Err(_) => false,
    }
}

/// Returns the first of that many rows that does not hold.
pub fn first_row_at_fault(alloc: Global, rows: &str, count: usize) -> Option<&str> {
    if rows.lines().count() != count {
        return Some("another count of rows");
    }
    for line in rows.lines() {
        if !agrees(alloc, line) {
            return Some(line);
        }
    }
    None
}

fn rows() -> &'static str {
    ROWS
}

#[test]
fn runs_functions(rt: HostRuntime) {
    let first = first_row_at_fault(rt.alloc(), rows(), 178);
    assert!(rt; first.is_none(), "{first:?}");
}

// Two modules. The first function of the second one calls the last one of its own.
#[rattlefmt::skip]
static TWO: [&str; 2] = [
    "(func (result i32) i32.const 10) (func (result i32) i32.const 11)",
    "(func (result i32) call 2 i32.const 100 i32.add) (func (result i32) i32.const 21) (func (result i32) i32.const 22)",
];

// An address, how a call of its function ends with fuel 9, and the fuel left.
#[rattlefmt::skip]
static ADDRESSES: [(u32, &str, u64); 5] = [
    (0, "values i32 10", 8),
    (1, "values i32 11", 8),
    (2, "values i32 122", 5),
    (3, "values i32 21", 8),
    (4, "values i32 22", 8),
];

// Calls the functions at all addresses in turn, in one store of both modules. Returns the first address whose row does not hold.
fn first_at_fault(alloc: Global) -> Option<u32> {
    let mut hosts = HostTable::new(alloc);
    let Some(mut store) = store_with(alloc, &TWO) else {
        return Some(0);
    };
    let mut first = None;
    for (address, ends, left) in &ADDRESSES {
        let call = (*address, [].as_slice());
        let wanted = (*ends, *left);
        let goes = calls_so(alloc, &mut store, &mut hosts, call, (9, 2), wanted);
        if first.is_none() && !goes {
            first = Some(*address);
        }
    }
    first
}

#[test]
fn calls_within_the_instance(rt: HostRuntime) {
    let first = first_at_fault(rt.alloc());
    assert!(rt; first.is_none(), "{first:?}");
}
