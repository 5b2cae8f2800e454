//! Lists of 16 types and more, which the validator keeps as runs, and the shorter ones beside them.

use crate::answers::check_rows_after;

// The first types and functions of each module in `RUNS`. Functions 0 to 8 have the types 1 to 9, and function 9 has type 12.
const PREFIX: &str = "\
    (type (func)) \
    (type (func (result i32 i32 i32 i32 i32 i32 i32 i32 i32 i32 i32 i32 i32 i32 i32 i32 i32 i32 i32 i32))) \
    (type (func (param i32 i32 i32 i32 i32 i32 i32 i32 i32 i32 i32 i32 i32 i32 i32 i32 i32 i32 i32 i32))) \
    (type (func (result i32 i32 i32 i32 i32 i32 i32 i32 i32 i32 i32 i32 i32 i32 i32 i32 i32 i32 i32 i64))) \
    (type (func (result i64 i32 i32 i32 i32 i32 i32 i32 i32 i32 i32 i32 i32 i32 i32 i32 i32 i32 i32 i32))) \
    (type (func (result i32 i32 i32 i32 i32))) \
    (type (func (param i32 i32 i32 i32 i32 i32 i32 i32 i32 i32 i32 i32 i32 i32 i32 i32 i32 i32 i32 i32 i32))) \
    (type (func (param i32 i32 i32 i32 i32 i32 i32 i32 i32 i32 i32 i32 i32 i32 i32 i32 i32 i32 i32 i32 i32 i32 i32 i32 i32 \
    i32 i32 i32 i32 i32 i32 i32 i32 i32 i32 i32 i32 i32 i32 i32))) \
    (type (func (result i32 i32 i32 i32 i32 i32 i32 i32 i32 i32 i32 i32 i32 i32 i32 i32 i32 i32 i32 i32 i32 i32 i32 i32 i32 \
    i32 i32 i32 i32 i32 i32 i32 i32 i32 i32 i32 i32 i32 i32 i32))) \
    (type (func (param i32 i32 i32 i32 i32))) \
    (type (func (param i32 i32 i32 i32 i32 i32 i32 i32 i32 i32 i32 i32 i32 i32 i32 i32 i32 i32 i32 i32) (result i32 i32 i32 \
    i32 i32 i32 i32 i32 i32 i32 i32 i32 i32 i32 i32 i32 i32 i32 i32 i32))) \
    (type (func (result i32 i32 i32 i32 i32 i32 i32 i32 i32 i32 i32 i32 i32 i32 i32 i32 i32 i32 i32 i32 i32))) \
    (type (func (param i32 i32 i32 i32 i32 i32 i32 i32 i32 i32 i32 i32 i32 i32 i32 i32 i32 i32 i32 i32) (result i64 i32 i32 \
    i32 i32 i32 i32 i32 i32 i32 i32 i32 i32 i32 i32 i32 i32 i32 i32 i32))) \
    (func (type 1) unreachable) (func (type 2) unreachable) (func (type 3) unreachable) (func (type 4) unreachable) (func (type 5) unreachable) \
    (func (type 6) unreachable) (func (type 7) unreachable) (func (type 8) unreachable) (func (type 9) unreachable) (func (type 12) unreachable) ";

const RUNS: &str = "\
run_taken_whole | (func (type 0) call 0 call 1) | valid
run_of_an_i64_on_top_taken_as_i32s | (func (type 0) call 2 call 1) | invalid
run_of_an_i64_at_the_bottom_taken_as_i32s | (func (type 0) call 3 call 1) | invalid
run_shorter_than_what_is_taken | (func (type 0) call 0 call 5) | invalid
run_above_an_operand_taken_with_it | (func (type 0) i32.const 0 call 0 call 5) | valid
run_above_an_i64_taken_with_it | (func (type 0) i64.const 0 call 0 call 5) | invalid
run_below_an_operand_taken_with_it | (func (type 0) call 0 i32.const 0 call 5) | valid
run_below_an_i64_taken_with_it | (func (type 0) call 0 i64.const 0 call 5) | invalid
two_runs_taken_at_once | (func (type 0) call 0 call 0 call 6) | valid
two_runs_taken_at_once_the_lower_with_an_i64 | (func (type 0) call 2 call 0 call 6) | invalid
two_runs_with_an_operand_between_them | (func (type 0) call 0 i32.const 0 call 0 call 5 call 1) | valid
two_runs_too_short_by_one | (func (type 0) call 0 call 0 drop call 6) | invalid
run_taken_in_two_parts | (func (type 0) call 7 call 1 call 1) | valid
run_taken_in_two_parts_and_once_more | (func (type 0) call 7 call 1 call 1 drop) | invalid
run_taken_as_short_lists | (func (type 0) call 0 call 8 call 8 call 8 call 8) | valid
run_taken_as_short_lists_and_once_more | (func (type 0) call 0 call 8 call 8 call 8 call 8 drop) | invalid
short_lists_taken_as_a_long_one | (func (type 0) call 4 call 4 call 4 call 4 call 1) | valid
short_lists_too_few_for_a_long_one | (func (type 0) call 4 call 4 call 4 call 1) | invalid
operand_of_a_run_dropped | (func (type 0) call 0 drop call 4 drop drop drop drop call 1) | valid
operand_of_a_run_dropped_and_missed | (func (type 0) call 0 drop call 1) | invalid
operand_of_a_run_replaced | (func (type 0) call 0 i32.eqz call 1) | valid
operand_of_a_run_as_an_i64 | (func (type 0) call 0 i64.eqz drop unreachable) | invalid
topmost_operand_of_a_run_is_an_i64 | (func (type 0) call 2 i64.eqz call 1) | valid
topmost_operands_of_a_run_added | (func (type 0) call 0 i32.add call 4 drop drop drop drop call 1) | valid
topmost_operands_of_a_run_added_as_i64s | (func (type 0) call 0 i64.add unreachable) | invalid
run_left_at_the_end | (func (type 0) call 0) | invalid
unknown_operand_below_a_run | (func (type 0) unreachable call 0 call 5) | valid
unknown_operands_below_a_run_with_an_i64 | (func (type 0) unreachable call 2 call 5) | invalid
unknown_operands_above_nothing | (func (type 0) unreachable call 1) | valid
run_dropped_by_a_branch | (func (type 0) call 0 br 0) | valid
run_dropped_by_unreachable | (func (type 0) call 0 unreachable) | valid
block_ends_with_a_run | (func (type 0) block (type 1) call 0 end call 1) | valid
block_ends_with_short_lists | (func (type 0) block (type 1) call 4 call 4 call 4 call 4 end call 1) | valid
block_ends_with_a_run_of_an_i64 | (func (type 0) block (type 1) call 2 end call 1) | invalid
block_ends_with_a_run_and_an_operand | (func (type 0) block (type 1) call 0 i32.const 0 end call 1) | invalid
block_ends_with_a_run_too_short | (func (type 0) block (type 1) call 0 drop end call 1) | invalid
block_takes_a_run | (func (type 0) call 0 block (type 10) end call 1) | valid
block_takes_no_run_from_below | (func (type 0) call 0 block call 1 end) | invalid
block_takes_a_run_of_an_i64 | (func (type 0) call 3 block (type 10) end call 1) | invalid
block_leaves_a_run_below | (func (type 0) call 0 block call 0 call 1 end call 1) | valid
loop_takes_and_gives_a_run | (func (type 0) call 0 loop (type 10) end call 1) | valid
loop_repeats_with_a_run | (func (type 0) call 0 loop (type 10) i32.const 0 br_if 0 end call 1) | valid
loop_repeats_with_a_run_of_an_i64 | (func (type 0) call 0 loop (type 10) call 1 call 3 i32.const 0 br_if 0 call 1 call 0 end call 1) | invalid
if_gives_what_it_takes | (func (type 0) call 0 i32.const 0 if (type 10) end call 1) | valid
if_without_else_gives_an_i64_for_an_i32 | (func (type 0) call 0 i32.const 0 if (type 12) unreachable end unreachable) | invalid
if_with_else_gives_an_i64_for_an_i32 | (func (type 0) call 0 i32.const 0 if (type 12) call 9 else call 9 end unreachable) | valid
else_takes_a_run | (func (type 0) call 0 i32.const 0 if (type 10) else call 1 call 0 end call 1) | valid
branch_keeps_a_run | (func (type 0) block (type 1) call 0 i32.const 0 br_if 0 end call 1) | valid
branch_keeps_the_top_of_a_run | (func (type 0) block (type 1) call 7 br 0 end call 1) | valid
branch_with_a_run_too_short | (func (type 0) block (type 1) call 0 drop i32.const 0 br_if 0 i32.const 0 end call 1) | invalid
branch_with_a_run_of_an_i64 | (func (type 0) block (type 1) call 3 i32.const 0 br_if 0 call 1 call 0 end call 1) | invalid
branch_with_a_run_and_operands | (func (type 0) block (type 11) i32.const 0 call 0 i32.const 0 br_if 0 end call 5) | valid
branch_with_unknown_operands_below_a_run | (func (type 0) block (type 11) unreachable call 0 i32.const 0 br_if 0 end call 5) | valid
labels_of_a_run | (func (type 0) block (type 1) block (type 1) call 0 i32.const 0 br_table 0 1 0 end end call 1) | valid
labels_of_the_top_of_a_run | (func (type 0) block (type 1) block (type 1) call 7 i32.const 0 br_table 0 1 1 end end call 1) | valid
labels_of_short_lists | (func (type 0) block (type 1) block (type 1) call 4 call 4 call 4 call 4 i32.const 0 br_table 0 1 0 end end call 1) | valid
labels_of_a_run_too_short | (func (type 0) block (type 11) block (type 11) call 0 i32.const 0 br_table 0 1 0 end end call 5) | invalid
labels_of_a_run_and_an_operand | (func (type 0) block (type 11) block (type 11) i32.const 0 call 0 i32.const 0 br_table 0 1 0 end end call 5) | valid
labels_with_an_i64_in_one | (func (type 0) block (type 1) block (type 4) call 0 i32.const 0 br_table 1 0 1 end call 9 end call 1) | invalid
labels_with_an_i64_in_the_default | (func (type 0) block (type 1) block (type 4) call 0 i32.const 0 br_table 1 1 0 end unreachable end call 1) | invalid
labels_of_two_lengths | (func (type 0) block (type 1) block (type 11) i32.const 0 call 0 i32.const 0 br_table 0 1 0 end unreachable end call 1) | invalid
labels_of_two_lists_after_unreachable | (func (type 0) block (type 1) block (type 4) unreachable br_table 0 1 0 end unreachable end call 1) | valid
labels_of_two_lists_for_unknown_operands_below_a_run | (func (type 0) block (type 11) block (type 11) unreachable call 0 i32.const 0 br_table 0 1 0 end end call 5) | valid
labels_of_a_run_from_below_the_block | (func (type 0) call 0 block (type 1) i32.const 0 br_table 0 0 end unreachable) | invalid
result_of_a_function_is_a_run | (func (type 1) call 0) | valid
result_of_a_function_is_a_run_of_an_i64 | (func (type 1) call 2) | invalid
return_keeps_the_top_of_a_run | (func (type 1) call 7 return) | valid
return_with_a_run_too_short | (func (type 11) call 0 return) | invalid
tail_call_takes_a_run | (func (type 0) call 0 return_call 1) | valid
tail_call_takes_a_run_of_an_i64 | (func (type 0) call 3 return_call 1) | invalid
tail_call_gives_a_run | (func (type 1) return_call 0) | valid
tail_call_gives_a_run_of_an_i64 | (func (type 1) return_call 3) | invalid
select_of_two_of_a_run | (func (type 0) call 0 i32.const 0 select call 4 drop drop drop drop call 1) | valid
local_holds_an_operand_of_a_run | (func (type 0) (local i32) call 0 local.set 0 local.get 0 call 1) | valid
local_of_an_i64_for_an_operand_of_a_run | (func (type 0) (local i64) call 0 local.set 0 unreachable) | invalid";

#[test]
fn checks_long_lists_of_types(rt: HostRuntime) {
    check_rows_after(&rt, rt.alloc(), PREFIX, RUNS, 75);
}
