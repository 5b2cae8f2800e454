//! Blocks, and the ends of bodies.

use crate::answers::{check_rows, check_rows_after};

// The first types of each module in `BLOCKS`.
const TYPES: &str =
    "(type (func)) (type (func (param i32))) (type (func (param i32) (result i32))) (type (func (param i32) (result i64))) \
    (type (func (result i32 i64))) ";

const BLOCKS: &str = "\
block_of_a_missing_type | (func (type 0) block (type 5) end) | invalid
block_of_a_type | (func (type 0) block (type 0) end) | valid
block_with_an_i64 | (func (type 0) i64.const 0 block (type 1) drop end) | invalid
block_with_an_i32 | (func (type 0) i32.const 0 block (type 1) drop end) | valid
block_without_its_parameter | (func (type 0) block (type 1) drop end) | invalid
block_takes_an_operand_from_below | (func (type 0) i32.const 0 block drop i32.const 0 end drop) | invalid
block_leaves_an_operand_below | (func (type 0) i32.const 0 block end drop) | valid
block_with_an_i64_at_its_end | (func (type 0) block (result i32) i64.const 0 end drop) | invalid
block_with_nothing_at_its_end | (func (type 0) block (result i32) end drop) | invalid
block_with_too_many_at_its_end | (func (type 0) block (result i32) i32.const 0 i32.const 0 end drop drop) | invalid
block_with_an_i32_at_its_end | (func (type 0) block (result i32) i32.const 0 end drop) | valid
block_that_gives_no_i64 | (func (type 0) block (result i32) i32.const 0 end i64.eqz drop) | invalid
block_that_gives_an_i32 | (func (type 0) block (result i32) i32.const 0 end i32.eqz drop) | valid
block_without_results_with_an_i32_at_its_end | (func (type 0) block i32.const 0 end drop) | invalid
block_without_results_with_nothing_at_its_end | (func (type 0) block i32.const 0 drop end) | valid
block_without_results_with_an_i32_after_unreachable | (func (type 0) block unreachable i32.const 0 end drop) | invalid
block_without_results_with_nothing_after_unreachable | (func (type 0) block unreachable i32.const 0 drop end) | valid
block_with_results_in_the_other_order | (func (type 0) block (type 4) i64.const 0 i32.const 0 end drop drop) | invalid
block_with_results_in_order | (func (type 0) block (type 4) i32.const 0 i64.const 0 end drop drop) | valid
block_keeps_no_result_from_unreachable | (func (type 0) block unreachable end drop) | invalid
block_ends_after_unreachable | (func (type 0) block unreachable end) | valid
loop_of_a_missing_type | (func (type 0) loop (type 5) end) | invalid
loop_of_a_type | (func (type 0) loop (type 0) end) | valid
loop_with_an_i64 | (func (type 0) i64.const 0 loop (type 1) drop end) | invalid
loop_with_an_i32 | (func (type 0) i32.const 0 loop (type 1) drop end) | valid
loop_without_its_parameter | (func (type 0) loop (type 1) drop end) | invalid
loop_takes_an_operand_from_below | (func (type 0) i32.const 0 loop drop i32.const 0 end drop) | invalid
loop_leaves_an_operand_below | (func (type 0) i32.const 0 loop end drop) | valid
loop_with_an_i64_at_its_end | (func (type 0) loop (result i32) i64.const 0 end drop) | invalid
loop_with_nothing_at_its_end | (func (type 0) loop (result i32) end drop) | invalid
loop_with_too_many_at_its_end | (func (type 0) loop (result i32) i32.const 0 i32.const 0 end drop drop) | invalid
loop_with_an_i32_at_its_end | (func (type 0) loop (result i32) i32.const 0 end drop) | valid
loop_that_gives_no_i64 | (func (type 0) loop (result i32) i32.const 0 end i64.eqz drop) | invalid
loop_that_gives_an_i32 | (func (type 0) loop (result i32) i32.const 0 end i32.eqz drop) | valid
loop_without_results_with_an_i32_at_its_end | (func (type 0) loop i32.const 0 end drop) | invalid
loop_without_results_with_nothing_at_its_end | (func (type 0) loop i32.const 0 drop end) | valid
loop_without_results_with_an_i32_after_unreachable | (func (type 0) loop unreachable i32.const 0 end drop) | invalid
loop_without_results_with_nothing_after_unreachable | (func (type 0) loop unreachable i32.const 0 drop end) | valid
loop_with_results_in_the_other_order | (func (type 0) loop (type 4) i64.const 0 i32.const 0 end drop drop) | invalid
loop_with_results_in_order | (func (type 0) loop (type 4) i32.const 0 i64.const 0 end drop drop) | valid
loop_keeps_no_result_from_unreachable | (func (type 0) loop unreachable end drop) | invalid
loop_ends_after_unreachable | (func (type 0) loop unreachable end) | valid
if_of_a_missing_type | (func (type 0) i32.const 0 if (type 5) end) | invalid
if_of_a_type | (func (type 0) i32.const 0 if (type 0) end) | valid
if_with_an_i64 | (func (type 0) i64.const 0 i32.const 0 if (type 1) drop else drop end) | invalid
if_with_an_i32 | (func (type 0) i32.const 0 i32.const 0 if (type 1) drop else drop end) | valid
if_without_its_parameter | (func (type 0) i32.const 0 if (type 1) drop else drop end) | invalid
if_takes_an_operand_from_below | (func (type 0) i32.const 0 i32.const 0 if drop i32.const 0 end drop) | invalid
if_leaves_an_operand_below | (func (type 0) i32.const 0 i32.const 0 if end drop) | valid
if_with_an_i64_at_its_end | (func (type 0) i32.const 0 if (result i32) i64.const 0 else i32.const 0 end drop) | invalid
if_with_nothing_at_its_end | (func (type 0) i32.const 0 if (result i32) else i32.const 0 end drop) | invalid
if_with_too_many_at_its_end | (func (type 0) i32.const 0 if (result i32) i32.const 0 i32.const 0 else i32.const 0 end drop drop) | invalid
if_with_an_i32_at_its_end | (func (type 0) i32.const 0 if (result i32) i32.const 0 else i32.const 0 end drop) | valid
if_that_gives_no_i64 | (func (type 0) i32.const 0 if (result i32) i32.const 0 else i32.const 0 end i64.eqz drop) | invalid
if_that_gives_an_i32 | (func (type 0) i32.const 0 if (result i32) i32.const 0 else i32.const 0 end i32.eqz drop) | valid
if_without_results_with_an_i32_at_its_end | (func (type 0) i32.const 0 if i32.const 0 end drop) | invalid
if_without_results_with_nothing_at_its_end | (func (type 0) i32.const 0 if i32.const 0 drop end) | valid
if_without_results_with_an_i32_after_unreachable | (func (type 0) i32.const 0 if unreachable i32.const 0 end drop) | invalid
if_without_results_with_nothing_after_unreachable | (func (type 0) i32.const 0 if unreachable i32.const 0 drop end) | valid
if_with_results_in_the_other_order | (func (type 0) i32.const 0 if (type 4) i64.const 0 i32.const 0 else i32.const 0 i64.const 0 end drop drop) | invalid
if_with_results_in_order | (func (type 0) i32.const 0 if (type 4) i32.const 0 i64.const 0 else i32.const 0 i64.const 0 end drop drop) | valid
if_keeps_no_result_from_unreachable | (func (type 0) i32.const 0 if unreachable end drop) | invalid
if_ends_after_unreachable | (func (type 0) i32.const 0 if unreachable end) | valid
unknown_operand_behind_the_end_of_an_i64_block | (func (type 0) block (result i64) unreachable end i32.eqz drop) | invalid
unknown_operand_behind_the_end_of_an_i32_block | (func (type 0) block (result i32) unreachable end i32.eqz drop) | valid
block_after_unreachable_drops_nothing | (func (type 0) unreachable block drop end) | invalid
block_after_unreachable_drops_an_i32 | (func (type 0) unreachable block i32.const 0 drop end) | valid
unknown_operand_behind_a_block | (func (type 0) block end i32.eqz drop) | invalid
unknown_operand_behind_a_block_after_unreachable | (func (type 0) unreachable block end i32.eqz drop) | valid
i64_below_a_block_for_i32.eqz_behind_it | (func (type 0) i64.const 0 block unreachable i32.eqz drop end i32.eqz drop) | invalid
i64_below_a_block_that_ends_after_unreachable | (func (type 0) i64.const 0 block unreachable i32.eqz drop end i64.eqz drop) | valid
if_without_else_of_no_parameter_and_an_i32 | (func (type 0) i32.const 0 if (result i32) i32.const 0 end drop) | invalid
if_with_else_of_no_parameter_and_an_i32 | (func (type 0) i32.const 0 if (result i32) i32.const 0 else i32.const 0 end drop) | valid
if_without_else_of_an_i32_and_an_i64 | (func (type 0) i32.const 1 i32.const 0 if (type 3) drop i64.const 0 end drop) | invalid
if_with_else_of_an_i32_and_an_i64 | (func (type 0) i32.const 1 i32.const 0 if (type 3) drop i64.const 0 else drop i64.const 0 end drop) | valid
if_without_else_of_an_i32_and_an_i32 | (func (type 0) i32.const 1 i32.const 0 if (type 2) end drop) | valid
if_without_else_of_an_i32_and_nothing | (func (type 0) i32.const 1 i32.const 0 if (type 1) drop end) | invalid
if_with_else_of_an_i32_and_nothing | (func (type 0) i32.const 1 i32.const 0 if (type 1) drop else drop end) | valid
if_without_else_of_an_i32_and_nothing_after_unreachable | (func (type 0) unreachable if (type 1) drop end) | invalid
if_with_else_of_an_i32_and_nothing_after_unreachable | (func (type 0) unreachable if (type 1) drop else drop end) | valid
if_without_condition | (func (type 0) if end) | invalid
if_by_an_i64 | (func (type 0) i64.const 0 if end) | invalid
if_by_an_i32 | (func (type 0) i32.const 0 if end) | valid
if_by_a_reference | (func (type 0) ref.null func if end) | invalid
else_with_an_i64_at_its_end | (func (type 0) i32.const 0 if (result i32) i32.const 0 else i64.const 0 end drop) | invalid
else_with_nothing_at_its_end | (func (type 0) i32.const 0 if (result i32) i32.const 0 else end drop) | invalid
else_with_too_many_at_its_end | (func (type 0) i32.const 0 if (result i32) i32.const 0 else i32.const 0 i32.const 0 end drop drop) | invalid
else_with_an_i32_at_its_end | (func (type 0) i32.const 0 if (result i32) i32.const 0 else i32.const 0 end drop) | valid
else_that_leaves_its_parameter | (func (type 0) i32.const 1 i32.const 0 if (type 1) drop else end drop) | invalid
else_that_drops_its_parameter | (func (type 0) i32.const 1 i32.const 0 if (type 1) drop else drop end) | valid
else_after_unreachable_is_reached | (func (type 0) i32.const 0 if unreachable else i32.add drop end) | invalid
if_after_unreachable_is_not_reached | (func (type 0) i32.const 0 if unreachable i32.add drop else end) | valid
else_takes_no_operand_of_the_other_branch | (func (type 0) i32.const 0 if (result i32) i32.const 0 else drop i32.const 0 end drop) | invalid";

const BODIES: &str = "\
if_with_its_condition_below_its_parameter | (type (func)) (type (func (param i64))) (type (func (param i64) (result i64))) \
    (type (func (param i64) (result i64))) (func (type 0) i32.const 0 i64.const 0 if (type 3) else end drop) | invalid
if_with_its_condition_above_its_parameter | (type (func)) (type (func (param i64))) (type (func (param i64) (result i64))) \
    (type (func (param i64) (result i64))) (func (type 0) i64.const 0 i32.const 0 if (type 3) else end drop) | valid
body_without_its_result | (func (result i32)) | invalid
body_with_two_results | (func (result i32) i32.const 0 i32.const 0) | invalid
body_with_an_i64 | (func (result i32) i64.const 0) | invalid
body_with_its_result | (func (result i32) i32.const 0) | valid
body_of_no_results_with_an_i32 | (func i32.const 0) | invalid
body_of_no_results | (func nop) | valid
body_with_results_in_the_other_order | (func (result i32 i64) i64.const 0 i32.const 0) | invalid
body_with_results_in_order | (func (result i32 i64) i32.const 0 i64.const 0) | valid
body_with_one_of_two_results | (func (result i32 i64) i64.const 0) | invalid
body_with_one_of_two_results_after_unreachable | (func (result i32 i64) unreachable i64.const 0) | valid
body_with_an_i32_too_many_after_unreachable | (func unreachable i32.const 0) | invalid
body_with_an_i64_after_unreachable | (func (result i32) unreachable i64.const 0) | invalid
body_with_nothing_after_unreachable | (func (result i32) unreachable) | valid
body_with_a_reference_of_another_type | (func (result funcref) ref.null extern) | invalid
body_with_a_reference | (func (result funcref) ref.null func) | valid
second_function_with_an_i32 | (func) (func i32.const 0) | invalid
second_function_with_nothing | (func) (func i32.const 0 drop) | valid";

#[test]
fn checks_blocks_and_the_ends_of_bodies(rt: HostRuntime) {
    check_rows_after(&rt, rt.alloc(), TYPES, BLOCKS, 93);
    check_rows(&rt, rt.alloc(), BODIES, 19);
}
