//! Operands of unknown type, labels of loops, functions that ref.func may name, and export names.

use crate::answers::check_rows;

const ROWS: &str = "\
unknown_operand_of_i32.add | (func unreachable i32.add drop) | valid
i64_operand_of_i32.add_after_unreachable | (func unreachable i64.const 0 i32.add drop) | invalid
br_to_a_loop_carries_no_results | (func loop (result i32) br 0 end drop nop) | valid
br_to_a_loop_without_its_parameter | (type (func)) (type (func (param i32))) (func (type 0) i32.const 1 loop (type 1) drop br 0 end) | invalid
br_to_a_loop_with_its_parameter | (type (func)) (type (func (param i32))) (func (type 0) i32.const 1 loop (type 1) drop i32.const 1 br 0 end) | valid
br_table_of_i32_and_i64_after_unreachable | (func block (result i32) block (result i64) unreachable br_table 0 1 end drop i32.const 0 end drop) | valid
br_table_of_i32_and_i64_with_an_i64 | (func block (result i32) block (result i64) i64.const 0 i32.const 0 br_table 0 1 end drop i32.const 0 end drop) | invalid
select_of_references_without_types | (func ref.null extern ref.null extern i32.const 0 select drop) | invalid
select_of_references_with_a_type | (func ref.null extern ref.null extern i32.const 0 select (result externref) drop) | valid
two_exports_named_a | (func) (export \"a\" (func 0)) (export \"a\" (func 0)) | invalid
exports_named_a_and_b | (func) (export \"a\" (func 0)) (export \"b\" (func 0)) | valid
ref.func_of_a_function_named_nowhere_else | (func ref.func 0 drop) | invalid
ref.func_of_a_function_in_a_declarative_segment | (func ref.func 0 drop) (elem declare func 0) | valid
select_of_unknown_operands | (func unreachable select drop) | valid
ref.is_null_of_select_of_unknown_operands | (func unreachable select ref.is_null drop) | valid
select_of_an_unknown_operand_and_a_reference | (func unreachable ref.null extern i32.const 0 select drop) | invalid
select_of_an_unknown_operand_and_an_i32 | (func unreachable i32.const 0 i32.const 0 select drop) | valid
br_if_leaves_an_i32_of_its_label | (func block (result i32) unreachable br_if 0 i64.eqz drop i32.const 0 end drop) | invalid
br_if_leaves_an_i32_of_its_label_for_i32.eqz | (func block (result i32) unreachable br_if 0 i32.eqz drop i32.const 0 end drop) | valid";

#[test]
fn checks_unknown_operands_loops_and_names(rt: HostRuntime) {
    check_rows(&rt, rt.alloc(), ROWS, 19);
}
