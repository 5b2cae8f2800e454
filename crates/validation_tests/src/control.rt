//! Branches, returns, calls and tail calls.

use crate::answers::check_rows;

const ROWS: &str = "\
br_to_a_missing_label | (func br 1) | invalid
br_to_the_body | (func br 0) | valid
br_to_a_missing_label_from_a_block | (func block br 2 end) | invalid
br_to_the_body_from_a_block | (func block br 1 end) | valid
br_without_an_operand | (func block (result i32) br 0 end drop) | invalid
br_with_an_i64 | (func block (result i32) i64.const 0 br 0 end drop) | invalid
br_with_an_i32 | (func block (result i32) i32.const 0 br 0 end drop) | valid
br_with_operands_below | (func block (result i32) i64.const 0 i32.const 0 br 0 end drop) | valid
br_to_a_body_without_its_result | (func (result i32) br 0) | invalid
br_to_a_body_with_its_result | (func (result i32) i32.const 0 br 0) | valid
i64_for_i32.eqz_after_br | (func br 0 i64.const 0 i32.eqz drop) | invalid
i32_for_i32.eqz_after_br | (func br 0 i32.const 0 i32.eqz drop) | valid
br_if_to_a_missing_label | (func i32.const 0 br_if 1) | invalid
br_if_to_the_body | (func i32.const 0 br_if 0) | valid
br_if_by_an_i64 | (func i64.const 0 br_if 0) | invalid
br_if_by_nothing | (func br_if 0) | invalid
br_if_with_an_i64 | (func block (result i32) i64.const 0 i32.const 0 br_if 0 drop i32.const 0 end drop) | invalid
br_if_with_an_i32 | (func block (result i32) i32.const 0 i32.const 0 br_if 0 drop i32.const 0 end drop) | valid
br_if_without_an_operand | (func block (result i32) i32.const 0 br_if 0 drop i32.const 0 end drop) | invalid
br_if_gives_no_i64 | (func block (result i32) i32.const 0 i32.const 0 br_if 0 i64.eqz end drop) | invalid
br_if_gives_an_i32 | (func block (result i32) i32.const 0 i32.const 0 br_if 0 i32.eqz end drop) | valid
br_table_with_a_missing_label | (func i32.const 0 br_table 1 0) | invalid
br_table_with_a_missing_default | (func i32.const 0 br_table 0 1) | invalid
br_table_to_the_body | (func i32.const 0 br_table 0 0) | valid
br_table_with_a_missing_only_label | (func i32.const 0 br_table 1) | invalid
br_table_with_a_default_alone | (func i32.const 0 br_table 0) | valid
br_table_by_an_i64 | (func i64.const 0 br_table 0 0) | invalid
br_table_by_nothing | (func br_table 0 0) | invalid
br_table_with_an_i64 | (func block (result i32) i64.const 0 i32.const 0 br_table 0 0 end drop) | invalid
br_table_with_an_i32 | (func block (result i32) i32.const 0 i32.const 0 br_table 0 0 end drop) | valid
br_table_without_an_operand | (func block (result i32) i32.const 0 br_table 0 0 end drop) | invalid
br_table_with_labels_of_unequal_arity | (func block (result i32) block i32.const 1 i32.const 0 br_table 0 1 end i32.const 0 end drop) | invalid
br_table_with_labels_of_equal_arity | (func block (result i32) block i32.const 1 i32.const 0 br_table 1 1 end i32.const 0 end drop) | valid
br_table_with_labels_of_unequal_arity_after_unreachable | (func block (result i32) block unreachable br_table 0 1 end i32.const 0 end drop) | invalid
br_table_with_labels_of_equal_arity_after_unreachable | (func block (result i32) block unreachable br_table 1 1 end i32.const 0 end drop) | valid
br_table_of_an_i64_label_with_an_i32_after_unreachable | (func block (result i64) unreachable i32.const 1 i32.const 0 br_table 0 0 end drop) | invalid
br_table_of_an_i64_label_with_an_i64_after_unreachable | (func block (result i64) unreachable i64.const 1 i32.const 0 br_table 0 0 end drop) | valid
br_table_with_an_i64_and_a_default_alone | (func block (result i32) i64.const 0 i32.const 0 br_table 0 end drop) | invalid
br_table_with_an_i32_and_a_default_alone | (func block (result i32) i32.const 0 i32.const 0 br_table 0 end drop) | valid
br_table_with_an_i64_default_and_an_i32_label | (func block (result i32) block (result i64) i64.const 0 i32.const 0 br_table 1 0 end drop i32.const 0 end drop) | invalid
br_table_with_an_i64_default_and_an_i64_label | (func block (result i32) block (result i64) i64.const 0 i32.const 0 br_table 0 0 end drop i32.const 0 end drop) | valid
br_to_the_outer_block_with_an_i64 | (func block (result i32) block i64.const 0 br 1 end i32.const 0 end drop) | invalid
br_to_the_outer_block_with_an_i32 | (func block (result i32) block i32.const 0 br 1 end i32.const 0 end drop) | valid
br_in_an_if_without_its_result | (func i32.const 0 if (result i32) br 0 else i32.const 0 end drop) | invalid
br_in_an_if_with_its_result | (func i32.const 0 if (result i32) i32.const 0 br 0 else i32.const 0 end drop) | valid
br_in_an_else_without_its_result | (func i32.const 0 if (result i32) i32.const 0 else br 0 end drop) | invalid
br_in_an_else_with_its_result | (func i32.const 0 if (result i32) i32.const 0 else i32.const 0 br 0 end drop) | valid
return_with_an_i64 | (func (result i32) i64.const 0 return) | invalid
return_with_nothing | (func (result i32) return) | invalid
return_with_an_i32 | (func (result i32) i32.const 0 return) | valid
return_from_a_block_with_an_i64 | (func (result i32) block i64.const 0 return end unreachable) | invalid
return_from_a_block_with_an_i32 | (func (result i32) block i32.const 0 return end unreachable) | valid
i64_for_i32.eqz_after_return | (func return i64.const 0 i32.eqz drop) | invalid
i32_for_i32.eqz_after_return | (func return i32.const 0 i32.eqz drop) | valid
call_of_a_missing_function | (func call 1) | invalid
call_of_the_function_itself | (func call 0) | valid
call_with_an_i64 | (func i64.const 0 call 1 drop) (func (param i32) (result i64) i64.const 0) | invalid
call_with_nothing | (func call 1 drop) (func (param i32) (result i64) i64.const 0) | invalid
call_with_an_i32 | (func i32.const 0 call 1 drop) (func (param i32) (result i64) i64.const 0) | valid
call_gives_no_i32 | (func i32.const 0 call 1 i32.eqz drop) (func (param i32) (result i64) i64.const 0) | invalid
call_gives_an_i64 | (func i32.const 0 call 1 i64.eqz drop) (func (param i32) (result i64) i64.const 0) | valid
imported_functions_come_last | (type (func)) (type (func (param i32) (result i64))) (import \"m\" \"i\" (func (type 1))) (func (type 0) i32.const 0 call 1 i64.eqz drop) | invalid
imported_functions_come_first | (type (func)) (type (func (param i32) (result i64))) (import \"m\" \"i\" (func (type 1))) (func (type 0) i32.const 0 call 0 i64.eqz drop) | valid
call_of_a_function_behind_the_last | (type (func)) (type (func (param i32) (result i64))) (import \"m\" \"i\" (func (type 1))) (func (type 0) call 2) | invalid
call_of_the_last_function | (type (func)) (type (func (param i32) (result i64))) (import \"m\" \"i\" (func (type 1))) (func (type 0) call 1) | valid
call_with_arguments_in_the_other_order | (func i64.const 0 i32.const 0 call 1) (func (param i32 i64)) | invalid
call_with_arguments_in_order | (func i32.const 0 i64.const 0 call 1) (func (param i32 i64)) | valid
call_indirect_with_a_missing_type | (type (func)) (type (func (param i32) (result i64))) (func (type 0) i32.const 0 i32.const 0 call_indirect 0 (type 2) drop) (table 1 funcref) | invalid
call_indirect_without_a_table | (type (func)) (type (func (param i32) (result i64))) (func (type 0) i32.const 0 i32.const 0 call_indirect 0 (type 1) drop) | invalid
call_indirect_with_a_missing_table | (type (func)) (type (func (param i32) (result i64))) (func (type 0) i32.const 0 i32.const 0 call_indirect 1 (type 1) drop) (table 1 funcref) | invalid
call_indirect_of_externref | (type (func)) (type (func (param i32) (result i64))) (func (type 0) i32.const 0 i32.const 0 call_indirect 0 (type 1) drop) (table 1 externref) | invalid
call_indirect_by_an_i64 | (type (func)) (type (func (param i32) (result i64))) (func (type 0) i32.const 0 i64.const 0 call_indirect 0 (type 1) drop) (table 1 funcref) | invalid
call_indirect_with_an_i64 | (type (func)) (type (func (param i32) (result i64))) (func (type 0) i64.const 0 i32.const 0 call_indirect 0 (type 1) drop) (table 1 funcref) | invalid
call_indirect_by_nothing | (type (func)) (type (func (param i32) (result i64))) (func (type 0) call_indirect 0 (type 0)) (table 1 funcref) | invalid
call_indirect_gives_no_i32 | (type (func)) (type (func (param i32) (result i64))) (func (type 0) i32.const 0 i32.const 0 call_indirect 0 (type 1) i32.eqz drop) (table 1 funcref) | invalid
call_indirect_by_an_i32 | (type (func)) (type (func (param i32) (result i64))) (func (type 0) i32.const 0 i32.const 0 call_indirect 0 (type 1) drop) (table 1 funcref) | valid
call_indirect_gives_an_i64 | (type (func)) (type (func (param i32) (result i64))) (func (type 0) i32.const 0 i32.const 0 call_indirect 0 (type 1) i64.eqz drop) (table 1 funcref) | valid
call_indirect_by_an_i32_alone | (type (func)) (type (func (param i32) (result i64))) (func (type 0) i32.const 0 call_indirect 0 (type 0)) (table 1 funcref) | valid
imported_tables_come_last | (type (func)) (type (func (param i32) (result i64))) (import \"m\" \"i\" (table 1 externref)) \
    (func (type 0) i32.const 0 call_indirect 0 (type 0)) (table 1 funcref) | invalid
imported_tables_come_first | (type (func)) (type (func (param i32) (result i64))) (import \"m\" \"i\" (table 1 externref)) \
    (func (type 0) i32.const 0 call_indirect 1 (type 0)) (table 1 funcref) | valid";

const TAIL_CALLS: &str = "\
return_call_of_a_missing_function | (func return_call 1) | invalid
return_call_of_the_function_itself | (func return_call 0) | valid
return_call_of_the_function_itself_with_its_parameter | (func (param i32) (result i32) local.get 0 return_call 0) | valid
return_call_of_one_another | (func (param i32) (result i32) local.get 0 return_call 1) (func (param i32) (result i32) local.get 0 return_call 0) | valid
return_call_with_nothing | (func (result i64) return_call 1) (func (param i32) (result i64) i64.const 0) | invalid
return_call_with_an_i64 | (func (result i64) i64.const 0 return_call 1) (func (param i32) (result i64) i64.const 0) | invalid
return_call_with_an_i32 | (func (result i64) i32.const 0 return_call 1) (func (param i32) (result i64) i64.const 0) | valid
return_call_with_one_of_two_arguments | (func i64.const 0 return_call 1) (func (param i32 i64)) | invalid
return_call_with_arguments_in_the_other_order | (func i64.const 0 i32.const 0 return_call 1) (func (param i32 i64)) | invalid
return_call_with_arguments_in_order | (func i32.const 0 i64.const 0 return_call 1) (func (param i32 i64)) | valid
return_call_with_operands_below | (func i64.const 0 i32.const 0 i64.const 0 return_call 1) (func (param i32 i64)) | valid
return_call_of_a_function_of_other_parameters | (func (param i64 i64) (result i32) i32.const 0 return_call 1) (func (param i32) (result i32) local.get 0) | valid
return_call_gives_an_i64_for_an_i32 | (func (result i32) return_call 1) (func (result i64) i64.const 0) | invalid
return_call_gives_an_i32_for_an_i32 | (func (result i32) return_call 1) (func (result i32) i32.const 0) | valid
return_call_gives_an_i32_for_nothing | (func return_call 1) (func (result i32) i32.const 0) | invalid
return_call_gives_nothing_for_an_i32 | (func (result i32) return_call 1) (func) | invalid
return_call_gives_nothing_over_an_i32 | (func (result i32) i32.const 0 return_call 1) (func) | invalid
return_call_gives_the_first_of_two_results | (func (result i32 i64) return_call 1) (func (result i32) i32.const 0) | invalid
return_call_gives_the_last_of_two_results | (func (result i32 i64) i32.const 0 return_call 1) (func (result i64) i64.const 0) | invalid
return_call_gives_one_more_in_front | (func (result i64) return_call 1) (func (result i32 i64) i32.const 0 i64.const 0) | invalid
return_call_gives_one_more_behind | (func (result i32) return_call 1) (func (result i32 i64) i32.const 0 i64.const 0) | invalid
return_call_gives_two_results_in_the_other_order | (func (result i32 i64) return_call 1) (func (result i64 i32) i64.const 0 i32.const 0) | invalid
return_call_gives_two_results | (func (result i32 i64) return_call 1) (func (result i32 i64) i32.const 0 i64.const 0) | valid
return_call_gives_a_funcref_for_an_externref | (func (result externref) return_call 1) (func (result funcref) ref.null func) | invalid
return_call_gives_an_externref | (func (result externref) return_call 1) (func (result externref) ref.null extern) | valid
i64_for_i32.eqz_after_return_call | (func return_call 0 i64.const 0 i32.eqz drop) | invalid
i32_for_i32.eqz_after_return_call | (func return_call 0 i32.const 0 i32.eqz drop) | valid
unknown_operands_after_return_call | (func return_call 0 i32.add drop) | valid
i64_operand_of_i32.add_after_return_call | (func return_call 0 i64.const 0 i32.add drop) | invalid
return_call_leaves_no_i32 | (func (result i32) return_call 0 i64.eqz) | valid
body_with_an_i32_too_many_after_return_call | (func return_call 0 i32.const 0) | invalid
body_with_an_i64_after_return_call | (func (result i32) return_call 0 i64.const 0) | invalid
body_with_an_i32_after_return_call | (func (result i32) return_call 0 i32.const 0) | valid
return_call_of_a_missing_function_after_unreachable | (func unreachable return_call 1) | invalid
return_call_gives_an_i32_for_nothing_after_unreachable | (func unreachable return_call 1) (func (result i32) i32.const 0) | invalid
return_call_with_an_i32_for_an_i64_after_unreachable | (func unreachable i32.const 0 return_call 1) (func (param i32 i64)) | invalid
return_call_with_an_i64_for_an_i64_after_unreachable | (func unreachable i64.const 0 return_call 1) (func (param i32 i64)) | valid
return_call_with_unknown_arguments | (func unreachable return_call 1) (func (param i32 i64)) | valid
return_call_from_an_i64_block_gives_an_i64 | (func (result i32) block (result i64) return_call 1 end drop i32.const 0) (func (result i64) i64.const 0) | invalid
return_call_from_an_i64_block_gives_an_i32 | (func (result i32) block (result i64) return_call 1 end drop i32.const 0) (func (result i32) i32.const 0) | valid
return_call_from_a_block_with_an_i32_below_it | (func i32.const 0 block return_call 1 end drop) (func (param i32)) | invalid
return_call_from_a_block_with_its_parameter | (func i32.const 0 block (param i32) return_call 1 end) (func (param i32)) | valid
i64_for_an_i32_block_after_return_call | (func block (result i32) return_call 0 i64.const 0 end drop) | invalid
i32_for_an_i32_block_after_return_call | (func block (result i32) return_call 0 i32.const 0 end drop) | valid
unknown_operands_behind_a_block_with_return_call | (func block return_call 0 end i32.add drop) | invalid
block_with_return_call_gives_no_i64 | (func block (result i32) return_call 0 end i64.eqz drop) | invalid
block_with_return_call_gives_an_i32 | (func block (result i32) return_call 0 end i32.eqz drop) | valid
return_call_from_a_loop_gives_an_i64_for_an_i32 | (func (result i32) loop return_call 1 end i32.const 0) (func (result i64) i64.const 0) | invalid
return_call_from_a_loop_gives_an_i32 | (func (result i32) loop return_call 1 end i32.const 0) (func (result i32) i32.const 0) | valid
return_call_from_an_if_with_nothing | (func (param i32) local.get 0 if return_call 0 end) | invalid
return_call_from_an_if_with_an_i32 | (func (param i32) local.get 0 if local.get 0 return_call 0 end) | valid
return_call_from_an_if_beside_an_i64 | (func (param i32) (result i32) local.get 0 if (result i32) local.get 0 return_call 0 else i64.const 0 end) | invalid
return_call_from_an_if_beside_an_i32 | (func (param i32) (result i32) local.get 0 if (result i32) local.get 0 return_call 0 else i32.const 0 end) | valid
return_call_from_an_else_with_nothing | (func (param i32) (result i32) local.get 0 if (result i32) i32.const 0 else return_call 0 end) | invalid
return_call_from_an_else_with_an_i32 | (func (param i32) (result i32) local.get 0 if (result i32) i32.const 0 else local.get 0 return_call 0 end) | valid
return_call_of_an_import_gives_an_i64_for_nothing | (type (func)) (type (func (param i32) (result i64))) (import \"m\" \"i\" (func (type 1))) (func (type 0) i32.const 0 return_call 0) | invalid
return_call_of_an_import_gives_an_i64 | (type (func)) (type (func (param i32) (result i64))) (import \"m\" \"i\" (func (type 1))) (func (type 1) i32.const 0 return_call 0) | valid
return_call_of_a_function_behind_the_last | (type (func)) (type (func (param i32) (result i64))) (import \"m\" \"i\" (func (type 1))) (func (type 0) return_call 2) | invalid
return_call_of_the_last_function | (type (func)) (type (func (param i32) (result i64))) (import \"m\" \"i\" (func (type 1))) (func (type 0) return_call 1) | valid
global_of_a_return_call | (global i32 return_call 0) (func (result i32) i32.const 0) | invalid";

const TAIL_CALLS_THROUGH_TABLES: &str = "\
return_call_indirect_with_a_missing_type | (type (func)) (type (func (param i32) (result i64))) (func (type 1) i32.const 0 i32.const 0 return_call_indirect 0 (type 2)) (table 1 funcref) | invalid
return_call_indirect_without_a_table | (type (func)) (type (func (param i32) (result i64))) (func (type 1) i32.const 0 i32.const 0 return_call_indirect 0 (type 1)) | invalid
return_call_indirect_with_a_missing_table | (type (func)) (type (func (param i32) (result i64))) (func (type 1) i32.const 0 i32.const 0 return_call_indirect 1 (type 1)) (table 1 funcref) | invalid
return_call_indirect_of_externref | (type (func)) (type (func (param i32) (result i64))) (func (type 1) i32.const 0 i32.const 0 return_call_indirect 0 (type 1)) (table 1 externref) | invalid
return_call_indirect_by_an_i64 | (type (func)) (type (func (param i32) (result i64))) (func (type 1) i32.const 0 i64.const 0 return_call_indirect 0 (type 1)) (table 1 funcref) | invalid
return_call_indirect_by_nothing | (type (func)) (type (func (param i32) (result i64))) (func (type 0) return_call_indirect 0 (type 0)) (table 1 funcref) | invalid
return_call_indirect_by_an_i32_alone | (type (func)) (type (func (param i32) (result i64))) (func (type 0) i32.const 0 return_call_indirect 0 (type 0)) (table 1 funcref) | valid
return_call_indirect_with_nothing | (type (func)) (type (func (param i32) (result i64))) (func (type 1) i32.const 0 return_call_indirect 0 (type 1)) (table 1 funcref) | invalid
return_call_indirect_with_an_i64 | (type (func)) (type (func (param i32) (result i64))) (func (type 1) i64.const 0 i32.const 0 return_call_indirect 0 (type 1)) (table 1 funcref) | invalid
return_call_indirect_with_an_i32 | (type (func)) (type (func (param i32) (result i64))) (func (type 1) i32.const 0 i32.const 0 return_call_indirect 0 (type 1)) (table 1 funcref) | valid
return_call_indirect_with_operands_below | (type (func)) (type (func (param i32) (result i64))) \
    (func (type 1) i64.const 0 i32.const 0 i32.const 0 return_call_indirect 0 (type 1)) (table 1 funcref) | valid
return_call_indirect_with_the_offset_below | (type (func (param i64))) (func (type 0) i32.const 0 i64.const 0 return_call_indirect 0 (type 0)) (table 1 funcref) | invalid
return_call_indirect_with_the_offset_on_top | (type (func (param i64))) (func (type 0) i64.const 0 i32.const 0 return_call_indirect 0 (type 0)) (table 1 funcref) | valid
return_call_indirect_with_arguments_in_the_other_order | (type (func (param i32 i64))) (func (type 0) i64.const 0 i32.const 0 i32.const 0 return_call_indirect 0 (type 0)) (table 1 funcref) | invalid
return_call_indirect_with_arguments_in_order | (type (func (param i32 i64))) (func (type 0) i32.const 0 i64.const 0 i32.const 0 return_call_indirect 0 (type 0)) (table 1 funcref) | valid
return_call_indirect_gives_an_i64_for_an_i32 | (type (func (result i32))) (type (func (result i64))) (func (type 0) i32.const 0 return_call_indirect 0 (type 1)) (table 1 funcref) | invalid
return_call_indirect_gives_an_i64_for_nothing | (type (func)) (type (func (param i32) (result i64))) (func (type 0) i32.const 0 i32.const 0 return_call_indirect 0 (type 1)) (table 1 funcref) | invalid
return_call_indirect_gives_nothing_for_an_i64 | (type (func)) (type (func (param i32) (result i64))) (func (type 1) i32.const 0 return_call_indirect 0 (type 0)) (table 1 funcref) | invalid
return_call_indirect_gives_nothing_over_an_i64 | (type (func)) (type (func (param i32) (result i64))) \
    (func (type 1) i64.const 0 i32.const 0 return_call_indirect 0 (type 0)) (table 1 funcref) | invalid
return_call_indirect_gives_one_of_two_results | (type (func (result i32 i64))) (type (func (result i64))) \
    (func (type 0) i32.const 0 i32.const 0 return_call_indirect 0 (type 1)) (table 1 funcref) | invalid
return_call_indirect_gives_one_more | (type (func (result i32 i64))) (type (func (result i64))) (func (type 1) i32.const 0 return_call_indirect 0 (type 0)) (table 1 funcref) | invalid
return_call_indirect_gives_two_results | (type (func (result i32 i64))) (type (func (result i64))) (func (type 0) i32.const 0 return_call_indirect 0 (type 0)) (table 1 funcref) | valid
return_call_indirect_to_another_type_of_the_same_results | (type (func (result i32))) (type (func (param i64) (result i32))) \
    (func (type 0) i64.const 0 i32.const 0 return_call_indirect 0 (type 1)) (table 1 funcref) | valid
i64_for_i32.eqz_after_return_call_indirect | (type (func)) (type (func (param i32) (result i64))) \
    (func (type 0) i32.const 0 return_call_indirect 0 (type 0) i64.const 0 i32.eqz drop) (table 1 funcref) | invalid
i32_for_i32.eqz_after_return_call_indirect | (type (func)) (type (func (param i32) (result i64))) \
    (func (type 0) i32.const 0 return_call_indirect 0 (type 0) i32.const 0 i32.eqz drop) (table 1 funcref) | valid
unknown_operands_after_return_call_indirect | (type (func)) (type (func (param i32) (result i64))) (func (type 0) i32.const 0 return_call_indirect 0 (type 0) i32.add drop) (table 1 funcref) | valid
return_call_indirect_leaves_no_i64 | (type (func)) (type (func (param i32) (result i64))) \
    (func (type 1) local.get 0 i32.const 0 return_call_indirect 0 (type 1) i32.eqz drop i64.const 0) (table 1 funcref) | valid
body_with_an_i32_too_many_after_return_call_indirect | (type (func)) (type (func (param i32) (result i64))) \
    (func (type 0) i32.const 0 return_call_indirect 0 (type 0) i32.const 0) (table 1 funcref) | invalid
return_call_indirect_without_a_table_after_unreachable | (type (func)) (type (func (param i32) (result i64))) (func (type 0) unreachable return_call_indirect 0 (type 0)) | invalid
return_call_indirect_gives_an_i64_for_nothing_after_unreachable | (type (func)) (type (func (param i32) (result i64))) \
    (func (type 0) unreachable return_call_indirect 0 (type 1)) (table 1 funcref) | invalid
return_call_indirect_by_an_i64_after_unreachable | (type (func)) (type (func (param i32) (result i64))) \
    (func (type 0) unreachable i64.const 0 return_call_indirect 0 (type 0)) (table 1 funcref) | invalid
return_call_indirect_by_an_unknown_operand | (type (func)) (type (func (param i32) (result i64))) (func (type 1) unreachable return_call_indirect 0 (type 1)) (table 1 funcref) | valid
return_call_indirect_from_an_i32_block_gives_an_i32 | (type (func (result i64))) (type (func (result i32))) \
    (func (type 0) block (result i32) i32.const 0 return_call_indirect 0 (type 1) end drop i64.const 0) (table 1 funcref) | invalid
return_call_indirect_from_an_i32_block_gives_an_i64 | (type (func (result i64))) (type (func (result i32))) \
    (func (type 0) block (result i32) i32.const 0 return_call_indirect 0 (type 0) end drop i64.const 0) (table 1 funcref) | valid
return_call_indirect_from_a_block_with_an_i32_below_it | (type (func)) (type (func (param i32) (result i64))) \
    (func (type 0) i32.const 0 block return_call_indirect 0 (type 0) end drop) (table 1 funcref) | invalid
return_call_indirect_from_a_loop_with_its_parameter | (type (func)) (type (func (param i32) (result i64))) \
    (func (type 0) i32.const 0 loop (param i32) return_call_indirect 0 (type 0) end) (table 1 funcref) | valid
return_call_indirect_from_an_if_by_nothing | (type (func)) (type (func (param i32) (result i64))) (func (type 0) i32.const 0 if return_call_indirect 0 (type 0) end) (table 1 funcref) | invalid
return_call_indirect_from_an_if_by_an_i32 | (type (func)) (type (func (param i32) (result i64))) \
    (func (type 0) i32.const 0 if i32.const 0 return_call_indirect 0 (type 0) end) (table 1 funcref) | valid
return_call_indirect_of_an_imported_table_of_externref | (type (func)) (import \"m\" \"i\" (table 1 externref)) (func (type 0) i32.const 0 return_call_indirect 0 (type 0)) (table 1 funcref) | invalid
return_call_indirect_of_the_table_behind_it | (type (func)) (import \"m\" \"i\" (table 1 externref)) (func (type 0) i32.const 0 return_call_indirect 1 (type 0)) (table 1 funcref) | valid";

#[test]
fn checks_branches_returns_and_calls(rt: HostRuntime) {
    check_rows(&rt, rt.alloc(), ROWS, 80);
}

#[test]
fn checks_tail_calls(rt: HostRuntime) {
    check_rows(&rt, rt.alloc(), TAIL_CALLS, 60);
}

#[test]
fn checks_tail_calls_through_tables(rt: HostRuntime) {
    check_rows(&rt, rt.alloc(), TAIL_CALLS_THROUGH_TABLES, 40);
}
