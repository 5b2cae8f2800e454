//! The parts of modules other than bodies.

use crate::answers::check_rows;

const ROWS: &str = "\
module_without_sections |  | valid
function_of_a_missing_type | (type (func)) (func (type 1)) | invalid
function_of_a_type | (func) | valid
function_without_types | (func (type 0)) | invalid
import_of_a_missing_type | (type (func)) (import \"m\" \"i\" (func (type 1))) | invalid
import_of_a_type | (type (func)) (import \"m\" \"i\" (func (type 0))) | valid
start_with_a_parameter | (func (param i32)) (start 0) | invalid
start_with_a_result | (func (result i32) i32.const 0) (start 0) | invalid
start_of_nothing | (func) (start 0) | valid
start_of_a_missing_function | (func) (start 1) | invalid
start_without_functions | (type (func)) (start 0) | invalid
start_of_an_import_with_a_parameter | (type (func)) (type (func (param i32))) (import \"m\" \"i\" (func (type 1))) (func (type 0)) (start 0) | invalid
start_of_a_function_behind_an_import | (type (func)) (type (func (param i32))) (import \"m\" \"i\" (func (type 1))) (func (type 0)) (start 1) | valid
start_of_an_import | (type (func)) (import \"m\" \"i\" (func (type 0))) (start 0) | valid
funcref_table_of_minimum_above_maximum | (table 2 1 funcref) | invalid
funcref_table_of_minimum_at_maximum | (table 1 1 funcref) | valid
externref_table_of_minimum_above_maximum | (table 2 1 externref) | invalid
externref_table_of_minimum_at_maximum | (table 1 1 externref) | valid
imported_table_of_minimum_above_maximum | (import \"m\" \"i\" (table 2 1 funcref)) | invalid
imported_table_of_minimum_at_maximum | (import \"m\" \"i\" (table 1 1 funcref)) | valid
second_table_of_minimum_above_maximum | (table 1 funcref) (table 1 0 funcref) | invalid
second_table_of_minimum_at_maximum | (table 1 funcref) (table 1 1 funcref) | valid
memory_of_minimum_above_maximum | (memory 2 1) | invalid
memory_of_minimum_at_maximum | (memory 1 1) | valid
imported_memory_of_minimum_above_maximum | (import \"m\" \"i\" (memory 2 1)) | invalid
imported_memory_of_minimum_at_maximum | (import \"m\" \"i\" (memory 1 1)) | valid
memory_of_minimum_65537 | (memory 65537) | invalid
memory_of_minimum_65536 | (memory 65536) | valid
memory_of_maximum_65537 | (memory 0 65537) | invalid
memory_of_maximum_65536 | (memory 0 65536) | valid
imported_memory_of_minimum_65537 | (import \"m\" \"i\" (memory 65537)) | invalid
imported_memory_of_minimum_65536 | (import \"m\" \"i\" (memory 65536)) | valid
imported_memory_of_maximum_65537 | (import \"m\" \"i\" (memory 0 65537)) | invalid
imported_memory_of_maximum_65536 | (import \"m\" \"i\" (memory 0 65536)) | valid
two_memories | (memory 1) (memory 1) | invalid
two_imported_memories | (import \"m\" \"i\" (memory 1)) (import \"m\" \"i\" (memory 1)) | invalid
imported_memory_and_a_memory | (import \"m\" \"i\" (memory 1)) (memory 1) | invalid
one_memory | (memory 1) | valid
one_imported_memory | (import \"m\" \"i\" (memory 1)) | valid
two_tables | (table 1 funcref) (table 1 externref) | valid
global_of_another_type | (global i32 i64.const 0) | invalid
global_of_its_type | (global i64 i64.const 0) | valid
i64_global_of_another_type | (global (mut i64) i32.const 0) | invalid
i64_global_of_its_type | (global (mut i64) i64.const 0) | valid
global_that_is_not_constant | (global i32 i32.const 0 i32.eqz) | invalid
global_with_nop | (global i32 i32.const 0 nop) | invalid
global_of_unreachable | (global i32 unreachable) | invalid
global_with_a_block | (global i32 block (result i32) i32.const 0 end) | invalid
global_that_is_constant | (global i32 i32.const 0) | valid
global_of_a_sum | (global i32 i32.const 0 i32.const 0 i32.add) | valid
global_of_a_sum_of_the_other_width | (global i32 i64.const 0 i64.const 0 i64.add) | invalid
global_of_a_quotient | (global i32 i32.const 1 i32.const 1 i32.div_u) | invalid
global_of_an_operator_with_one_operand | (global i32 i32.const 1 i32.add) | invalid
global_of_a_comparison | (global i32 i32.const 1 i32.const 1 i32.eq) | invalid
global_of_a_sum_of_widths | (global i64 i64.const 1 i32.const 1 i64.add) | invalid
global_of_a_difference | (global i64 i64.const 5 i64.const 7 i64.sub) | valid
offset_of_a_product | (memory 1) (data (offset i32.const 2 i32.const 3 i32.mul) \"x\") | valid
offset_of_a_product_of_i64 | (memory 1) (data (offset i64.const 2 i64.const 3 i64.mul) \"x\") | invalid
global_of_two_values | (global i32 i32.const 0 i32.const 0) | invalid
global_of_no_value | (global i32) | invalid
global_of_one_value | (global i32 i32.const 0) | valid
global_that_names_a_mutable_import | (import \"m\" \"i\" (global (mut i32))) (global i32 global.get 0) | invalid
global_that_names_an_immutable_import | (import \"m\" \"i\" (global i32)) (global i32 global.get 0) | valid
global_that_names_an_import_of_another_type | (import \"m\" \"i\" (global i64)) (global i32 global.get 0) | invalid
global_that_names_a_missing_global | (import \"m\" \"i\" (global i32)) (global i32 global.get 1) | invalid
global_that_names_a_global_of_the_module | (global i32 i32.const 0) (global i32 global.get 0) | invalid
global_beside_a_global_of_the_module | (global i32 i32.const 0) (global i32 i32.const 0) | valid
global_that_names_itself | (global i32 global.get 0) | invalid
global_of_a_missing_function | (func) (global funcref ref.func 1) | invalid
global_of_a_function | (func) (global funcref ref.func 0) | valid
funcref_global_of_an_external | (global funcref ref.null extern) | invalid
funcref_global_of_a_null_function | (global funcref ref.null func) | valid
externref_global_of_a_null_external | (global externref ref.null extern) | valid
externref_segment_of_a_function | (func) (elem externref (item ref.func 0)) | invalid
funcref_segment_of_a_function | (func) (elem funcref (item ref.func 0)) | valid
funcref_segment_of_an_external | (func) (elem funcref (item ref.null extern)) | invalid
externref_segment_of_an_external | (func) (elem externref (item ref.null extern)) | valid
segment_of_an_i32 | (func) (elem funcref (item i32.const 0)) | invalid
segment_of_no_value | (func) (elem funcref (item )) | invalid
segment_of_two_values | (func) (elem funcref (item ref.null func ref.null func)) | invalid
segment_with_nop | (func) (elem funcref (item ref.null func nop)) | invalid
segment_of_one_value | (func) (elem funcref (item ref.null func)) | valid
segment_with_an_external_behind_a_function | (func) (elem funcref (item ref.func 0) (item ref.null extern)) | invalid
segment_with_a_function_behind_a_function | (func) (elem funcref (item ref.func 0) (item ref.null func)) | valid
declarative_segment_of_an_external | (func) (elem declare funcref (item ref.null extern)) | invalid
declarative_segment_of_a_null_function | (func) (elem declare funcref (item ref.null func)) | valid
segment_that_names_a_mutable_import | (import \"m\" \"i\" (global (mut externref))) (func) (elem externref (item global.get 0)) | invalid
segment_that_names_an_immutable_import | (import \"m\" \"i\" (global externref)) (func) (elem externref (item global.get 0)) | valid
passive_segment_of_a_missing_function | (func) (elem func 1) | invalid
passive_segment_of_a_function | (func) (elem func 0) | valid
declarative_segment_of_a_missing_function | (func) (elem declare func 1) | invalid
declarative_segment_of_a_function | (func) (elem declare func 0) | valid
passive_segment_with_a_missing_function_behind | (func) (elem func 0 1) | invalid
passive_segment_with_a_function_behind | (func) (elem func 0 0) | valid
passive_segment_expression_of_a_missing_function | (func) (elem funcref (item ref.func 1)) | invalid
active_segment_of_a_missing_function | (func) (table 1 funcref) (elem (offset i32.const 0) func 1) | invalid
active_segment_of_a_function | (func) (table 1 funcref) (elem (offset i32.const 0) func 0) | valid
active_segment_without_a_table | (func) (elem (offset i32.const 0) func 0) | invalid
active_segment_of_a_missing_table | (func) (table 1 funcref) (elem (table 1) (offset i32.const 0) func 0) | invalid
active_segment_of_functions_in_externref | (func) (table 1 externref) (elem (offset i32.const 0) func 0) | invalid
active_segment_of_externals_in_funcref | (func) (table 1 funcref) (elem (table 0) (offset i32.const 0) externref (item ref.null extern)) | invalid
active_segment_of_externals_in_externref | (func) (table 1 externref) (elem (table 0) (offset i32.const 0) externref (item ref.null extern)) | valid
active_segment_of_the_first_of_two_tables | (func) (table 1 funcref) (table 1 externref) (elem (table 0) (offset i32.const 0) externref (item ref.null extern)) | invalid
active_segment_of_the_second_of_two_tables | (func) (table 1 funcref) (table 1 externref) (elem (table 1) (offset i32.const 0) externref (item ref.null extern)) | valid
active_segment_of_expressions_without_a_table | (func) (elem (offset i32.const 0) funcref (item ref.func 0)) | invalid
active_segment_of_expressions | (func) (table 1 funcref) (elem (offset i32.const 0) funcref (item ref.func 0)) | valid
active_segment_at_an_i64 | (func) (table 1 funcref) (elem (offset i64.const 0) func 0) | invalid
active_segment_at_nothing | (func) (table 1 funcref) (elem (offset ) func 0) | invalid
active_segment_at_two_values | (func) (table 1 funcref) (elem (offset i32.const 0 i32.const 0) func 0) | invalid
active_segment_at_what_is_not_constant | (func) (table 1 funcref) (elem (offset i32.const 0 i32.eqz) func 0) | invalid
active_segment_at_a_mutable_import | (import \"m\" \"i\" (global (mut i32))) (func) (table 1 funcref) (elem (offset global.get 0) func 0) | invalid
active_segment_at_an_immutable_import | (import \"m\" \"i\" (global i32)) (func) (table 1 funcref) (elem (offset global.get 0) func 0) | valid
active_segment_at_an_import_of_i64 | (import \"m\" \"i\" (global i64)) (func) (table 1 funcref) (elem (offset global.get 0) func 0) | invalid
active_segment_at_a_global_of_the_module | (func) (table 1 funcref) (global i32 i32.const 0) (elem (offset global.get 0) func 0) | invalid
active_segment_of_an_imported_table | (import \"m\" \"i\" (table 1 funcref)) (func) (elem (offset i32.const 0) func 0) | valid
passive_segment_of_a_function_behind_the_last | (type (func)) (import \"m\" \"i\" (func (type 0))) (func (type 0)) (elem func 2) | invalid
passive_segment_of_the_last_function | (type (func)) (import \"m\" \"i\" (func (type 0))) (func (type 0)) (elem func 1) | valid
active_segment_of_a_table_behind_the_last | (import \"m\" \"i\" (table 1 funcref)) (func) (table 1 funcref) (elem (table 2) (offset i32.const 0) func 0) | invalid
active_segment_of_the_last_table | (import \"m\" \"i\" (table 1 funcref)) (func) (table 1 funcref) (elem (table 1) (offset i32.const 0) func 0) | valid
active_data_without_a_memory | (data (offset i32.const 0) \"\\61\") | invalid
active_data_of_a_memory | (memory 1) (data (offset i32.const 0) \"\\61\") | valid
active_data_of_memory_1 | (memory 1) (data (memory 1) (offset i32.const 0) \"\\61\") | invalid
active_data_at_an_i64 | (memory 1) (data (offset i64.const 0) \"\\61\") | invalid
active_data_at_nothing | (memory 1) (data (offset ) \"\\61\") | invalid
active_data_at_two_values | (memory 1) (data (offset i32.const 0 i32.const 0) \"\\61\") | invalid
active_data_at_what_is_not_constant | (memory 1) (data (offset i32.const 0 i32.eqz) \"\\61\") | invalid
active_data_at_a_mutable_import | (import \"m\" \"i\" (global (mut i32))) (memory 1) (data (offset global.get 0) \"\\61\") | invalid
active_data_at_an_immutable_import | (import \"m\" \"i\" (global i32)) (memory 1) (data (offset global.get 0) \"\\61\") | valid
active_data_at_a_global_of_the_module | (memory 1) (global i32 i32.const 0) (data (offset global.get 0) \"\\61\") | invalid
active_data_of_an_imported_memory | (import \"m\" \"i\" (memory 1)) (data (offset i32.const 0) \"\\61\") | valid
export_of_a_missing_function | (func) (export \"a\" (func 1)) | invalid
export_of_a_function | (func) (export \"a\" (func 0)) | valid
export_behind_the_last_function | (type (func)) (import \"m\" \"i\" (func (type 0))) (func (type 0)) (export \"a\" (func 2)) | invalid
export_of_the_last_function | (type (func)) (import \"m\" \"i\" (func (type 0))) (func (type 0)) (export \"a\" (func 1)) | valid
export_of_a_missing_table | (table 1 funcref) (export \"a\" (table 1)) | invalid
export_of_a_table | (table 1 funcref) (export \"a\" (table 0)) | valid
export_of_a_missing_memory | (memory 1) (export \"a\" (memory 1)) | invalid
export_of_a_memory | (memory 1) (export \"a\" (memory 0)) | valid
export_of_a_missing_global | (global i32 i32.const 0) (export \"a\" (global 1)) | invalid
export_of_a_global | (global i32 i32.const 0) (export \"a\" (global 0)) | valid
export_of_a_function_of_none | (type (func)) (export \"a\" (func 0)) | invalid
export_of_an_imported_function | (type (func)) (import \"m\" \"i\" (func (type 0))) (export \"a\" (func 0)) | valid
export_of_a_table_of_none | (type (func)) (export \"a\" (table 0)) | invalid
export_of_an_imported_table | (type (func)) (import \"m\" \"i\" (table 1 funcref)) (export \"a\" (table 0)) | valid
export_of_a_memory_of_none | (type (func)) (export \"a\" (memory 0)) | invalid
export_of_an_imported_memory | (type (func)) (import \"m\" \"i\" (memory 1)) (export \"a\" (memory 0)) | valid
export_of_a_global_of_none | (type (func)) (export \"a\" (global 0)) | invalid
export_of_an_imported_global | (type (func)) (import \"m\" \"i\" (global i32)) (export \"a\" (global 0)) | valid
exports_of_a_function_and_a_memory_under_one_name | (func) (memory 1) (export \"a\" (func 0)) (export \"a\" (memory 0)) | invalid
exports_of_a_function_and_a_memory_under_two_names | (func) (memory 1) (export \"a\" (func 0)) (export \"b\" (memory 0)) | valid
third_export_named_like_the_first | (func) (export \"a\" (func 0)) (export \"b\" (func 0)) (export \"a\" (func 0)) | invalid
third_export_of_another_name | (func) (export \"a\" (func 0)) (export \"b\" (func 0)) (export \"c\" (func 0)) | valid
two_exports_of_the_empty_name | (func) (export \"\" (func 0)) (export \"\" (func 0)) | invalid
exports_of_the_empty_name_and_of_another | (func) (export \"\" (func 0)) (export \"a\" (func 0)) | valid
export_named_like_the_beginning_of_another | (func) (export \"ab\" (func 0)) (export \"a\" (func 0)) | valid
two_imports_of_one_name | (type (func)) (import \"m\" \"i\" (func (type 0))) (import \"m\" \"i\" (func (type 0))) | valid";

#[test]
fn checks_the_parts_of_modules(rt: HostRuntime) {
    check_rows(&rt, rt.alloc(), ROWS, 156);
}
