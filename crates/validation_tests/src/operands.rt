//! Reference, parametric and variable instructions.

use crate::answers::check_rows;

const ROWS: &str = "\
drop_of_nothing | (func drop) | invalid
drop_of_an_i32 | (func i32.const 0 drop) | valid
drop_of_a_reference | (func ref.null extern drop) | valid
select_of_an_i32_and_an_i64 | (func i32.const 0 i64.const 0 i32.const 0 select drop) | invalid
select_of_an_i64_and_an_i32 | (func i64.const 0 i32.const 0 i32.const 0 select drop) | invalid
select_by_an_i64 | (func i32.const 0 i32.const 0 i64.const 0 select drop) | invalid
select_of_one_operand | (func i32.const 0 i32.const 0 select drop) | invalid
select_of_two_i32_gives_no_i64 | (func i32.const 0 i32.const 0 i32.const 0 select i64.eqz drop) | invalid
select_of_two_i32 | (func i32.const 0 i32.const 0 i32.const 0 select drop) | valid
select_of_two_i64 | (func i64.const 0 i64.const 0 i32.const 0 select i64.eqz drop) | valid
select_of_functions_without_types | (func ref.null func ref.null func i32.const 0 select drop) | invalid
select_of_functions_with_a_type | (func ref.null func ref.null func i32.const 0 select (result funcref) drop) | valid
select_with_no_types | (func i32.const 0 i32.const 0 i32.const 0 select (result) drop) | invalid
select_with_two_types | (func i32.const 0 i32.const 0 i32.const 0 select (result i32 i32) drop) | invalid
select_with_another_type | (func i32.const 0 i32.const 0 i32.const 0 select (result i64) drop) | invalid
select_with_its_type | (func i32.const 0 i32.const 0 i32.const 0 select (result i32) drop) | valid
select_with_a_type_by_an_i64 | (func i32.const 0 i32.const 0 i64.const 0 select (result i32) drop) | invalid
select_with_a_type_of_an_i64_and_an_i32 | (func i64.const 0 i32.const 0 i32.const 0 select (result i32) drop) | invalid
select_with_a_type_of_an_i32_and_an_i64 | (func i32.const 0 i64.const 0 i32.const 0 select (result i32) drop) | invalid
select_of_externref_of_a_function | (func ref.null extern ref.null func i32.const 0 select (result externref) drop) | invalid
select_with_a_type_gives_no_other | (func i32.const 0 i32.const 0 i32.const 0 select (result i32) i64.eqz drop) | invalid
local.get_of_a_missing_local | (func local.get 0 drop) | invalid
local.get_of_a_local | (func (local i32) local.get 0 drop) | valid
local.get_of_an_i64_for_i32.eqz | (func (local i64) local.get 0 i32.eqz drop) | invalid
local.get_of_an_i32_for_i32.eqz | (func (local i32) local.get 0 i32.eqz drop) | valid
local.set_of_a_missing_local | (func i32.const 0 local.set 0) | invalid
local.set_of_a_local | (func (local i32) i32.const 0 local.set 0) | valid
local.set_of_an_i64_local | (func (local i64) i32.const 0 local.set 0) | invalid
local.set_of_nothing | (func (local i32) local.set 0) | invalid
local.tee_of_a_missing_local | (func i32.const 0 local.tee 0 drop) | invalid
local.tee_of_a_local | (func (local i32) i32.const 0 local.tee 0 drop) | valid
local.tee_of_an_i64_local | (func (local i64) i32.const 0 local.tee 0 drop) | invalid
local.tee_gives_no_i64 | (func (local i32) i32.const 0 local.tee 0 i64.eqz drop) | invalid
local.tee_gives_an_i32 | (func (local i32) i32.const 0 local.tee 0 i32.eqz drop) | valid
local.tee_of_nothing | (func (local i32) local.tee 0 drop) | invalid
locals_stand_behind_parameters | (func (param i32) (local i64) local.get 0 i32.eqz drop local.get 1 i64.eqz drop) | valid
locals_stand_before_parameters | (func (param i32) (local i64) local.get 1 i32.eqz drop local.get 0 i64.eqz drop) | invalid
local.get_behind_the_last_local | (func (param i32) (local i64) local.get 2 drop) | invalid
local.get_of_the_last_local | (func (param i32) (local i64) local.get 1 drop) | valid
local.get_of_the_second_group_for_i32.eqz | (func (local i32 i64) local.get 1 i32.eqz drop) | invalid
local.get_of_the_second_group_for_i64.eqz | (func (local i32 i64) local.get 1 i64.eqz drop) | valid
local.get_of_the_32nd_local_for_i32.eqz | (func (local i32 i32 i32 i32 i32 i32 i32 i32 i32 i32 i32 i32 i32 i32 i32 i32 i32 i32 i32 i32 i32 i32 i32 i32 i32 i32 i32 i32 i32 i32 i32 i32 i64) local.get 31 i32.eqz drop) | valid
local.get_of_the_32nd_local_for_i64.eqz | (func (local i32 i32 i32 i32 i32 i32 i32 i32 i32 i32 i32 i32 i32 i32 i32 i32 i32 i32 i32 i32 i32 i32 i32 i32 i32 i32 i32 i32 i32 i32 i32 i32 i64) local.get 31 i64.eqz drop) | invalid
local.get_of_the_33rd_local_for_i64.eqz | (func (local i32 i32 i32 i32 i32 i32 i32 i32 i32 i32 i32 i32 i32 i32 i32 i32 i32 i32 i32 i32 i32 i32 i32 i32 i32 i32 i32 i32 i32 i32 i32 i32 i64) local.get 32 i64.eqz drop) | valid
local.get_of_the_33rd_local_for_i32.eqz | (func (local i32 i32 i32 i32 i32 i32 i32 i32 i32 i32 i32 i32 i32 i32 i32 i32 i32 i32 i32 i32 i32 i32 i32 i32 i32 i32 i32 i32 i32 i32 i32 i32 i64) local.get 32 i32.eqz drop) | invalid
local.get_behind_33_locals | (func (local i32 i32 i32 i32 i32 i32 i32 i32 i32 i32 i32 i32 i32 i32 i32 i32 i32 i32 i32 i32 i32 i32 i32 i32 i32 i32 i32 i32 i32 i32 i32 i32 i64) local.get 33 drop) | invalid
local.set_of_the_33rd_local | (func (local i32 i32 i32 i32 i32 i32 i32 i32 i32 i32 i32 i32 i32 i32 i32 i32 i32 i32 i32 i32 i32 i32 i32 i32 i32 i32 i32 i32 i32 i32 i32 i32 i64) i64.const 0 local.set 32) | valid
local.set_of_the_33rd_local_to_an_i32 | (func (local i32 i32 i32 i32 i32 i32 i32 i32 i32 i32 i32 i32 i32 i32 i32 i32 i32 i32 i32 i32 i32 i32 i32 i32 i32 i32 i32 i32 i32 i32 i32 i32 i64) i32.const 0 local.set 32) | invalid
local.tee_of_the_33rd_local | (func (local i32 i32 i32 i32 i32 i32 i32 i32 i32 i32 i32 i32 i32 i32 i32 i32 i32 i32 i32 i32 i32 i32 i32 i32 i32 i32 i32 i32 i32 i32 i32 i32 i64) i64.const 0 local.tee 32 i64.eqz drop) | valid
local.tee_of_the_33rd_local_gives_no_i32 | (func (local i32 i32 i32 i32 i32 i32 i32 i32 i32 i32 i32 i32 i32 i32 i32 i32 i32 i32 i32 i32 i32 i32 i32 i32 i32 i32 i32 i32 i32 i32 i32 i32 i64) i64.const 0 local.tee 32 i32.eqz drop) | invalid
externref_local_set_to_a_function | (func (local externref) ref.null func local.set 0) | invalid
funcref_local_set_to_a_function | (func (local funcref) ref.null func local.set 0) | valid
global.get_of_a_missing_global | (func global.get 0 drop) | invalid
global.get_of_a_global | (func global.get 0 drop) (global i32 i32.const 0) | valid
global.get_behind_the_last_global | (func global.get 1 drop) (global i32 i32.const 0) | invalid
global.get_of_an_i64_for_i32.eqz | (func global.get 0 i32.eqz drop) (global i64 i64.const 0) | invalid
global.get_of_an_i32_for_i32.eqz | (func global.get 0 i32.eqz drop) (global i32 i32.const 0) | valid
global.set_of_a_missing_global | (func i32.const 0 global.set 0) | invalid
global.set_of_a_global | (func i32.const 0 global.set 0) (global (mut i32) i32.const 0) | valid
global.set_of_an_i64_global | (func i32.const 0 global.set 0) (global (mut i64) i64.const 0) | invalid
global.set_of_an_immutable_global | (func i32.const 0 global.set 0) (global i32 i32.const 0) | invalid
global.set_of_nothing | (func global.set 0) (global (mut i32) i32.const 0) | invalid
global.set_of_an_imported_immutable_global | (import \"m\" \"i\" (global i32)) (func i32.const 0 global.set 0) | invalid
global.set_of_an_imported_global | (import \"m\" \"i\" (global (mut i32))) (func i32.const 0 global.set 0) | valid
imported_globals_come_last | (import \"m\" \"i\" (global i64)) (func i32.const 0 global.set 0) (global (mut i32) i32.const 0) | invalid
imported_globals_come_first | (import \"m\" \"i\" (global i64)) (func i32.const 0 global.set 1) (global (mut i32) i32.const 0) | valid
ref.is_null_of_an_i32 | (func i32.const 0 ref.is_null drop) | invalid
ref.is_null_of_an_i64 | (func i64.const 0 ref.is_null drop) | invalid
ref.is_null_of_nothing | (func ref.is_null drop) | invalid
ref.is_null_of_a_function | (func ref.null func ref.is_null drop) | valid
ref.is_null_of_an_external | (func ref.null extern ref.is_null drop) | valid
ref.is_null_gives_no_i64 | (func ref.null func ref.is_null i64.eqz drop) | invalid
ref.is_null_gives_an_i32 | (func ref.null func ref.is_null i32.eqz drop) | valid
ref.func_of_a_missing_function | (func ref.func 1 drop) (elem declare func 0) | invalid
ref.func_of_the_function_itself | (func ref.func 0 drop) (elem declare func 0) | valid
ref.func_gives_no_i32 | (func ref.func 0 i32.eqz drop) (elem declare func 0) | invalid
ref.func_gives_a_reference | (func ref.func 0 ref.is_null drop) (elem declare func 0) | valid
ref.func_of_a_function_named_by_the_start | (func ref.func 0 drop) (start 0) | invalid
ref.func_of_a_function_named_by_an_export | (func ref.func 0 drop) (export \"a\" (func 0)) | valid
ref.func_of_a_function_named_by_a_call | (func ref.func 0 drop call 0) | invalid
ref.func_of_a_function_named_by_a_global | (func ref.func 0 drop) (global funcref ref.func 0) | valid
ref.func_where_another_function_is_named | (func ref.func 0 drop) (func) (elem declare func 1) | invalid
ref.func_where_this_function_of_two_is_named | (func ref.func 0 drop) (func) (elem declare func 0) | valid
ref.func_of_a_function_named_by_a_passive_segment | (func ref.func 0 drop) (elem func 0) | valid
ref.func_of_a_function_named_by_an_expression_of_a_segment | (func ref.func 0 drop) (elem declare funcref (item ref.func 0)) | valid
ref.func_where_the_import_is_named | (type (func)) (import \"m\" \"i\" (func (type 0))) (func (type 0) ref.func 1 drop) (elem declare func 0) | invalid
ref.func_where_the_function_behind_the_import_is_named | (type (func)) (import \"m\" \"i\" (func (type 0))) (func (type 0) ref.func 1 drop) (elem declare func 1) | valid
ref.func_of_a_function_named_by_an_active_segment | (func ref.func 0 drop) (table 1 funcref) (elem (offset i32.const 0) func 0) | valid";

#[test]
fn checks_reference_parametric_and_variable_instructions(rt: HostRuntime) {
    check_rows(&rt, rt.alloc(), ROWS, 88);
}
