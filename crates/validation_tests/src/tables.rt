//! Table instructions.

use crate::answers::check_rows;

const ROWS: &str = "\
table.get_without_a_table | (func i32.const 0 table.get 0 drop) | invalid
table.get_of_a_missing_table | (func i32.const 0 table.get 1 drop) (table 1 funcref) | invalid
table.get_at_an_i64 | (func i64.const 0 table.get 0 drop) (table 1 funcref) | invalid
table.get_at_nothing | (func table.get 0 drop) (table 1 funcref) | invalid
table.get_gives_no_i32 | (func i32.const 0 table.get 0 i32.eqz drop) (table 1 funcref) | invalid
table.get_gives_a_reference | (func i32.const 0 table.get 0 ref.is_null drop) (table 1 funcref) | valid
table.get_at_an_i32 | (func i32.const 0 table.get 0 drop) (table 1 funcref) | valid
table.get_of_externref_gives_no_function | (func (local funcref) i32.const 0 table.get 0 local.set 0) (table 1 externref) | invalid
table.get_of_externref_gives_an_external | (func (local externref) i32.const 0 table.get 0 local.set 0) (table 1 externref) | valid
table.set_without_a_table | (func i32.const 0 ref.null func table.set 0) | invalid
table.set_of_a_missing_table | (func i32.const 0 ref.null func table.set 1) (table 1 funcref) | invalid
table.set_at_an_i64 | (func i64.const 0 ref.null func table.set 0) (table 1 funcref) | invalid
table.set_to_an_external | (func i32.const 0 ref.null extern table.set 0) (table 1 funcref) | invalid
table.set_to_an_i32 | (func i32.const 0 i32.const 0 table.set 0) (table 1 funcref) | invalid
table.set_of_operands_in_the_other_order | (func ref.null func i32.const 0 table.set 0) (table 1 funcref) | invalid
table.set_to_a_function | (func i32.const 0 ref.null func table.set 0) (table 1 funcref) | valid
table.set_to_an_external_of_externref | (func i32.const 0 ref.null extern table.set 0) (table 1 externref) | valid
table.size_without_a_table | (func table.size 0 drop) | invalid
table.size_of_a_missing_table | (func table.size 1 drop) (table 1 funcref) | invalid
table.size_gives_no_i64 | (func table.size 0 i64.eqz drop) (table 1 funcref) | invalid
table.size_gives_an_i32 | (func table.size 0 i32.eqz drop) (table 1 funcref) | valid
table.size_of_a_table | (func table.size 0 drop) (table 1 funcref) | valid
table.grow_without_a_table | (func ref.null func i32.const 0 table.grow 0 drop) | invalid
table.grow_of_a_missing_table | (func ref.null func i32.const 0 table.grow 1 drop) (table 1 funcref) | invalid
table.grow_by_an_i64 | (func ref.null func i64.const 0 table.grow 0 drop) (table 1 funcref) | invalid
table.grow_with_an_external | (func ref.null extern i32.const 0 table.grow 0 drop) (table 1 funcref) | invalid
table.grow_of_operands_in_the_other_order | (func i32.const 0 ref.null func table.grow 0 drop) (table 1 funcref) | invalid
table.grow_gives_no_i64 | (func ref.null func i32.const 0 table.grow 0 i64.eqz drop) (table 1 funcref) | invalid
table.grow_gives_an_i32 | (func ref.null func i32.const 0 table.grow 0 i32.eqz drop) (table 1 funcref) | valid
table.grow_by_an_i32 | (func ref.null func i32.const 0 table.grow 0 drop) (table 1 funcref) | valid
table.fill_without_a_table | (func i32.const 0 ref.null func i32.const 0 table.fill 0) | invalid
table.fill_of_a_missing_table | (func i32.const 0 ref.null func i32.const 0 table.fill 1) (table 1 funcref) | invalid
table.fill_at_an_i64 | (func i64.const 0 ref.null func i32.const 0 table.fill 0) (table 1 funcref) | invalid
table.fill_with_an_external | (func i32.const 0 ref.null extern i32.const 0 table.fill 0) (table 1 funcref) | invalid
table.fill_of_an_i64_number | (func i32.const 0 ref.null func i64.const 0 table.fill 0) (table 1 funcref) | invalid
table.fill_of_a_table | (func i32.const 0 ref.null func i32.const 0 table.fill 0) (table 1 funcref) | valid
table.copy_without_a_table | (func i32.const 0 i32.const 0 i32.const 0 table.copy 0 0) | invalid
table.copy_into_a_missing_table | (func i32.const 0 i32.const 0 i32.const 0 table.copy 1 0) (table 1 funcref) | invalid
table.copy_from_a_missing_table | (func i32.const 0 i32.const 0 i32.const 0 table.copy 0 1) (table 1 funcref) | invalid
table.copy_of_a_table | (func i32.const 0 i32.const 0 i32.const 0 table.copy 0 0) (table 1 funcref) | valid
table.copy_into_externref_from_funcref | (func i32.const 0 i32.const 0 i32.const 0 table.copy 1 0) (table 1 funcref) (table 1 externref) | invalid
table.copy_into_funcref_from_externref | (func i32.const 0 i32.const 0 i32.const 0 table.copy 0 1) (table 1 funcref) (table 1 externref) | invalid
table.copy_into_funcref_from_funcref | (func i32.const 0 i32.const 0 i32.const 0 table.copy 0 1) (table 1 funcref) (table 1 funcref) | valid
table.copy_within_externref | (func i32.const 0 i32.const 0 i32.const 0 table.copy 1 1) (table 1 funcref) (table 1 externref) | valid
table.copy_into_an_i64 | (func i64.const 0 i32.const 0 i32.const 0 table.copy 0 0) (table 1 funcref) | invalid
table.copy_from_an_i64 | (func i32.const 0 i64.const 0 i32.const 0 table.copy 0 0) (table 1 funcref) | invalid
table.copy_of_an_i64_number | (func i32.const 0 i32.const 0 i64.const 0 table.copy 0 0) (table 1 funcref) | invalid
table.init_without_a_table | (func i32.const 0 i32.const 0 i32.const 0 table.init 0 0) (elem func 0) | invalid
table.init_of_a_missing_table | (func i32.const 0 i32.const 0 i32.const 0 table.init 1 0) (table 1 funcref) (elem func 0) | invalid
table.init_without_a_segment | (func i32.const 0 i32.const 0 i32.const 0 table.init 0 0) (table 1 funcref) | invalid
table.init_of_a_missing_segment | (func i32.const 0 i32.const 0 i32.const 0 table.init 0 1) (table 1 funcref) (elem func 0) | invalid
table.init_of_a_segment | (func i32.const 0 i32.const 0 i32.const 0 table.init 0 0) (table 1 funcref) (elem func 0) | valid
table.init_of_funcref_by_externref | (func i32.const 0 i32.const 0 i32.const 0 table.init 0 0) (table 1 funcref) (elem externref (item ref.null extern)) | invalid
table.init_of_externref_by_funcref | (func i32.const 0 i32.const 0 i32.const 0 table.init 0 0) (table 1 externref) (elem func 0) | invalid
table.init_of_externref_by_externref | (func i32.const 0 i32.const 0 i32.const 0 table.init 0 0) (table 1 externref) (elem externref (item ref.null extern)) | valid
table.init_into_an_i64 | (func i64.const 0 i32.const 0 i32.const 0 table.init 0 0) (table 1 funcref) (elem func 0) | invalid
table.init_from_an_i64 | (func i32.const 0 i64.const 0 i32.const 0 table.init 0 0) (table 1 funcref) (elem func 0) | invalid
table.init_of_an_i64_number | (func i32.const 0 i32.const 0 i64.const 0 table.init 0 0) (table 1 funcref) (elem func 0) | invalid
elem.drop_without_a_segment | (func elem.drop 0) | invalid
elem.drop_of_a_missing_segment | (func elem.drop 1) (elem func 0) | invalid
elem.drop_of_a_segment | (func elem.drop 0) (elem func 0) | valid";

#[test]
fn checks_table_instructions(rt: HostRuntime) {
    check_rows(&rt, rt.alloc(), ROWS, 61);
}
