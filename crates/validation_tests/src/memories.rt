//! Memory instructions.

use crate::answers::check_rows;

const ROWS: &str = "\
i32.load_of_too_large_an_alignment | (func i32.const 0 i32.load offset=0 align=8 drop) (memory 1) | invalid
i32.load_without_a_memory | (func i32.const 0 i32.load offset=0 align=4 drop) | invalid
i32.load_at_an_i64 | (func i64.const 0 i32.load offset=0 align=4 drop) (memory 1) | invalid
i32.load_at_an_i32 | (func i32.const 0 i32.load offset=0 align=4 drop) (memory 1) | valid
i32.load_gives_no_i64 | (func i32.const 0 i32.load offset=0 align=4 i64.eqz drop) (memory 1) | invalid
i32.load_gives_an_i32 | (func i32.const 0 i32.load offset=0 align=4 i32.eqz drop) (memory 1) | valid
i64.load_of_too_large_an_alignment | (func i32.const 0 i64.load offset=0 align=16 drop) (memory 1) | invalid
i64.load_without_a_memory | (func i32.const 0 i64.load offset=0 align=8 drop) | invalid
i64.load_at_an_i64 | (func i64.const 0 i64.load offset=0 align=8 drop) (memory 1) | invalid
i64.load_at_an_i32 | (func i32.const 0 i64.load offset=0 align=8 drop) (memory 1) | valid
i64.load_gives_no_i32 | (func i32.const 0 i64.load offset=0 align=8 i32.eqz drop) (memory 1) | invalid
i64.load_gives_an_i64 | (func i32.const 0 i64.load offset=0 align=8 i64.eqz drop) (memory 1) | valid
i32.load8_s_of_too_large_an_alignment | (func i32.const 0 i32.load8_s offset=0 align=2 drop) (memory 1) | invalid
i32.load8_s_without_a_memory | (func i32.const 0 i32.load8_s offset=0 align=1 drop) | invalid
i32.load8_s_at_an_i64 | (func i64.const 0 i32.load8_s offset=0 align=1 drop) (memory 1) | invalid
i32.load8_s_at_an_i32 | (func i32.const 0 i32.load8_s offset=0 align=1 drop) (memory 1) | valid
i32.load8_s_gives_no_i64 | (func i32.const 0 i32.load8_s offset=0 align=1 i64.eqz drop) (memory 1) | invalid
i32.load8_s_gives_an_i32 | (func i32.const 0 i32.load8_s offset=0 align=1 i32.eqz drop) (memory 1) | valid
i32.load8_u_of_too_large_an_alignment | (func i32.const 0 i32.load8_u offset=0 align=2 drop) (memory 1) | invalid
i32.load8_u_without_a_memory | (func i32.const 0 i32.load8_u offset=0 align=1 drop) | invalid
i32.load8_u_at_an_i64 | (func i64.const 0 i32.load8_u offset=0 align=1 drop) (memory 1) | invalid
i32.load8_u_at_an_i32 | (func i32.const 0 i32.load8_u offset=0 align=1 drop) (memory 1) | valid
i32.load8_u_gives_no_i64 | (func i32.const 0 i32.load8_u offset=0 align=1 i64.eqz drop) (memory 1) | invalid
i32.load8_u_gives_an_i32 | (func i32.const 0 i32.load8_u offset=0 align=1 i32.eqz drop) (memory 1) | valid
i32.load16_s_of_too_large_an_alignment | (func i32.const 0 i32.load16_s offset=0 align=4 drop) (memory 1) | invalid
i32.load16_s_without_a_memory | (func i32.const 0 i32.load16_s offset=0 align=2 drop) | invalid
i32.load16_s_at_an_i64 | (func i64.const 0 i32.load16_s offset=0 align=2 drop) (memory 1) | invalid
i32.load16_s_at_an_i32 | (func i32.const 0 i32.load16_s offset=0 align=2 drop) (memory 1) | valid
i32.load16_s_gives_no_i64 | (func i32.const 0 i32.load16_s offset=0 align=2 i64.eqz drop) (memory 1) | invalid
i32.load16_s_gives_an_i32 | (func i32.const 0 i32.load16_s offset=0 align=2 i32.eqz drop) (memory 1) | valid
i32.load16_u_of_too_large_an_alignment | (func i32.const 0 i32.load16_u offset=0 align=4 drop) (memory 1) | invalid
i32.load16_u_without_a_memory | (func i32.const 0 i32.load16_u offset=0 align=2 drop) | invalid
i32.load16_u_at_an_i64 | (func i64.const 0 i32.load16_u offset=0 align=2 drop) (memory 1) | invalid
i32.load16_u_at_an_i32 | (func i32.const 0 i32.load16_u offset=0 align=2 drop) (memory 1) | valid
i32.load16_u_gives_no_i64 | (func i32.const 0 i32.load16_u offset=0 align=2 i64.eqz drop) (memory 1) | invalid
i32.load16_u_gives_an_i32 | (func i32.const 0 i32.load16_u offset=0 align=2 i32.eqz drop) (memory 1) | valid
i64.load8_s_of_too_large_an_alignment | (func i32.const 0 i64.load8_s offset=0 align=2 drop) (memory 1) | invalid
i64.load8_s_without_a_memory | (func i32.const 0 i64.load8_s offset=0 align=1 drop) | invalid
i64.load8_s_at_an_i64 | (func i64.const 0 i64.load8_s offset=0 align=1 drop) (memory 1) | invalid
i64.load8_s_at_an_i32 | (func i32.const 0 i64.load8_s offset=0 align=1 drop) (memory 1) | valid
i64.load8_s_gives_no_i32 | (func i32.const 0 i64.load8_s offset=0 align=1 i32.eqz drop) (memory 1) | invalid
i64.load8_s_gives_an_i64 | (func i32.const 0 i64.load8_s offset=0 align=1 i64.eqz drop) (memory 1) | valid
i64.load8_u_of_too_large_an_alignment | (func i32.const 0 i64.load8_u offset=0 align=2 drop) (memory 1) | invalid
i64.load8_u_without_a_memory | (func i32.const 0 i64.load8_u offset=0 align=1 drop) | invalid
i64.load8_u_at_an_i64 | (func i64.const 0 i64.load8_u offset=0 align=1 drop) (memory 1) | invalid
i64.load8_u_at_an_i32 | (func i32.const 0 i64.load8_u offset=0 align=1 drop) (memory 1) | valid
i64.load8_u_gives_no_i32 | (func i32.const 0 i64.load8_u offset=0 align=1 i32.eqz drop) (memory 1) | invalid
i64.load8_u_gives_an_i64 | (func i32.const 0 i64.load8_u offset=0 align=1 i64.eqz drop) (memory 1) | valid
i64.load16_s_of_too_large_an_alignment | (func i32.const 0 i64.load16_s offset=0 align=4 drop) (memory 1) | invalid
i64.load16_s_without_a_memory | (func i32.const 0 i64.load16_s offset=0 align=2 drop) | invalid
i64.load16_s_at_an_i64 | (func i64.const 0 i64.load16_s offset=0 align=2 drop) (memory 1) | invalid
i64.load16_s_at_an_i32 | (func i32.const 0 i64.load16_s offset=0 align=2 drop) (memory 1) | valid
i64.load16_s_gives_no_i32 | (func i32.const 0 i64.load16_s offset=0 align=2 i32.eqz drop) (memory 1) | invalid
i64.load16_s_gives_an_i64 | (func i32.const 0 i64.load16_s offset=0 align=2 i64.eqz drop) (memory 1) | valid
i64.load16_u_of_too_large_an_alignment | (func i32.const 0 i64.load16_u offset=0 align=4 drop) (memory 1) | invalid
i64.load16_u_without_a_memory | (func i32.const 0 i64.load16_u offset=0 align=2 drop) | invalid
i64.load16_u_at_an_i64 | (func i64.const 0 i64.load16_u offset=0 align=2 drop) (memory 1) | invalid
i64.load16_u_at_an_i32 | (func i32.const 0 i64.load16_u offset=0 align=2 drop) (memory 1) | valid
i64.load16_u_gives_no_i32 | (func i32.const 0 i64.load16_u offset=0 align=2 i32.eqz drop) (memory 1) | invalid
i64.load16_u_gives_an_i64 | (func i32.const 0 i64.load16_u offset=0 align=2 i64.eqz drop) (memory 1) | valid
i64.load32_s_of_too_large_an_alignment | (func i32.const 0 i64.load32_s offset=0 align=8 drop) (memory 1) | invalid
i64.load32_s_without_a_memory | (func i32.const 0 i64.load32_s offset=0 align=4 drop) | invalid
i64.load32_s_at_an_i64 | (func i64.const 0 i64.load32_s offset=0 align=4 drop) (memory 1) | invalid
i64.load32_s_at_an_i32 | (func i32.const 0 i64.load32_s offset=0 align=4 drop) (memory 1) | valid
i64.load32_s_gives_no_i32 | (func i32.const 0 i64.load32_s offset=0 align=4 i32.eqz drop) (memory 1) | invalid
i64.load32_s_gives_an_i64 | (func i32.const 0 i64.load32_s offset=0 align=4 i64.eqz drop) (memory 1) | valid
i64.load32_u_of_too_large_an_alignment | (func i32.const 0 i64.load32_u offset=0 align=8 drop) (memory 1) | invalid
i64.load32_u_without_a_memory | (func i32.const 0 i64.load32_u offset=0 align=4 drop) | invalid
i64.load32_u_at_an_i64 | (func i64.const 0 i64.load32_u offset=0 align=4 drop) (memory 1) | invalid
i64.load32_u_at_an_i32 | (func i32.const 0 i64.load32_u offset=0 align=4 drop) (memory 1) | valid
i64.load32_u_gives_no_i32 | (func i32.const 0 i64.load32_u offset=0 align=4 i32.eqz drop) (memory 1) | invalid
i64.load32_u_gives_an_i64 | (func i32.const 0 i64.load32_u offset=0 align=4 i64.eqz drop) (memory 1) | valid
i32.store_of_too_large_an_alignment | (func i32.const 0 i32.const 0 i32.store offset=0 align=8) (memory 1) | invalid
i32.store_without_a_memory | (func i32.const 0 i32.const 0 i32.store offset=0 align=4) | invalid
i32.store_at_an_i64 | (func i64.const 0 i32.const 0 i32.store offset=0 align=4) (memory 1) | invalid
i32.store_of_an_i64 | (func i32.const 0 i64.const 0 i32.store offset=0 align=4) (memory 1) | invalid
i32.store_of_an_i32 | (func i32.const 0 i32.const 0 i32.store offset=0 align=4) (memory 1) | valid
i64.store_of_too_large_an_alignment | (func i32.const 0 i64.const 0 i64.store offset=0 align=16) (memory 1) | invalid
i64.store_without_a_memory | (func i32.const 0 i64.const 0 i64.store offset=0 align=8) | invalid
i64.store_at_an_i64 | (func i64.const 0 i64.const 0 i64.store offset=0 align=8) (memory 1) | invalid
i64.store_of_an_i32 | (func i32.const 0 i32.const 0 i64.store offset=0 align=8) (memory 1) | invalid
i64.store_of_an_i64 | (func i32.const 0 i64.const 0 i64.store offset=0 align=8) (memory 1) | valid
i32.store8_of_too_large_an_alignment | (func i32.const 0 i32.const 0 i32.store8 offset=0 align=2) (memory 1) | invalid
i32.store8_without_a_memory | (func i32.const 0 i32.const 0 i32.store8 offset=0 align=1) | invalid
i32.store8_at_an_i64 | (func i64.const 0 i32.const 0 i32.store8 offset=0 align=1) (memory 1) | invalid
i32.store8_of_an_i64 | (func i32.const 0 i64.const 0 i32.store8 offset=0 align=1) (memory 1) | invalid
i32.store8_of_an_i32 | (func i32.const 0 i32.const 0 i32.store8 offset=0 align=1) (memory 1) | valid
i32.store16_of_too_large_an_alignment | (func i32.const 0 i32.const 0 i32.store16 offset=0 align=4) (memory 1) | invalid
i32.store16_without_a_memory | (func i32.const 0 i32.const 0 i32.store16 offset=0 align=2) | invalid
i32.store16_at_an_i64 | (func i64.const 0 i32.const 0 i32.store16 offset=0 align=2) (memory 1) | invalid
i32.store16_of_an_i64 | (func i32.const 0 i64.const 0 i32.store16 offset=0 align=2) (memory 1) | invalid
i32.store16_of_an_i32 | (func i32.const 0 i32.const 0 i32.store16 offset=0 align=2) (memory 1) | valid
i64.store8_of_too_large_an_alignment | (func i32.const 0 i64.const 0 i64.store8 offset=0 align=2) (memory 1) | invalid
i64.store8_without_a_memory | (func i32.const 0 i64.const 0 i64.store8 offset=0 align=1) | invalid
i64.store8_at_an_i64 | (func i64.const 0 i64.const 0 i64.store8 offset=0 align=1) (memory 1) | invalid
i64.store8_of_an_i32 | (func i32.const 0 i32.const 0 i64.store8 offset=0 align=1) (memory 1) | invalid
i64.store8_of_an_i64 | (func i32.const 0 i64.const 0 i64.store8 offset=0 align=1) (memory 1) | valid
i64.store16_of_too_large_an_alignment | (func i32.const 0 i64.const 0 i64.store16 offset=0 align=4) (memory 1) | invalid
i64.store16_without_a_memory | (func i32.const 0 i64.const 0 i64.store16 offset=0 align=2) | invalid
i64.store16_at_an_i64 | (func i64.const 0 i64.const 0 i64.store16 offset=0 align=2) (memory 1) | invalid
i64.store16_of_an_i32 | (func i32.const 0 i32.const 0 i64.store16 offset=0 align=2) (memory 1) | invalid
i64.store16_of_an_i64 | (func i32.const 0 i64.const 0 i64.store16 offset=0 align=2) (memory 1) | valid
i64.store32_of_too_large_an_alignment | (func i32.const 0 i64.const 0 i64.store32 offset=0 align=8) (memory 1) | invalid
i64.store32_without_a_memory | (func i32.const 0 i64.const 0 i64.store32 offset=0 align=4) | invalid
i64.store32_at_an_i64 | (func i64.const 0 i64.const 0 i64.store32 offset=0 align=4) (memory 1) | invalid
i64.store32_of_an_i32 | (func i32.const 0 i32.const 0 i64.store32 offset=0 align=4) (memory 1) | invalid
i64.store32_of_an_i64 | (func i32.const 0 i64.const 0 i64.store32 offset=0 align=4) (memory 1) | valid
i32.load_of_the_least_alignment_and_the_largest_offset | (func i32.const 0 i32.load offset=4294967295 align=1 drop) (memory 1) | valid
memory.size_without_a_memory | (func memory.size drop) | invalid
memory.size_gives_no_i64 | (func memory.size i64.eqz drop) (memory 1) | invalid
memory.size_gives_an_i32 | (func memory.size i32.eqz drop) (memory 1) | valid
memory.size_of_a_memory | (func memory.size drop) (memory 1) | valid
memory.size_of_an_imported_memory | (import \"m\" \"i\" (memory 1)) (func memory.size drop) | valid
memory.grow_without_a_memory | (func i32.const 0 memory.grow drop) | invalid
memory.grow_by_an_i64 | (func i64.const 0 memory.grow drop) (memory 1) | invalid
memory.grow_by_nothing | (func memory.grow drop) (memory 1) | invalid
memory.grow_gives_no_i64 | (func i32.const 0 memory.grow i64.eqz drop) (memory 1) | invalid
memory.grow_gives_an_i32 | (func i32.const 0 memory.grow i32.eqz drop) (memory 1) | valid
memory.grow_by_an_i32 | (func i32.const 0 memory.grow drop) (memory 1) | valid
memory.fill_without_a_memory | (func i32.const 0 i32.const 0 i32.const 0 memory.fill) | invalid
memory.fill_of_a_memory | (func i32.const 0 i32.const 0 i32.const 0 memory.fill) (memory 1) | valid
memory.fill_into_an_i64 | (func i64.const 0 i32.const 0 i32.const 0 memory.fill) (memory 1) | invalid
memory.fill_with_an_i64 | (func i32.const 0 i64.const 0 i32.const 0 memory.fill) (memory 1) | invalid
memory.fill_of_an_i64_number | (func i32.const 0 i32.const 0 i64.const 0 memory.fill) (memory 1) | invalid
memory.fill_of_two_operands | (func i32.const 0 i32.const 0 memory.fill) (memory 1) | invalid
memory.copy_without_a_memory | (func i32.const 0 i32.const 0 i32.const 0 memory.copy) | invalid
memory.copy_of_a_memory | (func i32.const 0 i32.const 0 i32.const 0 memory.copy) (memory 1) | valid
memory.copy_into_an_i64 | (func i64.const 0 i32.const 0 i32.const 0 memory.copy) (memory 1) | invalid
memory.copy_from_an_i64 | (func i32.const 0 i64.const 0 i32.const 0 memory.copy) (memory 1) | invalid
memory.copy_of_an_i64_number | (func i32.const 0 i32.const 0 i64.const 0 memory.copy) (memory 1) | invalid
memory.copy_of_two_operands | (func i32.const 0 i32.const 0 memory.copy) (memory 1) | invalid
memory.init_without_a_memory | (func i32.const 0 i32.const 0 i32.const 0 memory.init 0) (data \"\") | invalid
memory.init_of_a_memory | (func i32.const 0 i32.const 0 i32.const 0 memory.init 0) (memory 1) (data \"\") | valid
memory.init_into_an_i64 | (func i64.const 0 i32.const 0 i32.const 0 memory.init 0) (memory 1) (data \"\") | invalid
memory.init_from_an_i64 | (func i32.const 0 i64.const 0 i32.const 0 memory.init 0) (memory 1) (data \"\") | invalid
memory.init_of_an_i64_number | (func i32.const 0 i32.const 0 i64.const 0 memory.init 0) (memory 1) (data \"\") | invalid
memory.init_of_two_operands | (func i32.const 0 i32.const 0 memory.init 0) (memory 1) (data \"\") | invalid
memory.init_of_a_missing_segment | (func i32.const 0 i32.const 0 i32.const 0 memory.init 1) (memory 1) (data \"\") | invalid
data.drop_of_a_missing_segment | (func data.drop 1) (data \"\") | invalid
data.drop_of_a_segment | (func data.drop 0) (data \"\") | valid";

#[test]
fn checks_memory_instructions(rt: HostRuntime) {
    check_rows(&rt, rt.alloc(), ROWS, 140);
}
