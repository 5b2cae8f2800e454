//! Numeric instructions.

use crate::answers::check_rows;

const ROWS: &str = "\
i32.const_gives_an_i32 | (func i32.const 0 i32.eqz drop) | valid
i32.const_gives_no_i64 | (func i32.const 0 i64.eqz drop) | invalid
i32.eqz_of_an_i64 | (func i64.const 0 i32.eqz drop) | invalid
i32.eqz_gives_no_i64 | (func i32.const 0 i32.eqz i64.eqz drop) | invalid
i32.eqz_of_an_i32_gives_an_i32 | (func i32.const 0 i32.eqz i32.eqz drop) | valid
i32.eqz_of_nothing | (func i32.eqz drop) | invalid
i32.eqz_of_a_reference | (func ref.null func i32.eqz drop) | invalid
i32.lt_u_of_an_i64_and_an_i32 | (func i64.const 0 i32.const 0 i32.lt_u drop) | invalid
i32.lt_u_of_an_i32_and_an_i64 | (func i32.const 0 i64.const 0 i32.lt_u drop) | invalid
i32.lt_u_of_one_operand | (func i32.const 0 i32.lt_u drop) | invalid
i32.lt_u_gives_no_i64 | (func i32.const 0 i32.const 0 i32.lt_u i64.eqz drop) | invalid
i32.lt_u_of_two_i32_gives_an_i32 | (func i32.const 0 i32.const 0 i32.lt_u i32.eqz drop) | valid
i32.add_of_an_i64_and_an_i32 | (func i64.const 0 i32.const 0 i32.add drop) | invalid
i32.add_of_an_i32_and_an_i64 | (func i32.const 0 i64.const 0 i32.add drop) | invalid
i32.add_of_one_operand | (func i32.const 0 i32.add drop) | invalid
i32.add_gives_no_i64 | (func i32.const 0 i32.const 0 i32.add i64.eqz drop) | invalid
i32.add_of_two_i32_gives_an_i32 | (func i32.const 0 i32.const 0 i32.add i32.eqz drop) | valid
i32.clz_of_an_i64 | (func i64.const 0 i32.clz drop) | invalid
i32.clz_gives_no_i64 | (func i32.const 0 i32.clz i64.eqz drop) | invalid
i32.clz_of_an_i32_gives_an_i32 | (func i32.const 0 i32.clz i32.eqz drop) | valid
i32.extend8_s_of_an_i64 | (func i64.const 0 i32.extend8_s drop) | invalid
i32.extend8_s_gives_no_i64 | (func i32.const 0 i32.extend8_s i64.eqz drop) | invalid
i32.extend8_s_of_an_i32_gives_an_i32 | (func i32.const 0 i32.extend8_s i32.eqz drop) | valid
i32.extend16_s_of_an_i64 | (func i64.const 0 i32.extend16_s drop) | invalid
i32.extend16_s_gives_no_i64 | (func i32.const 0 i32.extend16_s i64.eqz drop) | invalid
i32.extend16_s_of_an_i32_gives_an_i32 | (func i32.const 0 i32.extend16_s i32.eqz drop) | valid
i64.const_gives_an_i64 | (func i64.const 0 i64.eqz drop) | valid
i64.const_gives_no_i32 | (func i64.const 0 i32.eqz drop) | invalid
i64.eqz_of_an_i32 | (func i32.const 0 i64.eqz drop) | invalid
i64.eqz_gives_no_i64 | (func i64.const 0 i64.eqz i64.eqz drop) | invalid
i64.eqz_of_an_i64_gives_an_i32 | (func i64.const 0 i64.eqz i32.eqz drop) | valid
i64.eqz_of_nothing | (func i64.eqz drop) | invalid
i64.eqz_of_a_reference | (func ref.null func i64.eqz drop) | invalid
i64.lt_u_of_an_i32_and_an_i64 | (func i32.const 0 i64.const 0 i64.lt_u drop) | invalid
i64.lt_u_of_an_i64_and_an_i32 | (func i64.const 0 i32.const 0 i64.lt_u drop) | invalid
i64.lt_u_of_one_operand | (func i64.const 0 i64.lt_u drop) | invalid
i64.lt_u_gives_no_i64 | (func i64.const 0 i64.const 0 i64.lt_u i64.eqz drop) | invalid
i64.lt_u_of_two_i64_gives_an_i32 | (func i64.const 0 i64.const 0 i64.lt_u i32.eqz drop) | valid
i64.add_of_an_i32_and_an_i64 | (func i32.const 0 i64.const 0 i64.add drop) | invalid
i64.add_of_an_i64_and_an_i32 | (func i64.const 0 i32.const 0 i64.add drop) | invalid
i64.add_of_one_operand | (func i64.const 0 i64.add drop) | invalid
i64.add_gives_no_i32 | (func i64.const 0 i64.const 0 i64.add i32.eqz drop) | invalid
i64.add_of_two_i64_gives_an_i64 | (func i64.const 0 i64.const 0 i64.add i64.eqz drop) | valid
i64.clz_of_an_i32 | (func i32.const 0 i64.clz drop) | invalid
i64.clz_gives_no_i32 | (func i64.const 0 i64.clz i32.eqz drop) | invalid
i64.clz_of_an_i64_gives_an_i64 | (func i64.const 0 i64.clz i64.eqz drop) | valid
i64.extend8_s_of_an_i32 | (func i32.const 0 i64.extend8_s drop) | invalid
i64.extend8_s_gives_no_i32 | (func i64.const 0 i64.extend8_s i32.eqz drop) | invalid
i64.extend8_s_of_an_i64_gives_an_i64 | (func i64.const 0 i64.extend8_s i64.eqz drop) | valid
i64.extend16_s_of_an_i32 | (func i32.const 0 i64.extend16_s drop) | invalid
i64.extend16_s_gives_no_i32 | (func i64.const 0 i64.extend16_s i32.eqz drop) | invalid
i64.extend16_s_of_an_i64_gives_an_i64 | (func i64.const 0 i64.extend16_s i64.eqz drop) | valid
i64.extend32_s_of_an_i32 | (func i32.const 0 i64.extend32_s drop) | invalid
i64.extend32_s_gives_no_i32 | (func i64.const 0 i64.extend32_s i32.eqz drop) | invalid
i64.extend32_s_of_an_i64_gives_an_i64 | (func i64.const 0 i64.extend32_s i64.eqz drop) | valid
i32.wrap_i64_of_an_i32 | (func i32.const 0 i32.wrap_i64 drop) | invalid
i32.wrap_i64_gives_no_i64 | (func i64.const 0 i32.wrap_i64 i64.eqz drop) | invalid
i32.wrap_i64_of_an_i64_gives_an_i32 | (func i64.const 0 i32.wrap_i64 i32.eqz drop) | valid
i64.extend_i32_s_of_an_i64 | (func i64.const 0 i64.extend_i32_s drop) | invalid
i64.extend_i32_s_gives_no_i32 | (func i32.const 0 i64.extend_i32_s i32.eqz drop) | invalid
i64.extend_i32_s_of_an_i32_gives_an_i64 | (func i32.const 0 i64.extend_i32_s i64.eqz drop) | valid
i64.extend_i32_u_of_an_i64 | (func i64.const 0 i64.extend_i32_u drop) | invalid
i64.extend_i32_u_gives_no_i32 | (func i32.const 0 i64.extend_i32_u i32.eqz drop) | invalid
i64.extend_i32_u_of_an_i32_gives_an_i64 | (func i32.const 0 i64.extend_i32_u i64.eqz drop) | valid
each_i32_comparison | (func i32.const 1 i32.const 2 i32.eq drop i32.const 1 i32.const 2 i32.ne drop i32.const 1 i32.const 2 i32.lt_s drop \
    i32.const 1 i32.const 2 i32.lt_u drop i32.const 1 i32.const 2 i32.gt_s drop i32.const 1 i32.const 2 i32.gt_u drop i32.const 1 \
    i32.const 2 i32.le_s drop i32.const 1 i32.const 2 i32.le_u drop i32.const 1 i32.const 2 i32.ge_s drop i32.const 1 i32.const 2 \
    i32.ge_u drop) | valid
each_i32_operator | (func i32.const 1 i32.clz i32.ctz i32.popcnt i32.const 2 i32.add i32.const 2 i32.sub i32.const 2 i32.mul i32.const 2 \
    i32.div_s i32.const 2 i32.div_u i32.const 2 i32.rem_s i32.const 2 i32.rem_u i32.const 2 i32.and i32.const 2 i32.or i32.const 2 \
    i32.xor i32.const 2 i32.shl i32.const 2 i32.shr_s i32.const 2 i32.shr_u i32.const 2 i32.rotl i32.const 2 i32.rotr drop) | valid
each_i64_comparison | (func i64.const 1 i64.const 2 i64.eq drop i64.const 1 i64.const 2 i64.ne drop i64.const 1 i64.const 2 i64.lt_s drop \
    i64.const 1 i64.const 2 i64.lt_u drop i64.const 1 i64.const 2 i64.gt_s drop i64.const 1 i64.const 2 i64.gt_u drop i64.const 1 \
    i64.const 2 i64.le_s drop i64.const 1 i64.const 2 i64.le_u drop i64.const 1 i64.const 2 i64.ge_s drop i64.const 1 i64.const 2 \
    i64.ge_u drop) | valid
each_i64_operator | (func i64.const 1 i64.clz i64.ctz i64.popcnt i64.const 2 i64.add i64.const 2 i64.sub i64.const 2 i64.mul i64.const 2 \
    i64.div_s i64.const 2 i64.div_u i64.const 2 i64.rem_s i64.const 2 i64.rem_u i64.const 2 i64.and i64.const 2 i64.or i64.const 2 \
    i64.xor i64.const 2 i64.shl i64.const 2 i64.shr_s i64.const 2 i64.shr_u i64.const 2 i64.rotl i64.const 2 i64.rotr drop) | valid";

#[test]
fn checks_numeric_instructions(rt: HostRuntime) {
    check_rows(&rt, rt.alloc(), ROWS, 68);
}
