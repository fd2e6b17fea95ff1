//! What a compute call yields: the value of each numeric instruction (Core 1.0, 4.3), the reduction of WebAssembly (section 4),
//! and laws of it over modules in the bounded profile.
#![tactic(auto)]

mod convert;
mod i32;
mod i64;
mod laws;
mod operators;

pub use self::i32::{
    i32_add, i32_and, i32_clz, i32_ctz, i32_div_s, i32_div_u, i32_eq, i32_eqz, i32_ge_s, i32_ge_u,
    i32_gt_s, i32_gt_u, i32_le_s, i32_le_u, i32_lt_s, i32_lt_u, i32_mul, i32_ne, i32_or,
    i32_popcnt, i32_rem_s, i32_rem_u, i32_rotl, i32_rotr, i32_shl, i32_shr_s, i32_shr_u, i32_sub,
    i32_xor,
};
pub use self::i64::{
    i64_add, i64_and, i64_clz, i64_ctz, i64_div_s, i64_div_u, i64_eq, i64_eqz, i64_ge_s, i64_ge_u,
    i64_gt_s, i64_gt_u, i64_le_s, i64_le_u, i64_lt_s, i64_lt_u, i64_mul, i64_ne, i64_or,
    i64_popcnt, i64_rem_s, i64_rem_u, i64_rotl, i64_rotr, i64_shl, i64_shr_s, i64_shr_u, i64_sub,
    i64_xor,
};
pub use convert::{i32_wrap_i64, i64_extend_i32_s, i64_extend_i32_u};
pub use laws::{
    an_end_stays, calls_are_a_function, calls_end, instructions_are_counted, one_outcome,
};
pub use operators::{
    i32_binary, i32_comparison_holds, i32_division, i32_division_traps, i32_unary, i64_binary,
    i64_comparison_holds, i64_division, i64_division_traps, i64_unary,
};
