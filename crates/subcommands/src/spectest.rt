//! The stored module `spectest`, which tests of the standard import from.

/// The bytes of the stored module. Each section has a line.
///
/// The module imports the three print functions from `host`, and exports them. It also exports `memory` with 1 to 2 pages,
/// `table` with 10 to 20 entries of type funcref, and the immutable globals `global_i32` and `global_i64` with the value 666.
pub const SPECTEST: &[u8] = b"\x00asm\x01\x00\x00\x00\
    \x01\x0c\x03`\x00\x00`\x01\x7f\x00`\x01~\x00\
    \x020\x03\x04host\x05print\x00\x00\x04host\x09print_i32\x00\x01\x04host\x09print_i64\x00\x02\
    \x04\x05\x01p\x01\x0a\x14\
    \x05\x04\x01\x01\x01\x02\
    \x06\x0d\x02\x7f\x00A\x9a\x05\x0b~\x00B\x9a\x05\x0b\
    \x07L\x07\x06memory\x02\x00\x05table\x01\x00\x0aglobal_i32\x03\x00\x0aglobal_i64\x03\x01\x05print\x00\x00\x09print_i32\x00\x01\x09print_i64\x00\x02";
