//! The modules of the scenarios.

/// A module with each kind of section.
pub const WHOLE: &str =
    "(type (func (param i32) (result i32))) (import \"m\" \"f\" (func (type 0))) (import \"m\" \"t\" (table 1 funcref)) (import \"m\" \"g\" (global i32)) (memory 1 2) (global (mut i64) i64.const 7) (func (param i32 i32) (result i32) block (result i32) local.get 0 local.get 1 i32.add end) (func (type 0) block block local.get 0 br_table 0 1 end i32.const 1 return end i32.const 5 i32.const 0 call_indirect (type 0)) (func) (elem (offset i32.const 0) func 1) (elem func 2) (data (offset i32.const 0) \"ab\") (data \"cd\") (start 3) (export \"add\" (func 1)) (export \"memory\" (memory 0))";

/// A module without imports that has one object of each kind.
pub const OBJECTS: &str =
    "(table 2 6 funcref) (memory 1 5) (global i32 i32.const 7) (func (param i32 i64) (result i64) local.get 1) (elem (offset i32.const 0) func 0) (data (offset i32.const 0) \"ab\") (export \"f\" (func 0)) (export \"g\" (global 0))";

/// A function that calls itself the number of times that its argument states, and returns that number.
pub const DEEP: &str =
    "(func (param i32) (result i32) local.get 0 i32.eqz if (result i32) i32.const 0 else local.get 0 i32.const 1 i32.sub call 0 i32.const 1 i32.add end) (export \"deep\" (func 0))";

/// A function that runs a loop the number of times that its argument states, but at least once, and returns how often it did. A
/// round has instructions of each kind that opens no frame, grows nothing and calls no host.
pub const ROUNDS: &str =
    "(table 8 funcref) (table 8 funcref) (memory 1) (global (mut i32) i32.const 0) (elem func 0) (data \"abcdefgh\") (func (param i32) (result i32) (local i32) loop local.get 1 i32.const 1 i32.add local.tee 1 global.set 0 i32.const 8 local.get 1 i32.store i32.const 16 i32.const 8 i64.load32_u i64.store i32.const 0 i32.const 7 i32.const 100 memory.fill i32.const 50 i32.const 0 i32.const 100 memory.copy i32.const 9 i32.const 0 i32.const 8 memory.init 0 i32.const 0 ref.func 0 i32.const 4 table.fill 0 i32.const 1 i32.const 0 i32.const 3 table.copy 1 0 i32.const 2 i32.const 0 i32.const 1 table.init 0 0 i32.const 3 i32.const 0 table.get 0 table.set 1 memory.size table.size 0 i32.mul drop block block global.get 0 i32.const 1 i32.and br_table 0 1 end nop end global.get 0 i32.const 0 local.get 1 select drop local.get 1 local.get 0 i32.lt_u br_if 0 end local.get 1) (export \"rounds\" (func 0))";

/// A module whose function returns a reference to itself.
pub const ITSELF: &str =
    "(func (result funcref) ref.func 0) (elem declare func 0) (export \"itself\" (func 0))";

/// The same with a start function that traps.
pub const ITSELF_AND_TRAP: &str =
    "(func (result funcref) ref.func 0) (func unreachable) (elem declare func 0) (start 1) (export \"itself\" (func 0))";

/// A function that grows a memory, which has one page and may have at most five.
pub const GROWTH: &str =
    "(memory 1 5) (func (param i32) (result i32) local.get 0 memory.grow) (export \"g\" (func 0))";

/// A function that adds one to a global, and that global.
pub const COUNTER: &str =
    "(global (mut i32) i32.const 7) (func global.get 0 i32.const 1 i32.add global.set 0) (export \"bump\" (func 0)) (export \"g\" (global 0))";
