//! Modules of scripts, in the text format.

/// Returns the text of the module with this name. The text of no module represents bytes that encode none.
#[rattlefmt::skip]
pub fn module_text(name: &str) -> &'static str {
    match name {
        "add" => "(func (param i32 i32) (result i32) local.get 0 local.get 1 i32.add) (export \"add\" (func 0))",
        // Adds, calls an entry of a table whose entries are null, and has a global.
        "add_and_call" => "(type (func (param i32 i32) (result i32))) (type (func (param i32) (result i32))) (type (func (result i32))) \
        (table 1 funcref) (global i32 i32.const 666) (func (type 0) local.get 0 local.get 1 i32.add) \
        (func (type 1) local.get 0 call_indirect (type 2)) (export \"add\" (func 0)) (export \"call\" (func 1)) (export \"g\" (global 0))",
        "one" => "(func (result i32) i32.const 1) (export \"f\" (func 0))",
        "two" => "(func (result i32) i32.const 2) (export \"f\" (func 0))",
        "calls_f" => "(import \"M\" \"f\" (func (result i32))) (func (result i32) call 0) (export \"g\" (func 1))",
        "missing" => "(import \"M\" \"missing\" (func))",
        // A loop without end, and a function that calls only itself.
        "endless" => "(func loop br 0 end) (func call 1) (export \"loop\" (func 0)) (export \"deep\" (func 1))",
        "traps_at_start" => "(func unreachable) (start 0)",
        "invalid" => "(func (result i32) i64.const 1)",
        "returns_both" => "(func (param i32 i64) (result i64 i32) local.get 1 local.get 0) (export \"swap\" (func 0))",
        "references" => "(func (param externref) (result externref) local.get 0) (func (result funcref) ref.null func) \
        (export \"same\" (func 0)) (export \"null\" (func 1))",
        // Two functions that call each other last, one that calls an entry of a table last, and one that calls only itself.
        "even_and_odd" => "(type (func (param i32) (result i32))) (table 2 funcref) \
        (func (param i32) (result i32) local.get 0 i32.eqz if (result i32) i32.const 1 else local.get 0 i32.const 1 i32.sub return_call 1 \
        end) (func (param i32) (result i32) local.get 0 i32.eqz if (result i32) i32.const 0 else local.get 0 i32.const 1 i32.sub \
        return_call 0 end) (func (param i32 i32) (result i32) local.get 0 local.get 1 return_call_indirect (type 0)) (func return_call 3) \
        (elem (offset i32.const 0) func 0) (export \"even\" (func 0)) (export \"odd\" (func 1)) (export \"through\" (func 2)) \
        (export \"last\" (func 3))",
        "calls_f_last" => "(import \"M\" \"f\" (func (result i32))) (func (result i32) return_call 0) (export \"g\" (func 1))",
        // The function that is called last has another result than its caller.
        "other_result" => "(func (result i64) return_call 1) (func (result i32) i32.const 1)",
        _ => "",
    }
}
