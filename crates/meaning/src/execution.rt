//! Laws and worked rows of runs.

ghost use Rattle.std.specs.Prelude.{◌≡◌, ◌≤◌, ◌∷◌, [], List, ℕ, ◌⊎◌, Some, None, replicate};
ghost use Rattle.core_types.specs.declared.op.ControlOp.TheVariants.{Call, ReturnCall, Unreachable};
ghost use Rattle.core_types.specs.declared.op.MemoryOp.TheVariants.{Grow};
ghost use Rattle.core_types.specs.declared.op.Op.TheVariants.{Plain};
ghost use Rattle.core_types.specs.declared.op.PlainOp.{PlainOp};
ghost use Rattle.core_types.specs.declared.op.PlainOp.TheVariants.{Control, I32Const, Memory, Table};
ghost use Rattle.core_types.specs.declared.op.TableOp.TheVariants as table;
ghost use Rattle.core_types.specs.declared.types.ValType.TheVariants as ty;
ghost use Rattle.core_types.specs.declared.outcome.Val.{Val};
ghost use Rattle.core_types.specs.declared.outcome.Val.TheVariants.{I32};
ghost use Rattle.core_types.specs.declared.outcome.Trap.TheVariants.{Host, IndirectType, MemoryBounds, TableBounds, UndefinedElement, UninitializedElement};
ghost use Rattle.meaning.specs.execution.Rows.{Asks, AsksInFrame, Calls, CallsEntry, CallsEntryLast, CountsCalls, TrapsAtOneAndTwo, adder, alone, at, caller, calls_last_inside, calls_twice, copies_and_sets, counting, counting_last, down, endless, fills, fills_entries, grows_and_reads, grows_table, inits_entry, instance_of_two, last_of_three, nothing, null, one_and_two, seven_or_eight, store_with_entries, store_with_host, store_with_pages, trapping, with_bytes_and_global, with_entries, with_ten};
ghost use Rattle.meaning.specs.execution.Configurations.{Configuration, Frame, Invoking, depth, no_frame};
ghost use Rattle.meaning.specs.execution.Costs.{instruction_cost};
ghost use Rattle.meaning.specs.execution.Effects.{Done, effect};
ghost use Rattle.meaning.specs.execution.Instructions.{Next, next};
ghost use Rattle.meaning.specs.execution.Modules.{constant, constant_step, constant_value};
ghost use Rattle.meaning.specs.execution.Store.{ModuleInstance, Store, instance_of};
ghost use Rattle.meaning.specs.execution.Runs.{AsksForMemory, Ending, IsEnd, IsReady, IsWithinBound, NoHosts, OutOfDepth, OutOfFuel, OutOfMemory, Run, State, Steps, WithTrap, WithValues, price};

/// Worked rows of runs: a function that adds its two arguments. It is called with 1 and 2 with fuel 10, 3 and 2, and with no
/// depth.
pub fn adding_one_and_two_costs_three()
    ensures fuel_10 { Calls 1 adder (I32 2 ∷ I32 1 ∷ []) 10 (WithValues (I32 3 ∷ [])) 7 }
    ensures fuel_3 { Calls 1 adder (I32 2 ∷ I32 1 ∷ []) 3 (WithValues (I32 3 ∷ [])) 0 }
    ensures fuel_2 { Calls 1 adder (I32 2 ∷ I32 1 ∷ []) 2 OutOfFuel 0 }
    ensures depth_0 { Calls 0 adder (I32 2 ∷ I32 1 ∷ []) 10 OutOfDepth 10 }
{}

/// Worked rows of runs: a loop without end runs out of fuel. A branch keeps the topmost value. Two results are in their order.
/// An `if` chooses by its operand. A call one frame too deep ends for its depth, but first for its fuel.
pub fn control_keeps_its_order()
    ensures endless_loop { Calls 1 endless ([]) 3 OutOfFuel 0 }
    ensures branch { Calls 1 last_of_three ([]) 5 (WithValues (I32 9 ∷ [])) 0 }
    ensures results { Calls 1 one_and_two ([]) 2 (WithValues (I32 1 ∷ I32 2 ∷ [])) 0 }
    ensures if_not_zero { Calls 1 seven_or_eight (I32 1 ∷ []) 3 (WithValues (I32 7 ∷ [])) 0 }
    ensures if_zero { Calls 1 seven_or_eight (I32 0 ∷ []) 3 (WithValues (I32 8 ∷ [])) 0 }
    ensures depth_first { Calls 1 caller ([]) 10 OutOfDepth 10 }
    ensures fuel_first { Calls 1 caller ([]) 0 OutOfFuel 0 }
{}

/// Worked rows of runs: a host function that counts its calls, and one that traps if it is called with 1 and 2. The first is
/// called twice from code, which costs 1 each, and once from outside, which costs nothing. From code it borrows the memory of
/// the caller's instance, from outside none.
pub fn hosts_answer_calls()
    ensures from_code { Run (CountsCalls (Some 6)) 1 no_frame (counting 0 10) (Invoking ([]) 0)
        (WithValues (I32 1 ∷ I32 2 ∷ [])) (counting 2 8) }
    ensures from_outside { Run (CountsCalls None) 0 no_frame (counting 4 0) (Invoking ([]) 1)
        (WithValues (I32 5 ∷ [])) (counting 5 0) }
    ensures trap { Run TrapsAtOneAndTwo 1 no_frame (trapping 10) (Invoking ([]) 0) (WithTrap (Host
        4)) (trapping 7) }
{}

/// Worked rows of runs on memories, data segments and globals. A fill of 128 bytes costs 3 and is done or not by the fuel. A
/// byte of a segment is copied and read, and a global is set. A growth that is not allowed returns -1, and an access past the
/// end traps.
pub fn memories_change_in_runs()
    ensures fill { Run NoHosts 1 no_frame (with_bytes_and_global fills (replicate 128 0) 5 6)
        (Invoking ([]) 0) (WithValues ([])) (with_bytes_and_global fills (replicate 128 7) 5 0) }
    ensures no_fuel { Run NoHosts 1 no_frame (with_bytes_and_global fills (replicate 128 0) 5 5)
        (Invoking ([]) 0) OutOfFuel (with_bytes_and_global fills (replicate 128 0) 5 2) }
    ensures global { Run NoHosts 1 no_frame (with_bytes_and_global copies_and_sets (1 ∷ 2 ∷ []) 5 8)
        (Invoking ([]) 0) (WithValues (I32 2049 ∷ [])) (with_bytes_and_global copies_and_sets (1 ∷ 8
        ∷ []) 2049 0) }
    ensures trap { Run NoHosts 1 no_frame (with_bytes_and_global grows_and_reads (1 ∷ []) 5 8)
        (Invoking ([]) 0) (WithTrap MemoryBounds) (with_bytes_and_global grows_and_reads (1 ∷ []) 5
        5) }
{}

/// Worked rows of runs on tables and element segments:
/// - a call through an entry, and its traps in their order
/// - a fill of three entries, and one past the end
/// - a copy from a segment, which is dropped
/// - a growth within the bound, and one past it
pub fn tables_change_in_runs()
    ensures call { CallsEntry 0 3 (WithValues (I32 10 ∷ [])) 0 }
    ensures other_type { CallsEntry 1 3 (WithTrap IndirectType) 1 }
    ensures null_entry { CallsEntry 2 3 (WithTrap UninitializedElement) 1 }
    ensures past { CallsEntry 3 3 (WithTrap UndefinedElement) 1 }
    ensures fill { Run NoHosts 1 no_frame (with_entries (fills_entries 3) (at 0 ∷ at 1 ∷ at 2 ∷ [])
        ([]) 4) (Invoking ([]) 0) (WithValues ([])) (with_entries (fills_entries 3) (null ∷ null ∷
        null ∷ []) ([]) 0) }
    ensures fill_past { Run NoHosts 1 no_frame (with_entries (fills_entries 4) (at 0 ∷ at 1 ∷ at 2 ∷
        []) ([]) 4) (Invoking ([]) 0) (WithTrap TableBounds) (with_entries (fills_entries 4) (at 0 ∷
        at 1 ∷ at 2 ∷ []) ([]) 0) }
    ensures init { Run NoHosts 1 no_frame (with_entries inits_entry (null ∷ null ∷ []) (at 2 ∷ [])
        7) (Invoking ([]) 0) (WithValues (at 2 ∷ [])) (with_entries inits_entry (null ∷ at 2 ∷ [])
        ([]) 0) }
    ensures grow { Run NoHosts 1 no_frame (with_entries (grows_table 2) (null ∷ null ∷ []) ([]) 3)
        (Invoking ([]) 0) (WithValues (I32 2 ∷ [])) (with_entries (grows_table 2) (null ∷ null ∷ at
        1 ∷ at 1 ∷ []) ([]) 0) }
    ensures refused { Run NoHosts 1 no_frame (with_entries (grows_table 3) (null ∷ null ∷ []) ([])
        3) (Invoking ([]) 0) (WithValues (I32 4294967295 ∷ [])) (with_entries (grows_table 3) (null
        ∷ null ∷ []) ([]) 0) }
{}

/// Worked rows of runs with tail calls, all with room for one frame:
/// - a function that calls itself last, with fuel and without
/// - one whose last call is within blocks and above operands
/// - a last call through an entry, and its traps in their order, whatever the depth
/// - a last call of a host function, which is passed the memory of the instance that calls it
pub fn tail_calls_replace_their_frame()
    ensures down { Calls 1 down (I32 1 ∷ []) 9 (WithValues (I32 9 ∷ [])) 0 }
    ensures no_fuel { Calls 1 down (I32 1 ∷ []) 5 OutOfFuel 0 }
    ensures inside { Run NoHosts 1 no_frame (with_ten calls_last_inside 9) (Invoking ([]) 0)
        (WithValues (I32 10 ∷ [])) (with_ten calls_last_inside 3) }
    ensures entry { CallsEntryLast 0 3 (WithValues (I32 10 ∷ [])) 0 }
    ensures other_type { CallsEntryLast 1 3 (WithTrap IndirectType) 1 }
    ensures null_entry { CallsEntryLast 2 3 (WithTrap UninitializedElement) 1 }
    ensures past { CallsEntryLast 3 3 (WithTrap UndefinedElement) 1 }
    ensures host { Run (CountsCalls (Some 6)) 1 no_frame (counting_last 0 10) (Invoking ([]) 0)
        (WithValues (I32 1 ∷ [])) (counting_last 1 8) }
{}

/// Worked rows of steps. These ask for memory: the entry from outside, a call and a tail call of code and of a host function,
/// and a growth that is done. A growth that returns -1, a constant and a trap ask for none.
pub fn some_steps_ask_for_memory()
    ensures entry { AsksForMemory (next (instance_of_two nothing nothing) no_frame
        (Invoking ([]) 0)) }
    ensures call { Asks (instance_of_two caller nothing) ([]) (alone (Control (Call 1))) }
    ensures host { Asks (store_with_host calls_twice ([]) (ty.I32 ∷ [])) ([]) (alone (Control (Call
        1))) }
    ensures tail_call { AsksInFrame (instance_of_two caller nothing) (alone (Control (ReturnCall
        1))) }
    ensures tail_call_of_host { AsksInFrame (store_with_host calls_twice ([]) (ty.I32 ∷ []))
        (alone (Control (ReturnCall 1))) }
    ensures memory { Asks (store_with_pages 1) (I32 1 ∷ []) (alone (Memory Grow)) }
    ensures memory_refused { Asks (store_with_pages 0) (I32 1 ∷ []) (alone (Memory Grow)) → ⊥ }
    ensures table { Asks store_with_entries (I32 2 ∷ null ∷ []) (alone (Table (table.Grow 0))) }
    ensures table_refused { Asks store_with_entries (I32 3 ∷ null ∷ []) (alone (Table (table.Grow
        0))) → ⊥ }
    ensures constant { Asks (store_with_pages 1) ([]) (alone (I32Const 7)) → ⊥ }
    ensures trap { Asks (store_with_pages 1) ([]) (alone (Control Unreachable)) → ⊥ }
{}

/// Law: a step that asks for memory is ready. A run ends out of memory only before such a step, and may do so before each one
/// that its fuel and the depth bound allow.
pub fn memory_is_lacked_where_it_is_asked_for()
    ensures ready { (what : Next) → AsksForMemory what → IsReady what }
    ensures only { (bound : ℕ) (outside : Frame) (at last : State ⊥) (configuration : Configuration)
        → IsEnd NoHosts bound outside at configuration OutOfMemory last
        → AsksForMemory (next at.store outside configuration) }
    ensures ends { (bound : ℕ) (outside : Frame) (at : State ⊥) (configuration : Configuration) →
        AsksForMemory (next at.store outside configuration) → IsWithinBound bound
        (depth configuration) (next at.store outside configuration) → price
        (next at.store outside configuration) ≤ at.fuel → IsEnd NoHosts bound outside at
        configuration OutOfMemory at }
{}

/// Law: without host functions, two bounded runs from one start end alike, in one state, unless one of them ends out of memory.
pub fn runs_agree()
    ensures { (bound : ℕ) (outside : Frame) (at s t : State ⊥) (configuration : Configuration) (e f
        : Ending) → Run NoHosts bound outside at configuration e s → Run NoHosts bound outside at
        configuration f t → (e ≡ OutOfMemory) ⊎ ((f ≡ OutOfMemory) ⊎ ((e ≡ f) × (s ≡ t))) }
{}

/// Law: a run that follows steps is a run from before them.
pub fn steps_lead_to_runs()
    ensures { (bound : ℕ) (outside : Frame) (old between last : State ⊥) (first second :
        Configuration) (ending : Ending) → Steps NoHosts bound outside old first between second →
        Run NoHosts bound outside between second ending last → Run NoHosts bound outside old first
        ending last }
{}

/// Law: a constant instruction changes the operands as the reduction changes them, in every frame of the instance. An expression
/// of one constant has its value.
pub fn constants_are_values()
    ensures step { (store : Store) (frame : Frame) (op : PlainOp) (operands after : List Val)
        → constant_step store (instance_of store frame.instance) op operands ≡ Some after
        → effect store frame op operands ≡ Done instruction_cost store frame.locals after }
    ensures one { (store : Store) (i : ModuleInstance) (op : PlainOp) (v : Val)
        → constant store i op ≡ Some v → constant_value store i (Plain op ∷ []) ≡ Some v }
{}
