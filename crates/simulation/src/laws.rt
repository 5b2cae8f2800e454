//! Laws of flat code over cells.

ghost use Rattle.simulation.specs.Bulk.{CopiesMemory, DropsData, FillsMemory, GrowsMemory, InitializesMemory};
ghost use Rattle.simulation.specs.Callees.{CallsByName, CallsReachHosts, CallsThroughTables, ChangesLentBytes, TailCallsByName, TailCallsReachHosts, TailCallsThroughTables};
ghost use Rattle.simulation.specs.Calls.{FramesComeAndGo};
ghost use Rattle.simulation.specs.Entries.{CalleesAreEntered, CodeEnds};
ghost use Rattle.simulation.specs.Memories.{LoadsNumber, MeasuresMemory, StoresNumber};
ghost use Rattle.simulation.specs.Numbers.{ComputesFromOne, ComputesFromTwo, PutsI32, PutsI64};
ghost use Rattle.simulation.specs.Operations.{Branches, BranchesByTable, BranchesIf, Chooses, Enters, Jumps};
ghost use Rattle.simulation.specs.Instructions.{AlwaysFails, DoesNothing, Drops, PutsNull, RefersToFunction, Selects, TestsNull};
ghost use Rattle.simulation.specs.Laws.{CallersGoOn, CellsAreValues, EndsTyped, FunctionsAreEntered, StepsAreLifted};
ghost use Rattle.simulation.specs.Outcomes.{ActsOnStore};
ghost use Rattle.simulation.specs.Tables.{CopiesTable, DropsElements, FillsTable, GetsEntry, GrowsTable, InitializesTable, MeasuresTable, SetsEntry};
ghost use Rattle.simulation.specs.Variables.{GetsGlobal, GetsLocal, SetsGlobal, SetsLocal, TeesLocal};

/// Law: if a typed body leads from operands to others and its end is reached, the height changes by the difference of their
/// numbers.
pub fn ends_typed()
    ensures { EndsTyped }
{}

/// Law: the flat code of a typed body is at its first place when a frame is opened for it.
pub fn functions_are_entered()
    ensures { FunctionsAreEntered }
{}

/// Law: steps in a frame are steps of whatever is around it.
pub fn steps_are_lifted()
    ensures { StepsAreLifted }
{}

/// Law: after an instruction, with its results on what was below its operands, flat code is at the next place.
pub fn callers_go_on()
    ensures { CallersGoOn }
{}

/// Law: a cell, read at its value's type, is the value. The cell of a type's first value is zero. The arguments are the first
/// locals of the callee, in the same cells.
pub fn cells_are_values()
    ensures { CellsAreValues }
{}

/// Law: the effects of calls, returns and the end of a function's code on the frames.
pub fn frames_come_and_go()
    ensures { FramesComeAndGo }
{}

/// Law: control operations are steps of the reduction in their frame, at one unit of fuel. A jump is steps that cost nothing.
pub fn control_operations_are_steps()
    ensures enters { Enters }
    ensures chooses { Chooses }
    ensures jumps { Jumps }
    ensures branches { Branches }
    ensures branches_if { BranchesIf }
    ensures branches_by_table { BranchesByTable }
{}

/// Law: so are nop, drop and select, with any types. An unreachable fails.
pub fn simple_instructions_are_steps()
    ensures does_nothing { DoesNothing }
    ensures always_fails { AlwaysFails }
    ensures drops { Drops }
    ensures selects { Selects }
{}

/// Law: so are a null, the test for it, and a reference to a function.
pub fn references_are_steps()
    ensures puts_null { PutsNull }
    ensures tests_null { TestsNull }
    ensures refers_to_function { RefersToFunction }
{}

/// Law: so are instructions on locals and globals.
pub fn variables_are_steps()
    ensures gets_local { GetsLocal }
    ensures sets_local { SetsLocal }
    ensures tees_local { TeesLocal }
    ensures gets_global { GetsGlobal }
    ensures sets_global { SetsGlobal }
{}

/// Law: so are constants and operators, by any result of the operator.
pub fn numbers_are_steps()
    ensures puts_i32 { PutsI32 }
    ensures puts_i64 { PutsI64 }
    ensures computes_from_one { ComputesFromOne }
    ensures computes_from_two { ComputesFromTwo }
{}

/// Law: so are loads and stores, with any alignment, and the size of a memory.
pub fn memories_are_steps()
    ensures loads_number { LoadsNumber }
    ensures stores_number { StoresNumber }
    ensures measures_memory { MeasuresMemory }
{}

/// Law: so are the other instructions on tables, the memory and segments, by any outcome of their effect on their operands. An
/// instruction that grows a table or the memory first asks for it.
pub fn store_instructions_are_steps()
    ensures { ActsOnStore }
{}

/// Law: the steps of the instructions on tables and element segments, by what is found there.
pub fn tables_are_steps()
    ensures gets_entry { GetsEntry }
    ensures sets_entry { SetsEntry }
    ensures measures_table { MeasuresTable }
    ensures grows_table { GrowsTable }
    ensures fills_table { FillsTable }
    ensures copies_table { CopiesTable }
    ensures initializes_table { InitializesTable }
    ensures drops_elements { DropsElements }
{}

/// Law: the steps of the instructions on the memory and data segments.
pub fn bulk_instructions_are_steps()
    ensures grows_memory { GrowsMemory }
    ensures fills_memory { FillsMemory }
    ensures copies_memory { CopiesMemory }
    ensures initializes_memory { InitializesMemory }
    ensures drops_data { DropsData }
{}

/// Law: before a call, by an index or through a table, the function exists and is valid, and its arguments are on top. This
/// includes host functions. A call through a table fails if it finds no function of the wanted type. The same holds for tail
/// calls, whose function gives the results of the frame.
pub fn callees_are_found()
    ensures by_name { CallsByName }
    ensures through_tables { CallsThroughTables }
    ensures by_name_last { TailCallsByName }
    ensures through_tables_last { TailCallsThroughTables }
{}

/// Law: a call of a host function takes its arguments from the cells, and the code continues after it with its results. A tail
/// call also takes them from the cells.
pub fn hosts_are_called()
    ensures calls_reach_hosts { CallsReachHosts }
    ensures tail_calls_reach_hosts { TailCallsReachHosts }
    ensures changes_lent_bytes { ChangesLentBytes }
{}

/// Law: the frame of a called function begins at the cells of the arguments.
pub fn callees_are_entered()
    ensures { CalleesAreEntered }
{}

/// Law: after the last operation, only the results are left.
pub fn code_ends()
    ensures { CodeEnds }
{}
